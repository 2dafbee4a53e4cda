// Each call of the sender, by value and in place, on memories that hold the same.
use crate::alike::{Both, Gave};
use crate::lent;
use sender::{Called, Sender};
use std::io;

impl<P: Print> Both<'_, P> {
    pub fn open(&mut self, name: &str, stamp: u32) -> io::Result<()> {
        let first = sender::opened(self.by_value, stamp);
        let second = lent::open(self.in_place, stamp);
        self.compare(name, Gave::from(first), Gave::from(second), b"", b"")
    }

    pub fn new_period(&mut self, name: &str) -> io::Result<()> {
        let first = sender::renewed(self.by_value);
        let second = lent::new_period(self.in_place);
        self.compare(name, Gave::from(first), Gave::from(second), b"", b"")
    }

    // A call that writes a frame, with room of so many octets, 64 at most.
    fn frame<F, G>(&mut self, name: &str, room: usize, by_value: F, in_place: G) -> io::Result<()>
    where
        F: FnOnce(Sender, &mut [u8]) -> Called<usize>,
        G: FnOnce(Sender, &mut [u8]) -> Called<usize>,
        requires { F.IsAlwaysCallable by_value × G.IsAlwaysCallable in_place }
    {
        let mut a = [238u8; 64];
        let mut b = [238u8; 64];
        let end = room.min(64);
        let first = by_value(self.by_value, &mut a[..end]);
        let second = in_place(self.in_place, &mut b[..end]);
        self.compare(name, Gave::from(first), Gave::from(second), &a, &b)
    }

    pub fn data(&mut self, name: &str, payload: &[u8], room: usize) -> io::Result<()> {
        self.frame(
            name,
            room,
            |s, out| sender::sent(s, payload, out),
            |s, out| lent::data(s, payload, out),
        )
    }

    pub fn close(&mut self, name: &str, room: usize) -> io::Result<()> {
        self.frame(name, room, sender::closed, lent::close)
    }

    pub fn close_with(&mut self, name: &str, lengths: &[u16], room: usize) -> io::Result<()> {
        self.frame(
            name,
            room,
            |s, out| sender::closed_with_lengths(s, lengths, out),
            |s, out| lent::close_with_lengths(s, lengths, out),
        )
    }
}
