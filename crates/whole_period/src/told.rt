// A sender that is driven: each call's answer is printed, and the sender goes on from the state that the call gave.
use sender::{Called, Sender};
use std::{fmt, io};
use units::Refusal;

// The octets of a frame, in hexadecimal.
#[derive(Clone, Copy)]
struct Hex<'a>(&'a [u8]);

impl fmt::Display for Hex<'_> {
    fn fmt<W: fmt::Write>(&self, f: &mut fmt::Formatter<W>) -> fmt::Result {
        for octet in self.0 {
            write!(f, "{octet:02x}")?;
        }
        Ok(())
    }
}

// How many octets a frame has.
#[derive(Clone, Copy)]
struct Size(usize);

impl fmt::Display for Size {
    fn fmt<W: fmt::Write>(&self, f: &mut fmt::Formatter<W>) -> fmt::Result {
        write!(f, "{} octets", self.0)
    }
}

// A sender, and where its answers are printed.
#[derive(Drop)]
pub struct Driven<'a, P> {
    pub to: &'a P,
    pub sender: Sender,
}

impl<P: Print> Driven<'_, P> {
    fn tell<T: fmt::Display + Drop>(
        &self,
        name: &str,
        answer: Result<T, Refusal>,
    ) -> io::Result<()> {
        match answer {
            Ok(said) => println!(self.to; "{name}: {said}"),
            Err(r) => println!(self.to; "{name}: refused {}", r.number()),
        }
    }

    fn turn(&mut self, name: &str, t: Called<()>) -> io::Result<()> {
        self.sender = t.sender;
        self.tell(name, t.answer.map(|()| "done"))
    }

    fn frame(&mut self, name: &str, d: Called<usize>, out: &[u8]) -> io::Result<()> {
        self.sender = d.sender;
        self.tell(name, d.answer.map(|n| Hex(&out[..n.min(out.len())])))
    }

    pub fn open(&mut self, name: &str, stamp: u32) -> io::Result<()> {
        self.turn(name, sender::opened(self.sender, stamp))
    }

    pub fn renew(&mut self, name: &str) -> io::Result<()> {
        self.turn(name, sender::renewed(self.sender))
    }

    // Data, into lent memory.
    pub fn data_into(&mut self, name: &str, payload: &[u8], out: &mut [u8]) -> io::Result<()> {
        let d = sender::sent(self.sender, payload, out);
        self.frame(name, d, out)
    }

    pub fn data(&mut self, name: &str, payload: &[u8]) -> io::Result<()> {
        self.data_into(name, payload, &mut [0; 64])
    }

    pub fn close(&mut self, name: &str) -> io::Result<()> {
        let mut memory = [0u8; 18];
        let d = sender::closed(self.sender, &mut memory);
        self.frame(name, d, &memory)
    }

    pub fn close_with(&mut self, name: &str, lengths: &[u16]) -> io::Result<()> {
        let mut memory = [0u8; 64];
        let d = sender::closed_with_lengths(self.sender, lengths, &mut memory);
        self.frame(name, d, &memory)
    }

    // A frame of which only the size is printed.
    pub fn size_of_data(&mut self, name: &str, payload: &[u8]) -> io::Result<()> {
        let mut memory = [0u8; 4200];
        let d = sender::sent(self.sender, payload, &mut memory);
        self.sender = d.sender;
        self.tell(name, d.answer.map(Size))
    }

    // Opens a sequence and sends so many packets without payload; prints nothing.
    pub fn drive(&mut self, stamp: u32, packets: u32) {
        let mut memory = [0u8; 11];
        self.sender = sender::opened(self.sender, stamp).sender;
        for _ in 0..packets {
            self.sender = sender::sent(self.sender, b"", &mut memory).sender;
        }
    }

    // Closes a sequence, and prints nothing.
    pub fn end(&mut self) {
        let mut memory = [0u8; 18];
        self.sender = sender::closed(self.sender, &mut memory).sender;
    }
}
