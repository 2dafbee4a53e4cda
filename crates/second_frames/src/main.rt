// Reads the second program's frames, prints a line for each as the second program does, and writes each again from what was read.
// Standard input has the cases one after another: two octets of the frame's length, the lower one first, and the frame.
#![tactic(auto)]

mod again;
mod text;

ghost use Rattle.std.specs.Prelude.{◌<◌, ◌≤◌, length, IfOk, IfSome};

use again::{list, write_again};
use feeding::{large_buffer, move_down, read_on};
use frame::Read;
use lines::Text;
use std::io;
use std::time::Clock;
use text::{put_closing, put_data, put_numbers, put_refused, put_written};

// The frame of the first case and what stands behind it, where all of the case is there.
fn first_case(input: &[u8]) -> Option<(&[u8], &[u8])>
    ensures { IfSome result (λ p. length p.1.now < length input.now) }
{
    let (size, rest) = input.split_first_chunk()?;
    rest.split_at_checked(usize::from(u16::from_le_bytes(*size)))
}

// Prints what was put.
fn print(to: &impl Print, text: &Text) -> io::Result<()> {
    let end = text.at;
    to.write_all(&text.out[..end])
}

// The memory that one frame needs, and how many frames came out the same so far. A frame of 8,192 octets has at most 5,448 lengths;
// the text has room for a number for each length, and for each octet that is written.
#[derive(Drop)]
struct Passing {
    lengths: [u16; 8192],
    room: [u8; 8192],
    text: [u8; 262144],
    again: u64,
}

impl Passing {
    fn new() -> Self {
        Passing {
            lengths: [0; 8192],
            room: [0; 8192],
            text: [0; 262144],
            again: 0,
        }
    }

    // The line of one frame, from the front of the text; answers where it ends.
    fn tell(&mut self, frame: &[u8]) -> usize
        ensures { result ≤ 262144 }
    {
        let mut text = Text {
            out: &mut self.text,
            at: 0,
        };
        match reader::read_frame(frame) {
            Read::Closing(c) => {
                put_closing(&mut text, b"closing", c);
                text.put_end();
            }
            Read::Data(d) => put_data(&mut text, d),
            Read::ClosingWithLengths(c) => {
                put_closing(&mut text, b"lengths", c);
                let n = list(frame, &mut self.lengths).unwrap_or(0);
                put_numbers(&mut text, &self.lengths[..n]);
                text.put_end();
            }
            Read::Refused(r) => put_refused(&mut text, r),
        }
        text.at
    }

    // Prints a frame's line and writes the frame again. Where other octets come out, they are printed too; a refused frame gives
    // none. A count that would pass 2^64 - 1 starts over.
    fn pass_frame(&mut self, to: &impl Print, frame: &[u8]) -> io::Result<()> {
        let told = self.tell(frame);
        to.write_all(&self.text[..told])?;
        let Ok(size) = write_again(frame, &mut self.lengths, &mut self.room) else {
            return Ok(());
        };
        let written = &self.room[..size];
        if frame == written {
            self.again = self.again.wrapping_add(1);
            return Ok(());
        }
        let mut text = Text {
            out: &mut self.text,
            at: 0,
        };
        put_written(&mut text, written);
        print(to, &text)
    }

    // Passes the cases that are all there; answers how many octets they have.
    fn pass(&mut self, to: &impl Print, input: &[u8]) -> io::Result<usize>
        ensures { IfOk result (λ used. used ≤ length input.now) }
    {
        let mut rest = input;
        while let Some((frame, behind)) = first_case(rest) {
            self.pass_frame(to, frame)?;
            rest = behind;
        }
        Ok(input.len() - rest.len())
    }

    // Reads until the input is over: until nothing is all there, since a case that would not fit the buffer is none. Then prints how
    // many frames came out the same.
    fn run<R: io::Read>(
        &mut self,
        from: &mut R,
        rt: &(impl Clock + Print),
        input: &mut [u8],
    ) -> io::Result<()> {
        let mut have = 0;
        for _ in 0..u64::MAX {
            let fed = read_on(from, rt, input, have);
            let n = fed.have;
            let used = self.pass(rt, &input[..n])?;
            move_down(input, used, n - used);
            have = n - used;
            if used == 0 {
                break;
            }
        }
        let mut text = Text {
            out: &mut self.text,
            at: 0,
        };
        text.put_line(b"again", &[self.again]);
        print(rt, &text)
    }
}

fn main(rt: HostRuntime) -> io::Result<()> {
    Passing::new().run(&mut rt.stdin(), &rt, &mut large_buffer())
}
