// A buffer that is fed by a reader: octets read behind those that are left, and those moved to its front.
#![tactic(auto)]

ghost use Rattle.std.specs.Prelude.{◌≡◌, ◌+◌, ◌≤◌, length, take, drop};
ghost use Rattle.std.specs.Counts.{IsPrefixLen};
ghost use Rattle.std.specs.Io.KnownBytes.{Consumes, IsAtEnd};
ghost use Rattle.feeding.specs.Feeding.{is_over, ReadOn};

use std::io;
use std::io::{ErrorKind, Read};
use std::time::Clock;

// Why reading stopped: the buffer is full, the input has ended, or a read failed, and with which error.
#[derive(Clone, Copy)]
pub enum End {
    Full,
    Over,
    Failed(Option<io::Error>),
}

impl End {
    // Whether the input has ended.
    pub fn is_over(self) -> bool
        ensures { result ≡ is_over self }
    {
        matches!(self, End::Over)
    }
}

// What reading came to: how many octets are there then, and why there are no more.
#[derive(Clone, Copy)]
pub struct Fed {
    pub have: usize,
    pub end: End,
}

// Whether a read that failed is to be tried again: a signal came first, or a descriptor that does not wait had nothing yet. Pauses
// then: std has no call that waits for a descriptor.
fn try_again(clock: &impl Clock, error: io::Error) -> bool {
    match error.kind() {
        ErrorKind::Interrupted => true,
        ErrorKind::WouldBlock => {
            pausing::pause(clock);
            true
        }
        _ => false,
    }
}

// Reads on behind the octets that are there until the buffer is full, the input ends or a read fails. A read that failed for now
// is tried again. No run uses up the reads; if one did, that would count as failed.
pub fn read_on<R: Read>(from: &mut R, clock: &impl Clock, input: &mut [u8], have: usize) -> Fed
    requires { have ≤ length input.old }
    ensures prefix_len { IsPrefixLen result.have input.new }
    ensures read_on { ReadOn have input.old result input.new }
    ensures bytes { Consumes (R.remaining from.old) (R.remaining from.new) (drop have (take result.have input.new)) }
    ensures end { result.end ≡ End.Over → IsAtEnd (R.remaining from.new) }
{
    let mut filled = have;
    for _ in 0..u64::MAX {
        if filled == input.len() {
            return Fed {
                have: filled,
                end: End::Full,
            };
        }
        match from.read(&mut input[filled..]) {
            Ok(0) => {
                return Fed {
                    have: filled,
                    end: End::Over,
                };
            }
            Ok(got) => filled += got,
            Err(error) => {
                if !try_again(clock, error) {
                    return Fed {
                        have: filled,
                        end: End::Failed(Some(error)),
                    };
                }
            }
        }
    }
    Fed {
        have: filled,
        end: End::Failed(None),
    }
}

// 65,536 zeros, for a program that reads much at once. The `ensures` gives only the length, which lending the array as a slice needs.
pub fn large_buffer() -> [u8; 65536]
    ensures { 65536 ≡ length result }
{
    [0; 65536]
}

// Moves so many octets from a place on to the front.
pub fn move_down(input: &mut [u8], from: usize, count: usize)
    requires { from + count ≤ length input.old }
    ensures { take count input.new ≡ take count (drop from input.old) }
{
    input.copy_within(from..from + count, 0);
}
