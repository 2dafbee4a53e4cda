// The lengths of a Type 3 frame: 12 bits each, packed without gaps.
ghost use Rattle.std.specs.Prelude.{◌≡◌, ◌+◌, ◌*◌, ◌/◌, ◌≤◌, ◌<◌, length};
ghost use Rattle.fields.specs.Runs.{front};
ghost use Rattle.frame.specs.Counts.{lengths_wrong};
ghost use Rattle.frame.specs.Layout.{length_at, lengths_of, sum_lengths, filled};
ghost use Rattle.frame.specs.Sizes.{lengths_head};
ghost use Rattle.reader.specs.Lists.{LengthsFit, Lists};

use crate::read_frame;
use frame::sizes::LENGTHS_HEAD;
use frame::{ClosingPdu, Read};
use units::{Packets, Refusal};

// The i-th length: the upper 12 bits of two octets, or the lower.
fn length_at(frame: &[u8], i: usize) -> u64
    requires { (i < 65536) × (lengths_head + 3 * i / 2 + 2 ≤ length frame.now) }
    ensures { (result ≡ length_at frame.now i) × (result < 4096) }
{
    let at = LENGTHS_HEAD + 3 * i / 2;
    let upper = frame[at] as u64;
    let lower = frame[at + 1] as u64;
    if i % 2 == 0 {
        return (upper << 4) | (lower >> 4);
    }
    ((upper & 15) << 8) | lower
}

#[tactic(auto, unfolding(frame::specs::Layout::sum_lengths))]
fn sum_lengths(frame: &[u8], n: usize) -> u64
    requires { (n < 65536) × (lengths_head + filled n ≤ length frame.now) }
    ensures { result ≡ sum_lengths frame.now n }
{
    let mut sum: u64 = 0;
    for i in 0..n {
        sum += length_at(frame, i);
    }
    sum
}

#[tactic(auto, unfolding(frame::specs::Counts::lengths_wrong))]
pub fn lengths_wrong(frame: &[u8], c: ClosingPdu) -> bool
    requires { LengthsFit frame.now c }
    ensures { result ≡ lengths_wrong frame.now c }
{
    counts::closing_wrong(c) || sum_lengths(frame, c.number.0 as usize) != c.elapsed.0
}

// The first n lengths, into the front of out.
fn list(frame: &[u8], n: usize, out: &mut [u16])
    requires { (n < 65536) × (lengths_head + filled n ≤ length frame.now) × (n ≤ length out.old) }
    ensures { out.new ≡ front out.old (lengths_of frame.now 0 n) }
{
    for i in 0..n {
        out[i] = length_at(frame, i) as u16;
    }
}

// Writes the lengths of a Type 3 frame into the front of out. A frame of another type has none.
#[tactic(auto, unfolding(frame::specs::Listing::list_lengths, frame::specs::Listing::listed, fields::specs::Runs::front, frame::specs::Layout::lengths_of), using(frame::proofs::OnePaper::read_known))]
pub fn read_lengths(frame: &[u8], out: &mut [u16]) -> Result<Packets, Refusal>
    ensures { Lists frame.now out.old result out.new }
{
    match read_frame(frame) {
        Read::ClosingWithLengths(c) => {
            let n = c.number.0 as usize;
            if out.len() < n {
                return Err(Refusal::NoRoom);
            }
            list(frame, n, out);
            Ok(c.number)
        }
        Read::Refused(r) => Err(r),
        Read::Closing(_) | Read::Data(_) => Ok(Packets(0)),
    }
}
