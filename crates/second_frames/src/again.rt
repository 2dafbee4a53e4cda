// Frames written again from what was read of them.
ghost use Rattle.std.specs.Prelude.{◌+◌, ◌≤◌, length, IfOk};
ghost use Rattle.std.specs.Counts.{IsPrefixLen};
ghost use Rattle.frame.specs.Sizes.{data_head};

use frame::sizes::DATA_HEAD;
use frame::{ClosingPdu, DataPdu, Read};
use units::Refusal;
use writer::{write_closing, write_closing_with_lengths, write_data};

// The lengths of a Type 3 frame, into the front of the list; answers how many.
#[tactic(auto, unfolding(frame::specs::Listing::list_lengths, frame::specs::Paper::listed_paper))]
pub fn list(frame: &[u8], lengths: &mut [u16]) -> Result<usize, Refusal>
    ensures { IfOk result (λ n. IsPrefixLen n lengths.new) }
{
    let packets = reader::read_lengths(frame, lengths)?;
    Ok(packets.0 as usize)
}

// A closing PDU, with the lengths that stand in the frame.
#[tactic(auto, unfolding(frame::specs::Writing::write_lengths, frame::specs::Paper::written_paper))]
fn write_lengths_again(
    c: ClosingPdu,
    frame: &[u8],
    lengths: &mut [u16],
    room: &mut [u8],
) -> Result<usize, Refusal>
    ensures { IfOk result (λ n. IsPrefixLen n room.new) }
{
    let n = list(frame, lengths)?;
    write_closing_with_lengths(c, &lengths[..n], room)
}

// A data PDU, with the payload that stands in the frame: what is dropped behind an IP packet is not written again.
#[tactic(auto, unfolding(frame::specs::Writing::write_data, frame::specs::Paper::written_paper))]
fn write_data_again(d: DataPdu, frame: &[u8], room: &mut [u8]) -> Result<usize, Refusal>
    requires { data_head + d.length.0 ≤ length frame.now }
    ensures { IfOk result (λ n. IsPrefixLen n room.new) }
{
    let payload = &frame[DATA_HEAD..DATA_HEAD + d.length.0 as usize];
    write_data(d.stamp, d.number, d.elapsed, payload, room)
}

// What a frame says, written into the front of the room; answers how many octets that took, or why the frame is refused.
#[tactic(auto, unfolding(frame::specs::Writing::write_closing, frame::specs::Paper::written_paper))]
pub fn write_again(frame: &[u8], lengths: &mut [u16], room: &mut [u8]) -> Result<usize, Refusal>
    ensures { IfOk result (λ n. IsPrefixLen n room.new) }
{
    match reader::read_frame(frame) {
        Read::Closing(c) => write_closing(c, room),
        Read::Data(d) => write_data_again(d, frame, room),
        Read::ClosingWithLengths(c) => write_lengths_again(c, frame, lengths, room),
        Read::Refused(r) => Err(r),
    }
}
