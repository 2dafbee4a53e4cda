// SYNC frames written from given fields. Every refusal is found before the first octet is stored, so refused memory is as it was.
#![tactic(auto)]

mod frames;
mod given;
mod packing;
mod parts;

ghost use Rattle.std.specs.Prelude.{length};
ghost use Rattle.frame.specs.Writing.{data_frame, closing_frame, lengths_frame, write_data, write_closing, write_lengths};
ghost use Rattle.writer.specs.Promise.{Wrote};

use frame::ClosingPdu;
use frame::sizes::{CLOSING_SIZE, DATA_HEAD, LENGTHS_HEAD};
use units::limits::{LAST_STAMP, MOST_PAYLOAD};
use units::{Octets, Packets, Refusal};

// A data PDU (Type 1).
#[tactic(auto, unfolding(frame::specs::Writing::write_data, frame::specs::Writing::after))]
pub fn write_data(
    stamp: u32,
    number: Packets,
    elapsed: Octets,
    payload: &[u8],
    out: &mut [u8],
) -> Result<usize, Refusal>
    ensures { Wrote
        (write_data stamp number.0 elapsed.0 (length payload.now) (length out.old))
        (data_frame stamp number.0 elapsed.0 payload.now)
        out.old result out.new }
{
    if LAST_STAMP < stamp as u64 {
        return Err(Refusal::StampTooHigh);
    }
    if MOST_PAYLOAD < payload.len() as u64 {
        return Err(Refusal::PayloadTooLong);
    }
    if counts::data_wrong(number, elapsed) {
        return Err(Refusal::CountsImpossible);
    }
    let size = DATA_HEAD + payload.len();
    if out.len() < size {
        return Err(Refusal::NoRoom);
    }
    frames::put_data(stamp, number, elapsed, payload, out);
    Ok(size)
}

// A closing PDU without lengths (Type 0).
#[tactic(auto, unfolding(frame::specs::Writing::write_closing, frame::specs::Writing::after))]
pub fn write_closing(c: ClosingPdu, out: &mut [u8]) -> Result<usize, Refusal>
    ensures { Wrote
        (write_closing c (length out.old))
        (closing_frame c)
        out.old result out.new }
{
    if LAST_STAMP < c.stamp as u64 {
        return Err(Refusal::StampTooHigh);
    }
    if given::given_wrong(c) {
        return Err(Refusal::CountsImpossible);
    }
    if out.len() < CLOSING_SIZE {
        return Err(Refusal::NoRoom);
    }
    frames::put_closing(c, out);
    Ok(CLOSING_SIZE)
}

// A closing PDU with the length of each packet (Type 3).
#[tactic(auto, unfolding(frame::specs::Writing::write_lengths, frame::specs::Writing::after))]
pub fn write_closing_with_lengths(
    c: ClosingPdu,
    lengths: &[u16],
    out: &mut [u8],
) -> Result<usize, Refusal>
    ensures { Wrote
        (write_lengths c lengths.now (length out.old))
        (lengths_frame c lengths.now)
        out.old result out.new }
{
    if LAST_STAMP < c.stamp as u64 {
        return Err(Refusal::StampTooHigh);
    }
    if given::given_wrong(c) {
        return Err(Refusal::CountsImpossible);
    }
    if given::list_wrong(lengths, c.number, c.elapsed) {
        return Err(Refusal::LengthsWrong);
    }
    let size = LENGTHS_HEAD + packing::filled_octets(lengths.len());
    if out.len() < size {
        return Err(Refusal::NoRoom);
    }
    frames::put_with_lengths(c, lengths, out);
    Ok(size)
}
