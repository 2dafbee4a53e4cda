// The sender of one bearer, by value: each call takes the state and gives the next one beside its answer. A refused call gives
// the state back as it was.
#![tactic(auto)]

mod state;

ghost use Rattle.std.specs.Prelude.{length};
ghost use Rattle.frame.specs.Writing.{data_frame, closing_frame, lengths_frame};
ghost use Rattle.sender.specs.State.{closing_by};
ghost use Rattle.sender.specs.Calls.{open_call, data_call, close_call, close_with_call, renew_call, Turns, Sends};

use frame::sizes::{CLOSING_SIZE, DATA_HEAD};
pub use state::fresh;
use units::limits::{LAST_STAMP, MOST_IN_SEQUENCE, MOST_PAYLOAD, MOST_PERIOD_PACKETS};
use units::{Octets, Packets, Refusal};

// Before the first sequence of a period, within a sequence, or between two.
#[derive(Clone, Copy, Debug, PartialEq, Eq)]
pub enum Phase {
    Fresh,
    Open,
    Closed,
}

// The stamp and the counts of the sequence, and the totals of the period.
#[derive(Clone, Copy, Debug, PartialEq, Eq)]
pub struct Sender {
    pub phase: Phase,
    pub stamp: u32,
    pub number: Packets,
    pub elapsed: Octets,
    pub packets: Packets,
    pub octets: Octets,
}

// What a call answers, and the state after it.
#[derive(Clone, Copy, Debug, PartialEq, Eq)]
pub struct Called<T> {
    pub answer: Result<T, Refusal>,
    pub sender: Sender,
}

// Opens a sequence.
#[tactic(auto, unfolding(crate::specs::Calls::open_call, crate::specs::Calls::turned_paper))]
pub fn opened(s: Sender, stamp: u32) -> Called<()>
    ensures { Turns (open_call s stamp) result }
{
    if s.is_damaged() {
        return s.refused(Refusal::SenderDamaged);
    }
    if s.is_open() {
        return s.refused(Refusal::OutOfTurn);
    }
    if LAST_STAMP < stamp as u64 {
        return s.refused(Refusal::StampTooHigh);
    }
    if s.is_not_later(stamp) {
        return s.refused(Refusal::StampNotLater);
    }
    s.begun(stamp)
}

// Begins a new period: a sender between two sequences is fresh again.
#[tactic(auto, unfolding(crate::specs::Calls::renew_call, crate::specs::Calls::turned_paper))]
pub fn renewed(s: Sender) -> Called<()>
    ensures { Turns (renew_call s) result }
{
    if s.is_damaged() {
        return s.refused(Refusal::SenderDamaged);
    }
    if s.is_open() {
        return s.refused(Refusal::OutOfTurn);
    }
    Called {
        answer: Ok(()),
        sender: fresh(),
    }
}

// Sends a data PDU: the counts of the packets before it are written, and then advanced.
#[tactic(auto, unfolding(crate::specs::Calls::data_call, frame::specs::Writing::after))]
pub fn sent(s: Sender, payload: &[u8], out: &mut [u8]) -> Called<usize>
    ensures { Sends
        (data_call s (length payload.now) (length out.old))
        (data_frame s.stamp s.number.0 s.elapsed.0 payload.now)
        out.old result out.new }
{
    if s.is_damaged() {
        return s.refused(Refusal::SenderDamaged);
    }
    if !s.is_open() {
        return s.refused(Refusal::OutOfTurn);
    }
    let l = payload.len() as u64;
    if MOST_PAYLOAD < l {
        return s.refused(Refusal::PayloadTooLong);
    }
    if MOST_IN_SEQUENCE <= s.number.0 as u64 {
        return s.refused(Refusal::SequenceFull);
    }
    if MOST_PERIOD_PACKETS <= s.packets.0 as u64 {
        return s.refused(Refusal::PeriodFull);
    }
    if out.len() < DATA_HEAD + payload.len() {
        return s.refused(Refusal::NoRoom);
    }
    let sender = s.with_packet(l);
    let number = s.number;
    let elapsed = s.elapsed;
    let answer = writer::write_data(s.stamp, number, elapsed, payload, out);
    Called { answer, sender }
}

// Closes the sequence with a Type 0 frame. A sequence without data is closed too.
#[tactic(auto, unfolding(crate::specs::Calls::close_call, frame::specs::Writing::after))]
pub fn closed(s: Sender, out: &mut [u8]) -> Called<usize>
    ensures { Sends (close_call s (length out.old)) (closing_frame (closing_by s)) out.old result out.new }
{
    if s.is_damaged() {
        return s.refused(Refusal::SenderDamaged);
    }
    if !s.is_open() {
        return s.refused(Refusal::OutOfTurn);
    }
    if out.len() < CLOSING_SIZE {
        return s.refused(Refusal::NoRoom);
    }
    let answer = writer::write_closing(s.closing(), out);
    let sender = s.at_rest();
    Called { answer, sender }
}

// Closes the sequence with a Type 3 frame. The writer judges the lengths, and then the room.
#[tactic(auto, unfolding(crate::specs::Calls::close_with_call, frame::specs::Writing::after))]
pub fn closed_with_lengths(s: Sender, lengths: &[u16], out: &mut [u8]) -> Called<usize>
    ensures { Sends
        (close_with_call s lengths.now (length out.old))
        (lengths_frame (closing_by s) lengths.now)
        out.old result out.new }
{
    if s.is_damaged() {
        return s.refused(Refusal::SenderDamaged);
    }
    if !s.is_open() {
        return s.refused(Refusal::OutOfTurn);
    }
    let written = writer::write_closing_with_lengths(s.closing(), lengths, out);
    match written {
        Ok(n) => Called {
            answer: Ok(n),
            sender: s.at_rest(),
        },
        Err(r) => s.refused(r),
    }
}
