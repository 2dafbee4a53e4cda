// The sender's calls for C and Rust, who keep it as a list of six numbers. A call that writes a frame answers in one number, as writing
// from given fields does.
#![tactic(auto)]

ghost use Rattle.std.specs.Prelude.{◌≡◌, length, MatchResult};
ghost use Rattle.frame.specs.Writing.{data_frame, closing_frame, lengths_frame};
ghost use Rattle.sender.specs.State.{closing_by};
ghost use Rattle.sender.specs.Calls.{open_call, data_call, close_call, close_with_call, renew_call};
ghost use Rattle.numbers_state.specs.States.{sender_of, with_state};
ghost use Rattle.numbers_sender.specs.Senders.{MakesFresh, TurnsState, SendsState};

use numbers::{in_one, number_of, put_in_front};
use numbers_state::{put_state, sender_of, state_of};
use sender::{Called, closed, closed_with_lengths, fresh, opened, renewed, sent};
use units::Refusal;

// Puts the sender after a call that was accepted, and hands the call's answer on.
fn keep<T>(state: &mut [u64], t: Called<T>) -> Result<T, Refusal>
    ensures value { result ≡ t.answer }
    ensures state_after { MatchResult t.answer (λ _. state.new ≡ with_state state.old t.sender) (λ _. state.new ≡ state.old) }
{
    let value = t.answer?;
    put_state(state, t.sender);
    Ok(value)
}

// Makes a fresh sender. Answers 0, or a refusal's number.
pub fn fresh_state(state: &mut [u64]) -> u8
    ensures { MakesFresh state.old result state.new }
{
    number_of(put_in_front(state, state_of(fresh())))
}

// Opens a sequence. Answers 0, or a refusal's number.
pub fn open_state(state: &mut [u64], stamp: u32) -> u8
    ensures { TurnsState state.old (open_call (sender_of state.old) stamp) result state.new }
{
    let t = opened(sender_of(state), stamp);
    number_of(keep(state, t))
}

// Begins a new period. Answers 0, or a refusal's number.
pub fn renew_state(state: &mut [u64]) -> u8
    ensures { TurnsState state.old (renew_call (sender_of state.old)) result state.new }
{
    let t = renewed(sender_of(state));
    number_of(keep(state, t))
}

// Sends a data PDU.
pub fn send_data(state: &mut [u64], payload: &[u8], out: &mut [u8]) -> u64
    ensures { SendsState state.old
        (data_call (sender_of state.old) (length payload.now) (length out.old))
        (data_frame (sender_of state.old).stamp (sender_of state.old).number.0 (sender_of state.old).elapsed.0 payload.now)
        out.old result state.new out.new }
{
    let t = sent(sender_of(state), payload, out);
    in_one(keep(state, t))
}

// Closes the sequence with a Type 0 frame.
pub fn send_closing(state: &mut [u64], out: &mut [u8]) -> u64
    ensures { SendsState state.old
        (close_call (sender_of state.old) (length out.old))
        (closing_frame (closing_by (sender_of state.old)))
        out.old result state.new out.new }
{
    let t = closed(sender_of(state), out);
    in_one(keep(state, t))
}

// Closes the sequence with a Type 3 frame.
pub fn send_closing_with_lengths(state: &mut [u64], lengths: &[u16], out: &mut [u8]) -> u64
    ensures { SendsState state.old
        (close_with_call (sender_of state.old) lengths.now (length out.old))
        (lengths_frame (closing_by (sender_of state.old)) lengths.now)
        out.old result state.new out.new }
{
    let t = closed_with_lengths(sender_of(state), lengths, out);
    in_one(keep(state, t))
}
