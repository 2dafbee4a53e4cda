// The sender of one bearer, advanced where it stands. Each function is the one by value of `sender`: it takes the state out, and
// stores the state after the call over it. A refused call stores what stood there.
#![tactic(auto)]

ghost use Rattle.std.specs.Prelude.{length};
ghost use Rattle.frame.specs.Writing.{data_frame, closing_frame, lengths_frame};
ghost use Rattle.sender.specs.State.{closing_by};
ghost use Rattle.sender.specs.Calls.{open_call, data_call, close_call, close_with_call, renew_call, Turns, Sends};

use sender::Sender;
use units::Refusal;

// Opens a sequence.
pub fn open(s: &mut Sender, stamp: u32) -> Result<(), Refusal>
    ensures { Turns (open_call s.old stamp) (record { answer = result; sender = s.new }) }
{
    let opened = sender::opened(*s, stamp);
    *s = opened.sender;
    opened.answer
}

// Sends a data PDU.
pub fn data(s: &mut Sender, payload: &[u8], out: &mut [u8]) -> Result<usize, Refusal>
    ensures { Sends
        (data_call s.old (length payload.now) (length out.old))
        (data_frame s.old.stamp s.old.number.0 s.old.elapsed.0 payload.now)
        out.old (record { answer = result; sender = s.new }) out.new }
{
    let sent = sender::sent(*s, payload, out);
    *s = sent.sender;
    sent.answer
}

// Closes the sequence with a Type 0 frame.
pub fn close(s: &mut Sender, out: &mut [u8]) -> Result<usize, Refusal>
    ensures { Sends
        (close_call s.old (length out.old))
        (closing_frame (closing_by s.old))
        out.old (record { answer = result; sender = s.new }) out.new }
{
    let closed = sender::closed(*s, out);
    *s = closed.sender;
    closed.answer
}

// Closes the sequence with a Type 3 frame.
pub fn close_with_lengths(s: &mut Sender, lengths: &[u16], out: &mut [u8]) -> Result<usize, Refusal>
    ensures { Sends
        (close_with_call s.old lengths.now (length out.old))
        (lengths_frame (closing_by s.old) lengths.now)
        out.old (record { answer = result; sender = s.new }) out.new }
{
    let closed = sender::closed_with_lengths(*s, lengths, out);
    *s = closed.sender;
    closed.answer
}

// Begins a new period.
pub fn new_period(s: &mut Sender) -> Result<(), Refusal>
    ensures { Turns (renew_call s.old) (record { answer = result; sender = s.new }) }
{
    let renewed = sender::renewed(*s);
    *s = renewed.sender;
    renewed.answer
}
