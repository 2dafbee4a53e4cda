// Each function lends a sender of its own to one of `bearer`, and gives it back with the answer.
ghost use Rattle.std.specs.Prelude.{length};
ghost use Rattle.frame.specs.Writing.{data_frame, closing_frame, lengths_frame};
ghost use Rattle.sender.specs.State.{closing_by};
ghost use Rattle.sender.specs.Calls.{open_call, data_call, close_call, close_with_call, renew_call, Turns, Sends};

use sender::{Called, Sender};

pub fn open(s: Sender, stamp: u32) -> Called<()>
    ensures { Turns (open_call s stamp) result }
{
    let mut sender = s;
    let answer = bearer::open(&mut sender, stamp);
    Called { answer, sender }
}

pub fn new_period(s: Sender) -> Called<()>
    ensures { Turns (renew_call s) result }
{
    let mut sender = s;
    let answer = bearer::new_period(&mut sender);
    Called { answer, sender }
}

pub fn data(s: Sender, payload: &[u8], out: &mut [u8]) -> Called<usize>
    ensures { Sends
        (data_call s (length payload.now) (length out.old))
        (data_frame s.stamp s.number.0 s.elapsed.0 payload.now)
        out.old result out.new }
{
    let mut sender = s;
    let answer = bearer::data(&mut sender, payload, out);
    Called { answer, sender }
}

pub fn close(s: Sender, out: &mut [u8]) -> Called<usize>
    ensures { Sends (close_call s (length out.old)) (closing_frame (closing_by s)) out.old result out.new }
{
    let mut sender = s;
    let answer = bearer::close(&mut sender, out);
    Called { answer, sender }
}

pub fn close_with_lengths(s: Sender, lengths: &[u16], out: &mut [u8]) -> Called<usize>
    ensures { Sends
        (close_with_call s lengths.now (length out.old))
        (lengths_frame (closing_by s) lengths.now)
        out.old result out.new }
{
    let mut sender = s;
    let answer = bearer::close_with_lengths(&mut sender, lengths, out);
    Called { answer, sender }
}
