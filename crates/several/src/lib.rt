// A whole sequence heard at once: an empty record, and frames that stand in one row of octets. The record is never judged again, so
// the cost is that of the frames and of emptying the record.
#![tactic(auto)]

ghost use Rattle.std.specs.Prelude.{◌≡◌, false, ◌-◌, ◌≤◌, min, length};
ghost use Rattle.reception.specs.Damage.{Matched};
ghost use Rattle.reception.specs.Neighbours.{NoneBefore, NoneFrom};
ghost use Rattle.reception.specs.Hearing.{kept_in, damaged_kept, unused, empty_kept};
ghost use Rattle.reception.specs.Several.{answers_to, answer_of, frames_in, hear_sequence};
ghost use Rattle.several.specs.Rest.{HearsAll, HearsSequence};

use damage::lists_differ;
use hearing::following::{empty_span, hear_next};
use hearing::taking::{clear, open_head, refused};
use reception::{Answered, Head};
use units::Refusal;
use units::limits::LAST_STAMP;

// The answer to a frame in one number.
pub fn answer_of(t: Result<(), Refusal>) -> u64
    ensures { result ≡ answer_of t }
{
    match t {
        Ok(()) => 0,
        Err(r) => r.in_one(),
    }
}

// Hears frames into an empty record.
fn hear_frames(
    h: Head,
    bearer: u32,
    period: u32,
    marks: &mut [u8],
    elapsed: &mut [u32],
    sizes: &mut [u16],
    octets: &[u8],
    ends: &[u32],
    answers: &mut [u64],
) -> Head
    requires cases { Matched marks.old elapsed.old sizes.old }
    requires none_before { NoneBefore marks.old (length marks.old) }
    requires none_from { NoneFrom marks.old 0 }
    requires sizes_value { damaged_kept (kept_in h marks.old elapsed.old sizes.old) ≡ false }
    requires ends_in_bounds { length ends.now ≤ length answers.old }
    ensures { HearsAll (kept_in h marks.old elapsed.old sizes.old) bearer period
        (frames_in octets.now 0 ends.now) answers.old
        result marks.new elapsed.new sizes.new answers.new }
{
    let mut head = h;
    let mut span = empty_span(marks.len());
    let mut from: usize = 0;
    for i in 0..ends.len() {
        // A part does not end before it begins, and not behind the octets.
        let end = ends[i] as usize;
        let begin = from.min(octets.len());
        let part = &octets[begin..end.max(begin).min(octets.len())];
        let t = hear_next(head, span, marks, elapsed, sizes, bearer, period, part);
        answers[i] = answer_of(t.answer);
        head = t.head;
        span = t.span;
        from = end;
    }
    head
}

// Hears the frames of a row of octets, each given by the place where it ends, into an empty record of a key. Answers to each frame go
// in front of a lent list, each in one number: 0, or a refusal's.
pub fn hear_sequence(
    bearer: u32,
    period: u32,
    stamp: u32,
    marks: &mut [u8],
    elapsed: &mut [u32],
    sizes: &mut [u16],
    octets: &[u8],
    ends: &[u32],
    answers: &mut [u64],
) -> Answered<Refusal>
    ensures { HearsSequence
        (hear_sequence bearer period stamp (unused marks.old elapsed.old sizes.old)
        (frames_in octets.now 0 ends.now) (length answers.old))
        (answers_to (empty_kept bearer period stamp (length marks.old)) bearer period (frames_in octets.now 0 ends.now))
        answers.old result marks.new elapsed.new sizes.new answers.new }
{
    if lists_differ(marks.len(), elapsed.len(), sizes.len()) {
        return refused(open_head(0, 0, 0), Refusal::CapacitiesDiffer);
    }
    if LAST_STAMP < stamp as u64 {
        return refused(open_head(0, 0, 0), Refusal::StampTooHigh);
    }
    if answers.len() < ends.len() {
        return refused(open_head(0, 0, 0), Refusal::NoRoom);
    }
    clear(marks, elapsed, sizes);
    let h = open_head(bearer, period, stamp);
    let head = hear_frames(
        h, bearer, period, marks, elapsed, sizes, octets, ends, answers,
    );
    Answered {
        answer: Ok(()),
        head,
    }
}
