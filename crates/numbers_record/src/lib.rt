// Records as C and Rust keep them: the head in a list of six numbers, and beside it marks, elapsed octets and lengths, one list each and
// one place a packet number.
#![tactic(auto)]

ghost use Rattle.std.specs.Prelude.{length};
ghost use Rattle.reception.specs.Hearing.{kept_in, unused, empty_kept, fresh_record, hear_frame};
ghost use Rattle.reception.specs.Several.{refusal_number, answer_of, answers_to, frames_in, hear_sequence};
ghost use Rattle.numbers_head.specs.Heads.{head_of};
ghost use Rattle.numbers_record.specs.Records.{Keeps, AnswersOut};

use hearing::{fresh, hear};
use numbers::number_of;
use numbers_head::{head_of, keep};
use several::{answer_of, hear_sequence};
use units::Refusal;

// Makes an empty record of a key. Answers 0, or a refusal's number.
pub fn fresh_record(
    bearer: u32,
    period: u32,
    stamp: u32,
    head: &mut [u64],
    marks: &mut [u8],
    elapsed: &mut [u32],
    sizes: &mut [u16],
) -> u8
    ensures { Keeps refusal_number head.old
        (unused marks.old elapsed.old sizes.old)
        (fresh_record bearer period stamp marks.old elapsed.old sizes.old)
        result head.new marks.new elapsed.new sizes.new }
{
    if head.len() < 6 {
        return Refusal::CapacitiesDiffer.number();
    }
    let t = fresh(bearer, period, stamp, marks, elapsed, sizes);
    number_of(keep(head, t))
}

// Takes a frame into a record. Answers 0, or a refusal, with both checks of 4 and 7.
pub fn hear_frame(
    head: &mut [u64],
    marks: &mut [u8],
    elapsed: &mut [u32],
    sizes: &mut [u16],
    bearer: u32,
    period: u32,
    frame: &[u8],
) -> u64
    ensures { Keeps answer_of head.old
        (kept_in (head_of head.old) marks.old elapsed.old sizes.old)
        (hear_frame (kept_in (head_of head.old) marks.old elapsed.old sizes.old) bearer period frame.now)
        result head.new marks.new elapsed.new sizes.new }
{
    // Kept: the head that stands for fewer numbers is damaged, which is 13, and here the answer is 14.
    if head.len() < 6 {
        return u64::from(Refusal::CapacitiesDiffer.number());
    }
    let t = hear(head_of(head), marks, elapsed, sizes, bearer, period, frame);
    answer_of(keep(head, t))
}

// Hears many frames into an empty record of a key: they stand in one row of octets, and each is given by the place where it ends.
// The answer to each goes in front of a lent list, as `hear_frame` gives it. Answers 0, or the number of the refusal of all.
pub fn hear_all(
    bearer: u32,
    period: u32,
    stamp: u32,
    head: &mut [u64],
    marks: &mut [u8],
    elapsed: &mut [u32],
    sizes: &mut [u16],
    octets: &[u8],
    ends: &[u32],
    answers: &mut [u64],
) -> u8
    ensures keeps { Keeps refusal_number head.old
        (unused marks.old elapsed.old sizes.old)
        (hear_sequence bearer period stamp (unused marks.old elapsed.old sizes.old)
        (frames_in octets.now 0 ends.now) (length answers.old))
        result head.new marks.new elapsed.new sizes.new }
    ensures answers_out { AnswersOut head.old
        (hear_sequence bearer period stamp (unused marks.old elapsed.old sizes.old)
        (frames_in octets.now 0 ends.now) (length answers.old))
        (answers_to (empty_kept bearer period stamp (length marks.old)) bearer period (frames_in octets.now 0 ends.now))
        answers.old answers.new }
{
    if head.len() < 6 {
        return Refusal::CapacitiesDiffer.number();
    }
    let t = hear_sequence(
        bearer, period, stamp, marks, elapsed, sizes, octets, ends, answers,
    );
    number_of(keep(head, t))
}
