// Records: an empty one, a frame heard, many frames heard.
ghost use Rattle.std.specs.Prelude.{length};
ghost use Rattle.reception.specs.Hearing.{kept_in, unused, empty_kept, fresh_record, hear_frame};
ghost use Rattle.reception.specs.Several.{refusal_number, answer_of, answers_to, frames_in, hear_sequence};
ghost use Rattle.numbers_head.specs.Heads.{head_of};
ghost use Rattle.numbers_record.specs.Records.{Keeps, AnswersOut};

// Makes an empty record of a key. Answers 0, or a refusal's number.
#[unsafe(no_mangle)]
pub extern "C" fn quimdoral_fresh(
    bearer: u32,
    period: u32,
    stamp: u32,
    head: &mut [u64],
    marks: &mut [u8],
    elapsed: &mut [u32],
    sizes: &mut [u16],
) -> u8
    ensures { Keeps refusal_number head.old
        (unused marks.old elapsed.old sizes.old)
        (fresh_record bearer period stamp marks.old elapsed.old sizes.old)
        result head.new marks.new elapsed.new sizes.new }
{
    numbers_record::fresh_record(bearer, period, stamp, head, marks, elapsed, sizes)
}

// Takes a frame into a record. Answers 0, or a refusal, with both checks of 4 and 7.
#[unsafe(no_mangle)]
pub extern "C" fn quimdoral_hear(
    head: &mut [u64],
    marks: &mut [u8],
    elapsed: &mut [u32],
    sizes: &mut [u16],
    bearer: u32,
    period: u32,
    frame: &[u8],
) -> u64
    ensures { Keeps answer_of head.old
        (kept_in (head_of head.old) marks.old elapsed.old sizes.old)
        (hear_frame (kept_in (head_of head.old) marks.old elapsed.old sizes.old) bearer period frame.now)
        result head.new marks.new elapsed.new sizes.new }
{
    numbers_record::hear_frame(head, marks, elapsed, sizes, bearer, period, frame)
}

// Hears many frames into an empty record of a key: they stand in one row of octets, and each is given by the place where it ends.
// The answer to each goes in front of a lent list, as `quimdoral_hear` gives it. Answers 0, or the number of the refusal of all.
#[unsafe(no_mangle)]
pub extern "C" fn quimdoral_hear_all(
    bearer: u32,
    period: u32,
    stamp: u32,
    head: &mut [u64],
    marks: &mut [u8],
    elapsed: &mut [u32],
    sizes: &mut [u16],
    octets: &[u8],
    ends: &[u32],
    answers: &mut [u64],
) -> u8
    ensures keeps { Keeps refusal_number head.old
        (unused marks.old elapsed.old sizes.old)
        (hear_sequence bearer period stamp (unused marks.old elapsed.old sizes.old)
        (frames_in octets.now 0 ends.now) (length answers.old))
        result head.new marks.new elapsed.new sizes.new }
    ensures answers_out { AnswersOut head.old
        (hear_sequence bearer period stamp (unused marks.old elapsed.old sizes.old)
        (frames_in octets.now 0 ends.now) (length answers.old))
        (answers_to (empty_kept bearer period stamp (length marks.old)) bearer period (frames_in octets.now 0 ends.now))
        answers.old answers.new }
{
    numbers_record::hear_all(
        bearer, period, stamp, head, marks, elapsed, sizes, octets, ends, answers,
    )
}
