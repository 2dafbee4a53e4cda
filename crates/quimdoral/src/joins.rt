// Joins of records.
ghost use Rattle.reception.specs.Hearing.{kept_in};
ghost use Rattle.reception.specs.Joining.{join_records};
ghost use Rattle.numbers_head.specs.Heads.{head_of};
ghost use Rattle.numbers_join.specs.Joins.{KeepsJoined};

// Joins a right record into a left one. Answers 0, or a refusal's number; with 11, the number that it names times 256 is added.
#[unsafe(no_mangle)]
pub extern "C" fn quimdoral_join(
    head: &mut [u64],
    marks: &mut [u8],
    elapsed: &mut [u32],
    sizes: &mut [u16],
    r_head: &[u64],
    r_marks: &[u8],
    r_elapsed: &[u32],
    r_sizes: &[u16],
) -> u32
    ensures { KeepsJoined head.old r_head.now
        (kept_in (head_of head.old) marks.old elapsed.old sizes.old)
        (join_records (kept_in (head_of head.old) marks.old elapsed.old sizes.old)
        (kept_in (head_of r_head.now) r_marks.now r_elapsed.now r_sizes.now))
        result head.new marks.new elapsed.new sizes.new }
{
    numbers_join::join_in_one(
        head, marks, elapsed, sizes, r_head, r_marks, r_elapsed, r_sizes,
    )
}
