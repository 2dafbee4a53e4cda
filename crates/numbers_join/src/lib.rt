// Joins of records as C and Rust keep them: the answer in one number.
#![tactic(auto)]

ghost use Rattle.std.specs.Prelude.{◌≡◌, ◌≤◌};
ghost use Rattle.reception.specs.Hearing.{kept_in};
ghost use Rattle.reception.specs.Joining.{join_records, joined_paper};
ghost use Rattle.numbers_head.specs.Heads.{head_of};
ghost use Rattle.numbers_join.specs.Joins.{join_number, KeepsJoined};

use joining::join;
use numbers_head::{head_of, keep};
use reception::NotJoined;
use units::Refusal;

// A join's answer in one number: 0, or the refusal's, and with 11, 256 times the number that it names, which has at most 17 bits.
#[tactic(auto, unfolding(reception::specs::Joining::joined_paper))]
fn in_one(answer: Result<(), NotJoined>) -> u32
    requires { (joined_paper answer).named ≤ 65536 }
    ensures { result ≡ join_number answer }
{
    match answer {
        Ok(()) => 0,
        Err(NotJoined::Refused(r)) => u32::from(r.number()),
        Err(NotJoined::Contradicts(n)) => u32::from(Refusal::Contradiction.number()) + 256 * n,
    }
}

// Joins a right record into a left one. Answers 0, or a refusal's number; with 11, the number that it names times 256 is added.
pub fn join_in_one(
    head: &mut [u64],
    marks: &mut [u8],
    elapsed: &mut [u32],
    sizes: &mut [u16],
    r_head: &[u64],
    r_marks: &[u8],
    r_elapsed: &[u32],
    r_sizes: &[u16],
) -> u32
    ensures { KeepsJoined head.old r_head.now
        (kept_in (head_of head.old) marks.old elapsed.old sizes.old)
        (join_records (kept_in (head_of head.old) marks.old elapsed.old sizes.old)
        (kept_in (head_of r_head.now) r_marks.now r_elapsed.now r_sizes.now))
        result head.new marks.new elapsed.new sizes.new }
{
    if head.len() < 6 || r_head.len() < 6 {
        return u32::from(Refusal::CapacitiesDiffer.number());
    }
    let h = head_of(head);
    let g = head_of(r_head);
    let t = join(h, marks, elapsed, sizes, g, r_marks, r_elapsed, r_sizes);
    in_one(keep(head, t))
}
