// Joining: what two records of one sequence heard, in the left one. Inside, r_ is of the right one.
#![tactic(auto)]

mod searching;
mod writing;

ghost use Rattle.std.specs.Prelude.{◌≡◌, false, not, ◌||◌, ◌&&◌, eqb};
ghost use Rattle.reception.specs.Lent.{kept, held};
ghost use Rattle.reception.specs.Adding.{closing_contradicts};
ghost use Rattle.reception.specs.Hearing.{kept_in, lists_differ, damaged_kept};
ghost use Rattle.std.specs.Prelude.{Err};
ghost use Rattle.reception.specs.Joining.{capacities_off, other_record, join_records, Joins};

use damage::{is_damaged, lists_differ, other_key};
use hearing::contradicting::closing_contradicts;
use hearing::looking::Heard;
use hearing::taking::whole;
use reception::record::Record;
use reception::{Answered, Head, NotJoined};
use searching::lowest_off;
use units::Refusal;
use writing::{joined_head, write_union};

// The number that names the closing of the right record.
const CLOSING: u32 = 65536;

// Why it is not joined, and the left's head as it was.
fn refused(h: Head, why: NotJoined) -> Answered<NotJoined>
    ensures { result ≡ record { answer = Err why; head = h } }
{
    Answered {
        answer: Err(why),
        head: h,
    }
}

// Whether the lists of two records, by their lengths, do not match.
fn capacities_off(
    marks: usize,
    elapsed: usize,
    sizes: usize,
    r_marks: usize,
    r_elapsed: usize,
    r_sizes: usize,
) -> bool
    ensures { result ≡ (lists_differ marks elapsed sizes || (lists_differ r_marks r_elapsed r_sizes || not (eqb marks r_marks))) }
{
    lists_differ(marks, elapsed, sizes)
        || lists_differ(r_marks, r_elapsed, r_sizes)
        || marks != r_marks
}

// Whether the right's closing alone contradicts the left.
fn right_closing_off(left: &Heard, g: Head) -> bool
    ensures { result ≡ (g.closed && closing_contradicts (held left.now.inner) g.count.0 g.total.0) }
{
    g.closed && closing_contradicts(left, g.count, g.total)
}

// Joins two undamaged records of one key and one capacity: refusal 11, or the union.
fn join_undamaged(
    h: Head,
    marks: &mut [u8],
    elapsed: &mut [u32],
    sizes: &mut [u16],
    right: &Record,
) -> Answered<NotJoined>
    requires capacities { capacities_off (kept_in h marks.old elapsed.old sizes.old) (kept right.now) ≡ false }
    requires left_undamaged { damaged_kept (kept_in h marks.old elapsed.old sizes.old) ≡ false }
    requires right_undamaged { damaged_kept (kept right.now) ≡ false }
    requires same_key { other_record (kept_in h marks.old elapsed.old sizes.old) (kept right.now) ≡ false }
    ensures { Joins
        (join_records (kept_in h marks.old elapsed.old sizes.old) (kept right.now))
        result marks.new elapsed.new sizes.new }
{
    let span = whole(marks.len());
    let inner = Record {
        head: h,
        marks,
        elapsed,
        sizes,
    };
    let left = Heard { inner, span };
    let k = lowest_off(&left, right);
    if k < left.inner.marks.len() {
        return refused(h, NotJoined::Contradicts(k as u32));
    }
    if right_closing_off(&left, right.head) {
        return refused(h, NotJoined::Contradicts(CLOSING));
    }
    write_union(marks, elapsed, sizes, right);
    Answered {
        answer: Ok(()),
        head: joined_head(h, right.head),
    }
}

// Joins two records of one capacity: refusals 13 and 9.
fn join_matched(
    h: Head,
    marks: &mut [u8],
    elapsed: &mut [u32],
    sizes: &mut [u16],
    right: &Record,
) -> Answered<NotJoined>
    requires { capacities_off (kept_in h marks.old elapsed.old sizes.old) (kept right.now) ≡ false }
    ensures { Joins
        (join_records (kept_in h marks.old elapsed.old sizes.old) (kept right.now))
        result marks.new elapsed.new sizes.new }
{
    let left = Record {
        head: h,
        marks,
        elapsed,
        sizes,
    };
    if is_damaged(&left) || is_damaged(right) {
        return refused(h, NotJoined::Refused(Refusal::RecordDamaged));
    }
    let g = right.head;
    if other_key(h, g.bearer, g.period, g.stamp) {
        return refused(h, NotJoined::Refused(Refusal::OtherSequence));
    }
    join_undamaged(h, marks, elapsed, sizes, right)
}

// Joins the right record (g and the lists after it) to the left one, which is written.
pub fn join(
    h: Head,
    marks: &mut [u8],
    elapsed: &mut [u32],
    sizes: &mut [u16],
    g: Head,
    other_marks: &[u8],
    other_elapsed: &[u32],
    other_sizes: &[u16],
) -> Answered<NotJoined>
    ensures { Joins
        (join_records (kept_in h marks.old elapsed.old sizes.old)
        (kept_in g other_marks.now other_elapsed.now other_sizes.now))
        result marks.new elapsed.new sizes.new }
{
    if capacities_off(
        marks.len(),
        elapsed.len(),
        sizes.len(),
        other_marks.len(),
        other_elapsed.len(),
        other_sizes.len(),
    ) {
        return refused(h, NotJoined::Refused(Refusal::CapacitiesDiffer));
    }
    let right = Record {
        head: g,
        marks: other_marks,
        elapsed: other_elapsed,
        sizes: other_sizes,
    };
    join_matched(h, marks, elapsed, sizes, &right)
}
