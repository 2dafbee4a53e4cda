// What the functions that hear, join and report ask of a record first: whether its lists match, whether it is damaged (one pass over
// its places), and whether a key is its own.
#![tactic(auto)]

pub mod judging;

ghost use Rattle.std.specs.Prelude.{◌≡◌, ◌≤◌};
ghost use Rattle.reception.specs.Lent.{held};
ghost use Rattle.reception.specs.Walk.{reach, fits, may_end};
ghost use Rattle.reception.specs.Hearing.{lists_differ, other_key};
ghost use Rattle.reception.specs.Damage.{place_wrong, closing_off, damaged_record};

use judging::judge;
use reception::Head;
use reception::record::Record;
use units::limits::{MOST_CAPACITY, MOST_PAYLOAD};
use units::{Octets, Packets};

// Whether three lists, by their lengths, are no record's.
#[tactic(auto, unfolding(reception::specs::Hearing::lists_differ))]
pub fn lists_differ(marks: usize, elapsed: usize, sizes: usize) -> bool
    ensures { result ≡ lists_differ marks elapsed sizes }
{
    MOST_CAPACITY < marks as u64 || elapsed != marks || sizes != marks
}

// Where packet i has a octets before it, packet k can have e.
#[tactic(auto, using(reception::proofs::Points::by_distance), unfolding(reception::specs::Walk::reach))]
fn reaches(i: Packets, a: Octets, k: Packets, e: Octets) -> bool
    requires { i.0 ≤ k.0 }
    ensures { result ≡ reach i.0 a.0 k.0 e.0 }
{
    a.0 <= e.0 && e.0 - a.0 <= MOST_PAYLOAD * u64::from(k.0 - i.0)
}

// A packet k of length l at e octets can come after packets that end before number i, at a octets.
#[tactic(auto, unfolding(reception::specs::Walk::fits))]
pub fn is_fit(i: Packets, a: Octets, k: Packets, e: Octets, l: Octets) -> bool
    requires { i.0 ≤ k.0 }
    ensures { result ≡ fits i.0 a.0 k.0 e.0 l.0 }
{
    l.0 <= MOST_PAYLOAD && reaches(i, a, k, e)
}

// So can the closing, where there is one.
#[tactic(auto, unfolding(reception::specs::Walk::may_end))]
pub fn may_end(h: Head, i: Packets, a: Octets) -> bool
    ensures { result ≡ may_end h.closed h.count.0 h.total.0 i.0 a.0 }
{
    !h.closed || i.0 <= h.count.0 && reaches(i, a, h.count, h.total)
}

// A place with another mark than heard or unheard, or unheard and not zero. Kept: one sum, since three tests in its place make judging
// slower by a third.
#[tactic(auto, using(crate::proofs::WrongBySum::wrong_sum), unfolding(reception::specs::Damage::place_wrong))]
pub fn place_wrong(m: u8, e: u32, l: u16) -> bool
    ensures { result ≡ place_wrong m e l }
{
    m != 1 && u64::from(m) + u64::from(e) + u64::from(l) != 0
}

// An N above capacity, or a closing that was not heard and is not zero.
#[tactic(auto, unfolding(reception::specs::Damage::closing_off, frame::specs::Counts::some_of))]
pub fn closing_off(h: Head, capacity: usize) -> bool
    ensures { result ≡ closing_off h.closed h.count.0 h.total.0 capacity }
{
    capacity < h.count.0 as usize || !h.closed && (h.count.0 != 0 || h.total.0 != 0)
}

// Whether the record is damaged; what else judging says is not asked for here, and the compiler drops it. One copy for all callers: so
// its loop has all registers to itself, and judging within it counts no gaps.
#[inline(never)]
pub fn is_damaged(r: &Record) -> bool
    ensures { result ≡ damaged_record r.now.head.stamp (held r.now) }
{
    judge(r).is_none()
}

// Whether bearer, period or stamp is another sequence's. Kept: three numbers, since bearer and period come from the caller and the stamp
// from the frame, and a struct would be made for this test alone.
#[tactic(auto, unfolding(reception::specs::Hearing::other_key))]
pub fn other_key(h: Head, bearer: u32, period: u32, stamp: u32) -> bool
    ensures { result ≡ other_key h bearer period stamp }
{
    h.bearer != bearer || h.period != period || h.stamp != stamp
}
