// A record judged, and where its packets end and how many gaps lie before them, in one pass over its places.
ghost use Rattle.std.specs.Prelude.{◌≡◌, ◌≤◌};
ghost use Rattle.reception.specs.Damage.{walk_fails, damaged_record};
ghost use Rattle.reception.specs.Lent.{held};
ghost use Rattle.damage.specs.Judging.{gap_between, Judges};

use crate::{closing_off, is_fit, may_end, place_wrong};
use reception::record::Record;
use units::limits::LAST_STAMP;
use units::{Octets, Packets};

// Of an undamaged record: the number after the last packet heard, the octets before it, and the gaps before the packets heard.
#[derive(Clone, Copy)]
pub struct Judged {
    pub end: Packets,
    pub before: Octets,
    pub gaps: u32,
}

// How many gaps are between packets that end before number i and packet k.
pub fn gap_between(i: u32, k: u32) -> u32
    ensures { (result ≡ gap_between i k) × (result ≤ 1) }
{
    u32::from(i != k)
}

// Goes over the places of a record.
fn walk(r: &Record) -> Option<Judged>
    ensures { Judges (walk_fails (held r.now)) r.now.marks.now r.now.elapsed.now r.now.sizes.now result }
{
    let (marks, elapsed, sizes) = (r.marks, r.elapsed, r.sizes);
    let mut i = Packets(0);
    let mut a = Octets(0);
    let mut gaps: u32 = 0;
    for k in 0..marks.len() {
        if marks[k] == 1 {
            let e = u64::from(elapsed[k]);
            let l = u64::from(sizes[k]);
            if !is_fit(i, a, Packets(k as u32), Octets(e), Octets(l)) {
                return None;
            }
            gaps += gap_between(i.0, k as u32);
            i = Packets(k as u32 + 1);
            a = Octets(e + l);
        } else if place_wrong(marks[k], elapsed[k], sizes[k]) {
            return None;
        }
    }
    if !may_end(r.head, i, a) {
        return None;
    }
    Some(Judged {
        end: i,
        before: a,
        gaps: gaps,
    })
}

// Judges a record: nothing is said of a damaged one.
#[inline(always)]
pub fn judge(r: &Record) -> Option<Judged>
    ensures { Judges (damaged_record r.now.head.stamp (held r.now)) r.now.marks.now r.now.elapsed.now r.now.sizes.now result }
{
    if LAST_STAMP < r.head.stamp as u64 || closing_off(r.head, r.marks.len()) {
        return None;
    }
    walk(r)
}
