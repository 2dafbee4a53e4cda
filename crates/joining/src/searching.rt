// The lowest packet number of the right record that alone contradicts the left: one pass over the right, and along with it one over
// the left, which goes on from where it stood.
ghost use Rattle.std.specs.Prelude.{◌≡◌, ◌&&◌, ◌+◌, ◌-◌, ◌<◌, eqb, length, get_or};
ghost use Rattle.reception.specs.Lent.{held};
ghost use Rattle.reception.specs.Adding.{packet_contradicts};
ghost use Rattle.reception.specs.Neighbours.{next_fits};
ghost use Rattle.joining.specs.Beside.{unheard_at, FirstFrom, BesideIs, LowestFound};

use damage::{is_fit, may_end};
use hearing::contradicting::differs;
use hearing::looking::{End, Heard};
use reception::record::Record;
use units::{Octets, Packets};

// Whether a place of a record is one in which nothing was heard.
#[tactic(auto, unfolding(crate::specs::Beside::unheard_at))]
fn is_unheard(marks: &[u8], j: usize) -> bool
    ensures { result ≡ unheard_at marks.now j }
{
    j < marks.len() && marks[j] != 1
}

// Where packet k ends.
fn end_of(r: &Record, k: usize) -> End
    requires { k < length r.now.marks.now }
    ensures { (result.number.0 ≡ k + 1) × (result.octets.0 ≡ get_or r.now.elapsed.now k 0 + get_or r.now.sizes.now k 0) }
{
    End {
        number: Packets(k as u32 + 1),
        octets: Octets(u64::from(r.elapsed[k]) + u64::from(r.sizes[k])),
    }
}

// Whether the next packet heard, or else the closing, can come after a packet k that ends at a octets.
fn next_follows(r: &Record, next: usize, k: usize, a: Octets) -> bool
    requires { FirstFrom r.now.marks.now (k + 1) next }
    ensures { result ≡ next_fits (held r.now) (length r.now.marks.now - (k + 1)) (k + 1) (k + 1) a.0 }
{
    let i = Packets(k as u32 + 1);
    if next < r.marks.len() {
        let e = Octets(u64::from(r.elapsed[next]));
        let l = Octets(u64::from(r.sizes[next]));
        return is_fit(i, a, Packets(next as u32), e, l);
    }
    may_end(r.head, i, a)
}

// Whether a packet k of the right, if it was heard (m), alone contradicts the left.
fn is_off(left: &Heard, last: End, next: usize, m: u8, k: usize, e: u64, l: u64) -> bool
    requires beside_is { BesideIs left.now.inner.marks.now left.now.inner.elapsed.now left.now.inner.sizes.now
        k last.number.0 last.octets.0 next }
    requires k_in_bounds { (k < length left.now.inner.marks.now) × (e < 4294967296) × (l < 65536) }
    ensures { result ≡ (eqb m 1 && packet_contradicts (held left.now.inner) k e l) }
{
    if m != 1 {
        return false;
    }
    let r = &left.inner;
    if next <= k {
        return differs(u64::from(r.elapsed[k]), u64::from(r.sizes[k]), e, l);
    }
    !is_fit(
        last.number,
        last.octets,
        Packets(k as u32),
        Octets(e),
        Octets(l),
    ) || !next_follows(r, next, k, Octets(e + l))
}

// The lowest packet number of the right that alone contradicts the left, or the capacity where none does.
pub fn lowest_off(left: &Heard, right: &Record) -> usize
    requires { length left.now.inner.marks.now ≡ length right.now.marks.now }
    ensures { LowestFound left.now.inner.head left.now.inner.marks.now left.now.inner.elapsed.now left.now.inner.sizes.now
        right.now.marks.now right.now.elapsed.now right.now.sizes.now result }
{
    let mut last = End {
        number: Packets(0),
        octets: Octets(0),
    };
    let mut next: usize = 0;
    let mut k: usize = 0;
    // Kept: document 01 names a search loop that breaks with the first contradicting number, with a walk over the left inside.
    loop {
        if left.inner.marks.len() <= k {
            break k;
        }
        // The walk over the left goes on to its next packet.
        while is_unheard(left.inner.marks, next) {
            next += 1;
        }
        let e = u64::from(right.elapsed[k]);
        let l = u64::from(right.sizes[k]);
        if is_off(left, last, next, right.marks[k], k, e, l) {
            break k;
        }
        if next <= k {
            last = end_of(&left.inner, k);
            next = k + 1;
        }
        k += 1;
    }
}
