// A record beside the places in which packets were heard, and what was heard next to a packet number: the last packet before it and
// the first after it, not looked for where nothing was heard.
ghost use Rattle.std.specs.Prelude.{◌≡◌, true, ◌-◌, ◌≤◌, length};
ghost use Rattle.reception.specs.Lent.{held};
ghost use Rattle.reception.specs.Walk.{is_explained};
ghost use Rattle.reception.specs.Neighbours.{EndBelow, NoneBefore, NoneFrom, next_fits};

use crate::contradicting::Span;
use damage::{is_fit, may_end};
use reception::record::Record;
use units::{Octets, Packets};

// A record that some sending explains, and the span in which its packets were heard.
#[derive(Clone, Copy)]
pub struct Heard<'a> {
    pub inner: Record<'a>,
    pub span: Span,
    pub ghost none_before: { NoneBefore inner.marks.now span.first },
    pub ghost none_from: { NoneFrom inner.marks.now span.end },
    pub ghost explained: { is_explained (held inner) ≡ true },
}

// Where packets end: the number after them, and the octets before it.
#[derive(Clone, Copy)]
pub struct End {
    pub number: Packets,
    pub octets: Octets,
}

// The end of the last packet heard below k. Nothing was heard before the place first.
pub fn end_below(r: &Record, first: usize, k: usize) -> End
    requires none_before { NoneBefore r.now.marks.now first }
    requires k_in_bounds { k ≤ length r.now.marks.now }
    ensures { EndBelow r.now.marks.now r.now.elapsed.now r.now.sizes.now k result.number.0 result.octets.0 }
{
    for j in (first..k).rev() {
        if r.marks[j] == 1 {
            return End {
                number: Packets(j as u32 + 1),
                octets: Octets(u64::from(r.elapsed[j]) + u64::from(r.sizes[j])),
            };
        }
    }
    End {
        number: Packets(0),
        octets: Octets(0),
    }
}

// Whether the next packet heard from k on, or else the closing, can come after packets that end before number i, at a octets. Nothing was
// heard from the place end on.
pub fn next_fits(r: &Record, end: usize, k: usize, i: Packets, a: Octets) -> bool
    requires none_from { NoneFrom r.now.marks.now end }
    requires k_in_bounds { (k ≤ length r.now.marks.now) × (i.0 ≤ k) }
    ensures { result ≡ next_fits (held r.now) (length r.now.marks.now - k) k i.0 a.0 }
{
    for j in k..end {
        if r.marks[j] == 1 {
            let e = Octets(u64::from(r.elapsed[j]));
            let l = Octets(u64::from(r.sizes[j]));
            return is_fit(i, a, Packets(j as u32), e, l);
        }
    }
    may_end(r.head, i, a)
}
