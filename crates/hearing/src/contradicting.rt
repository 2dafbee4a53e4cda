// Whether a packet or a closing contradicts a record: of an undamaged one, only the packets heard next to it have to be looked at.
ghost use Rattle.std.specs.Prelude.{◌≡◌, ◌<◌, length};
ghost use Rattle.reception.specs.Lent.{held};
ghost use Rattle.reception.specs.Adding.{differ, packet_contradicts, closed_head, closing_contradicts};

use crate::looking::{Heard, end_below, next_fits};
use damage::{is_fit, may_end};
use reception::Head;
use units::{Octets, Packets};

// The places in which packets were heard: none before the first, none from the end on.
#[derive(Clone, Copy)]
pub struct Span {
    pub first: usize,
    pub end: usize,
}

// Two pairs of numbers are not the same.
pub fn differs(a: u64, b: u64, c: u64, d: u64) -> bool
    ensures { result ≡ differ a b c d }
{
    (a, b) != (c, d)
}

// Whether a packet contradicts a record that some sending explains: only its neighbours are looked at.
pub fn packet_contradicts(r: &Heard, k: usize, e: u64, l: u64) -> bool
    requires { (k < length r.now.inner.marks.now) × (e < 4294967296) × (l < 4294967296) }
    ensures { result ≡ packet_contradicts (held r.now.inner) k e l }
{
    if r.inner.marks[k] == 1 {
        return differs(
            u64::from(r.inner.elapsed[k]),
            u64::from(r.inner.sizes[k]),
            e,
            l,
        );
    }
    let b = end_below(&r.inner, r.span.first, k);
    !is_fit(b.number, b.octets, Packets(k as u32), Octets(e), Octets(l))
        || !next_fits(
            &r.inner,
            r.span.end,
            k + 1,
            Packets(k as u32 + 1),
            Octets(e + l),
        )
}

// The head with a closing of n packets and t octets.
pub fn with_closing(h: Head, n: Packets, t: Octets) -> Head
    ensures { result ≡ closed_head h n.0 t.0 }
{
    Head {
        closed: true,
        count: n,
        total: t,
        ..h
    }
}

// Whether a closing contradicts a record that some sending explains: only the last packet heard is looked at.
pub fn closing_contradicts(r: &Heard, n: Packets, t: Octets) -> bool
    ensures { result ≡ closing_contradicts (held r.now.inner) n.0 t.0 }
{
    let h = r.inner.head;
    if h.closed {
        return differs(u64::from(h.count.0), h.total.0, u64::from(n.0), t.0);
    }
    let b = end_below(&r.inner, r.span.first, r.span.end);
    !may_end(with_closing(h, n, t), b.number, b.octets)
}
