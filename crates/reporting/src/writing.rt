// The gaps of a record into three lent lists: first number, count and octets of each.
ghost use Rattle.std.specs.Prelude.{◌≡◌, false, map, ◌≤◌};
ghost use Rattle.fields.specs.Runs.{front};
ghost use Rattle.reception.specs.Lent.{held, kept};
ghost use Rattle.reception.specs.Hearing.{damaged_kept};
ghost use Rattle.reception.specs.Reporting.{Gap, gap_to, gaps_of, sent_packets};
ghost use Rattle.reception.specs.Missing.{packets_in, octets_in};
ghost use Rattle.reporting.specs.Writing.{Room, Puts};

use crate::counting::sent_octets;
use reception::record::Record;
use units::{Octets, Packets};

// How far the lists are filled: the place for the next gap, and the packets and octets in those before it.
#[derive(Clone, Copy)]
pub struct Filled {
    pub next: usize,
    pub packets: Packets,
    pub octets: Octets,
}

// Writes the gap, if there is one, between packets that end before number i, at a octets, and packet k, before which are e.
fn put(
    t: Filled,
    i: u32,
    a: u64,
    k: u32,
    e: u64,
    firsts: &mut [u32],
    counts: &mut [u32],
    octets: &mut [u64],
) -> Filled
    requires i_le_k { (i ≤ k) × (a ≤ e) }
    requires packets_le_i { (t.packets.0 ≤ i) × (t.octets.0 ≤ a) }
    requires room { Room t.next (gap_to i a k e) firsts.old counts.old octets.old }
    ensures puts { Puts t (gap_to i a k e) firsts.old counts.old octets.old result
        firsts.new counts.new octets.new }
    ensures packets_le_k { (result.packets.0 ≤ k) × (result.octets.0 ≤ e) }
{
    if i == k {
        return t;
    }
    let w = t.next;
    firsts[w] = i;
    counts[w] = k - i;
    octets[w] = e - a;
    Filled {
        next: w + 1,
        packets: Packets(t.packets.0 + (k - i)),
        octets: Octets(t.octets.0 + (e - a)),
    }
}

// Writes all gaps of an undamaged record of which n packets were sent, in rising order.
pub fn write_gaps(
    r: &Record,
    n: usize,
    firsts: &mut [u32],
    counts: &mut [u32],
    octets: &mut [u64],
) -> Filled
    requires undamaged { damaged_kept (kept r.now) ≡ false }
    requires n_value { n ≡ sent_packets (held r.now) }
    requires room { Room 0 (gaps_of (held r.now)) firsts.old counts.old octets.old }
    ensures packets_value { (result.packets.0 ≡ packets_in (gaps_of (held r.now)))
        × (result.octets.0 ≡ octets_in (gaps_of (held r.now))) }
    ensures firsts_after { (firsts.new ≡ front firsts.old
        (map (λ (g : Gap). g.first) (gaps_of (held r.now))))
        × (counts.new ≡ front counts.old
        (map (λ (g : Gap). g.count) (gaps_of (held r.now))))
        × (octets.new ≡ front octets.old
        (map (λ (g : Gap). g.octets) (gaps_of (held r.now)))) }
{
    let mut i: u32 = 0;
    let mut a: u64 = 0;
    let mut t = Filled {
        next: 0,
        packets: Packets(0),
        octets: Octets(0),
    };
    for k in 0..n {
        if r.marks[k] == 1 {
            let e = u64::from(r.elapsed[k]);
            let l = u64::from(r.sizes[k]);
            t = put(t, i, a, k as u32, e, firsts, counts, octets);
            i = k as u32 + 1;
            a = e + l;
        }
    }
    let total = sent_octets(r.head, Octets(a));
    put(t, i, a, n as u32, total.0, firsts, counts, octets)
}
