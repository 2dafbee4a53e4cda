// The gaps of a record, a line each.
ghost use Rattle.std.specs.Prelude.{◌≡◌, false, ◌+◌, ◌*◌, ◌≤◌, length};
ghost use Rattle.lines.specs.Adding.{Adds};
ghost use Rattle.reception.specs.Lent.{held, kept};
ghost use Rattle.reception.specs.Hearing.{damaged_kept};
ghost use Rattle.reception.specs.Reporting.{gap_to, gaps_of, sent_packets};
ghost use Rattle.telling.specs.Account.{gap_lines};

use lines::Text;
use reception::record::Record;
use reporting::counting::sent_octets;
use units::Octets;

// The line of the gap, if there is one, between packets that end before number i, at a octets, and packet k, before which are e.
fn put_gap(text: &mut Text, i: u32, a: u64, k: u32, e: u64)
    requires i_le_k { (i ≤ k) × (a ≤ e) }
    requires at_in_bounds { text.old.at + 67 ≤ length text.old.out.now }
    ensures { Adds (gap_lines (gap_to i a k e)) 67 text.old text.new }
{
    if i != k {
        text.put_line(b"gap", &[u64::from(i), u64::from(k - i), e - a]);
    }
}

// The lines of all gaps of an undamaged record of which n packets were sent, in rising order.
pub fn put_gaps(text: &mut Text, r: &Record, n: usize)
    requires undamaged { damaged_kept (kept r.now) ≡ false }
    requires n_value { n ≡ sent_packets (held r.now) }
    requires n_in_bounds { text.old.at + 67 * (n + 1) ≤ length text.old.out.now }
    ensures { Adds (gap_lines (gaps_of (held r.now))) (67 * (n + 1)) text.old text.new }
{
    let mut i: u32 = 0;
    let mut a: u64 = 0;
    for k in 0..n {
        if r.marks[k] == 1 {
            let e = u64::from(r.elapsed[k]);
            let l = u64::from(r.sizes[k]);
            put_gap(text, i, a, k as u32, e);
            i = k as u32 + 1;
            a = e + l;
        }
    }
    let total = sent_octets(r.head, Octets(a));
    put_gap(text, i, a, n as u32, total.0);
}
