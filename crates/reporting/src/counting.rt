// What a report says of a record: one pass over the places in which packets were heard.
ghost use Rattle.std.specs.Prelude.{◌≡◌, false, cond, length};
ghost use Rattle.reception.specs.Lent.{held, kept};
ghost use Rattle.reception.specs.Neighbours.{NoneFrom};
ghost use Rattle.reception.specs.Hearing.{damaged_kept};
ghost use Rattle.reception.specs.Reporting.{report_of};
ghost use Rattle.reporting.specs.Counting.{Tallied};

use damage::judging::gap_between;
use reception::record::Record;
use reception::{Head, Report};
use units::{Octets, Packets};

// Packets heard and their octets, the number after the last one and the octets before it, and the gaps before the packets heard.
#[derive(Clone, Copy)]
pub struct Totals {
    pub heard: Packets,
    pub octets: Octets,
    pub end: Packets,
    pub before: Octets,
    pub gaps: u32,
}

// Counts over all places; from the place last on nothing was heard.
fn tally(r: &Record, last: usize) -> Totals
    requires { NoneFrom r.now.marks.now last }
    ensures { Tallied r.now.marks.now r.now.elapsed.now r.now.sizes.now (length r.now.marks.now)
        result.heard.0 result.octets.0 result.end.0 result.before.0 result.gaps }
{
    let mut heard: u32 = 0;
    let mut octets: u64 = 0;
    let mut end: u32 = 0;
    let mut before: u64 = 0;
    let mut gaps: u32 = 0;
    for k in 0..last {
        if r.marks[k] == 1 {
            let e = u64::from(r.elapsed[k]);
            let l = u64::from(r.sizes[k]);
            gaps += gap_between(end, k as u32);
            heard += 1;
            octets += l;
            end = k as u32 + 1;
            before = e + l;
        }
    }
    Totals {
        heard: Packets(heard),
        octets: Octets(octets),
        end: Packets(end),
        before: Octets(before),
        gaps: gaps,
    }
}

// The packets sent: the closing's, or up to the last one heard.
pub fn sent_packets(h: Head, end: Packets) -> Packets
    ensures { result ≡ record { 0 = cond h.closed h.count.0 end.0 } }
{
    if h.closed { h.count } else { end }
}

// And their octets.
pub fn sent_octets(h: Head, before: Octets) -> Octets
    ensures { result ≡ record { 0 = cond h.closed h.total.0 before.0 } }
{
    if h.closed { h.total } else { before }
}

// The report on an undamaged record in which nothing was heard from the place last on.
pub fn count(r: &Record, last: usize) -> Report
    requires none_from { NoneFrom r.now.marks.now last }
    requires undamaged { damaged_kept (kept r.now) ≡ false }
    ensures { result ≡ report_of (held r.now) }
{
    let t = tally(r, last);
    let heard = t.heard;
    let octets = t.octets;
    let end = t.end;
    let before = t.before;
    let sent = sent_packets(r.head, end);
    let total = sent_octets(r.head, before);
    Report {
        sent: sent,
        sent_octets: total,
        heard: heard,
        heard_octets: octets,
        missing: Packets(sent.0 - heard.0),
        missing_octets: Octets(total.0 - octets.0),
        gaps: t.gaps + gap_between(end.0, sent.0),
    }
}
