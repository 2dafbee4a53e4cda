// The report on a record: sent, heard and missing packets and octets, and the gaps.
#![tactic(auto)]

pub mod counting;
pub mod writing;

ghost use Rattle.std.specs.Prelude.{◌≡◌, ◌≤◌};
ghost use Rattle.reception.specs.Hearing.{kept_in};
ghost use Rattle.reception.specs.Reporting.{Reports};
ghost use Rattle.reporting.specs.Writing.{report_with};

use counting::{sent_octets, sent_packets};
use damage::judging::{gap_between, judge};
use damage::lists_differ;
use reception::record::Record;
use reception::{Head, Report};
use units::{Octets, Packets, Refusal};
use writing::{Filled, write_gaps};

// The report by what was sent and what of it is missing.
fn made(sent: Packets, total: Octets, missing: Filled, gaps: u32) -> Report
    requires { (missing.packets.0 ≤ sent.0) × (missing.octets.0 ≤ total.0) }
    ensures { result ≡ report_with sent total missing gaps }
{
    let packets = missing.packets;
    let octets = missing.octets;
    Report {
        sent: sent,
        sent_octets: total,
        heard: Packets(sent.0 - packets.0),
        heard_octets: Octets(total.0 - octets.0),
        missing: packets,
        missing_octets: octets,
        gaps: gaps,
    }
}

// The report on a record, with its gaps in rising order in the three lent lists: first number, count and octets of each.
pub fn report(
    h: Head,
    marks: &[u8],
    elapsed: &[u32],
    sizes: &[u16],
    firsts: &mut [u32],
    counts: &mut [u32],
    octets: &mut [u64],
) -> Result<Report, Refusal>
    ensures { Reports
        (kept_in h marks.now elapsed.now sizes.now)
        firsts.old counts.old octets.old
        result firsts.new counts.new octets.new }
{
    if lists_differ(marks.len(), elapsed.len(), sizes.len()) {
        return Err(Refusal::CapacitiesDiffer);
    }
    let r = Record {
        head: h,
        marks,
        elapsed,
        sizes,
    };
    let Some(j) = judge(&r) else {
        return Err(Refusal::RecordDamaged);
    };
    let end = j.end;
    let before = j.before;
    let sent = sent_packets(h, end);
    let total = sent_octets(h, before);
    let gaps = j.gaps + gap_between(end.0, sent.0);
    if firsts.len().min(counts.len().min(octets.len())) < gaps as usize {
        return Err(Refusal::NoRoom);
    }
    let n = sent.0 as usize;
    let missing = write_gaps(&r, n, firsts, counts, octets);
    Ok(made(sent, total, missing, gaps))
}
