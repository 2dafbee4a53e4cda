// Reports on records as C and Rust keep them: seven figures (sent packets and octets, heard, missing, how many gaps) in a lent list, and the gaps in
// three more.
#![tactic(auto)]

ghost use Rattle.std.specs.Prelude.{◌≡◌};
ghost use Rattle.units.specs.Refusals.{number_of};
ghost use Rattle.reception.specs.Hearing.{kept_in};
ghost use Rattle.numbers_head.specs.Heads.{head_of};
ghost use Rattle.numbers_report.specs.Reports.{figures_of, no_figures, Figures};

use damage::{is_damaged, lists_differ};
use numbers::{number_of, put_in_front};
use numbers_head::head_of;
use reception::record::Record;
use reception::{Head, Report};
use reporting::report;
use units::Refusal;

// The figures of a report.
fn figures_of(r: Report) -> [u64; 7]
    ensures { result ≡ figures_of r }
{
    [
        u64::from(r.sent.0),
        r.sent_octets.0,
        u64::from(r.heard.0),
        r.heard_octets.0,
        u64::from(r.missing.0),
        r.missing_octets.0,
        u64::from(r.gaps),
    ]
}

// Why there is no report where no figures can be written.
#[tactic(auto, using(reception::proofs::KeptAsHeld::lists_matched), unfolding(crate::specs::Reports::no_figures))]
fn refusal_of(h: Head, marks: &[u8], elapsed: &[u32], sizes: &[u16]) -> Refusal
    ensures { number_of result ≡ no_figures (kept_in h marks.now elapsed.now sizes.now) }
{
    if lists_differ(marks.len(), elapsed.len(), sizes.len()) {
        return Refusal::CapacitiesDiffer;
    }
    let kept = Record {
        head: h,
        marks,
        elapsed,
        sizes,
    };
    if is_damaged(&kept) {
        return Refusal::RecordDamaged;
    }
    Refusal::NoRoom
}

// Reports on a record. Answers 0, or a refusal's number.
pub fn report_figures(
    head: &[u64],
    marks: &[u8],
    elapsed: &[u32],
    sizes: &[u16],
    firsts: &mut [u32],
    counts: &mut [u32],
    octets: &mut [u64],
    figures: &mut [u64],
) -> u8
    ensures { Figures head.now
        (kept_in (head_of head.now) marks.now elapsed.now sizes.now)
        firsts.old counts.old octets.old figures.old
        result firsts.new counts.new octets.new figures.new }
{
    if head.len() < 6 {
        return Refusal::CapacitiesDiffer.number();
    }
    let h = head_of(head);
    if figures.len() < 7 {
        return refusal_of(h, marks, elapsed, sizes).number();
    }
    match report(h, marks, elapsed, sizes, firsts, counts, octets) {
        Err(r) => r.number(),
        Ok(r) => number_of(put_in_front(figures, figures_of(r))),
    }
}
