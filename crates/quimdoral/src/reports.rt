// Reports on records.
ghost use Rattle.reception.specs.Hearing.{kept_in};
ghost use Rattle.numbers_head.specs.Heads.{head_of};
ghost use Rattle.numbers_report.specs.Reports.{Figures};

// Reports on a record. Answers 0, or a refusal's number.
#[unsafe(no_mangle)]
pub extern "C" fn quimdoral_report(
    head: &[u64],
    marks: &[u8],
    elapsed: &[u32],
    sizes: &[u16],
    firsts: &mut [u32],
    counts: &mut [u32],
    octets: &mut [u64],
    figures: &mut [u64],
) -> u8
    ensures { Figures head.now
        (kept_in (head_of head.now) marks.now elapsed.now sizes.now)
        firsts.old counts.old octets.old figures.old
        result firsts.new counts.new octets.new figures.new }
{
    numbers_report::report_figures(head, marks, elapsed, sizes, firsts, counts, octets, figures)
}
