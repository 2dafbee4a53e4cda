// What a join leaves in the left record: what either heard.
ghost use Rattle.std.specs.Prelude.{◌≡◌, length};
ghost use Rattle.reception.specs.Damage.{Matched};
ghost use Rattle.reception.specs.Joining.{chosen, joined_head};
ghost use Rattle.joining.specs.EitherByBits.{EitherByBits};

use reception::Head;
use reception::record::Record;

// The left's key, and the closing that either heard.
pub fn joined_head(h: Head, g: Head) -> Head
    ensures { result ≡ joined_head h g }
{
    if h.closed {
        return h;
    }
    Head {
        closed: g.closed,
        count: g.count,
        total: g.total,
        ..h
    }
}

// Puts the bits of both together in each place. One loop without a test: what either heard comes out, since a place that was not
// heard holds zeros, and what both heard is the same.
pub fn write_union(marks: &mut [u8], elapsed: &mut [u32], sizes: &mut [u16], right: &Record)
    requires cases { Matched marks.old elapsed.old sizes.old }
    requires marks_len { length marks.old ≡ length right.now.marks.now }
    requires either_by_bits { EitherByBits marks.old elapsed.old sizes.old right.now.marks.now right.now.elapsed.now right.now.sizes.now }
    ensures { (marks.new ≡ chosen marks.old marks.old right.now.marks.now)
        × (elapsed.new ≡ chosen marks.old elapsed.old right.now.elapsed.now)
        × (sizes.new ≡ chosen marks.old sizes.old right.now.sizes.now) }
{
    for k in 0..marks.len() {
        marks[k] |= right.marks[k];
        elapsed[k] |= right.elapsed[k];
        sizes[k] |= right.sizes[k];
    }
}
