// Values of fewer bits than their octets have, packed by shifts and masks, octet by octet.
ghost use Rattle.std.specs.Prelude.{◌≡◌, ◌+◌, ◌*◌, ◌≤◌, ◌<◌, length};
ghost use Rattle.fields.specs.Numbers.{octets};
ghost use Rattle.fields.specs.Runs.{laid};
ghost use Rattle.frame.specs.Layout.{filled};
ghost use Rattle.frame.specs.Sizes.{lengths_head};
ghost use Rattle.frame.specs.Writing.{packed};
ghost use Rattle.writer.specs.Room.{RoomForLengths};

use frame::sizes::LENGTHS_HEAD;

// Both checks in two octets: six bits of header check and then ten of payload check.
pub fn put_both(out: &mut [u8], at: usize, header: u8, check: u16)
    requires { (check < 1024) × (at + 2 ≤ length out.old) }
    ensures { out.new ≡ laid out.old at (octets 2 (header * 1024 + check)) }
{
    out[at] = (header << 2) | (check >> 8) as u8;
    out[at + 1] = (check & 255) as u8;
}

// Two lengths of 12 bits in three octets.
fn put_two(out: &mut [u8], at: usize, a: u16, b: u16)
    requires { (a ≤ 4095) × (b ≤ 4095) × (at + 3 ≤ length out.old) }
    ensures { out.new ≡ laid out.old at (octets 3 (a * 4096 + b)) }
{
    out[at] = (a >> 4) as u8;
    out[at + 1] = (((a & 15) << 4) | (b >> 8)) as u8;
    out[at + 2] = (b & 255) as u8;
}

// A last length in two octets: its 12 bits, and four padding bits.
// Kept beside `put_two`: it stores one octet less, so that neither can call the other.
fn put_one(out: &mut [u8], at: usize, a: u16)
    requires { (a ≤ 4095) × (at + 2 ≤ length out.old) }
    ensures { out.new ≡ laid out.old at (octets 2 (a * 16)) }
{
    out[at] = (a >> 4) as u8;
    out[at + 1] = ((a & 15) << 4) as u8;
}

// How many octets n lengths fill.
pub fn filled_octets(n: usize) -> usize
    requires { n < 65536 }
    ensures { result ≡ filled n }
{
    (3 * n + 1) / 2
}

// The lengths, 12 bits each without gaps, laid into out behind the checks of a Type 3 frame.
pub fn put_lengths(lengths: &[u16], out: &mut [u8])
    requires { RoomForLengths lengths.now out.old }
    ensures { out.new ≡ laid out.old lengths_head (packed lengths.now) }
{
    let mut rest = lengths;
    let mut at = LENGTHS_HEAD;
    while let [a, b, more @ ..] = rest {
        put_two(out, at, *a, *b);
        rest = more;
        at += 3;
    }
    match rest {
        [a, ..] => put_one(out, at, *a),
        [] => {}
    }
}
