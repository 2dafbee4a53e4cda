// The control parts, and the checks behind them.
ghost use Rattle.std.specs.Prelude.{◌≡◌, ◌+◌, ◌*◌, ◌≤◌, ◌<◌, length, take};
ghost use Rattle.fields.specs.Numbers.{octets};
ghost use Rattle.fields.specs.Runs.{laid, front};
ghost use Rattle.checks.specs.Check.{header_check};
ghost use Rattle.frame.specs.Sizes.{long_control, short_control};
ghost use Rattle.frame.specs.Types.{number_of_type};
ghost use Rattle.frame.specs.Writing.{control_part, closing_control};

use crate::packing::put_both;
use frame::{ClosingPdu, PduType};
use units::{Octets, Packets};

// The fields that all types have.
// Kept: no struct for the three counts, since neither PDU has them as a part, and C's boundary gives them one by one.
pub fn put_control(out: &mut [u8], kind: PduType, stamp: u32, number: Packets, elapsed: Octets)
    requires { short_control ≤ length out.old }
    ensures { out.new ≡ front out.old (control_part (number_of_type kind) stamp number.0 elapsed.0) }
{
    fields::put(out, 0, 1, u64::from(kind.number()) << 4);
    fields::put(out, 1, 2, u64::from(stamp));
    fields::put(out, 3, 2, u64::from(number.0));
    fields::put(out, 5, 4, elapsed.0);
}

// The control part of a closing PDU.
pub fn put_closing_control(out: &mut [u8], kind: PduType, c: ClosingPdu)
    requires { long_control ≤ length out.old }
    ensures { out.new ≡ front out.old (closing_control (number_of_type kind) c) }
{
    put_control(out, kind, c.stamp, c.number, c.elapsed);
    fields::put(out, 9, 3, u64::from(c.packets.0));
    fields::put(out, 12, 5, c.octets.0);
}

// Both checks, behind a control part of n octets that stands already.
pub fn put_checks(out: &mut [u8], n: usize, check: u16)
    requires { (check < 1024) × (n + 2 ≤ length out.old) }
    ensures { out.new ≡ laid out.old n (octets 2 (header_check (take n out.old) * 1024 + check)) }
{
    let header = checks::header_check(&out[..n]);
    put_both(out, n, header, check);
}
