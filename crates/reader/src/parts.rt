// The parts of a frame: both checks, and the fields.
ghost use Rattle.std.specs.Prelude.{◌≡◌, ◌+◌, ◌≤◌, ◌<◌, length, take, drop};
ghost use Rattle.checks.specs.Check.{header_check, payload_check};
ghost use Rattle.frame.specs.Layout.{header_check_in, payload_check_in, payload_part, payload_length, data_of, closing_of};
ghost use Rattle.frame.specs.Sizes.{data_head, long_control};

use frame::{ClosingPdu, DataPdu};
use units::{Checks, Octets, Packets};

// The header check stands in the upper six bits behind the control part.
// Kept beside `payload_compared`: the two differ in place, width and rule, so that one function would take two closures.
pub fn header_compared(frame: &[u8], n: usize) -> Checks
    requires { n < length frame.now }
    ensures { (result.found ≡ header_check_in n frame.now) × (result.worked_out ≡ header_check (take n frame.now)) }
{
    Checks {
        found: u16::from(frame[n] >> 2),
        worked_out: u16::from(checks::header_check(&frame[..n])),
    }
}

// The payload check is the lower ten bits of the two octets behind the control part.
pub fn payload_compared(frame: &[u8], n: usize, part: &[u8]) -> Checks
    requires { (n + 2 ≤ length frame.now) × (part.now ≡ drop (n + 2) frame.now) }
    ensures { (result.found ≡ payload_check_in n frame.now) × (result.worked_out ≡ payload_check (payload_part n frame.now)) }
{
    let found = (u16::from(frame[n] & 3) << 8) | u16::from(frame[n + 1]);
    Checks {
        found,
        worked_out: checks::payload_check(part),
    }
}

// The length that is recorded is that of the payload which is handed on.
// Kept beside `closing_of`: only three fields are alike, and document 01 names both PDUs without a part in common.
pub fn data_of(frame: &[u8], kept: u64) -> DataPdu
    requires { (data_head ≤ length frame.now) × (kept ≡ payload_length frame.now) }
    ensures { result ≡ data_of frame.now }
{
    DataPdu {
        stamp: fields::field(frame, 1, 2) as u32,
        number: Packets(fields::field(frame, 3, 2) as u32),
        elapsed: Octets(fields::field(frame, 5, 4)),
        length: Octets(kept),
    }
}

pub fn closing_of(frame: &[u8]) -> ClosingPdu
    requires { long_control ≤ length frame.now }
    ensures { result ≡ closing_of frame.now }
{
    ClosingPdu {
        stamp: fields::field(frame, 1, 2) as u32,
        number: Packets(fields::field(frame, 3, 2) as u32),
        elapsed: Octets(fields::field(frame, 5, 4)),
        packets: Packets(fields::field(frame, 9, 3) as u32),
        octets: Octets(fields::field(frame, 12, 5)),
    }
}
