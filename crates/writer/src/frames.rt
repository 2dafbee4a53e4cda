// Whole frames, laid into memory that has room for them. What stands behind the checks is laid first: its check is then known.
ghost use Rattle.std.specs.Prelude.{◌≡◌, ◌+◌, ◌≤◌, length};
ghost use Rattle.fields.specs.Runs.{laid, front};
ghost use Rattle.checks.specs.Check.{payload_check};
ghost use Rattle.frame.specs.Sizes.{closing_size, data_head};
ghost use Rattle.frame.specs.Writing.{data_frame, closing_frame, lengths_frame};
ghost use Rattle.writer.specs.Room.{RoomForLengths};

use crate::packing::{filled_octets, put_lengths};
use crate::parts::{put_checks, put_closing_control, put_control};
use frame::sizes::{DATA_HEAD, LENGTHS_HEAD, LONG_CONTROL, SHORT_CONTROL};
use frame::{ClosingPdu, PduType};
use units::{Octets, Packets};

// The payload in its place, and its check.
fn put_payload(payload: &[u8], out: &mut [u8]) -> u16
    requires { data_head + length payload.now ≤ length out.old }
    ensures { (out.new ≡ laid out.old data_head payload.now) × (result ≡ payload_check payload.now) }
{
    fields::copy(payload, out, DATA_HEAD);
    checks::payload_check(payload)
}

// A Type 1 frame.
pub fn put_data(stamp: u32, number: Packets, elapsed: Octets, payload: &[u8], out: &mut [u8])
    requires { data_head + length payload.now ≤ length out.old }
    ensures { out.new ≡ front out.old (data_frame stamp number.0 elapsed.0 payload.now) }
{
    let check = put_payload(payload, out);
    put_control(out, PduType::Data, stamp, number, elapsed);
    put_checks(out, SHORT_CONTROL, check);
}

// A Type 0 frame: its header check has two padding bits behind it.
pub fn put_closing(c: ClosingPdu, out: &mut [u8])
    requires { closing_size ≤ length out.old }
    ensures { out.new ≡ front out.old (closing_frame c) }
{
    put_closing_control(out, PduType::Closing, c);
    let header = checks::header_check(&out[..LONG_CONTROL]);
    out[LONG_CONTROL] = header << 2;
}

// A Type 3 frame.
pub fn put_with_lengths(c: ClosingPdu, lengths: &[u16], out: &mut [u8])
    requires { RoomForLengths lengths.now out.old }
    ensures { out.new ≡ front out.old (lengths_frame c lengths.now) }
{
    put_lengths(lengths, out);
    let end = LENGTHS_HEAD + filled_octets(lengths.len());
    let check = checks::payload_check(&out[LENGTHS_HEAD..end]);
    put_closing_control(out, PduType::ClosingWithLengths, c);
    put_checks(out, LONG_CONTROL, check);
}
