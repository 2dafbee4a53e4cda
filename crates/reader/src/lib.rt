// SYNC frames read, from any octets: what a frame says, or the first refusal that applies. Each stage of the order of refusals is
// a function, proved against the same stage of the definition.
#![tactic(auto)]

mod lengths;
mod parts;

ghost use Rattle.std.specs.Prelude.{◌≡◌, ◌≤◌, length};
ghost use Rattle.frame.specs.Layout.{least};
ghost use Rattle.frame.specs.Paper.{read_paper};
ghost use Rattle.frame.specs.Sizes.{closing_size, data_head, lengths_head};
ghost use Rattle.frame.specs.Reading.{read_body, read_headed, read_frame};
ghost use Rattle.frame.specs.Types.{number_of_type};

use frame::sizes::{CLOSING_SIZE, DATA_HEAD, LENGTHS_HEAD, LONG_CONTROL, SHORT_CONTROL};
use frame::{PduType, Read};
pub use lengths::read_lengths;
use parts::{closing_of, data_of, header_compared, payload_compared};
use payloads::payload_kept;
use units::Refusal;
use units::limits::{LAST_STAMP, MOST_PAYLOAD};

// Type 0.
#[tactic(auto, unfolding(frame::specs::Reading::read_body))]
fn read_closing(frame: &[u8]) -> Read
    requires { closing_size ≤ length frame.now }
    ensures { result ≡ read_body 0 frame.now }
{
    if frame.len() != CLOSING_SIZE {
        return Read::Refused(Refusal::SizeWrong);
    }
    let c = closing_of(frame);
    if counts::closing_wrong(c) {
        return Read::Refused(Refusal::CountsImpossible);
    }
    Read::Closing(c)
}

// Type 1. The check covers the whole part from the twelfth octet to the end; the payload may be less.
#[tactic(auto, unfolding(frame::specs::Reading::read_body))]
fn read_data(frame: &[u8]) -> Read
    requires { data_head ≤ length frame.now }
    ensures { result ≡ read_body 1 frame.now }
{
    let part = &frame[DATA_HEAD..];
    let kept = payload_kept(part);
    if MOST_PAYLOAD < kept {
        return Read::Refused(Refusal::SizeWrong);
    }
    let t = payload_compared(frame, SHORT_CONTROL, part);
    if t.worked_out != t.found {
        return Read::Refused(Refusal::PayloadCheckWrong(t));
    }
    let d = data_of(frame, kept);
    if counts::data_wrong(d.number, d.elapsed) {
        return Read::Refused(Refusal::CountsImpossible);
    }
    Read::Data(d)
}

// Type 3. Up to four octets of extension may follow the lengths.
#[tactic(auto, unfolding(frame::specs::Reading::read_body))]
fn read_with_lengths(frame: &[u8]) -> Read
    requires { lengths_head ≤ length frame.now }
    ensures { result ≡ read_body 3 frame.now }
{
    let c = closing_of(frame);
    let end = LENGTHS_HEAD + (3 * (c.number.0 as usize) + 1) / 2;
    if frame.len() < end || end + 4 < frame.len() {
        return Read::Refused(Refusal::SizeWrong);
    }
    let t = payload_compared(frame, LONG_CONTROL, &frame[LENGTHS_HEAD..]);
    if t.worked_out != t.found {
        return Read::Refused(Refusal::PayloadCheckWrong(t));
    }
    if lengths::lengths_wrong(frame, c) {
        return Read::Refused(Refusal::CountsImpossible);
    }
    Read::ClosingWithLengths(c)
}

// A frame of a type, whose header check and stamp are right.
fn read_body(frame: &[u8], kind: PduType) -> Read
    requires { least (number_of_type kind) ≤ length frame.now }
    ensures { result ≡ read_body (number_of_type kind) frame.now }
{
    match kind {
        PduType::Closing => read_closing(frame),
        PduType::Data => read_data(frame),
        PduType::ClosingWithLengths => read_with_lengths(frame),
    }
}

// A frame of a type, and long enough for it.
#[tactic(auto, unfolding(frame::specs::Reading::read_headed))]
fn read_headed(frame: &[u8], kind: PduType) -> Read
    requires { least (number_of_type kind) ≤ length frame.now }
    ensures { result ≡ read_headed (number_of_type kind) frame.now }
{
    let t = header_compared(frame, kind.control());
    if t.worked_out != t.found {
        return Read::Refused(Refusal::HeaderCheckWrong(t));
    }
    if LAST_STAMP < fields::field(frame, 1, 2) {
        return Read::Refused(Refusal::StampTooHigh);
    }
    read_body(frame, kind)
}

// What a frame says, or the first refusal that applies.
#[tactic(auto, unfolding(frame::specs::Reading::read_frame), using(frame::proofs::TypeNamed::named, frame::proofs::TypeNamed::unnamed))]
pub fn read_frame(frame: &[u8]) -> Read
    ensures { read_paper result ≡ read_paper (read_frame frame.now) }
{
    if frame.is_empty() {
        return Read::Refused(Refusal::TooShort);
    }
    let kind = match PduType::try_from(frame[0] >> 4) {
        Ok(kind) => kind,
        Err(refusal) => return Read::Refused(refusal),
    };
    if frame.len() < kind.least() {
        return Read::Refused(Refusal::TooShort);
    }
    read_headed(frame, kind)
}
