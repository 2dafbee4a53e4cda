// Hearing that goes on: for callers that know the record to be undamaged, since they made it fresh and heard into it by these
// functions alone. What is kept beside the record makes the cost of a frame in order the same at every capacity.
ghost use Rattle.std.specs.Prelude.{◌≡◌, false, ◌+◌, ◌<◌, min, max, length};
ghost use Rattle.reception.specs.Damage.{Matched};
ghost use Rattle.reception.specs.Lent.{kept};
ghost use Rattle.reception.specs.Neighbours.{NoneBefore, NoneFrom};
ghost use Rattle.reception.specs.Hearing.{kept_in, damaged_kept, hear_packet, hear_closing, hear_frame};
ghost use Rattle.hearing.specs.Following.{followed, Follows};

use crate::contradicting::Span;
use crate::looking::Heard;
use crate::taking::{take_closing, take_packet};
use frame::sizes::DATA_HEAD;
use frame::{ClosingPdu, DataPdu, Read};
use reception::Head;
use reception::record::Record;
use units::Refusal;

// The head of the record after a frame, the places in which packets were heard, and the answer. The answer stands last: so the head
// is copied as it was stored, and no copy has to wait for several stores.
#[derive(Clone, Copy)]
pub struct Following {
    pub head: Head,
    pub span: Span,
    pub answer: Result<(), Refusal>,
}

// The span of an empty record.
pub fn empty_span(capacity: usize) -> Span
    ensures { result ≡ record { first = capacity; end = 0 } }
{
    Span {
        first: capacity,
        end: 0,
    }
}

// The answer about packet k, and the span after it.
fn follow(h: Head, answer: Result<(), Refusal>, span: Span, k: usize) -> Following
    requires { k < 65536 }
    ensures { result ≡ followed (record { answer = answer; head = h }) span k }
{
    let after = match answer {
        Ok(_) => Span {
            first: k.min(span.first),
            end: (k + 1).max(span.end),
        },
        Err(_) => span,
    };
    Following {
        head: h,
        span: after,
        answer,
    }
}

// A data PDU and its payload.
fn next_packet(
    h: Head,
    span: Span,
    marks: &mut [u8],
    elapsed: &mut [u32],
    sizes: &mut [u16],
    bearer: u32,
    period: u32,
    d: DataPdu,
    payload: &[u8],
) -> Following
    requires cases { Matched marks.old elapsed.old sizes.old }
    requires none_before { NoneBefore marks.old span.first }
    requires none_from { NoneFrom marks.old span.end }
    requires sizes_value { damaged_kept (kept_in h marks.old elapsed.old sizes.old) ≡ false }
    requires number_bound { (d.number.0 < 65536) × (d.elapsed.0 < 4294967296) × (length payload.now < 65536)
        × (d.length.0 ≡ length payload.now) }
    ensures { Follows
        (hear_packet (kept_in h marks.old elapsed.old sizes.old) bearer period d)
        result marks.new elapsed.new sizes.new }
{
    let k = d.number.0 as usize;
    let answer = take_packet(
        h,
        span,
        marks,
        elapsed,
        sizes,
        bearer,
        period,
        d.stamp,
        d.elapsed.0,
        k,
        payload,
    );
    follow(h, answer, span, k)
}

// A closing PDU.
fn next_closing(r: &Heard, bearer: u32, period: u32, c: ClosingPdu) -> Following
    ensures { Follows
        (hear_closing (kept r.now.inner) bearer period c)
        result r.now.inner.marks.now r.now.inner.elapsed.now r.now.inner.sizes.now }
{
    let t = take_closing(r, bearer, period, c);
    Following {
        head: t.head,
        span: r.span,
        answer: t.answer,
    }
}

// Takes the next frame into a record that is known to be undamaged.
pub fn hear_next(
    h: Head,
    span: Span,
    marks: &mut [u8],
    elapsed: &mut [u32],
    sizes: &mut [u16],
    bearer: u32,
    period: u32,
    frame: &[u8],
) -> Following
    requires cases { Matched marks.old elapsed.old sizes.old }
    requires none_before { NoneBefore marks.old span.first }
    requires none_from { NoneFrom marks.old span.end }
    requires sizes_value { damaged_kept (kept_in h marks.old elapsed.old sizes.old) ≡ false }
    ensures { Follows
        (hear_frame (kept_in h marks.old elapsed.old sizes.old) bearer period frame.now)
        result marks.new elapsed.new sizes.new }
{
    let read = reader::read_frame(frame);
    match read {
        Read::Refused(r) => Following {
            answer: Err(r),
            head: h,
            span: span,
        },
        Read::Data(d) => next_packet(
            h,
            span,
            marks,
            elapsed,
            sizes,
            bearer,
            period,
            d,
            &frame[DATA_HEAD..DATA_HEAD + d.length.0 as usize],
        ),
        Read::Closing(c) | Read::ClosingWithLengths(c) => {
            let record = Record {
                head: h,
                marks,
                elapsed,
                sizes,
            };
            next_closing(
                &Heard {
                    inner: record,
                    span,
                },
                bearer,
                period,
                c,
            )
        }
    }
}
