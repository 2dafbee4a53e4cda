// Hearing: a fresh record, and frames taken into it.
#![tactic(auto)]

pub mod contradicting;
pub mod following;
pub mod looking;
pub mod taking;

ghost use Rattle.std.specs.Prelude.{◌≡◌, ◌<◌, length};
ghost use Rattle.frame.specs.declared.Read.TheVariants.{Data, Closing};
ghost use Rattle.reception.specs.Damage.{Matched};
ghost use Rattle.reception.specs.Lent.{kept};
ghost use Rattle.reception.specs.Hearing.{kept_in, fresh_record, hear_read, hear_frame, Takes};

use damage::lists_differ;
use frame::sizes::DATA_HEAD;
use frame::{ClosingPdu, DataPdu, Read};
use looking::Heard;
use reception::record::Record;
use reception::{Answered, Head};
use taking::{clear, open_head, refused, take_closing, take_packet, whole};
use units::Refusal;
use units::limits::LAST_STAMP;

// An empty record of a key, in three lists of one length.
pub fn fresh(
    bearer: u32,
    period: u32,
    stamp: u32,
    marks: &mut [u8],
    elapsed: &mut [u32],
    sizes: &mut [u16],
) -> Answered<Refusal>
    ensures { Takes
        (fresh_record bearer period stamp marks.old elapsed.old sizes.old)
        result marks.new elapsed.new sizes.new }
{
    if lists_differ(marks.len(), elapsed.len(), sizes.len()) {
        return refused(open_head(0, 0, 0), Refusal::CapacitiesDiffer);
    }
    if LAST_STAMP < stamp as u64 {
        return refused(open_head(0, 0, 0), Refusal::StampTooHigh);
    }
    clear(marks, elapsed, sizes);
    Answered {
        answer: Ok(()),
        head: open_head(bearer, period, stamp),
    }
}

// A data PDU and its payload, for any record of matching lists.
fn hear_data(
    h: Head,
    marks: &mut [u8],
    elapsed: &mut [u32],
    sizes: &mut [u16],
    bearer: u32,
    period: u32,
    d: DataPdu,
    payload: &[u8],
) -> Answered<Refusal>
    requires cases { Matched marks.old elapsed.old sizes.old }
    requires elapsed_bound { (d.elapsed.0 < 4294967296) × (length payload.now < 65536) }
    requires length_value { d.length.0 ≡ length payload.now }
    ensures { Takes
        (hear_read (kept_in h marks.old elapsed.old sizes.old) bearer period (Data d))
        result marks.new elapsed.new sizes.new }
{
    let record = Record {
        head: h,
        marks,
        elapsed,
        sizes,
    };
    if damage::is_damaged(&record) {
        return refused(h, Refusal::RecordDamaged);
    }
    let span = whole(marks.len());
    let k = d.number.0 as usize;
    let answer = take_packet(
        h,
        span,
        marks,
        elapsed,
        sizes,
        bearer,
        period,
        d.stamp,
        d.elapsed.0,
        k,
        payload,
    );
    Answered { answer, head: h }
}

// A closing PDU, for any record.
fn hear_closing(r: &Record, bearer: u32, period: u32, c: ClosingPdu) -> Answered<Refusal>
    ensures { Takes
        (hear_read (kept r.now) bearer period (Closing c))
        result r.now.marks.now r.now.elapsed.now r.now.sizes.now }
{
    if damage::is_damaged(r) {
        return refused(r.head, Refusal::RecordDamaged);
    }
    let span = whole(r.marks.len());
    take_closing(&Heard { inner: *r, span }, bearer, period, c)
}

// Takes a frame into a record. The caller says which bearer and period it came in.
pub fn hear(
    h: Head,
    marks: &mut [u8],
    elapsed: &mut [u32],
    sizes: &mut [u16],
    bearer: u32,
    period: u32,
    frame: &[u8],
) -> Answered<Refusal>
    ensures { Takes
        (hear_frame (kept_in h marks.old elapsed.old sizes.old) bearer period frame.now)
        result marks.new elapsed.new sizes.new }
{
    if lists_differ(marks.len(), elapsed.len(), sizes.len()) {
        return refused(h, Refusal::CapacitiesDiffer);
    }
    let read = reader::read_frame(frame);
    match read {
        Read::Refused(r) => Answered {
            answer: Err(r),
            head: h,
        },
        Read::Data(d) => hear_data(
            h,
            marks,
            elapsed,
            sizes,
            bearer,
            period,
            d,
            &frame[DATA_HEAD..DATA_HEAD + d.length.0 as usize],
        ),
        Read::Closing(c) | Read::ClosingWithLengths(c) => {
            let record = Record {
                head: h,
                marks,
                elapsed,
                sizes,
            };
            hear_closing(&record, bearer, period, c)
        }
    }
}
