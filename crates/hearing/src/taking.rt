// What a record takes: refusals 9, 10 and 11, and the stores of a packet. A record that is damaged is refused before, by the
// callers.
ghost use Rattle.std.specs.Prelude.{◌≡◌, true, ◌<◌, length, replicate};
ghost use Rattle.reception.specs.Sendings.{held_in};
ghost use Rattle.reception.specs.Lent.{kept};
ghost use Rattle.reception.specs.Walk.{is_explained};
ghost use Rattle.reception.specs.Damage.{Matched};
ghost use Rattle.reception.specs.Neighbours.{NoneBefore, NoneFrom};
ghost use Rattle.hearing.specs.Following.{ZerosOutside};
ghost use Rattle.reception.specs.Hearing.{kept_in, keeps, data_pdu, open_head, hear_packet, hear_closing, Takes};

use crate::contradicting::{Span, closing_contradicts, packet_contradicts, with_closing};
use crate::looking::Heard;
use damage::other_key;
use frame::ClosingPdu;
use reception::record::Record;
use reception::{Answered, Head};
use units::{Octets, Packets, Refusal};

// A refusal, and the head as it was.
pub fn refused(h: Head, r: Refusal) -> Answered<Refusal>
    ensures { result ≡ keeps h r }
{
    Answered {
        answer: Err(r),
        head: h,
    }
}

// A head of a key, and without a closing.
pub fn open_head(bearer: u32, period: u32, stamp: u32) -> Head
    ensures { result ≡ open_head bearer period stamp }
{
    Head {
        bearer: bearer,
        period: period,
        stamp: stamp,
        closed: false,
        count: Packets(0),
        total: Octets(0),
    }
}

// A span that leaves no place out.
pub fn whole(capacity: usize) -> Span
    ensures { result ≡ record { first = 0; end = capacity } }
{
    Span {
        first: 0,
        end: capacity,
    }
}

// Zeros in every place of a span; outside of it they are there already. Kept: places one by one, since an empty span may begin behind
// its end, where no part of a slice could be filled.
pub fn clear_heard(span: Span, marks: &mut [u8], elapsed: &mut [u32], sizes: &mut [u16])
    requires { ZerosOutside span marks.old elapsed.old sizes.old }
    ensures { (marks.new ≡ replicate (length marks.old) 0)
        × (elapsed.new ≡ replicate (length marks.old) 0)
        × (sizes.new ≡ replicate (length marks.old) 0) }
{
    for k in span.first..span.end {
        marks[k] = 0;
        elapsed[k] = 0;
        sizes[k] = 0;
    }
}

// Zeros in every place.
pub fn clear(marks: &mut [u8], elapsed: &mut [u32], sizes: &mut [u16])
    requires { Matched marks.old elapsed.old sizes.old }
    ensures { (marks.new ≡ replicate (length marks.old) 0)
        × (elapsed.new ≡ replicate (length marks.old) 0)
        × (sizes.new ≡ replicate (length marks.old) 0) }
{
    clear_heard(whole(marks.len()), marks, elapsed, sizes);
}

// A data PDU by its fields and its payload, whose length is the one that is kept, for a record that some sending explains. Numbers are
// handed over in registers, where structs would go through memory. The number stands between octets and payload: so octets and
// length are not fetched by one load of both, which would wait for the stores of each.
// Kept: a head and three lists, since a struct of them behind a `&mut`, tried, is tied to the caller's lists by ghost names alone.
#[tactic(auto, using(crate::proofs::Answered::packet_beyond, crate::proofs::Answered::refused_as))]
pub fn take_packet(
    h: Head,
    span: Span,
    marks: &mut [u8],
    elapsed: &mut [u32],
    sizes: &mut [u16],
    bearer: u32,
    period: u32,
    stamp: u32,
    e: u64,
    k: usize,
    payload: &[u8],
) -> Result<(), Refusal>
    requires cases { Matched marks.old elapsed.old sizes.old }
    requires none_before { NoneBefore marks.old span.first }
    requires none_from { NoneFrom marks.old span.end }
    requires sizes_value { is_explained (held_in h marks.old elapsed.old sizes.old) ≡ true }
    requires e_bound { (e < 4294967296) × (length payload.now < 65536) }
    ensures { Takes
        (hear_packet (kept_in h marks.old elapsed.old sizes.old) bearer period
        (data_pdu stamp k e (length payload.now)))
        (record { answer = result; head = h }) marks.new elapsed.new sizes.new }
{
    if other_key(h, bearer, period, stamp) {
        return Err(Refusal::OtherSequence);
    }
    if marks.len() <= k {
        return Err(Refusal::BeyondCapacity);
    }
    let l = payload.len() as u64;
    let record = Record {
        head: h,
        marks,
        elapsed,
        sizes,
    };
    if packet_contradicts(
        &Heard {
            inner: record,
            span,
        },
        k,
        e,
        l,
    ) {
        return Err(Refusal::Contradiction);
    }
    marks[k] = 1;
    elapsed[k] = e as u32;
    sizes[k] = l as u16;
    Ok(())
}

// A closing PDU, for a record that some sending explains.
pub fn take_closing(r: &Heard, bearer: u32, period: u32, c: ClosingPdu) -> Answered<Refusal>
    ensures { Takes
        (hear_closing (kept r.now.inner) bearer period c)
        result r.now.inner.marks.now r.now.inner.elapsed.now r.now.inner.sizes.now }
{
    let h = r.inner.head;
    if other_key(h, bearer, period, c.stamp) {
        return refused(h, Refusal::OtherSequence);
    }
    if r.inner.marks.len() < c.number.0 as usize {
        return refused(h, Refusal::BeyondCapacity);
    }
    if closing_contradicts(r, c.number, c.elapsed) {
        return refused(h, Refusal::Contradiction);
    }
    Answered {
        answer: Ok(()),
        head: with_closing(h, c.number, c.elapsed),
    }
}
