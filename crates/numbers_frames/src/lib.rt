// Frames as numbers for C and Rust: a frame that is read as seven numbers in a lent list, and frames written from given fields and the
// lengths of a Type 3 frame with the answer in one number, which is 256 times how many octets or lengths were written, or a refusal.
#![tactic(auto)]

ghost use Rattle.std.specs.Prelude.{◌≡◌, [], ◌∷◌, length};
ghost use Rattle.frame.specs.Paper.{read_paper};
ghost use Rattle.frame.specs.Reading.{read_frame};
ghost use Rattle.frame.specs.Writing.{data_frame, closing_frame, lengths_frame, write_data, write_closing, write_lengths};
ghost use Rattle.numbers_frames.specs.Reading.{ReadOut, ListsInOne};
ghost use Rattle.numbers_frames.specs.Writing.{closing_given, Writes};

use frame::{ClosingPdu, Read};
use numbers::{in_one, number_of, put_in_front};
use reader::{read_frame, read_lengths};
use units::{Octets, Packets};
use writer::{write_closing, write_closing_with_lengths, write_data};

// What a closing PDU says, behind one more than its type.
fn closing_values(kind: u64, c: ClosingPdu) -> [u64; 7]
    ensures { result ≡ kind ∷ c.stamp ∷ c.number.0 ∷ c.elapsed.0 ∷ c.packets.0 ∷ c.octets.0 ∷ 0 ∷ [] }
{
    [
        kind,
        u64::from(c.stamp),
        u64::from(c.number.0),
        c.elapsed.0,
        u64::from(c.packets.0),
        c.octets.0,
        0,
    ]
}

// Reads a frame. Answers 0 and writes seven numbers: one more than the PDU type, stamp, packet number, elapsed octets, total
// packets, total octets, payload length. Or answers the refusal, with both checks of 4 and 7, and writes nothing.
pub fn read_numbers(frame: &[u8], said: &mut [u64]) -> u64
    ensures { ReadOut (read_paper (read_frame frame.now)) said.old result said.new }
{
    let values = match read_frame(frame) {
        Read::Refused(r) => return r.in_one(),
        Read::Data(d) => [
            2,
            u64::from(d.stamp),
            u64::from(d.number.0),
            d.elapsed.0,
            0,
            0,
            d.length.0,
        ],
        Read::Closing(c) => closing_values(1, c),
        Read::ClosingWithLengths(c) => closing_values(4, c),
    };
    u64::from(number_of(put_in_front(said, values)))
}

// The lengths of a Type 3 frame, in front of a lent list. A frame of another type has none. A refusal has both checks of 4 and 7.
#[tactic(auto, unfolding(numbers::specs::Answers::in_one, frame::specs::Paper::written_paper, frame::specs::Paper::listed_paper))]
pub fn lengths_in_one(frame: &[u8], lengths: &mut [u16]) -> u64
    ensures { ListsInOne frame.now lengths.old result lengths.new }
{
    in_one(read_lengths(frame, lengths).map(|n| n.0 as usize))
}

// Writes a data PDU (Type 1).
#[tactic(auto, using(numbers::proofs::InOne::as_few, crate::proofs::FramesCounted::few_data, crate::proofs::FramesCounted::wrote))]
pub fn data_in_one(stamp: u32, number: u32, elapsed: u64, payload: &[u8], out: &mut [u8]) -> u64
    ensures { Writes
        (write_data stamp number elapsed (length payload.now) (length out.old))
        (data_frame stamp number elapsed payload.now)
        out.old result out.new }
{
    in_one(write_data(stamp, Packets(number), Octets(elapsed), payload, out))
}

fn closing_given(stamp: u32, number: u32, elapsed: u64, packets: u32, octets: u64) -> ClosingPdu
    ensures { result ≡ closing_given stamp number elapsed packets octets }
{
    ClosingPdu {
        stamp,
        number: Packets(number),
        elapsed: Octets(elapsed),
        packets: Packets(packets),
        octets: Octets(octets),
    }
}

// Writes a closing PDU without lengths (Type 0).
pub fn closing_in_one(
    stamp: u32,
    number: u32,
    elapsed: u64,
    packets: u32,
    octets: u64,
    out: &mut [u8],
) -> u64
    ensures { Writes
        (write_closing (closing_given stamp number elapsed packets octets) (length out.old))
        (closing_frame (closing_given stamp number elapsed packets octets))
        out.old result out.new }
{
    let c = closing_given(stamp, number, elapsed, packets, octets);
    in_one(write_closing(c, out))
}

// Writes a closing PDU with the length of each packet (Type 3).
pub fn closing_with_lengths_in_one(
    stamp: u32,
    number: u32,
    elapsed: u64,
    packets: u32,
    octets: u64,
    lengths: &[u16],
    out: &mut [u8],
) -> u64
    ensures { Writes
        (write_lengths (closing_given stamp number elapsed packets octets) lengths.now (length out.old))
        (lengths_frame (closing_given stamp number elapsed packets octets) lengths.now)
        out.old result out.new }
{
    let given = closing_given(stamp, number, elapsed, packets, octets);
    in_one(write_closing_with_lengths(given, lengths, out))
}
