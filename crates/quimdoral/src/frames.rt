// Frames: reading, lengths, what is kept of a payload, and writing from given fields.
ghost use Rattle.std.specs.Prelude.{◌≡◌, length};
ghost use Rattle.frame.specs.Paper.{read_paper};
ghost use Rattle.frame.specs.Payloads.{payload_kept};
ghost use Rattle.frame.specs.Reading.{read_frame};
ghost use Rattle.frame.specs.Writing.{data_frame, closing_frame, lengths_frame, write_data, write_closing, write_lengths};
ghost use Rattle.numbers_frames.specs.Reading.{ReadOut, ListsInOne};
ghost use Rattle.numbers_frames.specs.Writing.{closing_given, Writes};

// Reads a frame. Answers 0 and writes seven numbers: one more than the PDU type, stamp, packet number, elapsed octets, total
// packets, total octets, payload length. Or answers the refusal, with both checks of 4 and 7, and writes nothing.
#[unsafe(no_mangle)]
pub extern "C" fn quimdoral_read_frame(frame: &[u8], said: &mut [u64]) -> u64
    ensures { ReadOut (read_paper (read_frame frame.now)) said.old result said.new }
{
    numbers_frames::read_numbers(frame, said)
}

// The lengths of a Type 3 frame, in front of a lent list. A frame of another type has none. A refusal has both checks of 4 and 7.
#[unsafe(no_mangle)]
pub extern "C" fn quimdoral_read_lengths(frame: &[u8], lengths: &mut [u16]) -> u64
    ensures { ListsInOne frame.now lengths.old result lengths.new }
{
    numbers_frames::lengths_in_one(frame, lengths)
}

// How many octets of a payload a reader takes, so that whoever sends can see it before: up to four behind an IP packet are dropped.
#[unsafe(no_mangle)]
pub extern "C" fn quimdoral_payload_kept(payload: &[u8]) -> u64
    ensures { result ≡ payload_kept payload.now }
{
    payloads::payload_kept(payload)
}

// Writes a data PDU (Type 1).
#[unsafe(no_mangle)]
pub extern "C" fn quimdoral_write_data(
    stamp: u32,
    number: u32,
    elapsed: u64,
    payload: &[u8],
    out: &mut [u8],
) -> u64
    ensures { Writes
        (write_data stamp number elapsed (length payload.now) (length out.old))
        (data_frame stamp number elapsed payload.now)
        out.old result out.new }
{
    numbers_frames::data_in_one(stamp, number, elapsed, payload, out)
}

// Writes a closing PDU without lengths (Type 0).
#[unsafe(no_mangle)]
pub extern "C" fn quimdoral_write_closing(
    stamp: u32,
    number: u32,
    elapsed: u64,
    packets: u32,
    octets: u64,
    out: &mut [u8],
) -> u64
    ensures { Writes
        (write_closing (closing_given stamp number elapsed packets octets) (length out.old))
        (closing_frame (closing_given stamp number elapsed packets octets))
        out.old result out.new }
{
    numbers_frames::closing_in_one(stamp, number, elapsed, packets, octets, out)
}

// Writes a closing PDU with the length of each packet (Type 3).
#[unsafe(no_mangle)]
pub extern "C" fn quimdoral_write_closing_with_lengths(
    stamp: u32,
    number: u32,
    elapsed: u64,
    packets: u32,
    octets: u64,
    lengths: &[u16],
    out: &mut [u8],
) -> u64
    ensures { Writes
        (write_lengths (closing_given stamp number elapsed packets octets) lengths.now (length out.old))
        (lengths_frame (closing_given stamp number elapsed packets octets) lengths.now)
        out.old result out.new }
{
    numbers_frames::closing_with_lengths_in_one(
        stamp, number, elapsed, packets, octets, lengths, out,
    )
}
