// The lines that are printed, put into lent memory.
ghost use Rattle.std.specs.Prelude.{◌+◌, ◌*◌, ◌≤◌, length};
ghost use Rattle.second_frames.specs.Growing.{Grows};

use frame::{ClosingPdu, DataPdu};
use lines::Text;
use units::Refusal;

// A closing PDU, and no line's end yet.
pub fn put_closing(text: &mut Text, word: &[u8], c: ClosingPdu)
    requires { text.old.at + (length word.now + 105) ≤ length text.old.out.now }
    ensures { Grows (length word.now + 105) text.old text.new }
{
    let stamp = u64::from(c.stamp);
    let number = u64::from(c.number.0);
    let packets = u64::from(c.packets.0);
    text.put_fields(word, &[stamp, number, c.elapsed.0, packets, c.octets.0]);
}

// The line of a data PDU.
pub fn put_data(text: &mut Text, d: DataPdu)
    requires { text.old.at + 128 ≤ length text.old.out.now }
    ensures { Grows 128 text.old text.new }
{
    let stamp = u64::from(d.stamp);
    let number = u64::from(d.number.0);
    text.put_line(b"data", &[stamp, number, d.elapsed.0, d.length.0]);
}

// The line of a refused frame, with both checks where the refusal tells of one.
pub fn put_refused(text: &mut Text, refusal: Refusal)
    requires { text.old.at + 128 ≤ length text.old.out.now }
    ensures { Grows 128 text.old text.new }
{
    let number = u64::from(refusal.number());
    match refusal.checks() {
        Some(c) => {
            let found = u64::from(c.found);
            let worked_out = u64::from(c.worked_out);
            text.put_line(b"refused", &[number, found, worked_out]);
        }
        None => text.put_line(b"refused", &[number]),
    }
}

// Each of a row of numbers: the lengths behind a closing PDU, or octets.
pub fn put_numbers<T: Copy>(text: &mut Text, numbers: &[T])
where
    u64: From<T>,
    requires { text.old.at + 21 * length numbers.now ≤ length text.old.out.now }
    ensures { Grows (21 * length numbers.now) text.old text.new }
{
    for n in numbers {
        text.put_number(u64::from(*n));
    }
}

// The line of a frame whose octets came out other than they were read.
pub fn put_written(text: &mut Text, octets: &[u8])
    requires { text.old.at + (128 + 21 * length octets.now) ≤ length text.old.out.now }
    ensures { Grows (128 + 21 * length octets.now) text.old text.new }
{
    text.put(b"written");
    put_numbers(text, octets);
    text.put_end();
}
