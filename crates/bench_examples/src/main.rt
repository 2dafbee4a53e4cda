// Runs the bench examples that are not proved as theorems, F and J, and prints what comes out.
#![tactic(auto)]

use frame::Read;
use std::io;
use units::{Octets, Packets};

fn tell_read(out: &impl Print, name: &str, frame: &[u8]) -> io::Result<()> {
    match reader::read_frame(frame) {
        Read::Data(d) => println!(out; "{name}: data, payload {}", d.length.0),
        Read::Closing(c) => println!(out; "{name}: closing, packets {}", c.number.0),
        Read::ClosingWithLengths(c) => {
            println!(out; "{name}: closing with lengths, packets {}", c.number.0)
        }
        Read::Refused(r) => println!(out; "{name}: refused {}", r.number()),
    }
}

// Writes a first packet, and reads back what was written.
#[tactic(auto, unfolding(frame::specs::Writing::write_data, frame::specs::Paper::written_paper))]
fn write_and_read(out: &impl Print, name: &str, payload: &[u8], room: &mut [u8]) -> io::Result<()> {
    match writer::write_data(0, Packets(0), Octets(0), payload, room) {
        Ok(n) => {
            println!(out; "{name}: written {n}")?;
            tell_read(out, "J, read back", &room[..n])
        }
        Err(r) => println!(out; "{name}: refused {}", r.number()),
    }
}

fn main(rt: HostRuntime) -> io::Result<()> {
    let frames: [(&str, &[u8]); 4] = [
        ("B", b"\x10\x00\x00\x00\x00\x00\x00\x00\x00\x3A\x33\x01"),
        (
            "F, B with 00 as last octet",
            b"\x10\x00\x00\x00\x00\x00\x00\x00\x00\x3A\x33\x00",
        ),
        (
            "F, first octet 20",
            b"\x20\x00\x00\x00\x00\x00\x00\x00\x00\x3A\x33\x01",
        ),
        (
            "F, ten octets starting 10",
            b"\x10\x00\x00\x00\x00\x00\x00\x00\x00\x3A",
        ),
    ];
    for (name, frame) in frames {
        tell_read(&rt, name, frame)?;
    }
    let payload = [7u8; 4096];
    let mut room = [0u8; 4200];
    write_and_read(&rt, "J, payload 4095", &payload[..4095], &mut room)?;
    write_and_read(&rt, "J, payload 4096", &payload, &mut room)
}
