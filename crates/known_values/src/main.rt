// Prints the two checks of rows whose values are known from elsewhere: the digits 1 to 9, for which catalogues of checks give a
// value, and the parts of the bench examples A to D.
#![tactic(auto)]

use std::io;

fn header(out: &impl Print, name: &str, control: &[u8]) -> io::Result<()> {
    println!(out;
        "{name}: header check {:02x}",
        checks::header_check(control)
    )
}

fn payload(out: &impl Print, name: &str, part: &[u8]) -> io::Result<()> {
    println!(out; "{name}: payload check {:03x}", checks::payload_check(part))
}

fn main(rt: HostRuntime) -> io::Result<()> {
    header(&rt, "no octets", b"")?;
    payload(&rt, "no octets", b"")?;
    header(&rt, "123456789", b"123456789")?;
    payload(&rt, "123456789", b"123456789")?;
    header(&rt, "example A", b"\x10\x00\x00\x00\x00\x00\x00\x00\x00")?;
    payload(&rt, "example A", b"")?;
    header(&rt, "example B", b"\x10\x00\x00\x00\x00\x00\x00\x00\x00")?;
    payload(&rt, "example B", b"\x01")?;
    header(
        &rt,
        "example C",
        b"\x00\x00\x00\x00\x01\x00\x00\x00\x01\x00\x00\x01\x00\x00\x00\x00\x01",
    )?;
    header(
        &rt,
        "example D",
        b"\x30\x00\x00\x00\x01\x00\x00\x00\x01\x00\x00\x01\x00\x00\x00\x00\x01",
    )?;
    payload(&rt, "example D", b"\x00\x10")?;
    payload(&rt, "00 11, not 00 10", b"\x00\x11")
}
