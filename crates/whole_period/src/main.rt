// Drives a sender through whole periods of several sequences, and prints each frame and refusal.
#![tactic(auto)]

#[cfg(test)]
mod methods;
mod told;

use sender::{Phase, Sender};
use std::io;
use told::Driven;
use units::{Octets, Packets};

// What is out of turn before a sequence and within it.
fn out_of_turn(s: &mut Driven<impl Print>) -> io::Result<()> {
    s.data("data before open", b"abc")?;
    s.close("close before open")?;
    s.open("open 60000", 60000)?;
    s.open("open 100", 100)?;
    s.open("open again", 101)?;
    s.renew("new period while open")
}

// Three sequences of a period, one of them without data. The next sequence comes later than the last.
fn first_period(s: &mut Driven<impl Print>) -> io::Result<()> {
    s.data("data abc", b"abc")?;
    s.data("data none", b"")?;
    s.data("data hello", b"hello")?;
    s.close("close")?;
    s.open("open 100", 100)?;
    s.open("open 99", 99)?;
    s.open("open 101", 101)?;
    s.close("close without data")
}

// Closing with lengths: not as many, not their sum, and right.
fn with_lengths(s: &mut Driven<impl Print>) -> io::Result<()> {
    s.open("open 59999", 59999)?;
    s.data("data x", b"x")?;
    s.data("data yz", b"yz")?;
    s.close_with("close with lengths 1 1", &[1, 1])?;
    s.close_with("close with lengths 3", &[3])?;
    s.close_with("close with lengths 1 2", &[1, 2])?;
    s.renew("new period")
}

// The largest payload, one that is too large, and no room.
fn sizes(s: &mut Driven<impl Print>) -> io::Result<()> {
    let payload = [7u8; 4096];
    s.open("open 0", 0)?;
    s.size_of_data("data of 4095", &payload[..4095])?;
    s.size_of_data("data of 4096", &payload)?;
    s.data_into("data abc into 13", b"abc", &mut [0; 13])?;
    s.close("close")?;
    s.renew("new period")
}

// As many packets as a sequence has, and then as a period has.
fn limits(s: &mut Driven<impl Print>) -> io::Result<()> {
    s.drive(0, 65535);
    s.data("data after 65535", b"")?;
    s.close("close")?;
    for stamp in 1..256 {
        s.drive(stamp, 65535);
        s.end();
    }
    s.drive(256, 255);
    s.data("data after 16777215", b"")?;
    s.close("close")
}

fn main(rt: HostRuntime) -> io::Result<()> {
    let mut s = Driven {
        to: &rt,
        sender: sender::fresh(),
    };
    out_of_turn(&mut s)?;
    first_period(&mut s)?;
    with_lengths(&mut s)?;
    sizes(&mut s)?;
    limits(&mut s)?;
    s.sender = Sender {
        phase: Phase::Closed,
        stamp: 5,
        number: Packets(1),
        elapsed: Octets(0),
        packets: s.sender.packets,
        octets: Octets(0),
    };
    s.open("open damaged", 6)?;
    s.renew("new period damaged")
}
