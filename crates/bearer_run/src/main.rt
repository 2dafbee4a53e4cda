// Runs the functions that advance a sender where it stands beside those by value, and prints each answer and any difference.
#![tactic(auto)]

mod alike;
mod calls;
mod lent;

use alike::Both;
use sender::{Phase, Sender};
use std::io;
use units::{Octets, Packets};

// What is out of turn before a sequence and in it.
fn out_of_turn(both: &mut Both<impl Print>) -> io::Result<()> {
    both.data("data before open", b"abc", 64)?;
    both.close("close before open", 64)?;
    both.open("open 60000", 60000)?;
    both.open("open 100", 100)?;
    both.open("open again", 101)?;
    both.new_period("new period while open")
}

// Frames of the sequence, among them one that has no room and one that is too long.
fn frames(both: &mut Both<impl Print>) -> io::Result<()> {
    both.data("data abc", b"abc", 64)?;
    both.data("data none", b"", 64)?;
    both.data("data hello, no room", b"hello", 13)?;
    both.data("data of 4096", &[7; 4096], 64)?;
    both.data("data hello", b"hello", 64)
}

// The sequence is closed by a Type 0 frame, and the next one has a later stamp.
fn closed_plainly(both: &mut Both<impl Print>) -> io::Result<()> {
    both.close("close, no room", 17)?;
    both.close("close", 64)?;
    both.open("open 100", 100)?;
    both.open("open 101", 101)?;
    both.data("data x", b"x", 64)?;
    both.data("data yz", b"yz", 64)
}

// The sequence is closed with its lengths.
fn closed_with_lengths(both: &mut Both<impl Print>) -> io::Result<()> {
    both.close_with("close with lengths 1 1", &[1, 1], 64)?;
    both.close_with("close with lengths 1 2, no room", &[1, 2], 21)?;
    both.close_with("close with lengths 1 2", &[1, 2], 64)?;
    both.close_with("close with lengths again", &[1, 2], 64)
}

// The next period, with a sequence that has no data.
fn next_period(both: &mut Both<impl Print>) -> io::Result<()> {
    both.new_period("new period")?;
    both.open("open 0", 0)?;
    both.close("close without data", 64)
}

fn damaged(both: &mut Both<impl Print>) -> io::Result<()> {
    both.open("open damaged", 6)?;
    both.data("data damaged", b"abc", 64)?;
    both.close("close damaged", 64)?;
    both.new_period("new period damaged")
}

fn main(rt: HostRuntime) -> io::Result<()> {
    let mut both = Both::new(&rt, sender::fresh());
    out_of_turn(&mut both)?;
    frames(&mut both)?;
    closed_plainly(&mut both)?;
    closed_with_lengths(&mut both)?;
    next_period(&mut both)?;
    let s = Sender {
        phase: Phase::Closed,
        stamp: 5,
        number: Packets(1),
        elapsed: Octets(0),
        packets: Packets(1),
        octets: Octets(0),
    };
    damaged(&mut Both::new(&rt, s))
}
