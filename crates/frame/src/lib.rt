// What SYNC frames say, their sizes, and what reading them answers. The definitions are in specs/; the functions stand
// in `reader` and `writer`.
#![tactic(auto)]

pub mod sizes;
mod types;

pub use types::PduType;
use units::{Octets, Packets, Refusal};

// A data PDU (Type 1): the packets and octets of its sequence before it, and the octets of its payload.
#[derive(Clone, Copy, Debug, PartialEq, Eq)]
pub struct DataPdu {
    pub stamp: u32,
    pub number: Packets,
    pub elapsed: Octets,
    pub length: Octets,
}

// A closing PDU (Types 0 and 3): the packets and octets of its sequence, and then those of the period.
#[derive(Clone, Copy, Debug, PartialEq, Eq)]
pub struct ClosingPdu {
    pub stamp: u32,
    pub number: Packets,
    pub elapsed: Octets,
    pub packets: Packets,
    pub octets: Octets,
}

// What a frame says, or why it is refused. Kept, and no `Result`: document 01 names this form, "the reader answers an enum: closing, data,
// closing with lengths, or a refusal number".
#[derive(Clone, Copy, Debug, PartialEq, Eq)]
pub enum Read {
    Closing(ClosingPdu),
    Data(DataPdu),
    ClosingWithLengths(ClosingPdu),
    Refused(Refusal),
}
