// The reception record: what was heard of one sequence, which sendings explain it, and when it is damaged. The definitions are in
// specs/ and their theory in proofs/; functions on records stand in the crates above.
#![tactic(auto)]

pub mod record;

use units::{Octets, Packets, Refusal};

// The key and the closing of a record. What was heard of each packet number stands in three lent lists beside it: marks (1 heard,
// 0 not), elapsed octets and payload lengths.
#[derive(Clone, Copy, Debug, PartialEq, Eq)]
pub struct Head {
    pub bearer: u32,
    pub period: u32,
    pub stamp: u32,
    pub closed: bool,
    pub count: Packets,
    pub total: Octets,
}

// What a call answers, and the head of the record after it. Not every answer has one kind of refusal: `E` says which.
#[derive(Clone, Copy, Debug, PartialEq, Eq)]
pub struct Answered<E> {
    pub answer: Result<(), E>,
    pub head: Head,
}

// Why records were not joined: the lowest packet number of the right record that contradicts, or 65,536 for its closing; or a refusal.
#[derive(Clone, Copy, Debug, PartialEq, Eq)]
pub enum NotJoined {
    Contradicts(u32),
    Refused(Refusal),
}

// What was sent, heard and missing, in packets and in octets, and in how many gaps.
#[derive(Clone, Copy, Debug, PartialEq, Eq)]
pub struct Report {
    pub sent: Packets,
    pub sent_octets: Octets,
    pub heard: Packets,
    pub heard_octets: Octets,
    pub missing: Packets,
    pub missing_octets: Octets,
    pub gaps: u32,
}
