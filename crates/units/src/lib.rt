// What every layer counts and refuses with. Packets and octets are types of their own, so that neither is taken for the other.
// The house limits and the refusals stand here by name, once for code; specs/ has them once for definitions.
#![tactic(auto)]

pub mod limits;
mod refusals;

pub use refusals::{Checks, Refusal, tells_checks};

// A count of data PDUs.
#[derive(Clone, Copy, Debug, PartialEq, Eq)]
pub struct Packets(pub u32);

// A count of payload octets.
#[derive(Clone, Copy, Debug, PartialEq, Eq)]
pub struct Octets(pub u64);
