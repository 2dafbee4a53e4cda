// The sender as C and Rust keep it: a list of six numbers (0 where fresh, 1 where open and 2 where closed; stamp; the sequence's packets
// and octets; the period's packets and octets).
#![tactic(auto)]

ghost use Rattle.std.specs.Prelude.{◌≡◌, ◌<◌, ◌≤◌, MatchOption};
ghost use Rattle.numbers_state.specs.States.{phase_of, no_sender, sender_of, state_of, with_state};

use numbers::put_in_front;
use sender::{Phase, Sender};
use units::{Octets, Packets};

// The phase that a number says.
fn phase_in(n: u64) -> Option<Phase>
    ensures { MatchOption result (2 < n) (λ p. (n ≤ 2) × (p ≡ phase_of n)) }
{
    match n {
        0 => Some(Phase::Fresh),
        1 => Some(Phase::Open),
        2 => Some(Phase::Closed),
        _ => None,
    }
}

// The sender that stands for numbers that are no sender's.
fn no_sender() -> Sender
    ensures { result ≡ no_sender }
{
    Sender {
        phase: Phase::Fresh,
        stamp: u32::MAX,
        number: Packets(0),
        elapsed: Octets(0),
        packets: Packets(0),
        octets: Octets(0),
    }
}

// The sender in front of a list, where its numbers are one's.
#[tactic(auto, unfolding(crate::specs::States::sender_of, crate::specs::States::no_state))]
fn sender_in(numbers: &[u64]) -> Option<Sender>
    ensures { MatchOption result (sender_of numbers.now ≡ no_sender) (λ s. s ≡ sender_of numbers.now) }
{
    let [phase, stamp, number, elapsed, packets, octets] = *numbers.first_chunk::<6>()?;
    Some(Sender {
        phase: phase_in(phase)?,
        stamp: u32::try_from(stamp).ok()?,
        number: Packets(u32::try_from(number).ok()?),
        elapsed: Octets(elapsed),
        packets: Packets(u32::try_from(packets).ok()?),
        octets: Octets(octets),
    })
}

// The sender that a list of six numbers says.
pub fn sender_of(numbers: &[u64]) -> Sender
    ensures { result ≡ sender_of numbers.now }
{
    sender_in(numbers).unwrap_or(no_sender())
}

// A sender's six numbers.
pub fn state_of(s: Sender) -> [u64; 6]
    ensures { result ≡ state_of s }
{
    [
        s.phase as u64,
        u64::from(s.stamp),
        u64::from(s.number.0),
        s.elapsed.0,
        u64::from(s.packets.0),
        s.octets.0,
    ]
}

// A sender's numbers in front of a list that has room for them.
pub fn put_state(numbers: &mut [u64], s: Sender)
    ensures { numbers.new ≡ with_state numbers.old s }
{
    let _ = put_in_front(numbers, state_of(s));
}
