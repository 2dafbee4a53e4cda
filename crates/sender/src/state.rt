// What the calls ask of the state, and the states that they make.
ghost use Rattle.std.specs.Prelude.{◌≡◌, ◌^◌, ◌<◌};
ghost use Rattle.frame.specs.Counts.{some_of};
ghost use Rattle.sender.specs.State.{damaged, rest_wrong, is_open, not_later, fresh_sender, closing_by};
ghost use Rattle.sender.specs.Calls.{advanced, begins, closed_sender, refused_call};

use crate::{Called, Phase, Sender};
use frame::ClosingPdu;
use units::limits::{LAST_STAMP, MOST_IN_SEQUENCE, MOST_PERIOD_PACKETS};
use units::{Octets, Packets, Refusal};

pub fn fresh() -> Sender
    ensures { result ≡ fresh_sender }
{
    Sender {
        phase: Phase::Fresh,
        stamp: 0,
        number: Packets(0),
        elapsed: Octets(0),
        packets: Packets(0),
        octets: Octets(0),
    }
}

// Whether any packet or octet is counted.
#[tactic(auto, unfolding(frame::specs::Counts::some_of))]
fn some_of(n: Packets, e: Octets) -> bool
    ensures { result ≡ some_of n.0 e.0 }
{
    n.0 != 0 || e.0 != 0
}

impl Sender {
    pub fn is_open(self) -> bool
        ensures { result ≡ is_open self.phase }
    {
        match self.phase {
            Phase::Open => true,
            Phase::Fresh | Phase::Closed => false,
        }
    }

    pub fn is_not_later(self, stamp: u32) -> bool
        ensures { result ≡ not_later self.phase self stamp }
    {
        match self.phase {
            Phase::Closed => stamp <= self.stamp,
            Phase::Fresh | Phase::Open => false,
        }
    }

    // What the sender's closing PDU says.
    pub fn closing(self) -> ClosingPdu
        ensures { result ≡ closing_by self }
    {
        ClosingPdu {
            stamp: self.stamp,
            number: self.number,
            elapsed: self.elapsed,
            packets: self.packets,
            octets: self.octets,
        }
    }

    fn is_rest_wrong(self) -> bool
        ensures { result ≡ rest_wrong self.phase self }
    {
        match self.phase {
            Phase::Open => false,
            Phase::Closed => some_of(self.number, self.elapsed),
            Phase::Fresh => {
                self.stamp != 0
                    || some_of(self.number, self.elapsed)
                    || some_of(self.packets, self.octets)
            }
        }
    }

    #[tactic(auto, unfolding(crate::specs::State::damaged))]
    pub fn is_damaged(self) -> bool
        ensures { result ≡ damaged self }
    {
        LAST_STAMP < self.stamp as u64
            || MOST_IN_SEQUENCE < self.number.0 as u64
            || MOST_PERIOD_PACKETS < self.packets.0 as u64
            || counts::closing_wrong(self.closing())
            || self.is_rest_wrong()
    }

    // The answer of a refused call, which leaves the sender as it was.
    pub fn refused<T>(self, r: Refusal) -> Called<T>
        ensures { result ≡ refused_call self r }
    {
        Called {
            answer: Err(r),
            sender: self,
        }
    }

    // Within a sequence of a stamp.
    pub fn begun(self, stamp: u32) -> Called<()>
        ensures { result ≡ begins self stamp }
    {
        Called {
            answer: Ok(()),
            sender: Sender {
                phase: Phase::Open,
                stamp,
                ..self
            },
        }
    }

    // One packet more of a payload of l octets.
    pub fn with_packet(self, l: u64) -> Sender
        requires { (self.number.0 < 65536) × (self.elapsed.0 < 2 ^ 40) × (self.packets.0 < 2 ^ 24) × (self.octets.0 < 2 ^ 40) × (l < 4096) }
        ensures { result ≡ advanced self l }
    {
        Sender {
            phase: Phase::Open,
            stamp: self.stamp,
            number: Packets(self.number.0 + 1),
            elapsed: Octets(self.elapsed.0 + l),
            packets: Packets(self.packets.0 + 1),
            octets: Octets(self.octets.0 + l),
        }
    }

    // Between two sequences.
    pub fn at_rest(self) -> Sender
        ensures { result ≡ closed_sender self }
    {
        Sender {
            phase: Phase::Closed,
            number: Packets(0),
            elapsed: Octets(0),
            ..self
        }
    }
}
