// Whether the counts of a frame are impossible: one function for each definition in `frame`, for the reader and the writer.
#![tactic(auto)]

ghost use Rattle.std.specs.Prelude.{◌≡◌};
ghost use Rattle.frame.specs.Counts.{data_wrong, closing_wrong};

use frame::ClosingPdu;
use units::limits::{MOST_IN_SEQUENCE, MOST_PAYLOAD};
use units::{Octets, Packets};

// Of a data PDU.
#[tactic(auto, unfolding(frame::specs::Counts::data_wrong))]
pub fn data_wrong(number: Packets, elapsed: Octets) -> bool
    ensures { result ≡ data_wrong number.0 elapsed.0 }
{
    let n = u64::from(number.0);
    MOST_IN_SEQUENCE <= n || MOST_PAYLOAD * n < elapsed.0
}

// Of a closing PDU.
#[tactic(auto, unfolding(frame::specs::Counts::closing_wrong))]
pub fn closing_wrong(c: ClosingPdu) -> bool
    ensures { result ≡ closing_wrong c }
{
    let n = u64::from(c.number.0);
    let e = c.elapsed.0;
    let p = u64::from(c.packets.0);
    let t = c.octets.0;
    MOST_PAYLOAD * n < e || p < n || t < e || MOST_PAYLOAD * (p - n) < t - e
}
