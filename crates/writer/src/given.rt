// Whether given counts and lengths may be written.
ghost use Rattle.std.specs.Prelude.{◌≡◌};
ghost use Rattle.frame.specs.Counts.{too_wide, given_wrong, list_wrong};

use frame::ClosingPdu;
use units::limits::MOST_PAYLOAD;
use units::{Octets, Packets};

// Some count has more bits than its field: 16, 32, 24 and 40.
#[tactic(auto, unfolding(frame::specs::Counts::too_wide))]
fn too_wide(c: ClosingPdu) -> bool
    ensures { result ≡ too_wide c }
{
    65536 <= c.number.0
        || 4294967296 <= c.elapsed.0
        || 16777216 <= c.packets.0
        || 1099511627776 <= c.octets.0
}

// The counts of a closing PDU are too wide or impossible.
#[tactic(auto, unfolding(frame::specs::Counts::given_wrong))]
pub fn given_wrong(c: ClosingPdu) -> bool
    ensures { result ≡ given_wrong c }
{
    too_wide(c) || counts::closing_wrong(c)
}

// The lengths are not as many as the packets, or one is too long, or their sum is not the elapsed octets.
#[tactic(auto, unfolding(frame::specs::Counts::list_wrong, frame::specs::Counts::any_above, frame::specs::Counts::sum_of))]
pub fn list_wrong(lengths: &[u16], number: Packets, elapsed: Octets) -> bool
    ensures { result ≡ list_wrong lengths.now number.0 elapsed.0 }
{
    if lengths.len() != number.0 as usize {
        return true;
    }
    let mut sum: u64 = 0;
    for l in lengths {
        let l = u64::from(*l);
        if MOST_PAYLOAD < l {
            return true;
        }
        sum += l;
    }
    sum != elapsed.0
}
