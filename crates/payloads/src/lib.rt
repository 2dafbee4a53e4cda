// How much of the part behind the checks of a Type 1 frame is payload: up to four octets behind an IP packet are not.
#![tactic(auto)]

ghost use Rattle.std.specs.Prelude.{◌≡◌, length, MatchOption};
ghost use Rattle.frame.specs.Payloads.{payload_kept};

// The octets that an IP header in front states, where these are what is kept; at most 65,535 and the 40 of an IPv6 header. Each test that
// fails answers at once: joined before they are compared with what is there, all cases are slower.
#[tactic(auto, unfolding(frame::specs::Payloads::payload_kept, frame::specs::Payloads::kept_of, frame::specs::Payloads::starts_v4, frame::specs::Payloads::starts_v6))]
fn packet(part: &[u8]) -> Option<u64>
    ensures { MatchOption result (payload_kept part.now ≡ length part.now) (λ n. payload_kept part.now ≡ n) }
{
    if part.len() < 20 {
        return None;
    }
    let n = match part[0] >> 4 {
        4 => {
            // The lower half of its first octet is its length in words of four octets.
            let words = u64::from(part[0] % 16);
            let n = fields::field(part, 2, 2);
            if words < 5 || n < 4 * words {
                return None;
            }
            n
        }
        6 if part.len() < 40 => return None,
        6 => fields::field(part, 4, 2) + 40,
        _ => return None,
    };
    let there = part.len() as u64;
    if there < n || n + 4 < there {
        return None;
    }
    Some(n)
}

// How many octets of a part, or of a payload that is to be written, a reader takes.
pub fn payload_kept(part: &[u8]) -> u64
    ensures { result ≡ payload_kept part.now }
{
    packet(part).unwrap_or(part.len() as u64)
}
