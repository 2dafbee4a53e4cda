// Numbers in octets, the least significant first, for items and files.
ghost use Rattle.std.specs.Prelude.{◌≡◌, ◌+◌, ◌≤◌, ◌<◌, length};
ghost use Rattle.fields.specs.Numbers.{le};

// The number in the two octets of s from at on.
#[tactic(auto, unfolding(crate::specs::Numbers::le))]
pub fn two(s: &[u8], at: usize) -> u32
    requires { at + 2 ≤ length s.now }
    ensures { (result ≡ le 2 s.now at) × (result < 65536) }
{
    u32::from(u16::from_le_bytes([s[at], s[at + 1]]))
}

// The number in the four octets of s from at on.
#[tactic(auto, unfolding(crate::specs::Numbers::le))]
pub fn four(s: &[u8], at: usize) -> u32
    requires { at + 4 ≤ length s.now }
    ensures { result ≡ le 4 s.now at }
{
    u32::from_le_bytes([s[at], s[at + 1], s[at + 2], s[at + 3]])
}
