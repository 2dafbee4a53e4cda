// A row of octets brought into one word of 64 digits that leaves the same remainder. Where a power of D is a short sum of lower
// powers, digits from there on are taken off at the top and added back below: shifts, masks and xor, no table.
ghost use Rattle.std.specs.Prelude.{◌≡◌, ◌≤◌, ◌<◌, length};
ghost use Rattle.checks.specs.Exponents.{UpTo, exponents};
ghost use Rattle.checks.specs.Inside.{Cuts, Folded, Reduced, Stands, ups};

use crate::powers::{Power, Sum};

// x times the sum by, within 64 digits.
#[tactic(auto, using(crate::proofs::Sums::three))]
fn shifted_up(x: u64, by: Sum) -> u64
    requires { UpTo 63 by }
    ensures { result ≡ ups x (exponents by) }
{
    (x << by[0]) ^ ((x << by[1]) ^ (x << by[2]))
}

impl Power {
    // x with its digits from n on taken off and added back as the sum.
    pub fn reduce(self, x: u64) -> u64
        ensures { Reduced self x result }
    {
        shifted_up(x >> self.n, self.sum) ^ (x & ((1u64 << self.n) - 1))
    }
}

// x times the sum by, plus y. x is cut to 38 digits first, by a power that is short: then nothing leaves the word at the top.
pub fn fold(x: u64, y: u64, by: Sum, short: Power) -> u64
    requires { UpTo 26 by × Cuts short }
    ensures { Folded by short x y result }
{
    shifted_up(short.reduce(x), by) ^ y
}

// The first m octets of s in one word, eight at a time. D^64 is the sum by.
#[tactic(auto, using(crate::proofs::Folding::first_octets))]
pub fn in_one_word(s: &[u8], m: usize, by: Sum, short: Power) -> u64
    requires { (m ≤ length s.now) × UpTo 26 by × Cuts short }
    ensures { Stands by short s.now m result }
{
    let mut x = fields::field(s, 0, m % 8);
    for k in 0..m / 8 {
        x = fold(x, fields::word(s, m % 8 + 8 * k), by, short);
    }
    x
}
