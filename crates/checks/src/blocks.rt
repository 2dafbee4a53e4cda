// A long payload goes by blocks of 64 octets through eight words, since D^512 is D modulo the payload's generator: what leaves at
// the top comes back one place up.
ghost use Rattle.std.specs.Prelude.{◌≡◌, ◌+◌, ◌≤◌, length};
ghost use Rattle.std.specs.Int.Bits.{bit_xor};
ghost use Rattle.checks.specs.Exponents.{UpTo, exponents};
ghost use Rattle.checks.specs.Inside.{feed, leaves, passed, powers, value};

use crate::powers::Sum;
use crate::powers::payload::{D38, D64, D128, D256};
use crate::words::{fold, in_one_word};

// A polynomial of 512 digits, the most significant first.
type Block = [u64; 8];

// The block times D^64, plus w.
#[tactic(auto, using(crate::proofs::ShortSums::payload_sums, crate::proofs::Folding::pushed, crate::proofs::Folding::eight))]
fn push(a: Block, w: u64) -> Block
    ensures { value result ≡ feed 0x633 10 64 (value a) w }
{
    let [a0, a1, a2, a3, a4, a5, a6, a7] = a;
    [a1, a2, a3, a4, a5, a6, a7 ^ (a0 >> 63), w ^ (a0 << 1)]
}

// Eight words more.
// Kept: a turn of eight words, since with one word a turn the block moves each time, and a payload of 4,095 octets takes 1.9 times as long.
#[tactic(auto, using(crate::proofs::ShortSums::payload_sums, crate::proofs::Folding::passed_word))]
fn next_block(a: Block, s: &[u8], i: usize) -> Block
    requires { (i + 64 ≤ length s.now) × (value a ≡ passed 0x633 10 s.now i) }
    ensures { value result ≡ passed 0x633 10 s.now (i + 64) }
{
    let mut b = a;
    for k in 0..8 {
        // Kept: a name of its own, since the borrow checker lays no call's result in an array that is in use.
        let next = push(b, fields::word(s, i + 8 * k));
        b = next;
    }
    b
}

// x times the sum by, plus y.
#[tactic(auto, using(crate::proofs::ShortSums::payload_sums))]
fn with(x: u64, y: u64, by: Sum) -> u64
    requires { UpTo 26 by }
    ensures { leaves 0x633 10 result ≡ bit_xor (powers 0x633 10 (exponents by) (leaves 0x633 10 x)) (leaves 0x633 10 y) }
{
    fold(x, y, by, D38)
}

// The block in one word: two words in place of four, one in place of two.
fn joined(a: Block) -> u64
    ensures { leaves 0x633 10 result ≡ value a }
{
    let [a0, a1, a2, a3, a4, a5, a6, a7] = a;
    let p = with(with(a0, a1, D64), with(a2, a3, D64), D128);
    let q = with(with(a4, a5, D64), with(a6, a7, D64), D128);
    with(p, q, D256)
}

// All of s in one word. A row below 64 octets needs no block.
#[tactic(auto, using(crate::proofs::ShortSums::payload_sums))]
pub fn to_word(s: &[u8]) -> u64
    ensures { leaves 0x633 10 result ≡ passed 0x633 10 s.now (length s.now) }
{
    let n = s.len();
    let x = in_one_word(s, n % 64, D64, D38);
    if n < 64 {
        return x;
    }
    let mut a = [0, 0, 0, 0, 0, 0, 0, x];
    for k in 0..n / 64 {
        let next = next_block(a, s, n % 64 + 64 * k);
        a = next;
    }
    joined(a)
}
