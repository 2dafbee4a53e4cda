// Numbers in octets, the most significant first, read from a slice and written into one. The width is a parameter: one
// function and one law serve every field. Callers have shown that the octets are there.
#![tactic(auto)]

pub mod little;

ghost use Rattle.std.specs.Prelude.{◌≡◌, ◌+◌, ◌^◌, ◌≤◌, ◌<◌, length};
ghost use Rattle.fields.specs.Numbers.{be, octets};
ghost use Rattle.fields.specs.Runs.{laid};

// The number in the w octets of s from at on.
#[tactic(auto, using(crate::proofs::ReadAgain::room), unfolding(crate::specs::Numbers::be))]
pub fn field(s: &[u8], at: usize, w: usize) -> u64
    requires { (w ≤ 8) × (at + w ≤ length s.now) }
    ensures { (result ≡ be w s.now at) × (result < 256 ^ w) }
{
    let mut v: u64 = 0;
    for x in &s[at..at + w] {
        v = v * 256 + u64::from(*x);
    }
    v
}

// The number in the eight octets of s from at on. It compiles to one load.
#[tactic(auto, unfolding(crate::specs::Numbers::be))]
pub fn word(s: &[u8], at: usize) -> u64
    requires { at + 8 ≤ length s.now }
    ensures { result ≡ be 8 s.now at }
{
    u64::from_be_bytes([
        s[at],
        s[at + 1],
        s[at + 2],
        s[at + 3],
        s[at + 4],
        s[at + 5],
        s[at + 6],
        s[at + 7],
    ])
}

// The w octets of v, laid into out from at on.
// Kept: an index, since places lent by iter_mut leave the loop's invariant no name for the rest of out; to_be_bytes has eight octets.
pub fn put(out: &mut [u8], at: usize, w: usize, v: u64)
    requires { at + w ≤ length out.old }
    ensures { out.new ≡ laid out.old at (octets w v) }
{
    let mut rest = v;
    for k in (0..w).rev() {
        out[at + k] = (rest % 256) as u8;
        rest /= 256;
    }
}

// All of src, laid into out from at on.
// Kept: an index, since the library's copy would need memmove from outside, which the archive for C has not needed so far.
pub fn copy(src: &[u8], out: &mut [u8], at: usize)
    requires { at + length src.now ≤ length out.old }
    ensures { out.new ≡ laid out.old at src.now }
{
    for j in 0..src.len() {
        out[at + j] = src[j];
    }
}
