// What a word leaves with the zero bits of the check behind it. The digits are taken off in steps by powers of D that are short
// sums; the last few are divided at once.
// Kept: two functions a generator, since the steps and the rule of the last digits differ, and not a constant alone.
ghost use Rattle.std.specs.Prelude.{◌≡◌, ◌^◌, ◌<◌};
ghost use Rattle.checks.specs.Inside.{feed, leaves};

use crate::powers::{header, payload};

// The remainder of 8 digits. q is the quotient of the upper two.
#[tactic(auto, using(crate::proofs::LastDigits::header_rest, crate::proofs::LastDigits::header_rest_lt))]
fn header_rest(z: u64) -> u8
    requires { z < 2 ^ 8 }
    ensures { result ≡ leaves 0x6F 6 z }
{
    let h = z >> 6;
    let q = h ^ (h >> 1);
    let v = q ^ (q << 1);
    ((((v ^ (v << 2)) ^ (q << 5)) & 63) ^ (z & 63)) as u8
}

pub fn header_end(x: u64) -> u8
    ensures { result ≡ feed 0x6F 6 6 (leaves 0x6F 6 x) 0 }
{
    let a = header::D31.reduce(x);
    let b = header::D22.reduce(a << 6);
    let c = header::D11.reduce(b);
    header_rest(header::D8.reduce(c))
}

// The remainder of 19 digits. q is the quotient of the upper nine: the generator is D + 1 times D^9 + D^4 + 1, so it is the
// running sums of the nine digits, and those sums again five places below.
#[tactic(auto, using(crate::proofs::LastDigits::payload_rest, crate::proofs::LastDigits::payload_rest_lt))]
fn payload_rest(z: u64) -> u16
    requires { z < 2 ^ 19 }
    ensures { result ≡ leaves 0x633 10 z }
{
    let h = z >> 10;
    let a = h ^ (h >> 1);
    let b = a ^ (a >> 2);
    let c = b ^ (b >> 4);
    let d = c ^ (c >> 8);
    let q = d ^ (d >> 5);
    let v = q ^ (q << 1);
    ((((v ^ (v << 4)) ^ (q << 9)) & 1023) ^ (z & 1023)) as u16
}

pub fn payload_end(x: u64) -> u16
    ensures { result ≡ feed 0x633 10 10 (leaves 0x633 10 x) 0 }
{
    let a = payload::D38.reduce(x);
    let b = payload::D19.reduce(a);
    payload_rest(payload::D19.reduce(b << 10))
}
