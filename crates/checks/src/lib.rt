// The header check and the payload check of TS 25.446, clause 5.6.2, of any row of octets. Each is proved to be the long
// division of specs/Check.antt, bit after bit.
#![tactic(auto)]

mod blocks;
mod ends;
mod powers;
mod words;

ghost use Rattle.std.specs.Prelude.{◌≡◌};
ghost use Rattle.checks.specs.Check.{header_check, payload_check};

use powers::header;

// The check of a control part, six bits.
#[tactic(auto, using(crate::proofs::Rows::check_passed, crate::proofs::ShortSums::header_sums))]
pub fn header_check(s: &[u8]) -> u8
    ensures { result ≡ header_check s.now }
{
    ends::header_end(words::in_one_word(s, s.len(), header::D64, header::D31))
}

// Kept: a function for each check, since only a payload has blocks: D^512 is short modulo its generator alone.
// The check of a payload part, ten bits. Of no octets it is 0, at no cost: frames without payload are many.
#[tactic(auto, using(crate::proofs::Rows::check_passed))]
pub fn payload_check(s: &[u8]) -> u16
    ensures { result ≡ payload_check s.now }
{
    if s.is_empty() {
        return 0;
    }
    ends::payload_end(blocks::to_word(s))
}
