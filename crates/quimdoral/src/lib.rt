// The library as C and Rust link it: functions on numbers and slices, each a call of a proved function with the same promise. A slice
// is passed as a pointer and a length.
#![tactic(auto)]

mod frames;
mod joins;
mod records;
mod reports;
mod senders;
mod ticks;

ghost use Rattle.std.specs.Prelude.{◌≡◌};
ghost use Rattle.checks.specs.Check.{header_check, payload_check};

#[unsafe(no_mangle)]
pub extern "C" fn quimdoral_header_check(octets: &[u8]) -> u8
    ensures { result ≡ header_check octets.now }
{
    checks::header_check(octets)
}

#[unsafe(no_mangle)]
pub extern "C" fn quimdoral_payload_check(octets: &[u8]) -> u16
    ensures { result ≡ payload_check octets.now }
{
    checks::payload_check(octets)
}
