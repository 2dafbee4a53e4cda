// The head of a record as C and Rust keep it: a list of six numbers (bearer, period, stamp, 1 where closed and 0 where not, the
// closing's packets, its octets).
#![tactic(auto)]

ghost use Rattle.std.specs.Prelude.{◌≡◌, ◌<◌, ◌≤◌, MatchOption, eqb, length};
ghost use Rattle.numbers_head.specs.Heads.{no_head, head_of, numbers_of, with_head, head_after};

use numbers::put_in_front;
use reception::{Answered, Head};
use units::{Octets, Packets};

// The head that stands for numbers that are no head's.
fn no_head() -> Head
    ensures { result ≡ no_head }
{
    Head {
        bearer: 0,
        period: 0,
        stamp: u32::MAX,
        closed: false,
        count: Packets(0),
        total: Octets(0),
    }
}

// Whether closed, as a number.
fn closed_in(n: u64) -> Option<bool>
    ensures { MatchOption result (1 < n) (λ c. (n ≤ 1) × (c ≡ eqb n 1)) }
{
    match n {
        0 => Some(false),
        1 => Some(true),
        _ => None,
    }
}

// The head in front of a list, where its numbers are one's.
#[tactic(auto, unfolding(crate::specs::Heads::head_of))]
fn head_in(numbers: &[u64]) -> Option<Head>
    ensures { MatchOption result (head_of numbers.now ≡ no_head) (λ h. h ≡ head_of numbers.now) }
{
    let [bearer, period, stamp, closed, count, total] = *numbers.first_chunk::<6>()?;
    Some(Head {
        bearer: u32::try_from(bearer).ok()?,
        period: u32::try_from(period).ok()?,
        stamp: u32::try_from(stamp).ok()?,
        closed: closed_in(closed)?,
        count: Packets(u32::try_from(count).ok()?),
        total: Octets(total),
    })
}

// The head that a list of six numbers says.
pub fn head_of(numbers: &[u64]) -> Head
    ensures { result ≡ head_of numbers.now }
{
    head_in(numbers).unwrap_or(no_head())
}

// A head's six numbers.
fn numbers_of(h: Head) -> [u64; 6]
    ensures { result ≡ numbers_of h }
{
    [
        u64::from(h.bearer),
        u64::from(h.period),
        u64::from(h.stamp),
        u64::from(h.closed),
        u64::from(h.count.0),
        h.total.0,
    ]
}

// A head's numbers in front of a list that has room for them.
pub fn put_head(numbers: &mut [u64], h: Head)
    ensures { numbers.new ≡ with_head numbers.old h }
{
    let _ = put_in_front(numbers, numbers_of(h));
}

// Puts the head after a call that was accepted, and hands the call's answer on.
pub fn keep<E>(numbers: &mut [u64], t: Answered<E>) -> Result<(), E>
    requires { 6 ≤ length numbers.old }
    ensures value { result ≡ t.answer }
    ensures head_after { numbers.new ≡ head_after t.answer numbers.old t.head }
{
    t.answer?;
    put_head(numbers, t.head);
    Ok(())
}
