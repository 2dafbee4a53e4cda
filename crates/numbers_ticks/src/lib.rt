// The clock as numbers for C and Rust: an answer with a value in one number, which is 256 times the value, or a refusal's number.
#![tactic(auto)]

ghost use Rattle.std.specs.Prelude.{◌≡◌};
ghost use Rattle.clock.specs.Clock.{stamp_of, due_at};
ghost use Rattle.numbers_ticks.specs.Ticks.{moment_number, due_number};

use clock::{due, stamp_of};
use numbers::in_one;

// The stamp of the moment `tick` in the period that started at `start`.
#[tactic(auto, unfolding(numbers::specs::Answers::in_one, frame::specs::Paper::written_paper, clock::specs::Paper::moment_paper, clock::specs::Clock::stamp_of, crate::specs::Ticks::moment_number))]
pub fn stamp_in_one(start: u32, tick: u32) -> u64
    ensures { result ≡ moment_number (stamp_of start tick) }
{
    in_one(stamp_of(start, tick).map(|n| n as usize))
}

// When a frame with `stamp` is due, in the period that started at `start`.
#[tactic(auto, unfolding(numbers::specs::Answers::in_one, frame::specs::Paper::written_paper, clock::specs::Paper::due_paper, clock::specs::Clock::due_at, crate::specs::Ticks::due_number))]
pub fn due_in_one(start: u32, stamp: u32) -> u64
    ensures { result ≡ due_number (due_at start stamp) }
{
    in_one(due(start, stamp).map(|n| n as usize))
}
