// The clock of 10 ms ticks: the stamp of a moment, when a frame is due, and how late it came. Ticks start over after 4,294,967,295,
// so no two of them are compared: only how far one is past another, which wrapping subtraction gives.
#![tactic(auto)]

ghost use Rattle.std.specs.Prelude.{◌≡◌};
ghost use Rattle.clock.specs.Clock.{stamp_of, due_at, late};
ghost use Rattle.clock.specs.Paper.{moment_paper, due_paper};

use units::Refusal;
use units::limits::LAST_STAMP;

// The stamp of the moment `tick` in the period that started at `start`.
#[tactic(auto, unfolding(crate::specs::Clock::stamp_of, crate::specs::Clock::past))]
pub fn stamp_of(start: u32, tick: u32) -> Result<u32, Refusal>
    ensures { moment_paper result ≡ moment_paper (stamp_of start tick) }
{
    let past = tick.wrapping_sub(start);
    if LAST_STAMP < past as u64 {
        return Err(Refusal::PeriodOver);
    }
    Ok(past)
}

// When a frame with `stamp` is due, in the period that started at `start`.
#[tactic(auto, unfolding(crate::specs::Clock::due_at))]
pub fn due(start: u32, stamp: u32) -> Result<u32, Refusal>
    ensures { due_paper result ≡ due_paper (due_at start stamp) }
{
    if LAST_STAMP < stamp as u64 {
        return Err(Refusal::StampTooHigh);
    }
    Ok(start.wrapping_add(stamp))
}

// How many ticks a frame came after it was due; negative when early.
#[tactic(auto, unfolding(crate::specs::Clock::late, crate::specs::Clock::nearest, crate::specs::Clock::past))]
pub fn lateness(arrival: u32, due: u32) -> i32
    ensures { result ≡ late arrival due }
{
    arrival.wrapping_sub(due).cast_signed()
}
