// The clock.
ghost use Rattle.std.specs.Prelude.{◌≡◌};
ghost use Rattle.clock.specs.Clock.{stamp_of, due_at, late};
ghost use Rattle.numbers_ticks.specs.Ticks.{moment_number, due_number};

// The stamp of the moment `tick` in the period that started at `start`.
#[unsafe(no_mangle)]
pub extern "C" fn quimdoral_stamp_of(start: u32, tick: u32) -> u64
    ensures { result ≡ moment_number (stamp_of start tick) }
{
    numbers_ticks::stamp_in_one(start, tick)
}

// When a frame with `stamp` is due, in the period that started at `start`.
#[unsafe(no_mangle)]
pub extern "C" fn quimdoral_due(start: u32, stamp: u32) -> u64
    ensures { result ≡ due_number (due_at start stamp) }
{
    numbers_ticks::due_in_one(start, stamp)
}

// How many ticks a frame came after it was due; negative when early.
#[unsafe(no_mangle)]
pub extern "C" fn quimdoral_lateness(arrival: u32, due_at: u32) -> i32
    ensures { result ≡ late arrival due_at }
{
    clock::lateness(arrival, due_at)
}
