// The house limits, each the largest value that is still accepted.
ghost use Rattle.std.specs.Prelude.{◌≡◌};
ghost use Rattle.units.specs.Limits.{limits};

// Octets of one payload.
pub const MOST_PAYLOAD: u64 = 4095;

// Data PDUs of one sequence; they are numbered from 0 to one less than this.
pub const MOST_IN_SEQUENCE: u64 = 65535;

// Packet numbers of one record.
pub const MOST_CAPACITY: u64 = 65535;

// Units of 10 ms of a time stamp.
pub const LAST_STAMP: u64 = 59999;

// Packets of one period, by the width of their field.
pub const MOST_PERIOD_PACKETS: u64 = 16777215;

// Every limit, as specs/ lists them: a limit that differs there is not proved.
fn all_limits() -> [u64; 5]
    ensures { result ≡ limits }
{
    [
        MOST_PAYLOAD,
        MOST_IN_SEQUENCE,
        MOST_CAPACITY,
        LAST_STAMP,
        MOST_PERIOD_PACKETS,
    ]
}
