// The sizes of frames and of their parts, in octets.
ghost use Rattle.std.specs.Prelude.{◌≡◌};
ghost use Rattle.frame.specs.Sizes.{sizes};

// The control part of Type 1: the fields that all types have.
pub const SHORT_CONTROL: usize = 9;

// The control part of Types 0 and 3: those, and the totals.
pub const LONG_CONTROL: usize = 17;

// What stands before the payload of Type 1; its least size.
pub const DATA_HEAD: usize = 11;

// A frame of Type 0.
pub const CLOSING_SIZE: usize = 18;

// What stands before the lengths of Type 3; its least size.
pub const LENGTHS_HEAD: usize = 19;

// Every size, as specs/ lists them: a size that differs there is not proved.
fn all_sizes() -> [usize; 5]
    ensures { result ≡ sizes }
{
    [
        SHORT_CONTROL,
        LONG_CONTROL,
        DATA_HEAD,
        CLOSING_SIZE,
        LENGTHS_HEAD,
    ]
}
