// The PDU types: what a frame's first octet says in its upper half, and the least sizes that follow from it.
ghost use Rattle.std.specs.Prelude.{◌≡◌};
ghost use Rattle.frame.specs.Layout.{control, least};
ghost use Rattle.frame.specs.Types.{Typed, number_of_type};

use crate::sizes::{CLOSING_SIZE, DATA_HEAD, LENGTHS_HEAD, LONG_CONTROL, SHORT_CONTROL};
use units::Refusal;

// A type that is read and written.
#[derive(Clone, Copy, Debug, PartialEq, Eq)]
pub enum PduType {
    Closing,
    Data,
    ClosingWithLengths,
}

impl PduType {
    // The number that stands in the frame.
    pub fn number(self) -> u8
        ensures { result ≡ number_of_type self }
    {
        match self {
            PduType::Closing => 0,
            PduType::Data => 1,
            PduType::ClosingWithLengths => 3,
        }
    }

    // The octets of its control part.
    pub fn control(self) -> usize
        ensures { result ≡ control (number_of_type self) }
    {
        match self {
            PduType::Data => SHORT_CONTROL,
            PduType::Closing | PduType::ClosingWithLengths => LONG_CONTROL,
        }
    }

    // The octets that a frame of it has at least.
    pub fn least(self) -> usize
        ensures { result ≡ least (number_of_type self) }
    {
        match self {
            PduType::Closing => CLOSING_SIZE,
            PduType::Data => DATA_HEAD,
            PduType::ClosingWithLengths => LENGTHS_HEAD,
        }
    }
}

// The type of a number; the others are refused.
impl TryFrom<u8> for PduType {
    type Error = Refusal;

    ghost try_from_gives = { Typed };

    fn try_from(number: u8) -> Result<Self, Refusal> {
        match number {
            0 => Ok(PduType::Closing),
            1 => Ok(PduType::Data),
            2 => Err(Refusal::TypeTwo),
            3 => Ok(PduType::ClosingWithLengths),
            _ => Err(Refusal::TypeUnknown),
        }
    }
}
