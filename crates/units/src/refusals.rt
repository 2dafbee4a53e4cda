// The refusals: each row of the refusal table is a case, and a wrong check has both checks with it.
ghost use Rattle.std.specs.Prelude.{◌≡◌};
ghost use Rattle.units.specs.OneNumber.{refusal_in_one};
ghost use Rattle.units.specs.Refusals.{found_of, number_of, refusals, tells_checks, told_checks, worked_of};

// Both checks of a frame: the one that stands there, and the one that was worked out.
#[derive(Clone, Copy, Debug, PartialEq, Eq)]
pub struct Checks {
    pub found: u16,
    pub worked_out: u16,
}

// Why a call was refused. Number 19 of the table is not given.
#[derive(Clone, Copy, Debug, PartialEq, Eq)]
pub enum Refusal {
    TooShort,
    TypeTwo,
    TypeUnknown,
    HeaderCheckWrong(Checks),
    StampTooHigh,
    SizeWrong,
    PayloadCheckWrong(Checks),
    CountsImpossible,
    OtherSequence,
    BeyondCapacity,
    Contradiction,
    NoRoom,
    RecordDamaged,
    CapacitiesDiffer,
    OutOfTurn,
    StampNotLater,
    SequenceFull,
    PeriodFull,
    PayloadTooLong,
    SenderDamaged,
    LengthsWrong,
    PeriodOver,
}

impl Refusal {
    // Its number in the table.
    pub fn number(self) -> u8
        ensures { result ≡ number_of self }
    {
        match self {
            Refusal::TooShort => 1,
            Refusal::TypeTwo => 2,
            Refusal::TypeUnknown => 3,
            Refusal::HeaderCheckWrong(_) => 4,
            Refusal::StampTooHigh => 5,
            Refusal::SizeWrong => 6,
            Refusal::PayloadCheckWrong(_) => 7,
            Refusal::CountsImpossible => 8,
            Refusal::OtherSequence => 9,
            Refusal::BeyondCapacity => 10,
            Refusal::Contradiction => 11,
            Refusal::NoRoom => 12,
            Refusal::RecordDamaged => 13,
            Refusal::CapacitiesDiffer => 14,
            Refusal::OutOfTurn => 15,
            Refusal::StampNotLater => 16,
            Refusal::SequenceFull => 17,
            Refusal::PeriodFull => 18,
            Refusal::PayloadTooLong => 20,
            Refusal::SenderDamaged => 21,
            Refusal::LengthsWrong => 22,
            Refusal::PeriodOver => 23,
        }
    }

    // Both checks, where it tells of one.
    pub fn checks(self) -> Option<Checks>
        ensures { result ≡ told_checks self }
    {
        match self {
            Refusal::HeaderCheckWrong(c) => Some(c),
            Refusal::PayloadCheckWrong(c) => Some(c),
            _ => None,
        }
    }

    // All of it in one number: its own in the lowest eight bits, sixteen for the check found, and above them the check worked out.
    pub fn in_one(self) -> u64
        ensures { result ≡ refusal_in_one (number_of self) (found_of self) (worked_of self) }
    {
        let number = u64::from(self.number());
        match self.checks() {
            Some(c) => number + 256 * (u64::from(c.found) + 65536 * u64::from(c.worked_out)),
            None => number,
        }
    }
}

// Whether a refusal with this number tells of a check. Its number decides, not the checks: either of them may be 0.
pub fn tells_checks(number: u8) -> bool
    ensures { result ≡ tells_checks number }
{
    number == 4 || number == 7
}

// Every number, as specs/ lists them: a row that differs there, or is left out, is not proved.
fn all_numbers() -> [u8; 22]
    ensures { result ≡ refusals }
{
    let any = Checks {
        found: 0,
        worked_out: 0,
    };
    [
        Refusal::TooShort.number(),
        Refusal::TypeTwo.number(),
        Refusal::TypeUnknown.number(),
        Refusal::HeaderCheckWrong(any).number(),
        Refusal::StampTooHigh.number(),
        Refusal::SizeWrong.number(),
        Refusal::PayloadCheckWrong(any).number(),
        Refusal::CountsImpossible.number(),
        Refusal::OtherSequence.number(),
        Refusal::BeyondCapacity.number(),
        Refusal::Contradiction.number(),
        Refusal::NoRoom.number(),
        Refusal::RecordDamaged.number(),
        Refusal::CapacitiesDiffer.number(),
        Refusal::OutOfTurn.number(),
        Refusal::StampNotLater.number(),
        Refusal::SequenceFull.number(),
        Refusal::PeriodFull.number(),
        Refusal::PayloadTooLong.number(),
        Refusal::SenderDamaged.number(),
        Refusal::LengthsWrong.number(),
        Refusal::PeriodOver.number(),
    ]
}
