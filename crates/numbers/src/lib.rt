// What the crates share that give C and Rust their numbers: the widest number of 32 bits, an answer as its number, an answer with a
// value in one number, and numbers put in front of a lent list.
#![tactic(auto)]

ghost use Rattle.std.specs.Prelude.{◌≡◌, ◌≤◌, length, ltb, Ok, Err};
ghost use Rattle.units.specs.declared.refusals.Refusal.TheVariants.{NoRoom};
ghost use Rattle.fields.specs.Choice.{◌when◌otherwise◌};
ghost use Rattle.fields.specs.Runs.{front};
ghost use Rattle.frame.specs.Paper.{written_paper};
ghost use Rattle.numbers.specs.Answers.{in_one, number_told, most_told};

use units::Refusal;

// The largest number of 32 bits.
pub const WIDEST: u64 = 4294967295;

// The number of an answer: 0, or the refusal's.
pub fn number_of(answer: Result<(), Refusal>) -> u8
    ensures { result ≡ number_told answer }
{
    match answer {
        Ok(()) => 0,
        Err(r) => r.number(),
    }
}

// An answer with a value in one number: 256 times the value, or the refusal's number with both checks of 4 and 7.
#[tactic(auto, unfolding(crate::specs::Answers::in_one, frame::specs::Paper::written_paper))]
pub fn in_one(answer: Result<usize, Refusal>) -> u64
    requires { (written_paper answer).count ≤ most_told }
    ensures { result ≡ in_one (written_paper answer) }
{
    match answer {
        Ok(n) => 256 * n as u64,
        Err(r) => r.in_one(),
    }
}

// Numbers in front of a list that has room for them, which keeps what stands behind.
pub fn put_in_front<const N: usize>(list: &mut [u64], numbers: [u64; N]) -> Result<(), Refusal>
    ensures says { result ≡ (Err NoRoom when ltb (length list.old) N otherwise Ok tt) }
    ensures leaves { list.new ≡ (list.old when ltb (length list.old) N otherwise front list.old numbers.entry) }
{
    match list.first_chunk_mut::<N>() {
        Some(front) => {
            *front = numbers;
            Ok(())
        }
        None => Err(Refusal::NoRoom),
    }
}
