// The reader: what the bytes of a book spell, refusals 1 to 5, and what each byte of a record says.
#![tactic(auto)]

pub mod fields;
mod spelling;
pub mod walk;

ghost use Rattle.std.specs.Prelude.{◌≡◌};
ghost use Rattle.answers.specs.Answers.{refusal};
ghost use Rattle.answers.specs.Refusals.{number_of};

use answers::refusals::Refusal;
use answers::{Answer, refusal};

// Why a book is refused, and at which place.
#[derive(Clone, Copy, PartialEq, Eq, Debug)]
pub struct Fault {
    pub why: Refusal,
    pub place: usize,
}

impl From<Fault> for Answer {
    ghost from_gives = { λ fault answer. answer ≡ refusal (number_of fault.why) fault.place 0 };

    fn from(fault: Fault) -> Answer {
        refusal(fault.why, fault.place as u64, 0)
    }
}

// A reader carries the caller's book and its own place.
#[derive(Clone, Copy)]
pub struct Reader<'a> {
    pub book: &'a [u8],
    pub at: usize,
}
