// The steps of a run: one column offered to a run in progress, or a whole token string from the start symbol on.
#![tactic(auto)]

ghost use Rattle.std.specs.Prelude.{◌≡◌};
ghost use Rattle.offer.specs.declared.Halt.TheVariants.{Refused};

use answers::Answer;
use grammar::Symbol;
use machine::Reason;

mod moves;
pub mod offering;
pub mod strings;

// A step: the symbol on top of the stack, and what it faces, the next token or the end.
#[derive(Clone, Copy)]
pub(crate) struct Step {
    pub symbol: Symbol,
    pub ahead: Option<u8>,
}

// What is done next: a production is used, or the offer is taken, since the token on top is matched or the end mark is
// taken.
#[derive(Clone, Copy)]
pub(crate) enum Move {
    Use(u8),
    Match,
    Accept,
}

// How many cells of stack and list are in use, how many tokens are matched, and the most cells of the stack that were
// in use at any moment so far.
#[derive(Clone, Copy)]
pub struct Progress {
    pub height: usize,
    pub listed: usize,
    pub matched: usize,
    pub deepest: usize,
}

// Why an offer is not taken: the run stops, or the reading is of a book that was refused with this answer.
#[derive(Clone, Copy)]
pub enum Halt {
    Stopped(Reason, Progress),
    Refused(Answer),
}

impl From<Answer> for Halt {
    ghost from_gives = { λ answer halt. halt ≡ Refused answer };

    fn from(answer: Answer) -> Halt {
        Halt::Refused(answer)
    }
}
