// FIRST of each nonterminal of a book's grammar, and of a symbol string.
#![tactic(auto)]

ghost use Rattle.first.specs.Calls.{FirstWorkedOut, FirstOutcome};

use crate::checks::spelled;
use crate::first::firsts;
use crate::forms::{Trail, trail_of};
use answers::Answer;
use book::Index;
use book::judging::judge;
use sets::{EMPTY_STRING, single};

mod checks;
pub mod families;
mod first;
pub mod forms;

// FIRST of each nonterminal, in a family that is cleared first; with a refusal it stays so. Here and below the index is
// borrowed where it is found, and not moved by `?`, nor copied for a call, which keeps the stack low.
#[inline(always)]
pub fn find_first(book: &[u8], first: &mut [u64; 64]) -> Result<Index, Answer>
    ensures { FirstWorkedOut book.now result first.new }
{
    *first = [0u64; 64];
    let judged = judge(book);
    if let Ok(index) = &judged {
        firsts(book, index, first);
    }
    judged
}

// FIRST of a symbol string, and how many of its leading symbols can vanish.
pub fn first_of(book: &[u8], symbols: &[u8]) -> Result<Trail, Answer>
    ensures { FirstOutcome book.now symbols.now result }
{
    let mut begins = [0u64; 64];
    match &find_first(book, &mut begins) {
        Ok(index) => {
            spelled(symbols, index.outline.tokens, index.outline.nonterminals)?;
            Ok(trail_of(symbols, &begins, single(EMPTY_STRING)))
        }
        Err(refused) => Err(*refused),
    }
}
