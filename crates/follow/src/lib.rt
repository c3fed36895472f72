// FOLLOW of each nonterminal of a book's grammar, and the lookahead of its productions.
#![tactic(auto)]

ghost use Rattle.std.specs.Prelude.{◌≡◌, replicate};
ghost use Rattle.answers.specs.Limits.{most_nonterminals};
ghost use Rattle.follow.specs.Calls.{SetsOutcome, LookaheadOutcome};
ghost use Rattle.answers.specs.Answers.{told};
ghost use Rattle.follow.specs.WorkedOut.{WorkedOut};
ghost use Rattle.follow.specs.Walks.{SetsFound};

use crate::ahead::{fill_ahead, lookahead_at};
use crate::checks::{numbered, sets_room};
use crate::follow::follows;
use answers::buffers::{cell_or, write_front};
use answers::{Answer, told};
use book::Index;
use first::find_first;
use first::forms::Trail;

mod ahead;
pub mod checks;
mod follow;
mod tails;

// FIRST and FOLLOW of each nonterminal; with a refusal neither family has a member. Here and below the index is borrowed
// where it is found, and not moved by `?`, nor copied for a call, which keeps the stack low.
#[inline(always)]
fn find_sets(book: &[u8], first: &mut [u64; 64], follow: &mut [u64; 64]) -> Result<Index, Answer>
    requires { follow.old ≡ replicate most_nonterminals 0 }
    ensures { SetsFound book.now result first.new follow.new }
{
    let found = find_first(book, first);
    if let Ok(index) = &found {
        follows(book, index, first, follow);
    }
    found
}

// The sets of a book with room for them, or the refusal.
fn write_sets(book: &[u8], first: &mut [u64], follow: &mut [u64]) -> Result<(), Answer>
    ensures { SetsOutcome book.now first.old follow.old (told result)
        first.new follow.new }
{
    let mut begins = [0u64; 64];
    let mut ends = [0u64; 64];
    match &find_sets(book, &mut begins, &mut ends) {
        Ok(index) => {
            let n = index.outline.nonterminals as usize;
            sets_room(first.len(), follow.len(), n)?;
            write_front(&begins[..n], first);
            write_front(&ends[..n], follow);
            Ok(())
        }
        Err(refused) => Err(*refused),
    }
}

// FIRST and FOLLOW of each nonterminal into the lent buffers; how many symbols can vanish is worked out on the way and
// not passed on.
pub fn sets(book: &[u8], first: &mut [u64], follow: &mut [u64]) -> Answer
    ensures { SetsOutcome book.now first.old follow.old result
        first.new follow.new }
{
    told(write_sets(book, first, follow))
}

// The sets of each nonterminal and the lookahead of each production, all that a table is built from; how many symbols
// can vanish is worked out on the way and not passed on.
pub fn work_out(
    book: &[u8],
    first: &mut [u64; 64],
    follow: &mut [u64; 64],
    ahead: &mut [u64; 128],
) -> Result<Index, Answer>
    ensures { WorkedOut book.now result
        first.new follow.new ahead.new }
{
    *follow = [0u64; 64];
    *ahead = [0u64; 128];
    let found = find_sets(book, first, follow);
    if let Ok(index) = &found {
        fill_ahead(book, index, first, follow, ahead);
    }
    found
}

// The lookahead of a production, and how many leading symbols of its right side can vanish: all of them exactly where
// FOLLOW of the left side is added.
pub fn lookahead(book: &[u8], production: u64) -> Result<Trail, Answer>
    ensures { LookaheadOutcome book.now production result }
{
    let mut begins = [0u64; 64];
    let mut ends = [0u64; 64];
    match &find_first(book, &mut begins) {
        Ok(index) => {
            follows(book, index, &begins, &mut ends);
            numbered(production, index.outline.productions)?;
            let place = cell_or(&index.places, production as usize, 0);
            Ok(lookahead_at(book, place, &begins, &ends))
        }
        Err(refused) => Err(*refused),
    }
}
