// Whether a table is the one that building gives, whoever made it; no table is made for that.
#![tactic(auto)]

ghost use Rattle.answers.specs.Answers.{told};
ghost use Rattle.checker.specs.Calls.{CheckOutcome, CheckedWithFirst};
ghost use Rattle.checker.specs.Checking.{Comparable};

use crate::contests::{conflict_at, first_contested};
use crate::differences::first_different;
use answers::refusals::Refusal;
use answers::{Answer, refusal, told};
use book::Index;
use follow::work_out;
use table::fitting::check_table;

mod contests;
mod differences;

// A table that fits its book, by the lookaheads: the first conflict, else the first cell that differs, else none. Its
// frame is its own, so that the claims are on the stack only while they are compared.
#[inline(never)]
fn compare(book: &[u8], index: &Index, ahead: &[u64], table: &[u8]) -> Result<(), Answer>
    requires { Comparable book.now index.now ahead.now table.now }
    ensures { CheckOutcome book.now table.now (told result) }
{
    let mut claimed = [0u64; 64];
    if let Some(cell) = first_contested(book, index, ahead, table.len(), &mut claimed) {
        return Err(conflict_at(book, index, ahead, cell));
    }
    match first_different(&claimed, ahead, index.outline.tokens, table) {
        Some(cell) => Err(refusal(Refusal::Differs, cell as u64, 0)),
        None => Ok(()),
    }
}

// The refusal of the book, then of a table that does not fit, then what the two are compared for.
fn check_all(book: &[u8], table: &[u8], first: &mut [u64; 64]) -> Result<(), Answer>
    ensures { CheckedWithFirst book.now table.now (told result) first.new }
{
    let mut follow = [0u64; 64];
    let mut ahead = [0u64; 128];
    // The index is borrowed and not moved, which keeps the stack low.
    let found = work_out(book, first, &mut follow, &mut ahead);
    let index = match &found {
        Ok(index) => index,
        Err(refused) => return Err(*refused),
    };
    match check_table(book, &index.places, index.outline, table) {
        Ok(()) => compare(book, index, &ahead, table),
        Err(place) => Err(refusal(Refusal::Table, place as u64, 0)),
    }
}

// The check, which also leaves FIRST of each nonterminal of the book.
pub fn check_with_first(book: &[u8], table: &[u8], first: &mut [u64; 64]) -> Answer
    ensures { CheckedWithFirst book.now table.now result first.new }
{
    told(check_all(book, table, first))
}

// The refusals 1 to 6 of the book, then 9, 8 or 17 of the table; done exactly if the table is built without conflict.
pub fn check(book: &[u8], table: &[u8]) -> Answer
    ensures { CheckOutcome book.now table.now result }
{
    let mut first = [0u64; 64];
    check_with_first(book, table, &mut first)
}
