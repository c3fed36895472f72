// What is checked of a run before its steps: the table, the number of tokens, the tokens, a stack cell.
ghost use Rattle.std.specs.Prelude.{ℕ, ◌≤◌, ◌<◌, length, get_or};
ghost use Rattle.book.specs.Columns.{grammar_in};
ghost use Rattle.answers.specs.Lowest.{LowestIn};
ghost use Rattle.run.specs.Checking.{CheckedWith};
ghost use Rattle.run.specs.Running.{Strange};
ghost use Rattle.run.specs.Tokens.{TokensChecked};

use answers::limits::LONGEST_STRING;
use answers::refusals::{Lent, Refusal};
use answers::{Answer, refusal};
use book::Index;
use table::fitting::check_table;

// The highest token, or 0 where there is none.
fn highest(tokens: &[u8]) -> u8
    ensures { (i : ℕ) → i < length tokens.now → get_or tokens.now i 0 ≤ result }
{
    let mut most: u8 = 0;
    for token in tokens {
        most = most.max(*token);
    }
    most
}

// The first token that is not below `limit`. Where the highest one is below it no search is made, which is faster.
pub fn first_above(tokens: &[u8], limit: u8) -> Option<usize>
    ensures { LowestIn (Strange limit tokens.now) (length tokens.now) result }
{
    if highest(tokens) < limit {
        return None;
    }
    tokens.iter().position(|token| limit <= *token)
}

// The check of a token string, where each token is to be below `limit`.
pub fn check_tokens(tokens: &[u8], limit: u8) -> Result<(), Answer>
    ensures { TokensChecked limit tokens.now result }
{
    if LONGEST_STRING < tokens.len() {
        return Err(refusal(Refusal::Limit, LONGEST_STRING as u64, 0));
    }
    match first_above(tokens, limit) {
        Some(strange) => Err(refusal(Refusal::Token, strange as u64, 0)),
        None => Ok(()),
    }
}

// The check of a run before its steps.
pub(crate) fn check(
    book: &[u8],
    index: &Index,
    table: &[u8],
    tokens: &[u8],
    cells: usize,
) -> Result<(), Answer>
    ensures { CheckedWith
        (grammar_in book.now index.now)
        table.now
        tokens.now
        cells
        result }
{
    if let Err(place) = check_table(book, &index.places, index.outline, table) {
        return Err(refusal(Refusal::Table, place as u64, 0));
    }
    check_tokens(tokens, index.outline.tokens)?;
    if cells == 0 {
        return Err(refusal(Refusal::Room, 0, Lent::Stack.detail()));
    }
    Ok(())
}
