// What is checked of a run before its steps: the table, the number of tokens, the tokens, a stack cell.
ghost use Rattle.std.specs.Prelude.{◌≡◌, ◌+◌, ◌≤◌, length, get_or};
ghost use Rattle.sets.specs.Calls.{Decides};
ghost use Rattle.answers.specs.Lowest.{FailingIn};
ghost use Rattle.slr.specs.Cells.{most_states};
ghost use Rattle.slr_run.specs.Fitting.{NumberFits};
ghost use Rattle.slr_run.specs.Checking.{columns_in, RowFits, CellFits, WholeRows, TableCheck, CheckedFor};

use answers::limits::LONGEST_STRING;
use answers::refusals::{Lent, Refusal};
use answers::{Answer, refusal};
use book::columns::Outline;
use run::checking::first_above;
use slr::{ACCEPT, EMPTY, MOST_STATES, REDUCE};

// How many columns a row has: the tokens, the end mark, the nonterminals.
pub(crate) fn columns_of(outline: Outline) -> usize
    ensures { result ≡ columns_in outline }
{
    outline.tokens as usize + 1 + outline.nonterminals as usize
}

// Whether a number fits under a column of a table with so many rows.
fn number_fits(outline: Outline, rows: usize, column: usize, number: u16) -> bool
    requires { rows ≤ most_states }
    ensures { Decides result (NumberFits outline.tokens outline.productions rows column number) }
{
    if number == EMPTY {
        return true;
    }
    let last = outline.tokens as usize;
    if (number as usize) < rows {
        return column != last;
    }
    if last < column {
        return false;
    }
    if number == ACCEPT {
        return column == last;
    }
    if number < REDUCE {
        return false;
    }
    number - REDUCE < outline.productions as u16
}

// The first column of the row that begins at a cell whose number does not fit.
fn first_unfit(
    table: &[u16],
    base: usize,
    columns: usize,
    outline: Outline,
    rows: usize,
) -> Option<usize>
    requires { (rows ≤ most_states) × (base + columns ≤ length table.now) }
    ensures { FailingIn (RowFits outline rows table.now base) columns result }
{
    for column in 0..columns {
        if !number_fits(outline, rows, column, table[base + column]) {
            return Some(column);
        }
    }
    None
}

// The first cell that does not fit, row by row.
fn first_misfit(table: &[u16], outline: Outline, rows: usize) -> Option<usize>
    requires { WholeRows outline table.now rows }
    ensures { FailingIn (CellFits outline rows table.now) (length table.now) result }
{
    let columns = columns_of(outline);
    for row in 0..rows {
        let base = row * columns;
        if let Some(column) = first_unfit(table, base, columns, outline, rows) {
            return Some(base + column);
        }
    }
    None
}

// The place of refusal 9 where a table does not fit the grammars with these numbers: its length where it has not whole
// rows, no row or too many, or else its first cell that does not fit.
fn misfit(table: &[u16], outline: Outline) -> Option<usize>
    ensures { TableCheck outline table.now result }
{
    let columns = columns_of(outline);
    let rows = table.len() / columns;
    if table.len() % columns != 0 || rows == 0 || MOST_STATES < rows {
        return Some(table.len());
    }
    first_misfit(table, outline, rows)
}

// What a run is refused with before its steps.
pub(crate) fn check(
    outline: Outline,
    table: &[u16],
    tokens: &[u8],
    cells: usize,
) -> Result<(), Answer>
    ensures { CheckedFor outline table.now tokens.now cells result }
{
    if let Some(place) = misfit(table, outline) {
        return Err(refusal(Refusal::Table, place as u64, 0));
    }
    if LONGEST_STRING < tokens.len() {
        return Err(refusal(Refusal::Limit, LONGEST_STRING as u64, 0));
    }
    if let Some(strange) = first_above(tokens, outline.tokens) {
        return Err(refusal(Refusal::Token, strange as u64, 0));
    }
    if cells == 0 {
        return Err(refusal(Refusal::Room, 0, Lent::Stack.detail()));
    }
    Ok(())
}
