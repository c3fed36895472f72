// Whether a table fits a book's grammar, whoever made the table: refusal 9.
ghost use Rattle.std.specs.Prelude.{◌≡◌, ◌+◌, ◌*◌, ◌<◌, length, get_or};
ghost use Rattle.book.specs.Columns.{outlined};
ghost use Rattle.table.specs.Fitting.{CellFits, FirstMisfit, TableFitting};

use crate::VACANT;
use answers::buffers::cell_or;
use book::columns::{Outline, gather_lefts, is_of};

// Cell i of a table; past its end no production.
pub fn cell_at(table: &[u8], i: usize) -> u8
    ensures { result ≡ get_or table.now i 255 }
{
    cell_or(table, i, VACANT)
}

// Whether cell i is vacant or holds a production of its row.
fn cell_fits(lefts: &[u8], outline: Outline, table: &[u8], i: usize) -> bool
    requires { i < outline.nonterminals * (outline.tokens + 1) }
    ensures { CellFits lefts.now outline table.now i result }
{
    let p = cell_at(table, i);
    if p == VACANT {
        return true;
    }
    let row = i / (outline.tokens as usize + 1);
    is_of(lefts, outline, row as u8, p)
}

// The first cell that does not fit.
fn first_misfit(book: &[u8], places: &[u16], outline: Outline, table: &[u8]) -> Option<usize>
    requires { length table.now ≡ outline.nonterminals * (outline.tokens + 1) }
    ensures { FirstMisfit (outlined book.now places.now outline) table.now result }
{
    let lefts = gather_lefts(book, places, outline);
    for i in 0..table.len() {
        if !cell_fits(&lefts, outline, table, i) {
            return Some(i);
        }
    }
    None
}

// Whether a table fits the grammar that places and an outline tell of, for every book, places, outline and table; if
// not, the place of refusal 9: the length given, or the first cell that does not fit.
pub fn check_table(book: &[u8], places: &[u16], outline: Outline, table: &[u8]) -> Result<(), usize>
    ensures { TableFitting (outlined book.now places.now outline) table.now result }
{
    if table.len() != outline.cells() {
        return Err(table.len());
    }
    match first_misfit(book, places, outline, table) {
        Some(i) => Err(i),
        None => Ok(()),
    }
}
