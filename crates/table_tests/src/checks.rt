// Tables checked: a table without conflict, and the same with one cell changed.
ghost use Rattle.std.specs.Prelude.{◌<◌, length};

use answers::buffers::cell_or;
use answers::refusals::Refusal;
use book::Index;
use book::columns::{Outline, gather_lefts};
use std::io;
use table::VACANT;

// The lowest production of a row.
fn production_of(lefts: &[u8], outline: Outline, row: usize) -> Option<u8> {
    for p in 0..outline.productions {
        if cell_or(lefts, p as usize, 0) as usize == row {
            return Some(p);
        }
    }
    None
}

// A filled cell is made vacant, and a vacant one gets the production.
fn other_byte(byte: u8, production: u8) -> u8 {
    if byte == VACANT { production } else { VACANT }
}

// Whether the table with cell i changed is refused at that cell, as no table that building gives.
fn is_told(book: &[u8], cells: &mut [u8], i: usize, byte: u8) -> bool
    requires { i < length cells.old }
{
    let before = cells[i];
    cells[i] = byte;
    let told = checker::check(book, cells);
    cells[i] = before;
    told.number == Refusal::Differs.number() && told.place == i as u64
}

// The first cell that is not told so: a filled one is made vacant, and a vacant one gets the lowest production of its
// row.
fn first_untold(book: &[u8], index: &Index, cells: &mut [u8]) -> Option<usize> {
    let outline = index.outline;
    let lefts = gather_lefts(book, &index.places, outline);
    let columns = outline.tokens as usize + 1;
    for i in 0..cells.len() {
        let production = production_of(&lefts, outline, i / columns).unwrap_or(outline.productions);
        let other = other_byte(cells[i], production);
        if !is_told(book, cells, i, other) {
            return Some(i);
        }
    }
    None
}

// The check of a table without conflict, and up to which cell each is told when it is changed.
pub(crate) fn show_checks(
    rt: &impl Print,
    book: &[u8],
    index: &Index,
    cells: &mut [u8],
) -> io::Result<()> {
    let checked = checker::check(book, cells);
    let size = cells.len();
    let told = first_untold(book, index, cells).unwrap_or(size);
    println!(rt; "check {} told below {told} of {size}", checked.number)
}
