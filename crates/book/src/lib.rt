// Judged books: any bytes in, a refusal 1 to 6 or an index of the book out.
#![tactic(auto)]

use crate::columns::Outline;
use answers::limits::MOST_PRODUCTIONS;

mod closure;
pub mod columns;
pub mod judging;
mod useful;

// An index has a cell for each record that a book can have.
pub const CELLS: usize = MOST_PRODUCTIONS as usize;

// The index of a book's grammar: T, N, the start symbol and P, and the place of each record.
#[derive(Clone, Copy)]
pub struct Index {
    pub outline: Outline,
    pub places: [u16; CELLS],
}
