// The columns of an index: by production its left side, its right side's length and first byte.
ghost use Rattle.std.specs.Prelude.{◌≡◌, ◌+◌, ◌*◌, get_or};
ghost use Rattle.sets.specs.Calls.{Decides};
ghost use Rattle.book.specs.Columns.{located, Gathered, Lefts, Lengths, Heads, IsOf};

use answers::buffers::cell_or;
use reader::fields::{LEFT, LENGTH, SYMBOLS, byte_at, place_at};

// T, N, the start symbol and P.
#[derive(Clone, Copy, PartialEq, Eq, Debug)]
pub struct Outline {
    pub tokens: u8,
    pub nonterminals: u8,
    pub start: u8,
    pub productions: u8,
}

impl Outline {
    // How many columns a row of the table has: one for each token, and the end mark's.
    pub fn columns(self) -> usize
        ensures { result ≡ self.tokens + 1 }
    {
        self.tokens as usize + 1
    }

    // How many cells the table has.
    pub fn cells(self) -> usize
        ensures { result ≡ self.nonterminals * (self.tokens + 1) }
    {
        self.nonterminals as usize * self.columns()
    }
}

// The byte that stands at distance `more` in the record of each production, by the production's number; 0 from P on.
fn gather(book: &[u8], places: &[u16], count: u8, more: usize) -> [u8; 256]
    ensures { Gathered (λ at. get_or book.now (at + more) 0) places.now count result }
{
    let mut column = [0u8; 256];
    for p in 0..count as usize {
        column[p] = byte_at(book, place_at(places, p) as usize, more);
    }
    column
}

// The left side of each production.
pub fn gather_lefts(book: &[u8], places: &[u16], outline: Outline) -> [u8; 256]
    ensures { Lefts book.now (located places.now outline) result }
{
    gather(book, places, outline.productions, LEFT)
}

// The length of the right side of each production.
pub fn gather_lengths(book: &[u8], places: &[u16], outline: Outline) -> [u8; 256]
    ensures { Lengths book.now (located places.now outline) result }
{
    gather(book, places, outline.productions, LENGTH)
}

// The byte where the symbols of each production start; of an empty right side what stands behind it.
pub fn gather_heads(book: &[u8], places: &[u16], outline: Outline) -> [u8; 256]
    ensures { Heads book.now (located places.now outline) result }
{
    gather(book, places, outline.productions, SYMBOLS)
}

// Whether p is one of the productions, and its left side is nonterminal n.
pub fn is_of(lefts: &[u8], outline: Outline, n: u8, p: u8) -> bool
    ensures { Decides result (IsOf lefts.now outline n p) }
{
    p < outline.productions && cell_or(lefts, p as usize, 0) == n
}
