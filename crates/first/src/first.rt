// FIRST of each nonterminal, by passes over the records until one changes nothing.
ghost use Rattle.std.specs.Prelude.{◌≡◌, replicate};
ghost use Rattle.answers.specs.Limits.{most_nonterminals};
ghost use Rattle.first.specs.Forms.{Legible, Readable};
ghost use Rattle.first.specs.Steps.{Made, first_step, first_steps, passed, FirstFound};

use crate::families::unite;
use crate::forms::trail_of;
use book::Index;
use reader::fields::{LEFT, LENGTH, SYMBOLS};
use sets::{EMPTY_STRING, single};

// The right side of the record at a place adds to FIRST of its left side, or changes nothing.
fn first_step(book: &[u8], place: u16, first: &mut [u64]) -> bool
    requires { Legible book.now place }
    ensures { Made (first_step book.now place) first.old first.new result }
{
    let at = place as usize;
    let from = at + SYMBOLS;
    let end = from + book[at + LENGTH] as usize;
    let begun = trail_of(&book[from..end], first, single(EMPTY_STRING));
    unite(first, book[at + LEFT] as usize, begun.set)
}

// Each record once, in order, and whether that changed nothing.
fn first_pass(book: &[u8], index: &Index, first: &mut [u64]) -> bool
    requires { Readable book.now index.now.places index.now.outline.productions }
    ensures { Made (passed (first_steps book.now index.now.places) index.now.outline.productions)
        first.old first.new result }
{
    let count = index.outline.productions as usize;
    let mut settled = true;
    for place in &index.places[..count] {
        settled &= first_step(book, *place, first);
    }
    settled
}

// FIRST of each nonterminal, from sets without members: passes until one changes nothing.
pub(crate) fn firsts(book: &[u8], index: &Index, first: &mut [u64; 64])
    requires { Readable book.now index.now.places index.now.outline.productions
        × (first.old ≡ replicate most_nonterminals 0) }
    ensures { FirstFound book.now index.now.places index.now.outline.productions first.new }
{
    while !first_pass(book, index, first) {}
}
