// The productions of a book as the steps of a run and of an expansion use them.
ghost use Rattle.std.specs.Prelude.{◌≡◌};
ghost use Rattle.book.specs.Columns.{located, outlined, Lengths};
ghost use Rattle.machine.specs.Room.{right_of};
ghost use Rattle.stack.specs.Sides.{RightSide};
ghost use Rattle.stack.specs.Stack.{stack_bytes, replacing};

use crate::replace;
use book::columns::{Outline, gather_lengths};
use reader::fields::place_at;

// A book, the places of its records and its outline, with the length of the right side of each production.
#[derive(Drop)]
pub struct Rules<'b> {
    pub book: &'b [u8],
    pub places: &'b [u16],
    pub outline: Outline,
    lengths: [u8; 256],
    ghost gathered: { Lengths book.now (located places.now outline) lengths },
}

impl<'b> Rules<'b> {
    // The productions that places and an outline find in a book.
    pub fn new(book: &'b [u8], places: &'b [u16], outline: Outline) -> Rules<'b>
        ensures book { result.book.now ≡ book.now }
        ensures places { result.places.now ≡ places.now }
        ensures outline { result.outline ≡ outline }
    {
        Rules {
            book,
            places,
            outline,
            lengths: gather_lengths(book, places, outline),
        }
    }

    // How many symbols the right side of production p has.
    pub fn length(&self, p: u8) -> u8
        ensures { RightSide
            self.now.book.now
            (located self.now.places.now self.now.outline)
            p
            result }
    {
        self.lengths[p as usize]
    }

    // The symbol on top, which has `below` cells under it, gives way to the right side of production p; a cell that is
    // in use no more is 0. Where the stack has no such cells nothing changes.
    pub fn apply(&self, p: u8, stack: &mut [u8], below: usize)
        ensures { stack.new
            ≡ replacing
            (stack_bytes (right_of (outlined self.now.book.now self.now.places.now self.now.outline) p))
            below
            stack.old }
    {
        let at = place_at(self.places, p as usize);
        replace(self.book, at, self.length(p), stack, below);
    }
}
