// How far each record has to be walked again once it has been walked whole.
ghost use Rattle.std.specs.Prelude.{◌≤◌, length};
ghost use Rattle.first.specs.Forms.{Legible, Readable};
ghost use Rattle.follow.specs.Walks.{TailAt, Tails};

use book::Index;
use first::forms::symbol_set;
use reader::fields::{LENGTH, SYMBOLS};
use sets::{EMPTY_STRING, has};

// The position of the last symbol that cannot vanish on the right side of the record at a place, or 0: what lies behind
// a symbol before that position is the same in every pass.
fn tail_at(book: &[u8], place: u16, first: &[u64]) -> u8
    requires { Legible book.now place }
    ensures { TailAt book.now first.now place result }
{
    let at = place as usize;
    for j in (0..book[at + LENGTH]).rev() {
        let set = symbol_set(book[at + SYMBOLS + j as usize], first);
        if !has(set, EMPTY_STRING) {
            return j;
        }
    }
    0
}

// That position of each record.
pub(crate) fn find_tails(book: &[u8], index: &Index, first: &[u64], tails: &mut [u8])
    requires { Readable book.now index.now.places index.now.outline.productions × (index.now.outline.productions ≤ length tails.old) }
    ensures { Tails book.now index.now.places index.now.outline.productions
        first.now tails.new }
{
    let count = index.outline.productions as usize;
    for (p, place) in index.places[..count].iter().enumerate() {
        tails[p] = tail_at(book, *place, first);
    }
}
