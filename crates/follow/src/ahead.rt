// The lookahead of a production, and of all.
ghost use Rattle.std.specs.Prelude.{◌≡◌, ◌≤◌, replicate};
ghost use Rattle.sets.specs.Calls.{set_at};
ghost use Rattle.answers.specs.Limits.{most_productions};
ghost use Rattle.reader.specs.Fields.{left_at, right_at};
ghost use Rattle.first.specs.Trail.{Trailed};
ghost use Rattle.first.specs.Forms.{Legible, Readable};
ghost use Rattle.follow.specs.Walks.{AheadFilled};

use book::Index;
use first::forms::{Trail, trail_of};
use reader::fields::{LEFT, LENGTH, SYMBOLS};
use sets::{load, word};

// The lookahead of the record at a place: its right side, going on with FOLLOW of its left side; and how many leading
// symbols of the right side can vanish.
pub(crate) fn lookahead_at(book: &[u8], place: u16, first: &[u64], follow: &[u64]) -> Trail
    requires { Legible book.now place }
    ensures { Trailed first.now
        (set_at follow.now (left_at book.now place)) (right_at book.now place) result }
{
    let at = place as usize;
    let behind = load(follow, book[at + LEFT] as usize);
    let from = at + SYMBOLS;
    let end = from + book[at + LENGTH] as usize;
    trail_of(&book[from..end], first, behind)
}

// The lookahead of each record, in order; of the numbers none is passed on.
pub(crate) fn fill_ahead(
    book: &[u8],
    index: &Index,
    first: &[u64],
    follow: &[u64],
    ahead: &mut [u64; 128],
)
    requires { Readable book.now index.now.places index.now.outline.productions × (index.now.outline.productions ≤ most_productions)
        × (ahead.old ≡ replicate most_productions 0) }
    ensures { AheadFilled book.now index.now.places first.now follow.now
        index.now.outline.productions ahead.new }
{
    let count = index.outline.productions as usize;
    for (p, place) in index.places[..count].iter().enumerate() {
        let looked = lookahead_at(book, *place, first, follow);
        ahead[p] = word(looked.set);
    }
}
