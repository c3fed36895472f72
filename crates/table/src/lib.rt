// The LL(1) table of a book: its cells, its first conflict, and building it.
#![tactic(auto)]

ghost use Rattle.answers.specs.Answers.{told};
ghost use Rattle.table.specs.Calls.{BuildOutcome};

use crate::claims::enter;
use answers::buffers::{check_room, write_front};
use answers::refusals::Lent;
use answers::{Answer, told};
use follow::checks::sets_room;
use follow::work_out;

mod claims;
pub mod fitting;
pub mod vacancy;

// The byte of a cell that no production claims.
pub const VACANT: u8 = 255;

// The sets and the table of a book with room for them; where two productions claim one cell, nothing is written.
fn write_all(
    book: &[u8],
    first: &mut [u64],
    follow: &mut [u64],
    table: &mut [u8],
) -> Result<(), Answer>
    ensures { BuildOutcome book.now first.old follow.old table.old (told result)
        first.new follow.new table.new }
{
    let mut begins = [0u64; 64];
    let mut ends = [0u64; 64];
    let mut ahead = [0u64; 128];
    // The index is borrowed and not moved, which keeps the stack low.
    let found = work_out(book, &mut begins, &mut ends, &mut ahead);
    let index = match &found {
        Ok(index) => index,
        Err(refused) => return Err(*refused),
    };
    let n = index.outline.nonterminals as usize;
    sets_room(first.len(), follow.len(), n)?;
    check_room(table.len(), index.outline.cells(), Lent::Table)?;
    enter(book, index, &ahead, table)?;
    write_front(&begins[..n], first);
    write_front(&ends[..n], follow);
    Ok(())
}

// The sets and the table into the lent buffers; how many symbols can vanish is worked out on the way and not passed on.
pub fn build(book: &[u8], first: &mut [u64], follow: &mut [u64], table: &mut [u8]) -> Answer
    ensures { BuildOutcome book.now first.old follow.old table.old result
        first.new follow.new table.new }
{
    told(write_all(book, first, follow, table))
}
