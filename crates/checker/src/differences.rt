// The first cell of a table that is not the one of its claimant, where no cell has two.
ghost use Rattle.std.specs.Prelude.{length};
ghost use Rattle.sets.specs.Calls.{number, Decides};
ghost use Rattle.answers.specs.Lowest.{LowestIn};
ghost use Rattle.checker.specs.Checking.{Differs, DiffersAt};

use sets::{Set, column_bit, has, load};
use table::VACANT;
use table::fitting::cell_at;

// Whether a byte is 255 although the row's claimed set has the bit, or a production whose lookahead has not.
fn differs(claimed: Set, ahead: &[u64], bit: u8, byte: u8) -> bool
    ensures { Decides result (Differs (number claimed) ahead.now bit byte) }
{
    if byte == VACANT {
        has(claimed, bit)
    } else {
        !has(load(ahead, byte as usize), bit)
    }
}

// Whether cell i differs.
fn cell_differs(claimed: &[u64], ahead: &[u64], tokens: u8, table: &[u8], i: usize) -> bool
    ensures { Decides result (DiffersAt claimed.now ahead.now tokens table.now i) }
{
    let columns = tokens as usize + 1;
    let bit = column_bit((i % columns) as u8, tokens);
    differs(load(claimed, i / columns), ahead, bit, cell_at(table, i))
}

// The first cell that differs.
pub(crate) fn first_different(
    claimed: &[u64],
    ahead: &[u64],
    tokens: u8,
    table: &[u8],
) -> Option<usize>
    ensures { LowestIn (DiffersAt claimed.now ahead.now tokens table.now)
        (length table.now) result }
{
    for i in 0..table.len() {
        if cell_differs(claimed, ahead, tokens, table, i) {
            return Some(i);
        }
    }
    None
}
