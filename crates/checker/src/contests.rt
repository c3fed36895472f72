// The first cell that two productions claim, without a table: the columns that each row's productions claim so far, and
// for each further production those that it shares with them.
ghost use Rattle.std.specs.Prelude.{◌+◌, ◌≤◌, ◌<◌};
ghost use Rattle.sets.specs.Sets.{column_place};
ghost use Rattle.sets.specs.Calls.{number, Decides, set_at};
ghost use Rattle.answers.specs.Lowest.{LowestIn};
ghost use Rattle.table.specs.Claims.{ClaimsAt, left_of};
ghost use Rattle.checker.specs.Checking.{Both, Shared, ClaimsAdded, Countable, Contested, From, Twice, Disputed};
ghost use Rattle.checker.specs.Checking.{row_of, claims_before};

use answers::buffers::cell_or;
use answers::refusals::Refusal;
use answers::{Answer, refusal};
use book::Index;
use reader::fields::left_at;
use sets::{Set, apart, column_bit, has, load, store, union};

// Whether both sets have a bit.
fn both_have(x: Set, y: Set, bit: u8) -> bool
    ensures { Decides result (Both (number x) (number y) bit) }
{
    has(x, bit) & has(y, bit)
}

// The first column whose bit both sets have.
fn first_shared(x: Set, y: Set, tokens: u8) -> Option<usize>
    ensures { LowestIn (λ column. Both (number x) (number y) (column_place column tokens)) (tokens + 1) result }
{
    for column in 0..=tokens {
        if both_have(x, y, column_bit(column, tokens)) {
            return Some(column as usize);
        }
    }
    None
}

// The first cell of a row whose column both sets have, among the cells before a bound.
fn contest_row(row: u8, claimed: Set, ahead: Set, tokens: u8, bound: usize) -> Option<usize>
    ensures { LowestIn (Shared row (number claimed) (number ahead) tokens) bound result }
{
    if apart(claimed, ahead) {
        return None;
    }
    let column = first_shared(claimed, ahead, tokens)?;
    let cell = row as usize * (tokens as usize + 1) + column;
    if cell < bound { Some(cell) } else { None }
}

// One production more, of this row and with this lookahead; and the first cell before a bound that it contests.
fn add_claims(row: u8, ahead: Set, tokens: u8, claimed: &mut [u64], bound: usize) -> Option<usize>
    ensures { ClaimsAdded row (number ahead) tokens claimed.old bound result claimed.new }
{
    let before = load(claimed, row as usize);
    store(claimed, row as usize, union(before, ahead));
    contest_row(row, before, ahead, tokens, bound)
}

// The first of so many cells that two productions claim, and the columns that each row's productions claim.
pub(crate) fn first_contested(
    book: &[u8],
    index: &Index,
    ahead: &[u64],
    cells: usize,
    claimed: &mut [u64],
) -> Option<usize>
    requires { Countable (left_of book.now index.now.places) index.now.outline.productions claimed.old }
    ensures { Contested (left_of book.now index.now.places) (set_at ahead.now)
        index.now.outline.tokens index.now.outline.productions cells result claimed.new }
{
    let tokens = index.outline.tokens;
    let mut contested = None;
    for p in 0..index.outline.productions as usize {
        let row = left_at(book, cell_or(&index.places, p, 0) as usize);
        let bound = contested.unwrap_or(cells);
        contested = add_claims(row, load(ahead, p), tokens, claimed, bound).or(contested);
    }
    contested
}

// Whether production p is of the row, and its lookahead has the bit.
fn is_claimant(book: &[u8], index: &Index, ahead: &[u64], row: u8, bit: u8, p: usize) -> bool
    ensures { Decides result (ClaimsAt (left_of book.now index.now.places) (set_at ahead.now)
        row bit p) }
{
    left_at(book, cell_or(&index.places, p, 0) as usize) == row && has(load(ahead, p), bit)
}

// The lowest claimant from a number on.
fn claimant(
    book: &[u8],
    index: &Index,
    ahead: &[u64],
    row: u8,
    bit: u8,
    from: usize,
) -> Option<usize>
    requires { from ≤ index.now.outline.productions }
    ensures { LowestIn (From from (ClaimsAt (left_of book.now index.now.places)
        (set_at ahead.now) row bit)) index.now.outline.productions result }
{
    for p in from..index.outline.productions as usize {
        if is_claimant(book, index, ahead, row, bit, p) {
            return Some(p);
        }
    }
    None
}

// The refusal of a contested cell: its lowest claimant, and the next from there on.
pub(crate) fn conflict_at(book: &[u8], index: &Index, ahead: &[u64], cell: usize) -> Answer
    requires { (index.now.outline.productions ≤ 128) × (row_of index.now.outline.tokens cell < 256)
        × Twice (claims_before (left_of book.now index.now.places)
        (set_at ahead.now) index.now.outline.tokens index.now.outline.productions cell) }
    ensures { Disputed (claims_before (left_of book.now index.now.places)
        (set_at ahead.now) index.now.outline.tokens index.now.outline.productions cell) cell result }
{
    let tokens = index.outline.tokens;
    let columns = tokens as usize + 1;
    let row = (cell / columns) as u8;
    let bit = column_bit((cell % columns) as u8, tokens);
    let lowest = claimant(book, index, ahead, row, bit, 0).unwrap();
    let next = claimant(book, index, ahead, row, bit, lowest + 1).unwrap();
    refusal(
        Refusal::Conflict,
        cell as u64,
        lowest as u64 * 256 + next as u64,
    )
}
