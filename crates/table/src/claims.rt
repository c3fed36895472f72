// The claims of the productions on the cells, laid one after the other: the table, or the first conflict.
ghost use Rattle.std.specs.Prelude.{◌≡◌, ◌+◌, ◌*◌, ◌≤◌, ◌<◌, length};
ghost use Rattle.grammar.specs.Grammar.{Grammar};
ghost use Rattle.sets.specs.Sets.{member};
ghost use Rattle.sets.specs.Calls.{number};
ghost use Rattle.book.specs.Judging.{Serves};
ghost use Rattle.table.specs.Claims.{book_claims, Laid, Ledger, Claimed, RowClaimed};
ghost use Rattle.table.specs.Claims.{Claimable, Rowed, conflict_of, Tabulated};
ghost use Rattle.table.specs.Filling.{Enterable, Entered};

use crate::VACANT;
use crate::vacancy::{FEW, MOST, vacant};
use answers::buffers::{cell_or, write_front};
use answers::refusals::Refusal;
use answers::{Answer, refusal};
use book::Index;
use reader::fields::left_at;
use sets::{END_MARK, Set, has, load};

// A cell that has two claimants, and its two lowest.
#[derive(Clone, Copy)]
pub(crate) struct Contest {
    pub(crate) cell: usize,
    pub(crate) lowest: u8,
    pub(crate) next: u8,
}

// Production p claims a cell if its lookahead has the bit of the cell's column: a vacant cell it gets, and one that is
// held is contested; the first contest known is kept.
fn claim(
    ahead: Set,
    bit: u8,
    cell: usize,
    p: u8,
    table: &mut [u8],
    known: Option<Contest>,
) -> Option<Contest>
    requires { cell < length table.old }
    ensures { Claimed table.old cell p known (member bit (number ahead)) result table.new }
{
    if !has(ahead, bit) {
        return known;
    }
    let holder = table[cell];
    if holder == VACANT {
        table[cell] = p;
        return known;
    }
    match known {
        Some(first) if first.cell <= cell => known,
        _ => Some(Contest {
            cell,
            lowest: holder,
            next: p,
        }),
    }
}

// Production p claims the cells of its row: a column for each token, and then the end mark's.
fn claim_row(
    row: u8,
    ahead: Set,
    tokens: u8,
    p: u8,
    table: &mut [u8],
    known: Option<Contest>,
) -> Option<Contest>
    requires { ((row + 1) * (tokens + 1) ≤ length table.old) × (p < 255) }
    ensures { RowClaimed row (number ahead) tokens p table.old known table.new result }
{
    let from = row as usize * (tokens as usize + 1);
    let mut contest = known;
    for column in 0..tokens {
        contest = claim(ahead, column, from + column as usize, p, table, contest);
    }
    claim(ahead, END_MARK, from + tokens as usize, p, table, contest)
}

// The claims of every production, in order, on a table whose cells are all vacant; and the first contest.
fn claim_all(book: &[u8], index: &Index, ahead: &[u64], table: &mut [u8]) -> Option<Contest>
    requires { Claimable book.now index.now.places index.now.outline.productions
        index.now.outline.tokens table.old }
    ensures { Ledger
        (Laid (book_claims book.now index.now.places ahead.now index.now.outline.tokens)
        index.now.outline.productions 0)
        table.new result }
{
    let tokens = index.outline.tokens;
    let mut contest = None;
    for p in 0..index.outline.productions {
        let place = cell_or(&index.places, p as usize, 0);
        let row = left_at(book, place as usize);
        contest = claim_row(row, load(ahead, p as usize), tokens, p, table, contest);
    }
    contest
}

// The refusal of a contested cell.
fn refused(contest: Contest) -> Answer
    ensures { result ≡ conflict_of contest }
{
    refusal(
        Refusal::Conflict,
        contest.cell as u64,
        contest.lowest as u64 * 256 + contest.next as u64,
    )
}

// Every claim is laid on vacant cells, enough for the table and at most N, which are written if none is contested. Its
// frame is its own, so that the cells are on the stack only while it runs.
#[inline(never)]
fn tabulate<const N: usize>(
    book: &[u8],
    index: &Index,
    ahead: &[u64],
    cells: usize,
    table: &mut [u8],
) -> Result<(), Answer>
    requires room { (cells ≤ N) × (N ≤ 4032) × (cells ≤ length table.old) }
    requires rows { Rowed book.now index.now.places index.now.outline.productions
        index.now.outline.tokens cells }
    ensures { Tabulated
        (Laid (book_claims book.now index.now.places ahead.now index.now.outline.tokens)
        index.now.outline.productions 0)
        cells table.old result table.new }
{
    let mut claimed = vacant::<N>();
    let claimed = &mut claimed[..cells];
    match claim_all(book, index, ahead, claimed) {
        Some(contest) => Err(refused(contest)),
        None => {
            write_front(claimed, table);
            Ok(())
        }
    }
}

// The table of a book whose lookaheads are known, unless two productions claim one cell: that is known before anything
// is written.
pub(crate) fn enter(
    book: &[u8],
    index: &Index,
    ahead: &[u64],
    table: &mut [u8],
) -> Result<(), Answer>
    requires { Enterable book.now index.now ahead.now table.old }
    ensures { (g : Grammar)
        → Serves book.now g
        → Entered g table.old result table.new }
{
    let cells = index.outline.cells();
    if cells <= FEW {
        tabulate::<FEW>(book, index, ahead, cells, table)
    } else {
        tabulate::<MOST>(book, index, ahead, cells, table)
    }
}
