// One column offered to a run in progress.
ghost use Rattle.std.specs.Prelude.{◌≡◌, ◌-◌, ◌^◌, ◌≤◌, ◌<◌, length, set};
ghost use Rattle.book.specs.Columns.{located, grammar_in};
ghost use Rattle.offer.specs.Offering.{matched_at, ColumnAhead, Ready, OfferedAt};
ghost use Rattle.offer.specs.Resuming.{clamped, OfferedOn, OfferOutcome};

use crate::moves::choose;
use crate::{Halt, Move, Progress};
use answers::Answer;
use answers::limits::MOST_CELLS;
use book::Index;
use stack::counts;
use stack::rules::Rules;

// The token on top is matched and popped.
fn pop(stack: &mut [u8], at: Progress) -> Progress
    requires { (1 ≤ at.height) × (at.height ≤ length stack.old) × (at.matched < 2 ^ 63) }
    ensures { (result ≡ matched_at at) × (stack.new ≡ set stack.old (at.height - 1) 0) }
{
    let below = at.height - 1;
    stack[below] = 0;
    Progress {
        height: below,
        matched: at.matched + 1,
        ..at
    }
}

// One column is offered: productions are used until it is taken or the run stops.
pub(crate) fn offer_at(
    rules: &Rules,
    table: &[u8],
    ahead: Option<u8>,
    stack: &mut [u8],
    list: &mut [u8],
    at: Progress,
) -> Result<Progress, Halt>
    requires { Ready at stack.old list.old }
    ensures { OfferedAt
        rules.now.book.now
        (located rules.now.places.now rules.now.outline)
        table.now
        ahead
        at
        stack.old
        list.old
        result
        stack.new
        list.new }
{
    let cells = counts(list.len());
    let mut height = at.height;
    let mut listed = at.listed;
    let mut deepest = at.deepest;
    loop {
        let here = Progress {
            height,
            listed,
            matched: at.matched,
            deepest,
        };
        let choice = choose(rules, table, ahead, stack, height, cells, listed);
        let next = match choice {
            Ok(next) => next,
            Err(reason) => return Err(Halt::Stopped(reason, here)),
        };
        match next {
            Move::Use(p) => {
                let count = rules.length(p);
                let below = height - 1;
                list[listed] = p;
                listed += 1;
                rules.apply(p, stack, below);
                height = below + count as usize;
                deepest = deepest.max(height);
            }
            Move::Match => return Ok(pop(stack, here)),
            Move::Accept => return Ok(here),
        }
    }
}

// A column below T is a token, any other the end mark.
fn column_ahead(column: u8, tokens: u8) -> Option<u8>
    ensures { ColumnAhead column tokens result }
{
    if column < tokens { Some(column) } else { None }
}

// The counts as far as they count; the most cells held are those of the stack now, whatever the caller tells.
fn clamp(at: Progress, stack: usize, list: usize) -> Progress
    ensures { result ≡ clamped at stack list }
{
    let height = at.height.min(counts(stack));
    Progress {
        height,
        listed: at.listed.min(counts(list)),
        matched: at.matched.min(MOST_CELLS),
        deepest: height,
    }
}

// One column offered to a run in progress, by the grammar that an index tells of.
fn offer_on(
    book: &[u8],
    index: &Index,
    table: &[u8],
    column: u8,
    stack: &mut [u8],
    list: &mut [u8],
    at: Progress,
) -> Result<Progress, Halt>
    ensures { OfferedOn
        (grammar_in book.now index.now)
        table.now
        column
        at
        stack.old
        list.old
        result
        stack.new
        list.new }
{
    let rules = Rules::new(book, &index.places, index.outline);
    let ahead = column_ahead(column, index.outline.tokens);
    let from = clamp(at, stack.len(), list.len());
    offer_at(&rules, table, ahead, stack, list, from)
}

// One column offered to a run in progress, whatever the reading and the counts; every column from T on is the end
// mark's. The reply tells the most stack cells held in this offer, those that it began with included. Where the book
// was refused, that is the reply, and nothing changes.
pub fn offer(
    book: &[u8],
    reading: Result<Index, Answer>,
    table: &[u8],
    column: u8,
    stack: &mut [u8],
    list: &mut [u8],
    at: Progress,
) -> Result<Progress, Halt>
    ensures { OfferOutcome
        book.now
        reading
        table.now
        column
        at
        stack.old
        list.old
        result
        stack.new
        list.new }
{
    let index = reading?;
    offer_on(book, &index, table, column, stack, list, at)
}
