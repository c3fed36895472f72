// What is done next, from the symbol on top, the table and the room.
ghost use Rattle.std.specs.Prelude.{◌≡◌, ◌≤◌, length};
ghost use Rattle.book.specs.Columns.{located};
ghost use Rattle.machine.specs.Machine.{meets};
ghost use Rattle.stack.specs.Ahead.{column_in};
ghost use Rattle.offer.specs.Moves.{Bottom, CellFacing, Decision, Choice};

use crate::{Move, Step};
use book::columns::Outline;
use grammar::Symbol;
use machine::Reason;
use reader::fields::symbol_of;
use stack::counts;
use stack::rules::Rules;
use table::VACANT;
use table::fitting::cell_at;

// What the table says in row n to what comes next.
fn cell_facing(table: &[u8], outline: Outline, n: u8, ahead: Option<u8>) -> u8
    ensures { CellFacing outline table.now n ahead result }
{
    if outline.nonterminals <= n {
        return VACANT;
    }
    let row = n as usize * (outline.tokens as usize + 1);
    match ahead {
        Some(t) => {
            if t < outline.tokens {
                cell_at(table, row + t as usize)
            } else {
                VACANT
            }
        }
        None => cell_at(table, row + outline.tokens as usize),
    }
}

// Whether token t comes next.
fn is_next(ahead: Option<u8>, t: u8) -> bool
    ensures { result ≡ meets (column_in ahead) t }
{
    ahead == Some(t)
}

// What the symbol on top of the stack says to what comes next.
fn decide(step: Step, table: &[u8], outline: Outline) -> Result<Move, Reason>
    ensures { Decision step table.now outline result }
{
    let symbol = step.symbol;
    let ahead = step.ahead;
    match symbol {
        Symbol::Token(t) => {
            if is_next(ahead, t) {
                Ok(Move::Match)
            } else {
                Err(Reason::WantsToken(t))
            }
        }
        Symbol::Nonterminal(n) => {
            let p = cell_facing(table, outline, n, ahead);
            if p == VACANT {
                Err(Reason::WantsRow(n))
            } else {
                Ok(Move::Use(p))
            }
        }
    }
}

// What is done next where the stack is empty.
fn at_bottom(ahead: Option<u8>) -> Result<Move, Reason>
    ensures { Bottom (column_in ahead) result }
{
    match ahead {
        Some(_) => Err(Reason::WantsEnd),
        None => Ok(Move::Accept),
    }
}

// What is done next with the first `height` cells of the stack in use and `listed` of the list's `cells`.
pub(crate) fn choose(
    rules: &Rules,
    table: &[u8],
    ahead: Option<u8>,
    stack: &[u8],
    height: usize,
    cells: usize,
    listed: usize,
) -> Result<Move, Reason>
    requires { height ≤ length stack.now }
    ensures { Choice
        rules.now.book.now
        (located rules.now.places.now rules.now.outline)
        table.now
        ahead
        stack.now
        height
        cells
        listed
        result }
{
    if height == 0 {
        return at_bottom(ahead);
    }
    let below = height - 1;
    let symbol = symbol_of(stack[below]);
    let choice = decide(Step { symbol, ahead }, table, rules.outline)?;
    let Move::Use(p) = choice else {
        return Ok(choice);
    };
    if cells <= listed {
        return Err(Reason::FullList);
    }
    if counts(stack.len()) < below + rules.length(p) as usize {
        return Err(Reason::FullStack);
    }
    Ok(choice)
}
