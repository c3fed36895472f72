// What an expansion does next, from the symbol on top, the next production and the room.
ghost use Rattle.std.specs.Prelude.{◌≡◌, ◌≤◌, length};
ghost use Rattle.book.specs.Columns.{located};
ghost use Rattle.expand.specs.Turns.{emptied, TurnAt};

use crate::Turn;
use book::columns::is_of;
use grammar::Symbol;
use machine::Obstacle;
use reader::fields::symbol_of;
use stack::rules::Rules;
use stack::{ahead_of, counts};

// How an expansion ends where the stack is empty.
fn at_bottom(ahead: Option<u8>) -> Result<(), Obstacle>
    ensures { result ≡ emptied ahead }
{
    match ahead {
        Some(_) => Err(Obstacle::Unfit),
        None => Ok(()),
    }
}

// What is done next with the first `height` cells of the stack in use, `used` productions of the list and `written` of
// the output's `cells`.
pub(crate) fn turn_at(
    rules: &Rules,
    lefts: &[u8],
    list: &[u8],
    used: usize,
    stack: &[u8],
    height: usize,
    written: usize,
    cells: usize,
) -> Turn
    requires { height ≤ length stack.now }
    ensures { TurnAt
        rules.now.book.now
        (located rules.now.places.now rules.now.outline)
        lefts.now
        list.now
        used
        stack.now
        height
        written
        cells
        result }
{
    if height == 0 {
        return Turn::Close(at_bottom(ahead_of(list, used)));
    }
    let below = height - 1;
    let symbol = symbol_of(stack[below]);
    match symbol {
        Symbol::Token(t) => {
            if written < cells {
                Turn::Write(t)
            } else {
                Turn::Close(Err(Obstacle::FullOutput))
            }
        }
        Symbol::Nonterminal(n) => {
            let ahead = ahead_of(list, used);
            match ahead {
                Some(p) => {
                    if !is_of(lefts, rules.outline, n, p) {
                        Turn::Close(Err(Obstacle::Unfit))
                    } else if counts(stack.len()) < below + rules.length(p) as usize {
                        Turn::Close(Err(Obstacle::FullStack))
                    } else {
                        Turn::Apply(p)
                    }
                }
                None => Turn::Close(Err(Obstacle::Unfit)),
            }
        }
    }
}
