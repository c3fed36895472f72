// The search for the states: each state's row byte by byte, and a set that was not met before is a new state.
ghost use Rattle.std.specs.Prelude.{◌+◌, ◌*◌, ◌<◌, ◌≡◌};
ghost use Rattle.answers.specs.Limits.{byte_values};
ghost use Rattle.states.specs.Searching.{SearchedTo, OrTooMany, More, Searched};

use crate::found::{States, TooManyStates};
use crate::tables::Tables;
use answers::limits::{BYTE_VALUES, MOST_STATES, POINT_WORDS};
use points::none;

// One cell of a state's row, if with it the states are not too many.
fn turn(states: &mut States, tables: &Tables, state: u16, byte: u8) -> Result<(), TooManyStates>
    requires row { state < states.old.count }
    requires searched { SearchedTo tables.now states.old (state * byte_values + byte) }
    ensures { OrTooMany tables.now (More tables.now states.old (state * byte_values + byte + 1) states.new) result }
{
    let next = tables.after(&states.sets, state, byte);
    if none(&next, 0, POINT_WORDS) || states.seek(&next).is_some() {
        return Ok(());
    }
    if states.count == MOST_STATES {
        return Err(TooManyStates);
    }
    states.keep(&next);
    Ok(())
}

// The row of a state, with the same answer: bytes with the same readers have the same next state.
fn find_row(states: &mut States, tables: &Tables, state: usize) -> Result<(), TooManyStates>
    requires row { state < states.old.count }
    requires searched { SearchedTo tables.now states.old (state * byte_values) }
    ensures { OrTooMany tables.now (More tables.now states.old ((state + 1) * byte_values) states.new) result }
{
    let mut byte = 0;
    while byte < BYTE_VALUES {
        turn(states, tables, state as u16, byte as u8)?;
        byte = usize::from(tables.ends[byte]);
    }
    Ok(())
}

// All states, if they are not too many.
pub(crate) fn find(states: &mut States, tables: &Tables) -> Result<(), TooManyStates>
    requires { states.old.count ≡ 0 }
    ensures { OrTooMany tables.now (Searched tables.now states.new) result }
{
    states.begin(tables.follow);
    let mut state = 0;
    while state < states.count {
        find_row(states, tables, state)?;
        state += 1;
    }
    Ok(())
}
