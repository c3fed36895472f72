// The rows of a machine whose states were found: each set is worked out again, and its number written.
ghost use Rattle.std.specs.Prelude.{◌+◌, ◌-◌, ◌*◌, ◌≤◌, ◌<◌, length, ◌≡◌};
ghost use Rattle.answers.specs.Limits.{row_cells};
ghost use Rattle.moves.specs.Tables.{set_of};
ghost use Rattle.states.specs.Machine.{token_of};
ghost use Rattle.states.specs.Filling.{end_cell, Cell, CellsSpread, Filled, RowFilled};

use crate::NO_CELL;
use crate::found::States;
use crate::tables::Tables;
use answers::limits::{BYTE_VALUES, MOST_PATTERNS, POINT_WORDS, POSITION_WORDS, ROW_CELLS};
use points::{WORD_WIDTH, lowest, none};

// An end as a cell, if it is a pattern's.
fn end_cell(end: usize) -> u16
    ensures { result ≡ end_cell end }
{
    if end < MOST_PATTERNS {
        end as u16
    } else {
        NO_CELL
    }
}

impl States {
    // The lowest pattern whose end a state has.
    fn token(&self, state: usize) -> u16
        requires { state < self.now.count }
        ensures { result ≡ token_of (set_of self.now.sets state) }
    {
        let at = state * POINT_WORDS;
        for i in POSITION_WORDS..POINT_WORDS {
            if let Some(bit) = lowest(self.sets[at + i]) {
                return end_cell((i - POSITION_WORDS) * WORD_WIDTH + bit);
            }
        }
        NO_CELL
    }
}

// What a byte's cell holds: the number of the state that comes after.
fn cell(states: &States, tables: &Tables, state: u16, byte: u8) -> u16
    ensures { Cell tables.now states.now state byte result }
{
    let next = tables.after(&states.sets, state, byte);
    if none(&next, 0, POINT_WORDS) {
        return NO_CELL;
    }
    match states.seek(&next) {
        Some(number) => number as u16,
        None => NO_CELL,
    }
}

// The cells from one place up to another.
fn spread(machine: &mut [u16], from: usize, to: usize, value: u16)
    requires rising { from ≤ to }
    requires within { to ≤ length machine.old }
    ensures { CellsSpread machine.old from to value machine.new }
{
    machine[from..to].fill(value);
}

// The row of one state: its bytes, of which those with the same readers have the same cell, then its token.
fn fill_row(machine: &mut [u16], states: &States, tables: &Tables, state: usize)
    requires row { state < states.now.count }
    requires room { states.now.count * row_cells ≤ length machine.old }
    ensures { RowFilled tables.now states.now state machine.old machine.new }
{
    let at = state * ROW_CELLS;
    let mut byte = 0;
    while byte < BYTE_VALUES {
        let end = usize::from(tables.ends[byte]);
        spread(
            machine,
            at + byte,
            at + end,
            cell(states, tables, state as u16, byte as u8),
        );
        byte = end;
    }
    machine[at + BYTE_VALUES] = states.token(state);
}

// The rows of all states.
pub(crate) fn fill(machine: &mut [u16], states: &States, tables: &Tables)
    requires { states.now.count * row_cells ≤ length machine.old }
    ensures { Filled tables.now states.now machine.old (states.now.count * row_cells) machine.new }
{
    for state in 0..states.count {
        fill_row(machine, states, tables, state);
    }
}
