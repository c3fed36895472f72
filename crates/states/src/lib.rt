// Any two tables in, the states of their machine numbered as they are found and the machine's rows out.
#![tactic(auto)]

ghost use Rattle.states.specs.Making.{MadeOutcome};

use crate::filling::fill;
use crate::finding::find;
use crate::found::States;
use crate::tables::Tables;
use answers::Answer;
use answers::buffers::check_room;
use answers::limits::ROW_CELLS;
use answers::refusals::Lent;

mod filling;
mod finding;
mod found;
mod tables;

// What a cell holds where nothing comes after, and where no pattern ends.
pub const NO_CELL: u16 = 65535;

// How many states the machine has: they are counted before the first cell is written.
pub fn make(readers: &[u64], follow: &[u64], machine: &mut [u16]) -> Result<usize, Answer>
    ensures { MadeOutcome readers.now follow.now machine.old result machine.new }
{
    let tables = Tables::new(readers, follow);
    let mut states = States::new();
    find(&mut states, &tables)?;
    let cells = states.count * ROW_CELLS;
    check_room(machine.len(), cells, Lent::Machine)?;
    fill(machine, &states, &tables);
    Ok(states.count)
}
