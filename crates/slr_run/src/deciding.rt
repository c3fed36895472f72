// What is done next, from the state on top, the table and the room.
ghost use Rattle.std.specs.Prelude.{◌-◌, ◌≤◌, ◌<◌};
ghost use Rattle.answers.specs.Buffers.{counted};
ghost use Rattle.slr_run.specs.Stages.{column_at, held_by, Held};
ghost use Rattle.slr_run.specs.Machines.{machine_rows, machine_setting};
ghost use Rattle.slr_run.specs.Deciding.{Turns, Reduction};

use crate::reading::Machine;
use crate::{Cause, Ending, Stage, Turn};
use slr::{ACCEPT, EMPTY, REDUCE};
use stack::counts;

// What is done where the state on top says to reduce by p.
fn reduction(machine: &Machine, stack: &[u8], at: Stage, cells: usize, p: u8) -> Turn
    requires { Held (machine_rows machine.now) at stack.now
        × (p < machine.now.outline.productions) }
    ensures { Reduction
        (machine_setting machine.now (counted stack.now) cells)
        (machine_rows machine.now)
        p
        at.top
        (held_by stack.now (at.height - 1))
        at.listed
        result }
{
    let size = machine.lengths[p as usize] as usize;
    if at.height <= size {
        return Turn::Finish(Ending::Stop(Cause::Wants));
    }
    let base = at.height - 1 - size;
    let column = machine.outline.tokens as usize + 1 + machine.lefts[p as usize] as usize;
    let to = machine.number(stack[base], column);
    if to == EMPTY {
        return Turn::Finish(Ending::Stop(Cause::Wants));
    }
    if cells <= at.listed {
        return Turn::Finish(Ending::Stop(Cause::FullList));
    }
    if counts(stack.len()) <= base + 1 {
        return Turn::Finish(Ending::Stop(Cause::FullStack));
    }
    Turn::Reduce(p, to as u8, base)
}

// What the state on top says to a column.
pub(crate) fn decide(machine: &Machine, column: u8, stack: &[u8], at: Stage, cells: usize) -> Turn
    requires { Held (machine_rows machine.now) at stack.now
        × (column ≤ machine.now.outline.tokens) }
    ensures { Turns
        (machine_setting machine.now (counted stack.now) cells)
        (machine_rows machine.now)
        (column_at machine.now.outline.tokens column)
        at.top
        (held_by stack.now (at.height - 1))
        at.listed
        result }
{
    let number = machine.number(at.top, column as usize);
    if number < REDUCE {
        if counts(stack.len()) <= at.height {
            return Turn::Finish(Ending::Stop(Cause::FullStack));
        }
        return Turn::Finish(Ending::Shift(number as u8));
    }
    if number == EMPTY {
        return Turn::Finish(Ending::Stop(Cause::Wants));
    }
    if number == ACCEPT {
        return Turn::Finish(Ending::Accept);
    }
    let p = number - REDUCE;
    reduction(machine, stack, at, cells, p as u8)
}
