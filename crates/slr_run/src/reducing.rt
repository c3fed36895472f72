// One column offered to a run: reductions are made until it is shifted, accepted or the run stops.
ghost use Rattle.std.specs.Prelude.{◌≡◌, ℕ, ◌+◌, ◌^◌, ◌≤◌, ◌<◌, length};
ghost use Rattle.answers.specs.Buffers.{counted};
ghost use Rattle.slr_run.specs.Stages.{column_at, Held};
ghost use Rattle.slr_run.specs.Machines.{machine_rows, machine_setting};
ghost use Rattle.slr_run.specs.Reducing.{reduced_to, finished, finished_stack, Offered};
ghost use Rattle.slr_run.specs.declared.Ending.TheVariants as endings;

use crate::deciding::decide;
use crate::reading::Machine;
use crate::{Ending, Halt, Stage, Turn};
use stack::counts;

// The counts after a reduction that keeps the states up to cell `base` and pushes a state.
fn reduced_to(state: u8, base: usize, at: Stage) -> Stage
    requires { (base + 2 < 2 ^ 63) × (at.listed < 2 ^ 63) }
    ensures { result ≡ reduced_to state base at }
{
    let height = base + 2;
    Stage {
        top: state,
        height,
        listed: at.listed + 1,
        matched: at.matched,
        deepest: at.deepest.max(height),
    }
}

// The reductions end: a state that is shifted to is pushed.
fn finish(ending: Ending, stack: &mut [u8], at: Stage) -> Result<Stage, Halt>
    requires { ((state : ℕ) → ending ≡ endings.Shift state → at.height < length stack.old)
        × (at.matched < 2 ^ 63) }
    ensures { (result ≡ finished ending at) × (stack.new ≡ finished_stack ending at stack.old) }
{
    match ending {
        Ending::Shift(state) => {
            let below = at.height;
            stack[below] = state;
            let height = below + 1;
            Ok(Stage {
                top: state,
                height,
                listed: at.listed,
                matched: at.matched + 1,
                deepest: at.deepest.max(height),
            })
        }
        Ending::Accept => Ok(at),
        Ending::Stop(cause) => Err(Halt { cause, at }),
    }
}

// One column is offered. It is inlined in both of its calls, so that what it counts stays in registers.
#[inline(always)]
pub(crate) fn reduce_all(
    machine: &Machine,
    column: u8,
    stack: &mut [u8],
    list: &mut [u8],
    at: Stage,
) -> Result<Stage, Halt>
    requires { (column ≤ machine.now.outline.tokens)
        × Held (machine_rows machine.now) at stack.old
        × (at.listed ≤ counted list.old)
        × (at.matched < 2 ^ 63) }
    ensures { Offered
        (machine_setting machine.now (counted stack.old) (counted list.old))
        (machine_rows machine.now)
        (column_at machine.now.outline.tokens column)
        at
        stack.old
        list.old
        result
        stack.new
        list.new }
{
    let cells = counts(list.len());
    let mut here = at;
    loop {
        let turn = decide(machine, column, stack, here, cells);
        match turn {
            Turn::Reduce(p, state, base) => {
                let listed = here.listed;
                list[listed] = p;
                stack[base + 1] = state;
                here = reduced_to(state, base, here);
            }
            Turn::Finish(ending) => {
                return finish(ending, stack, here);
            }
        }
    }
}
