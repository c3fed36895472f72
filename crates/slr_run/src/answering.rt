// The answer to a run that has ended: number, place, detail, steps, expected set and depth.
ghost use Rattle.std.specs.Prelude.{◌≡◌, ◌+◌, ◌^◌, ◌<◌};
ghost use Rattle.slr_run.specs.Stages.{stage_of};
ghost use Rattle.slr_run.specs.Answering.{WithColumn, Expects, Values, Answers};

use crate::checking::columns_of;
use crate::{Cause, Halt, Stage};
use answers::buffers::cell_or;
use answers::refusals::{Lent, Refusal};
use answers::{Answer, at_depth, done, stop};
use book::columns::Outline;
use sets::{Set, column_bit, none, with};
use slr::EMPTY;

// The set with a column of the state's row added, where that cell is filled.
fn with_column(columns: Set, table: &[u16], outline: Outline, state: u8, column: u8) -> Set
    ensures { WithColumn outline table.now state column columns result }
{
    let row = state as usize * columns_of(outline);
    if cell_or(table, row + column as usize, EMPTY) == EMPTY {
        columns
    } else {
        with(columns, column_bit(column, outline.tokens))
    }
}

// The filled columns of a state's row, tokens and end mark.
fn expects(table: &[u16], outline: Outline, state: u8) -> Set
    ensures { Expects outline table.now state result }
{
    let mut columns = none();
    for column in 0..=outline.tokens {
        columns = with_column(columns, table, outline, state, column);
    }
    columns
}

// Where the run stands at the end.
fn stage_of(reply: Result<Stage, Halt>) -> Stage
    ensures { result ≡ stage_of reply }
{
    match reply {
        Ok(at) => at,
        Err(halt) => halt.at,
    }
}

// The values of a reply.
fn values_of(table: &[u16], outline: Outline, reply: Result<Stage, Halt>) -> Answer
    requires { (stage_of reply).listed + (stage_of reply).matched < 2 ^ 64 }
    ensures { Values outline table.now reply result }
{
    let at = stage_of(reply);
    let steps = at.listed as u64 + at.matched as u64;
    let place = at.matched as u64;
    match reply {
        Ok(_) => done(steps),
        Err(halt) => match halt.cause {
            Cause::FullList => stop(Refusal::Room, place, Lent::List.detail(), steps, none()),
            Cause::FullStack => stop(Refusal::Room, place, Lent::Stack.detail(), steps, none()),
            Cause::Wants => stop(
                Refusal::Syntax,
                place,
                0,
                steps,
                expects(table, outline, at.top),
            ),
        },
    }
}

// The answer to a run that ends with this reply: its values, and the most states held.
pub(crate) fn answer_of(table: &[u16], outline: Outline, reply: Result<Stage, Halt>) -> Answer
    requires { (stage_of reply).listed + (stage_of reply).matched < 2 ^ 64 }
    ensures { Answers outline table.now reply result }
{
    let at = stage_of(reply);
    let values = values_of(table, outline, reply);
    at_depth(values, at.deepest as u64)
}
