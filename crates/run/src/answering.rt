// The answer to a run that has ended: the paper's number, place, detail, steps and expected set, and the depth.
ghost use Rattle.std.specs.Prelude.{◌≡◌, ◌+◌, ◌^◌, ◌<◌};
ghost use Rattle.answers.specs.Refusals as refusals;
ghost use Rattle.offer.specs.Stops.{number_of, detail_of};
ghost use Rattle.run.specs.Answering.{WithColumn, RowColumns, Expects, progress_in, Values, Answers};

use answers::refusals::{Lent, Refusal};
use answers::{Answer, at_depth, done, stop};
use book::columns::Outline;
use machine::Reason;
use offer::{Halt, Progress};
use sets::{END_MARK, Set, column_bit, none, with};
use table::VACANT;
use table::fitting::cell_at;

// The set with column j of row n added, where that cell is filled.
fn with_column(columns: Set, table: &[u8], outline: Outline, n: u8, j: u8) -> Set
    ensures { WithColumn outline table.now n j columns result }
{
    let row = n as usize * (outline.tokens as usize + 1);
    if cell_at(table, row + j as usize) == VACANT {
        columns
    } else {
        with(columns, column_bit(j, outline.tokens))
    }
}

// The filled columns of row n.
fn row_columns(table: &[u8], outline: Outline, n: u8) -> Set
    ensures { RowColumns outline table.now n result }
{
    let mut columns = none();
    for j in 0..=outline.tokens {
        columns = with_column(columns, table, outline, n, j);
    }
    columns
}

// The expected set of a stop.
fn expects(table: &[u8], outline: Outline, reason: Reason) -> Set
    ensures { Expects outline table.now reason result }
{
    match reason {
        Reason::FullList => none(),
        Reason::FullStack => none(),
        Reason::WantsEnd => with(none(), END_MARK),
        Reason::WantsToken(t) => with(none(), t),
        Reason::WantsRow(n) => row_columns(table, outline, n),
    }
}

// The refusal of a stop.
fn refusal_of(reason: Reason) -> Refusal
    ensures { refusals.number_of result ≡ number_of reason }
{
    match reason {
        Reason::FullList => Refusal::Room,
        Reason::FullStack => Refusal::Room,
        Reason::WantsEnd => Refusal::Syntax,
        Reason::WantsToken(_) => Refusal::Syntax,
        Reason::WantsRow(_) => Refusal::Syntax,
    }
}

// The paper's detail of a stop.
fn detail_of(reason: Reason) -> u64
    ensures { result ≡ detail_of reason }
{
    match reason {
        Reason::FullList => Lent::List.detail(),
        Reason::FullStack => Lent::Stack.detail(),
        Reason::WantsEnd => 0,
        Reason::WantsToken(_) => 0,
        Reason::WantsRow(_) => 0,
    }
}

// The counts of a reply.
pub(crate) fn progress_of(reply: Result<Progress, Halt>) -> Progress
    ensures { result ≡ progress_in reply }
{
    let halt = match reply {
        Ok(at) => return at,
        Err(halt) => halt,
    };
    match halt {
        Halt::Stopped(_, at) => at,
        Halt::Refused(_) => Progress {
            height: 0,
            listed: 0,
            matched: 0,
            deepest: 0,
        },
    }
}

// The productions listed and the tokens matched.
fn steps_of(at: Progress) -> u64
    requires { at.listed + at.matched < 2 ^ 64 }
    ensures { result ≡ at.listed + at.matched }
{
    at.listed as u64 + at.matched as u64
}

// The paper's values of a reply.
fn values_of(table: &[u8], outline: Outline, reply: Result<Progress, Halt>) -> Answer
    requires { (progress_in reply).listed + (progress_in reply).matched < 2 ^ 64 }
    ensures { Values outline table.now reply result }
{
    let at = progress_of(reply);
    let steps = steps_of(at);
    let halt = match reply {
        Ok(_) => return done(steps),
        Err(halt) => halt,
    };
    match halt {
        Halt::Stopped(reason, _) => {
            let expected = expects(table, outline, reason);
            let place = at.matched as u64;
            stop(
                refusal_of(reason),
                place,
                detail_of(reason),
                steps,
                expected,
            )
        }
        Halt::Refused(answer) => answer,
    }
}

// The answer to a run that ends with this reply: its values, and the most stack cells held.
pub(crate) fn answer_of(table: &[u8], outline: Outline, reply: Result<Progress, Halt>) -> Answer
    requires { (progress_in reply).listed + (progress_in reply).matched < 2 ^ 64 }
    ensures { Answers outline table.now reply result }
{
    let at = progress_of(reply);
    let values = values_of(table, outline, reply);
    at_depth(values, at.deepest as u64)
}
