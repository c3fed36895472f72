// A line in, its tokens out, cut by patterns.
#![tactic(auto)]

ghost use Rattle.cut.specs.Calls.{CutOutcome};
ghost use Rattle.cut.specs.Preparing.{Prepared};

use answers::Answer;
use answers::limits::ROW_CELLS;
use answers::refusals::DONE;
use patterns::read;
use patterns::tables::{FOLLOW_LENGTH, READERS_LENGTH};
use pieces::cutting::cut_with;
use states::make;

// How many states the patterns' machine has: their tables are read and used here only. With no pattern there is no
// table to read.
fn prepare(patterns: &[u8], lengths: &[u64], machine: &mut [u16]) -> Result<usize, Answer>
    ensures { Prepared patterns.now lengths.now machine.old
        result machine.new }
{
    if lengths.is_empty() {
        let none = [0u64; 0];
        return make(&none, &none, machine);
    }
    let mut readers = [0u64; READERS_LENGTH];
    let mut follow = [0u64; FOLLOW_LENGTH];
    let answer = read(patterns, lengths, &mut readers, &mut follow);
    if answer.number != DONE {
        return Err(answer);
    }
    make(&readers, &follow, machine)
}

// The patterns' machine is left in `machine`, and the line cut by it; a refusal before the line changes nothing.
pub fn cut(
    patterns: &[u8],
    lengths: &[u64],
    line: &[u8],
    machine: &mut [u16],
    tokens: &mut [u8],
) -> Answer
    ensures { CutOutcome patterns.now lengths.now line.now
        machine.old tokens.old
        result machine.new tokens.new }
{
    let states = match prepare(patterns, lengths, machine) {
        Ok(states) => states,
        Err(answer) => return answer,
    };
    let cells = states * ROW_CELLS;
    let mut ends = [0u64; 0];
    cut_with(&machine[..cells], line, tokens, &mut ends)
}
