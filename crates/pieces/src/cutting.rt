// A line cut with given machine cells.
ghost use Rattle.std.specs.Prelude.{◌≡◌, ◌≤◌, ◌<◌, length, set, Err};
ghost use Rattle.pieces.specs.Calls.{CutWithOutcome};
ghost use Rattle.pieces.specs.Cut.{answer_of};
ghost use Rattle.pieces.specs.Moves.{DoneAt};
ghost use Rattle.pieces.specs.Rows.{rows_in, Says};

use crate::longest::{longest, rows_in};
use crate::{Move, Stuck};
use answers::refusals::{Lent, Refusal};
use answers::{Answer, done, stop};
use sets::none;

const SPACE: u8 = 32;

// What is done at a place of the line with room for so many tokens.
fn move_at(machine: &[u16], rows: usize, line: &[u8], at: usize, room: usize) -> Result<Move, Stuck>
    requires { (rows ≡ rows_in machine.now) × (at < length line.now) }
    ensures { DoneAt (Says machine.now) line.now at room result }
{
    if line[at] == SPACE {
        return Ok(Move::Skip);
    }
    let Some((token, end)) = longest(machine, rows, line, at) else {
        return Err(Stuck::NoToken(at as u64));
    };
    if room == 0 {
        return Err(Stuck::NoRoom(at as u64));
    }
    Ok(Move::Take(token, end))
}

// The place behind token i is written where the buffer has a cell for it.
fn note(ends: &mut [u64], i: usize, end: usize)
    ensures { ends.new ≡ set ends.old i end }
{
    if i < ends.len() {
        ends[i] = end as u64;
    }
}

// What is answered where the cut is stuck, after so many tokens.
fn refused(stuck: Stuck, tokens: u64) -> Answer
    ensures { result ≡ answer_of (Err stuck) tokens }
{
    match stuck {
        Stuck::NoToken(place) => stop(Refusal::NoToken, place, 0, tokens, none()),
        Stuck::NoRoom(place) => stop(Refusal::Room, place, Lent::Tokens.detail(), tokens, none()),
    }
}

// The line cut by what the machine's cells say: the tokens' numbers, and the places behind as many of them as `ends`
// has cells.
pub fn cut_with(machine: &[u16], line: &[u8], tokens: &mut [u8], ends: &mut [u64]) -> Answer
    ensures { CutWithOutcome
        machine.now
        line.now
        tokens.old
        ends.old
        result
        tokens.new
        ends.new }
{
    let rows = rows_in(machine.len());
    let room = tokens.len();
    let mut at = 0;
    let mut count = 0;
    while at < line.len() {
        match move_at(machine, rows, line, at, room - count) {
            Ok(Move::Skip) => {
                at += 1;
            }
            Ok(Move::Take(token, end)) => {
                tokens[count] = token;
                note(ends, count, end);
                count += 1;
                at = end;
            }
            Err(stuck) => {
                return refused(stuck, count as u64);
            }
        }
    }
    done(count as u64)
}
