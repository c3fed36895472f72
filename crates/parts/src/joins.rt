// What a sign, the end of a group, two parts in turn and either of two make of a part.
ghost use Rattle.std.specs.Prelude.{◌≡◌, ◌+◌, ◌<◌, ◌^◌};
ghost use Rattle.sets.specs.Calls.{Decides};
ghost use Rattle.parts.specs.Reading.{GoesOn};
ghost use Rattle.parts.specs.Joins.{Lone, Only, LedOn, Through, behind, SignRead, CloseRead, InTurn, EitherOf};

use crate::Part;
use crate::leading::lead;
use crate::letters::{BAR, CLOSE_GROUP, PLUS, QUESTION, STAR, byte_at};
use answers::limits::{MOST_POSITIONS, POSITION_WORDS};
use points::{put, unite};

// The set with one position.
fn only(position: usize) -> [u64; POSITION_WORDS]
    ensures { Only position result }
{
    let mut set = [0u64; POSITION_WORDS];
    put(&mut set, 0, POSITION_WORDS, position);
    set
}

// A part of one position. Positions are counted as far as to see that they are too many.
pub(crate) fn lone(at: usize, count: usize) -> Part
    ensures { Lone at count result }
{
    let set = only(count);
    Part {
        at,
        count: count.min(MOST_POSITIONS) + 1,
        empty: false,
        first: set,
        last: set,
    }
}

// From each of the last positions to each of the first, if they are no more than can be stored.
fn lead_on(
    count: usize,
    last: &[u64; POSITION_WORDS],
    first: &[u64; POSITION_WORDS],
    follow: &mut [u64],
)
    ensures { LedOn count last.now first.now follow.old follow.new }
{
    if count <= MOST_POSITIONS {
        lead(follow, last, first);
    }
}

// A set, united with another if there is a way past it.
fn through(
    passes: bool,
    own: &[u64; POSITION_WORDS],
    other: &[u64; POSITION_WORDS],
) -> [u64; POSITION_WORDS]
    ensures { Through passes own.now other.now result }
{
    let mut set = *own;
    if passes {
        unite(&mut set, 0, POSITION_WORDS, other, 0);
    }
    set
}

// The part with the byte behind it.
fn behind(item: Part, empty: bool) -> Part
    requires { item.at + 1 < 2 ^ 64 }
    ensures { result ≡ behind item empty }
{
    Part {
        at: item.at + 1,
        empty,
        ..item
    }
}

// With the sign that follows, if one does.
pub fn signed(pattern: &[u8], item: Part, follow: &mut [u64]) -> Part
    ensures { SignRead pattern.now item follow.old result follow.new }
{
    match byte_at(pattern, item.at) {
        QUESTION => behind(item, true),
        PLUS => {
            lead_on(item.count, &item.last, &item.first, follow);
            behind(item, item.empty)
        }
        STAR => {
            lead_on(item.count, &item.last, &item.first, follow);
            behind(item, true)
        }
        _ => item,
    }
}

// With the end of the group in which it was read, or the place where that is missing.
pub fn closed(pattern: &[u8], inner: Part) -> Result<Part, usize>
    ensures { CloseRead pattern.now inner result }
{
    if byte_at(pattern, inner.at) == CLOSE_GROUP {
        Ok(behind(inner, inner.empty))
    } else {
        Err(inner.at)
    }
}

// Two parts in turn.
pub fn followed(left: Part, right: Part, follow: &mut [u64]) -> Part
    ensures { InTurn left right follow.old result follow.new }
{
    lead_on(right.count, &left.last, &right.first, follow);
    Part {
        at: right.at,
        count: right.count,
        empty: left.empty && right.empty,
        first: through(left.empty, &left.first, &right.first),
        last: through(right.empty, &right.last, &left.last),
    }
}

// Either of two parts.
pub fn either(left: Part, right: Part) -> Part
    ensures { EitherOf left right result }
{
    Part {
        at: right.at,
        count: right.count,
        empty: left.empty || right.empty,
        first: through(true, &left.first, &right.first),
        last: through(true, &left.last, &right.last),
    }
}

// Whether an item has to follow behind a part.
pub fn goes_on(pattern: &[u8], at: usize) -> bool
    ensures { Decides result (GoesOn pattern.now at) }
{
    at < pattern.len() && pattern[at] != BAR && pattern[at] != CLOSE_GROUP
}
