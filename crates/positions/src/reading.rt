// One pattern: alternation, sequence, repetition and group call each other; each call takes bytes or a group's depth.
ghost use Rattle.std.specs.Prelude.{◌≡◌, get_or};
ghost use Rattle.pattern.specs.Marks.{open_group};
ghost use Rattle.parts.specs.Reading.{ItemRead, RepetitionRead, SequenceRead, AlternationRead};

use parts::Part;
use parts::items::single;
use parts::joins::{closed, either, followed, goes_on, signed};
use parts::letters::{BAR, OPEN_GROUP, byte_at};

// Alternatives with bars between them. `depth` is how many groups may still open, `count` the positions so far.
#[cycle(alternation_group_repetition_sequence)]
pub(crate) fn alternation(
    pattern: &[u8],
    at: usize,
    depth: usize,
    count: usize,
    readers: &mut [u64],
    follow: &mut [u64],
) -> Result<Part, usize>
    ensures { AlternationRead pattern.now depth at count
        readers.old follow.old
        result readers.new follow.new }
{
    let mut whole = sequence(pattern, at, depth, count, readers, follow)?;
    while byte_at(pattern, whole.at) == BAR {
        let right = sequence(pattern, whole.at + 1, depth, whole.count, readers, follow)?;
        whole = either(whole, right);
    }
    Ok(whole)
}

// Repetitions one behind the other, up to a bar, the end of a group or of the text.
#[cycle(alternation_group_repetition_sequence)]
fn sequence(
    pattern: &[u8],
    at: usize,
    depth: usize,
    count: usize,
    readers: &mut [u64],
    follow: &mut [u64],
) -> Result<Part, usize>
    ensures { SequenceRead pattern.now depth at count readers.old follow.old
        result readers.new follow.new }
{
    let mut whole = repetition(pattern, at, depth, count, readers, follow)?;
    while goes_on(pattern, whole.at) {
        let right = repetition(pattern, whole.at, depth, whole.count, readers, follow)?;
        whole = followed(whole, right, follow);
    }
    Ok(whole)
}

// A group, byte or class, and the sign behind it, if there is one.
#[cycle(alternation_group_repetition_sequence)]
fn repetition(
    pattern: &[u8],
    at: usize,
    depth: usize,
    count: usize,
    readers: &mut [u64],
    follow: &mut [u64],
) -> Result<Part, usize>
    ensures { RepetitionRead pattern.now depth at count readers.old follow.old
        result readers.new follow.new }
{
    let item = if byte_at(pattern, at) == OPEN_GROUP {
        group(pattern, at, depth, count, readers, follow)?
    } else {
        single(pattern, at, count, readers)?
    };
    Ok(signed(pattern, item, follow))
}

// An alternation one group deeper, and the end of its group.
#[cycle(alternation_group_repetition_sequence)]
fn group(
    pattern: &[u8],
    at: usize,
    depth: usize,
    count: usize,
    readers: &mut [u64],
    follow: &mut [u64],
) -> Result<Part, usize>
    requires { get_or pattern.now at 0 ≡ open_group }
    ensures { ItemRead pattern.now depth at count readers.old follow.old
        result readers.new follow.new }
{
    if depth == 0 {
        return Err(at);
    }
    let inner = alternation(pattern, at + 1, depth - 1, count, readers, follow)?;
    closed(pattern, inner)
}
