// Patterns one after the other: each is good and adds its rows to the tables, or is the first bad one.
ghost use Rattle.std.specs.Prelude.{◌≡◌, ◌+◌, ◌-◌, ◌≤◌, ◌<◌, min, length};
ghost use Rattle.answers.specs.Limits.{most_patterns};
ghost use Rattle.patterns.specs.Gathering.{Finished, AllJudged, GatherOutcome};

use answers::limits::{MOST_PATTERNS, MOST_POSITIONS, POINT_WORDS};
use answers::refusals::Refusal;
use answers::{Answer, refusal};
use parts::Part;
use parts::leading::lead;
use points::{put, unite};
use positions::whole::pattern;

// The first bad pattern: its number, and the place where it is bad.
#[derive(Clone, Copy)]
pub struct BadPattern {
    pub number: usize,
    pub place: usize,
}

// Behind the last positions of a good pattern comes its end, and its first ones can come first.
fn finish(part: Part, number: usize, follow: &mut [u64])
    requires { number < most_patterns }
    ensures { Finished part number follow.old follow.new }
{
    let mut end = [0u64; POINT_WORDS];
    put(&mut end, 0, POINT_WORDS, MOST_POSITIONS + number);
    lead(follow, &part.last, &end);
    unite(
        follow,
        MOST_POSITIONS * POINT_WORDS,
        POINT_WORDS,
        &part.first,
        0,
    );
}

// Where the next pattern ends, of which so many bytes are asked.
fn end_of(total: usize, start: usize, length: u64) -> usize
    requires { start ≤ total }
    ensures { result ≡ start + min length (total - start) }
{
    start + length.min((total - start) as u64) as usize
}

// All patterns: how many positions they have, or the first bad one.
fn judge_all(
    patterns: &[u8],
    lengths: &[u64],
    readers: &mut [u64],
    follow: &mut [u64],
) -> Result<usize, BadPattern>
    requires { length lengths.now ≤ most_patterns }
    ensures { AllJudged patterns.now lengths.now
        readers.old follow.old
        result readers.new follow.new }
{
    let mut start = 0;
    let mut count = 0;
    for (number, &length) in lengths.iter().enumerate() {
        let end = end_of(patterns.len(), start, length);
        let part = match pattern(&patterns[start..end], count, readers, follow) {
            Ok(part) => part,
            Err(place) => return Err(BadPattern { number, place }),
        };
        finish(part, number, follow);
        start = end;
        count = part.count;
    }
    Ok(count)
}

// A refusal tells too many patterns first, whatever they are, then a bad one, then too many positions.
pub(crate) fn gather(
    patterns: &[u8],
    lengths: &[u64],
    readers: &mut [u64],
    follow: &mut [u64],
) -> Result<(), Answer>
    ensures { GatherOutcome patterns.now lengths.now
        readers.old follow.old
        readers.new follow.new result }
{
    if MOST_PATTERNS < lengths.len() {
        return Err(refusal(Refusal::Limit, MOST_PATTERNS as u64, 0));
    }
    match judge_all(patterns, lengths, readers, follow) {
        Err(bad) => Err(refusal(Refusal::Pattern, bad.place as u64, bad.number as u64)),
        Ok(count) => {
            if MOST_POSITIONS < count {
                Err(refusal(Refusal::Limit, MOST_POSITIONS as u64, 0))
            } else {
                Ok(())
            }
        }
    }
}
