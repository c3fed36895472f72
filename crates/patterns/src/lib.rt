// Patterns lent as one slice of bytes and their lengths: a refusal, or the tables of their positions.
#![tactic(auto)]

ghost use Rattle.patterns.specs.Calls.{ReadOutcome, JudgePatterns};
ghost use Rattle.patterns.specs.Gathering.{TablesFit, FillOutcome};

use crate::gathering::gather;
use crate::tables::{FOLLOW_LENGTH, READERS_LENGTH};
use answers::refusals::Refusal;
use answers::{Answer, done, refusal, told};

mod gathering;
pub mod tables;

// Tables that are long enough, cleared and then filled.
fn fill(
    patterns: &[u8],
    lengths: &[u64],
    readers: &mut [u64],
    follow: &mut [u64],
) -> Result<(), Answer>
    requires { TablesFit readers.old follow.old }
    ensures { FillOutcome patterns.now lengths.now
        readers.old follow.old
        result readers.new follow.new }
{
    readers.fill(0);
    follow.fill(0);
    gather(
        patterns,
        lengths,
        &mut readers[..READERS_LENGTH],
        &mut follow[..FOLLOW_LENGTH],
    )
}

// Tables that are too short are told before all else and not changed; with any other refusal every word of them is 0.
pub fn read(patterns: &[u8], lengths: &[u64], readers: &mut [u64], follow: &mut [u64]) -> Answer
    ensures { ReadOutcome patterns.now lengths.now
        readers.old follow.old
        result readers.new follow.new }
{
    if readers.len() < READERS_LENGTH || follow.len() < FOLLOW_LENGTH {
        return refusal(Refusal::Room, 0, 0);
    }
    match fill(patterns, lengths, readers, follow) {
        Ok(()) => done(0),
        Err(answer) => {
            readers.fill(0);
            follow.fill(0);
            answer
        }
    }
}

// The same answer with no tables.
pub fn judge(patterns: &[u8], lengths: &[u64]) -> Answer
    ensures { JudgePatterns patterns.now lengths.now result }
{
    let mut readers = [0u64; 1];
    let mut follow = [0u64; 1];
    told(gather(patterns, lengths, &mut readers, &mut follow))
}
