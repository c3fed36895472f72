// What every call answers: number, place, detail, steps, expected set and depth.
#![tactic(auto)]

ghost use Rattle.std.specs.Prelude.{◌≡◌};
ghost use Rattle.answers.specs.Answers as answers;
ghost use Rattle.answers.specs.Refusals.{served};

use crate::refusals::{DONE, Numbered};
use sets::{Set, none};

pub mod buffers;
pub mod limits;
pub mod refusals;

// Number, place, detail, steps and expected set, as the paper's table of refusals has them, and the depth: the most
// stack cells held at any moment, 0 where steps had not begun.
#[derive(Clone, Copy)]
pub struct Answer {
    pub number: u32,
    pub place: u64,
    pub detail: u64,
    pub steps: u64,
    pub expected: Set,
    pub depth: u64,
}

// Served, after so many steps.
pub fn done(steps: u64) -> Answer
    ensures { result ≡ answers.done steps }
{
    Answer {
        number: DONE,
        place: 0,
        detail: 0,
        steps,
        expected: none(),
        depth: 0,
    }
}

// Refused before any step, by the name of the refusal or by its number.
pub fn refusal<W: Numbered>(why: W, place: u64, detail: u64) -> Answer
    ensures { result ≡ answers.refusal (W.numbered why) place detail }
{
    stop(why, place, detail, 0, none())
}

// Refused in steps. The depth is 0, as in the two above, until it is told by `at_depth`.
pub fn stop<W: Numbered>(why: W, place: u64, detail: u64, steps: u64, expected: Set) -> Answer
    ensures { result ≡ answers.stop (W.numbered why) place detail steps expected }
{
    Answer {
        number: why.told_number(),
        place,
        detail,
        expected,
        ..done(steps)
    }
}

// What a call answers that comes to something or is refused: done, or the refusal.
pub fn told<T: Copy>(outcome: Result<T, Answer>) -> Answer
    ensures { result ≡ answers.told outcome }
{
    match outcome {
        Ok(_) => done(0),
        Err(refused) => refused,
    }
}

// The same answer, with this depth.
pub fn at_depth(answer: Answer, depth: u64) -> Answer
    ensures { result ≡ answers.at_depth depth answer }
{
    Answer { depth, ..answer }
}
