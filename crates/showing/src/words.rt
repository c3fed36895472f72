// A word and what stands behind it in a line: numbers, bytes, sets or an answer, each behind a space.
ghost use Rattle.std.specs.Prelude.{◌++◌};
ghost use Rattle.text.specs.Text.{Put};
ghost use Rattle.showing.specs.Words.{numbered, sets_text, answer_text};

use crate::spelling::{Numbers, Sets, behind, spaced};
use answers::Answer;
use sets::word;

// A word and the numbers behind it.
pub fn numbers(out: &mut [u8], at: usize, name: &[u8], numbers: &[u64]) -> usize
    ensures { Put out.old at (name.now ++ numbered numbers.now) out.new result }
{
    behind::<u64, Numbers>(out, at, name, numbers)
}

// A word and the bytes behind it, as numbers.
pub fn bytes(out: &mut [u8], at: usize, name: &[u8], bytes: &[u8]) -> usize
    ensures { Put out.old at (name.now ++ numbered bytes.now) out.new result }
{
    behind::<u8, Numbers>(out, at, name, bytes)
}

// A word and the sets behind it.
pub fn sets(out: &mut [u8], at: usize, name: &[u8], family: &[u64]) -> usize
    ensures { Put out.old at (name.now ++ sets_text family.now) out.new result }
{
    behind::<u64, Sets>(out, at, name, family)
}

// A word and an answer behind it: number, place, detail, steps and expected set.
pub fn answer(out: &mut [u8], at: usize, name: &[u8], answer: Answer) -> usize
    ensures { Put out.old at (name.now ++ answer_text answer) out.new result }
{
    let told = [
        answer.number as u64,
        answer.place,
        answer.detail,
        answer.steps,
    ];
    let place = numbers(out, at, name, &told);
    spaced::<u64, Sets>(out, place, word(answer.expected))
}
