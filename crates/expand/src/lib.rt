// A list of productions expanded to the tokens that it derives.
#![tactic(auto)]

ghost use Rattle.std.specs.Prelude.{◌≡◌, ◌+◌, ◌^◌, ◌≤◌, ◌<◌, length};
ghost use Rattle.answers.specs.Answers.{at_depth};
ghost use Rattle.book.specs.Columns.{located, grammar_in, outlined, Lefts};
ghost use Rattle.expand.specs.Expanding.{closing, ExpandOutcome};
ghost use Rattle.expand.specs.Turns.{Unfolds, ExpandedOn};

use crate::turns::turn_at;
use answers::limits::LONGEST_LIST;
use answers::refusals::{Lent, Refusal};
use answers::{Answer, at_depth, done, refusal, stop};
use book::Index;
use book::columns::gather_lefts;
use book::judging::judge;
use machine::Obstacle;
use sets::none;
use stack::rules::Rules;
use stack::{clear, counts, put_start};

mod turns;

// What an expansion does next: a token is written, a production is used, or it ends.
#[derive(Clone, Copy)]
pub(crate) enum Turn {
    Write(u8),
    Apply(u8),
    Close(Result<(), Obstacle>),
}

// An expansion that has ended, with the productions used, the tokens written, and the most stack cells in use at any
// moment.
#[derive(Clone, Copy)]
pub(crate) struct Unfolding {
    pub ending: Result<(), Obstacle>,
    pub used: usize,
    pub written: usize,
    pub deepest: usize,
}

// From the start symbol on, tokens on top are written and the list's productions used.
fn unfold_all(
    rules: &Rules,
    lefts: &[u8],
    list: &[u8],
    stack: &mut [u8],
    output: &mut [u8],
) -> Unfolding
    requires { (1 ≤ length stack.old)
        × Lefts rules.now.book.now (located rules.now.places.now rules.now.outline) lefts.now }
    ensures { Unfolds
        (outlined rules.now.book.now rules.now.places.now rules.now.outline)
        list.now
        stack.old
        output.old
        result
        stack.new
        output.new }
{
    put_start(stack, rules.outline.start);
    let cells = counts(output.len());
    let mut height: usize = 1;
    let mut used: usize = 0;
    let mut written: usize = 0;
    let mut deepest: usize = 1;
    loop {
        let turn = turn_at(rules, lefts, list, used, stack, height, written, cells);
        match turn {
            Turn::Write(t) => {
                height -= 1;
                stack[height] = 0;
                output[written] = t;
                written += 1;
            }
            Turn::Apply(p) => {
                let count = rules.length(p);
                let below = height - 1;
                rules.apply(p, stack, below);
                height = below + count as usize;
                deepest = deepest.max(height);
                used += 1;
            }
            Turn::Close(ending) => {
                return Unfolding {
                    ending,
                    used,
                    written,
                    deepest,
                };
            }
        }
    }
}

// The paper's values of an expansion that has ended.
fn values_of(u: Unfolding) -> Answer
    requires { u.used + u.written < 2 ^ 64 }
    ensures { result ≡ closing u.ending u.used (u.used + u.written) }
{
    let ending = u.ending;
    let used = u.used as u64;
    let steps = used + u.written as u64;
    match ending {
        Ok(()) => done(steps),
        Err(obstacle) => match obstacle {
            Obstacle::Unfit => stop(Refusal::Production, used, 0, steps, none()),
            Obstacle::FullStack => stop(Refusal::Room, used, Lent::Stack.detail(), steps, none()),
            Obstacle::FullOutput => stop(Refusal::Room, used, Lent::Output.detail(), steps, none()),
        },
    }
}

// The answer to an expansion that has ended: its values, and the most stack cells held.
fn answer_to(u: Unfolding) -> Answer
    requires { u.used + u.written < 2 ^ 64 }
    ensures { result ≡ at_depth u.deepest (closing u.ending u.used (u.used + u.written)) }
{
    let values = values_of(u);
    at_depth(values, u.deepest as u64)
}

// The steps of an expansion and their answer; after them every stack cell is 0.
fn expand_on(book: &[u8], index: &Index, list: &[u8], stack: &mut [u8], output: &mut [u8]) -> Answer
    requires { 1 ≤ length stack.old }
    ensures { ExpandedOn
        (grammar_in book.now index.now)
        list.now
        stack.old
        output.old
        result
        stack.new
        output.new }
{
    let rules = Rules::new(book, &index.places, index.outline);
    let lefts = gather_lefts(book, &index.places, index.outline);
    let u = unfold_all(&rules, &lefts, list, stack, output);
    clear(stack);
    answer_to(u)
}

// A list of productions expanded to the tokens that it derives.
pub fn expand(book: &[u8], list: &[u8], stack: &mut [u8], output: &mut [u8]) -> Answer
    ensures { ExpandOutcome
        book.now
        list.now
        stack.old
        output.old
        result
        stack.new
        output.new }
{
    let index = match judge(book) {
        Ok(index) => index,
        Err(refused) => return refused,
    };
    if LONGEST_LIST < list.len() {
        return refusal(Refusal::Limit, LONGEST_LIST as u64, 0);
    }
    if stack.len() == 0 {
        return refusal(Refusal::Room, 0, Lent::Stack.detail());
    }
    expand_on(book, &index, list, stack, output)
}
