// A whole token string run bottom-up: judging, checks, steps and the answer.
ghost use Rattle.std.specs.Prelude.{◌≡◌, ℕ, ◌≤◌, ◌<◌, length, get_or};
ghost use Rattle.grammar.specs.Grammar.{WellFormed};
ghost use Rattle.answers.specs.Buffers.{counted};
ghost use Rattle.book.specs.Columns.{grammar_in};
ghost use Rattle.slr_run.specs.Machines.{machine_setting};
ghost use Rattle.slr_run.specs.Reducing.{Ended};
ghost use Rattle.slr_run.specs.Answering.{RanFor};
ghost use Rattle.slr_run.specs.Running.{SlrRunOutcome};

use crate::answering::answer_of;
use crate::checking::check;
use crate::reading::Machine;
use crate::reducing::reduce_all;
use crate::{Halt, Stage};
use answers::Answer;
use book::Index;
use book::columns::{gather_lefts, gather_lengths};
use book::judging::judge;
use stack::clear;

// From state 0 on, the tokens are offered one by one, then the end mark.
fn run_all(
    machine: &Machine,
    tokens: &[u8],
    stack: &mut [u8],
    list: &mut [u8],
) -> Result<Stage, Halt>
    requires { (1 ≤ length stack.old)
        × ((i : ℕ) → i < length tokens.now → get_or tokens.now i 0 < machine.now.outline.tokens) }
    ensures { Ended
        (machine_setting machine.now (counted stack.old) (counted list.old))
        tokens.now
        stack.old
        list.old
        result
        stack.new
        list.new }
{
    stack[0] = 0;
    let mut at = Stage {
        top: 0,
        height: 1,
        listed: 0,
        matched: 0,
        deepest: 1,
    };
    for token in tokens {
        at = reduce_all(machine, *token, stack, list, at)?;
    }
    let last = machine.outline.tokens;
    reduce_all(machine, last, stack, list, at)
}

// The checks, and the steps where these admit them; after that every stack cell is 0.
fn run_on(
    book: &[u8],
    index: &Index,
    table: &[u16],
    tokens: &[u8],
    stack: &mut [u8],
    list: &mut [u8],
) -> Answer
    requires { WellFormed (grammar_in book.now index.now) }
    ensures { RanFor
        (grammar_in book.now index.now)
        table.now
        tokens.now
        stack.old
        list.old
        result
        stack.new
        list.new }
{
    let outline = index.outline;
    if let Err(barred) = check(outline, table, tokens, stack.len()) {
        return barred;
    }
    let lefts = gather_lefts(book, &index.places, outline);
    let lengths = gather_lengths(book, &index.places, outline);
    let machine = Machine::new(table, outline, lefts, lengths);
    let reply = run_all(&machine, tokens, stack, list);
    clear(stack);
    answer_of(table, outline, reply)
}

// A token string run bottom-up on a book and a table of actions and moves.
pub fn run(book: &[u8], table: &[u16], tokens: &[u8], stack: &mut [u8], list: &mut [u8]) -> Answer
    ensures { SlrRunOutcome
        book.now
        table.now
        tokens.now
        stack.old
        list.old
        result
        stack.new
        list.new }
{
    match judge(book) {
        Ok(index) => run_on(book, &index, table, tokens, stack, list),
        Err(refused) => refused,
    }
}
