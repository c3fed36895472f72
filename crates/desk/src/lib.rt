// The functions that C programs call. The number is returned, and place, detail, steps, expected set and depth go into
// a lent buffer; where that is too short, or the buffer for a set or for a number has no cell, the answer is 7 before
// all else, and nothing changes.
#![tactic(auto)]

ghost use Rattle.desk.specs.Desk.{JudgeOutcome, JudgeCall, SetsCall, BuildCall, RunCall, ExpandCall};
ghost use Rattle.desk.specs.Desk.{LookaheadCall, FirstCall};
ghost use Rattle.desk.specs.Desk.{PatternsCall, CutCall, CutWithCall, CheckCall, SlrRunCall};
ghost use Rattle.desk.specs.Plain.{PlainCall, PlainRunCall};

use crate::words::{ANSWER_SIZE, tell, tell_trail};
use answers::refusals::Refusal;
use answers::{Answer, told};
use book::judging::judge;
use expand::expand;
use pieces::cutting::cut_with;
use profile::plain::plain_run;
use run::running::run;

mod sheets;
mod words;

// A token string run on a book and a table.
#[unsafe(no_mangle)]
pub extern "C" fn desk_run(
    book: &[u8],
    table: &[u8],
    tokens: &[u8],
    stack: &mut [u8],
    list: &mut [u8],
    answer: &mut [u8],
) -> u32
    ensures { RunCall
        book.now
        table.now
        tokens.now
        stack.old
        list.old
        answer.old
        result
        stack.new
        list.new
        answer.new }
{
    if answer.len() < ANSWER_SIZE {
        return Refusal::Room.number();
    }
    let ran = run(book, table, tokens, stack, list);
    tell(answer, ran)
}

// A production list expanded to the tokens it derives.
#[unsafe(no_mangle)]
pub extern "C" fn desk_expand(
    book: &[u8],
    list: &[u8],
    stack: &mut [u8],
    tokens: &mut [u8],
    answer: &mut [u8],
) -> u32
    ensures { ExpandCall
        book.now
        list.now
        stack.old
        tokens.old
        answer.old
        result
        stack.new
        tokens.new
        answer.new }
{
    if answer.len() < ANSWER_SIZE {
        return Refusal::Room.number();
    }
    let expanded = expand(book, list, stack, tokens);
    tell(answer, expanded)
}

// The refusal 1 to 6 of a book, or done.
fn judged(book: &[u8]) -> Answer
    ensures { JudgeOutcome book.now result }
{
    told(judge(book))
}

// The refusal 1 to 6 of a book, or done, into the lent buffer.
#[unsafe(no_mangle)]
pub extern "C" fn desk_judge(book: &[u8], answer: &mut [u8]) -> u32
    ensures { JudgeCall book.now answer.old result answer.new }
{
    if answer.len() < ANSWER_SIZE {
        return Refusal::Room.number();
    }
    let judged = judged(book);
    tell(answer, judged)
}

// Whether a table is the one that building gives, whoever made it.
#[unsafe(no_mangle)]
pub extern "C" fn desk_check_table(book: &[u8], table: &[u8], answer: &mut [u8]) -> u32
    ensures { CheckCall book.now table.now answer.old result answer.new }
{
    if answer.len() < ANSWER_SIZE {
        return Refusal::Room.number();
    }
    let checked = checker::check(book, table);
    tell(answer, checked)
}

// The refusal 1 to 6 of a book, or 21 where it is not plain, or done.
#[unsafe(no_mangle)]
pub extern "C" fn desk_plain(book: &[u8], answer: &mut [u8]) -> u32
    ensures { PlainCall book.now answer.old result answer.new }
{
    if answer.len() < ANSWER_SIZE {
        return Refusal::Room.number();
    }
    let tested = profile::plain::plain(book);
    tell(answer, tested)
}

// A token string run on a plain book alone.
#[unsafe(no_mangle)]
pub extern "C" fn desk_plain_run(
    book: &[u8],
    tokens: &[u8],
    stack: &mut [u8],
    list: &mut [u8],
    answer: &mut [u8],
) -> u32
    ensures { PlainRunCall
        book.now
        tokens.now
        stack.old
        list.old
        answer.old
        result
        stack.new
        list.new
        answer.new }
{
    if answer.len() < ANSWER_SIZE {
        return Refusal::Room.number();
    }
    let ended = plain_run(book, tokens, stack, list);
    tell(answer, ended)
}

// The refusal 4 or 14 of patterns lent as their bytes and lengths, or done.
#[unsafe(no_mangle)]
pub extern "C" fn desk_patterns(patterns: &[u8], lengths: &[u64], answer: &mut [u8]) -> u32
    ensures { PatternsCall patterns.now lengths.now answer.old
        result answer.new }
{
    if answer.len() < ANSWER_SIZE {
        return Refusal::Room.number();
    }
    let told = patterns::judge(patterns, lengths);
    tell(answer, told)
}

// A line cut by patterns into tokens, with the machine that is made of them.
#[unsafe(no_mangle)]
pub extern "C" fn desk_cut(
    patterns: &[u8],
    lengths: &[u64],
    line: &[u8],
    machine: &mut [u16],
    tokens: &mut [u8],
    answer: &mut [u8],
) -> u32
    ensures { CutCall
        patterns.now
        lengths.now
        line.now
        machine.old
        tokens.old
        answer.old
        result
        machine.new
        tokens.new
        answer.new }
{
    if answer.len() < ANSWER_SIZE {
        return Refusal::Room.number();
    }
    let told = cut::cut(patterns, lengths, line, machine, tokens);
    tell(answer, told)
}

// A line cut with the cells of a machine, and the places behind its tokens.
#[unsafe(no_mangle)]
pub extern "C" fn desk_cut_with(
    machine: &[u16],
    line: &[u8],
    tokens: &mut [u8],
    ends: &mut [u64],
    answer: &mut [u8],
) -> u32
    ensures { CutWithCall
        machine.now
        line.now
        tokens.old
        ends.old
        answer.old
        result
        tokens.new
        ends.new
        answer.new }
{
    if answer.len() < ANSWER_SIZE {
        return Refusal::Room.number();
    }
    let told = cut_with(machine, line, tokens, ends);
    tell(answer, told)
}

// FIRST and FOLLOW of each nonterminal into the lent buffers.
#[unsafe(no_mangle)]
pub extern "C" fn desk_sets(
    book: &[u8],
    first: &mut [u64],
    follow: &mut [u64],
    answer: &mut [u8],
) -> u32
    ensures { SetsCall
        book.now
        first.old
        follow.old
        answer.old
        result
        first.new
        follow.new
        answer.new }
{
    if answer.len() < ANSWER_SIZE {
        return Refusal::Room.number();
    }
    let filled = follow::sets(book, first, follow);
    tell(answer, filled)
}

// The sets and the table into the lent buffers.
#[unsafe(no_mangle)]
pub extern "C" fn desk_build(
    book: &[u8],
    first: &mut [u64],
    follow: &mut [u64],
    table: &mut [u8],
    answer: &mut [u8],
) -> u32
    ensures { BuildCall
        book.now
        first.old
        follow.old
        table.old
        answer.old
        result
        first.new
        follow.new
        table.new
        answer.new }
{
    if answer.len() < ANSWER_SIZE {
        return Refusal::Room.number();
    }
    let built = table::build(book, first, follow, table);
    tell(answer, built)
}

// The lookahead of a production, and how many leading symbols of its right side can vanish, each into the first cell of
// its lent buffer.
#[unsafe(no_mangle)]
pub extern "C" fn desk_lookahead(
    book: &[u8],
    production: u64,
    set: &mut [u64],
    count: &mut [u64],
    answer: &mut [u8],
) -> u32
    ensures { LookaheadCall
        book.now
        production
        set.old
        count.old
        answer.old
        result
        set.new
        count.new
        answer.new }
{
    if set.len() < 1 || count.len() < 1 || answer.len() < ANSWER_SIZE {
        return Refusal::Room.number();
    }
    let ahead = follow::lookahead(book, production);
    tell_trail(ahead, set, count, answer)
}

// FIRST of a symbol string, and how many of its leading symbols can vanish, each into the first cell of its buffer.
#[unsafe(no_mangle)]
pub extern "C" fn desk_first_of(
    book: &[u8],
    symbols: &[u8],
    set: &mut [u64],
    count: &mut [u64],
    answer: &mut [u8],
) -> u32
    ensures { FirstCall
        book.now
        symbols.now
        set.old
        count.old
        answer.old
        result
        set.new
        count.new
        answer.new }
{
    if set.len() < 1 || count.len() < 1 || answer.len() < ANSWER_SIZE {
        return Refusal::Room.number();
    }
    let begun = first::first_of(book, symbols);
    tell_trail(begun, set, count, answer)
}

// A token string run bottom-up on a book and a table of actions and moves.
#[unsafe(no_mangle)]
pub extern "C" fn desk_slr_run(
    book: &[u8],
    table: &[u16],
    tokens: &[u8],
    stack: &mut [u8],
    list: &mut [u8],
    answer: &mut [u8],
) -> u32
    ensures { SlrRunCall
        book.now
        table.now
        tokens.now
        stack.old
        list.old
        answer.old
        result
        stack.new
        list.new
        answer.new }
{
    if answer.len() < ANSWER_SIZE {
        return Refusal::Room.number();
    }
    let reduced = slr_run::running::run(book, table, tokens, stack, list);
    tell(answer, reduced)
}
