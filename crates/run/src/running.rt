// A whole token string run: judging, checks, steps and the answer.
ghost use Rattle.book.specs.Columns.{grammar_in};
ghost use Rattle.run.specs.Accounting.{AccountedOn, Accounted};
ghost use Rattle.run.specs.Judged.{RanOn, JudgedRun};
ghost use Rattle.run.specs.Running.{RunOutcome};

use crate::Account;
use crate::answering::{answer_of, progress_of};
use crate::checking::check;
use answers::{Answer, at_depth};
use book::Index;
use book::judging::judge;
use offer::strings::offer_string;

// A run on the grammar that an index tells of.
fn run_on(
    book: &[u8],
    index: &Index,
    table: &[u8],
    tokens: &[u8],
    stack: &mut [u8],
    list: &mut [u8],
) -> Answer
    ensures { RanOn
        (grammar_in book.now index.now)
        table.now
        tokens.now
        stack.old
        list.old
        result
        stack.new
        list.new }
{
    let reply = offer_string(
        book,
        &index.places,
        index.outline,
        table,
        tokens,
        stack,
        list,
    );
    answer_of(table, index.outline, reply)
}

// A run on a book that is judged already, whatever the reading: table and tokens are not checked. Where the book was
// refused, that is the answer, with depth 0 since no step is made, and nothing changes.
pub fn run_judged(
    book: &[u8],
    reading: Result<Index, Answer>,
    table: &[u8],
    tokens: &[u8],
    stack: &mut [u8],
    list: &mut [u8],
) -> Answer
    ensures { JudgedRun
        book.now
        reading
        table.now
        tokens.now
        stack.old
        list.old
        result
        stack.new
        list.new }
{
    match reading {
        Ok(index) => run_on(book, &index, table, tokens, stack, list),
        Err(refused) => at_depth(refused, 0),
    }
}

// The checks, and the steps where these admit them.
fn account_on(
    book: &[u8],
    index: &Index,
    table: &[u8],
    tokens: &[u8],
    stack: &mut [u8],
    list: &mut [u8],
) -> Account
    ensures { AccountedOn
        (grammar_in book.now index.now)
        table.now
        tokens.now
        stack.old
        list.old
        result
        stack.new
        list.new }
{
    if let Err(answer) = check(book, index, table, tokens, stack.len()) {
        return Account { answer, matched: 0 };
    }
    let reply = offer_string(
        book,
        &index.places,
        index.outline,
        table,
        tokens,
        stack,
        list,
    );
    let at = progress_of(reply);
    Account {
        answer: answer_of(table, index.outline, reply),
        matched: at.matched,
    }
}

// Judging, the checks and the steps.
pub(crate) fn account(
    book: &[u8],
    table: &[u8],
    tokens: &[u8],
    stack: &mut [u8],
    list: &mut [u8],
) -> Account
    ensures { Accounted
        book.now
        table.now
        tokens.now
        stack.old
        list.old
        result
        stack.new
        list.new }
{
    match judge(book) {
        Ok(index) => account_on(book, &index, table, tokens, stack, list),
        Err(answer) => Account { answer, matched: 0 },
    }
}

// A token string run on a book and a table.
pub fn run(book: &[u8], table: &[u8], tokens: &[u8], stack: &mut [u8], list: &mut [u8]) -> Answer
    ensures { RunOutcome
        book.now
        table.now
        tokens.now
        stack.old
        list.old
        result
        stack.new
        list.new }
{
    let whole = account(book, table, tokens, stack, list);
    whole.answer
}
