// The test of the profile, and the run on a plain book: judging, the profile, a table of its own, checks and steps.
ghost use Rattle.std.specs.Prelude.{◌≡◌, ◌+◌, ◌*◌, ◌≤◌};
ghost use Rattle.book.specs.Judging.{Indexes};
ghost use Rattle.profile.specs.Plain.{PlainOutcome, PlainRunOutcome};
ghost use Rattle.profile.specs.Entering.{PlainBook, PlainCells};
ghost use Rattle.profile.specs.Breaking.{Profiled};

use crate::breaks::first_break;
use crate::heads::enter_heads;
use answers::refusals::Refusal;
use answers::{Answer, refusal, told};
use book::Index;
use book::judging::judge;
use run::checking::check_tokens;
use run::running::run_judged;
use table::vacancy::{FEW, MOST, vacant};

// Whether a judged book is plain, or refusal 21.
fn profile_of(book: &[u8], index: &Index) -> Result<(), Answer>
    requires { Indexes book.now index.now }
    ensures { Profiled book.now index.now result }
{
    match first_break(book, index) {
        Some(broken) => Err(refusal(Refusal::Profile, broken as u64, 0)),
        None => Ok(()),
    }
}

// Whether a book is plain. The index is borrowed and not moved, which keeps the stack low.
pub fn plain(book: &[u8]) -> Answer
    ensures { PlainOutcome book.now result }
{
    let judged = judge(book);
    match &judged {
        Ok(index) => told(profile_of(book, index)),
        Err(refused) => *refused,
    }
}

// A run on the table of a plain book, made in these cells; it fits, and is not checked.
fn run_entered(
    book: &[u8],
    index: &Index,
    tokens: &[u8],
    cells: &mut [u8],
    stack: &mut [u8],
    list: &mut [u8],
) -> Answer
    requires { PlainCells book.now index.now cells.old }
    ensures { PlainRunOutcome
        book.now
        tokens.now
        stack.old
        list.old
        result
        stack.new
        list.new }
{
    enter_heads(book, index, cells);
    if let Err(barred) = check_tokens(tokens, index.outline.tokens) {
        return barred;
    }
    run_judged(book, Ok(*index), cells, tokens, stack, list)
}

// A run on a plain book whose table has at most N cells.
fn run_within<const N: usize>(
    book: &[u8],
    index: &Index,
    tokens: &[u8],
    stack: &mut [u8],
    list: &mut [u8],
) -> Answer
    requires plain { PlainBook book.now index.now }
    requires fits { index.now.outline.nonterminals * (index.now.outline.tokens + 1) ≤ N }
    requires few { N ≤ 4032 }
    ensures { PlainRunOutcome
        book.now
        tokens.now
        stack.old
        list.old
        result
        stack.new
        list.new }
{
    let size = index.outline.cells();
    let mut cells = vacant::<N>();
    run_entered(book, index, tokens, &mut cells[..size], stack, list)
}

// A run on a plain book, with cells for a small table or for the largest.
fn run_plain(book: &[u8], index: &Index, tokens: &[u8], stack: &mut [u8], list: &mut [u8]) -> Answer
    requires { PlainBook book.now index.now }
    ensures { PlainRunOutcome
        book.now
        tokens.now
        stack.old
        list.old
        result
        stack.new
        list.new }
{
    let size = index.outline.cells();
    if size <= FEW {
        run_within::<FEW>(book, index, tokens, stack, list)
    } else {
        run_within::<MOST>(book, index, tokens, stack, list)
    }
}

// A run on a judged book, where it is plain.
fn run_profiled(
    book: &[u8],
    index: &Index,
    tokens: &[u8],
    stack: &mut [u8],
    list: &mut [u8],
) -> Answer
    requires { Indexes book.now index.now }
    ensures { PlainRunOutcome
        book.now
        tokens.now
        stack.old
        list.old
        result
        stack.new
        list.new }
{
    match profile_of(book, index) {
        Ok(()) => run_plain(book, index, tokens, stack, list),
        Err(unfit) => unfit,
    }
}

// A token string run on a plain book alone. The index is borrowed and not moved, which keeps the stack low.
pub fn plain_run(book: &[u8], tokens: &[u8], stack: &mut [u8], list: &mut [u8]) -> Answer
    ensures { PlainRunOutcome
        book.now
        tokens.now
        stack.old
        list.old
        result
        stack.new
        list.new }
{
    let judged = judge(book);
    match &judged {
        Ok(index) => run_profiled(book, index, tokens, stack, list),
        Err(refused) => *refused,
    }
}
