// A run that shows, beside its answer, the part of the tokens not yet matched.
ghost use Rattle.std.specs.Prelude.{◌≡◌};
ghost use Rattle.run.specs.Beside.{Shown};
ghost use Rattle.run.specs.Running.{words_of};

use crate::running::account;
use answers::Answer;

// Number, place, detail, steps, expected set and depth.
fn write_words(words: &mut [u64; 6], a: Answer)
    ensures { words.new ≡ words_of a }
{
    let expected = a.expected;
    *words = [
        a.number as u64,
        a.place,
        a.detail,
        a.steps,
        expected.word,
        a.depth,
    ];
}

// A run that also shows the part of the tokens not yet matched, as the caller's own memory.
pub fn run_beside<'t, 'b>(
    book: &[u8],
    tokens: &'t [u8],
    table: &'b [u8],
    stack: &mut [u8],
    list: &mut [u8],
    answer: &mut [u64; 6],
) -> &'t [u8]
    ensures { Shown
        book.now
        table.now
        tokens.now
        stack.old
        list.old
        answer.new
        result.now
        stack.new
        list.new
        tokens.entry.ref_ptr
        result.ref_ptr }
{
    let whole = account(book, table, tokens, stack, list);
    let reply = whole.answer;
    write_words(answer, reply);
    let matched = whole.matched;
    &tokens[matched..]
}
