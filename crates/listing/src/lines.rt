// The line of a refusal, and the line of a grammar.
ghost use Rattle.text.specs.Text.{Put};
ghost use Rattle.listing.specs.Listing.{refused_line};
ghost use Rattle.listing.specs.Writing.{GrammarPut};

use answers::Answer;
use book::columns::Outline;
use showing::lines::numbers_line;

// The refusal's number, place and detail.
pub(crate) fn refused_line(out: &mut [u8], answer: Answer) -> usize
    ensures { Put out.old 0 (refused_line answer) out.new result }
{
    let numbers = [answer.number as u64, answer.place, answer.detail];
    numbers_line(out, 0, b"refused", &numbers)
}

// T, N, start and P of the grammar whose header this is.
pub(crate) fn grammar_line(out: &mut [u8], header: Outline) -> usize
    ensures { GrammarPut header out.old out.new result }
{
    let numbers = [
        header.tokens as u64,
        header.nonterminals as u64,
        header.start as u64,
        header.productions as u64,
    ];
    numbers_line(out, 0, b"grammar", &numbers)
}
