// Judging a book: the refusal 1 to 6, or the index of its grammar.
ghost use Rattle.std.specs.Prelude.{◌≡◌, min};
ghost use Rattle.grammar.specs.Grammar.{Grammar};
ghost use Rattle.answers.specs.Limits.{most_productions};
ghost use Rattle.reader.specs.Book.{spells, reads};
ghost use Rattle.book.specs.Judging.{Judged};

use crate::columns::Outline;
use crate::useful::{first_useless, survey};
use crate::{CELLS, Index};
use answers::limits::MOST_PRODUCTIONS;
use answers::refusals::Refusal;
use answers::{Answer, refusal};
use reader::fields::{NONTERMINALS, PRODUCTIONS, START, TOKENS, byte_at};
use reader::walk::read;

// At most as many records as there are cells. The byte is bounded, so that the compiler knows each cell to be inside.
fn cells_for(count: u8) -> usize
    ensures { result ≡ min count most_productions }
{
    count.min(MOST_PRODUCTIONS) as usize
}

// Refusal 6 or the index of a book that spells a grammar.
fn indexed(book: &[u8]) -> Result<Index, Answer>
    requires { (g : Grammar) × (spells book.now ≡ reads g) }
    ensures { Judged book.now result }
{
    let nonterminals = byte_at(book, 0, NONTERMINALS);
    let start = byte_at(book, 0, START);
    let productions = byte_at(book, 0, PRODUCTIONS);
    let count = cells_for(productions);
    let mut places = [0u16; CELLS];
    let mut names = [0u64; CELLS];
    let mut lefts = [0u64; CELLS];
    survey(book, count, &mut places, &mut names, &mut lefts);
    if let Some(lowest) = first_useless(&mut names, &lefts, count, nonterminals, start) {
        return Err(refusal(Refusal::Useless, lowest as u64, 0));
    }
    let tokens = byte_at(book, 0, TOKENS);
    let outline = Outline {
        tokens,
        nonterminals,
        start,
        productions,
    };
    Ok(Index { outline, places })
}

// The refusal 1 to 6 of a book, or the index of its grammar.
pub fn judge(book: &[u8]) -> Result<Index, Answer>
    ensures { Judged book.now result }
{
    read(book)?;
    indexed(book)
}
