// The numbers that stand in a book's header.
ghost use Rattle.std.specs.Prelude.{◌≡◌};
ghost use Rattle.listing.specs.Writing.{header_in};

use book::columns::Outline;
use reader::fields::{NONTERMINALS, PRODUCTIONS, START, TOKENS, byte_at};

// They stand behind `GR`; a book that is too short has 0.
pub(crate) fn header_in(book: &[u8]) -> Outline
    ensures { result ≡ header_in book.now }
{
    Outline {
        tokens: byte_at(book, 0, TOKENS),
        nonterminals: byte_at(book, 0, NONTERMINALS),
        start: byte_at(book, 0, START),
        productions: byte_at(book, 0, PRODUCTIONS),
    }
}
