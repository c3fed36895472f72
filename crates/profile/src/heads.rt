// The table of a plain book, by the tokens that its right sides start with.
ghost use Rattle.book.specs.Columns.{grammar_in};
ghost use Rattle.table.specs.Table.{TableOf};
ghost use Rattle.profile.specs.Entering.{Enterable};

use answers::buffers::cell_or;
use book::Index;
use reader::fields::{SYMBOLS, byte_at, left_at};

// Each production into the cell of its left side and first token, on cells that are all vacant.
pub(crate) fn enter_heads(book: &[u8], index: &Index, cells: &mut [u8])
    requires { Enterable (grammar_in book.now index.now) cells.old }
    ensures { TableOf
        (grammar_in book.now index.now)
        cells.new }
{
    let width = index.outline.tokens as usize + 1;
    for p in 0..index.outline.productions {
        let at = cell_or(&index.places, p as usize, 0) as usize;
        let row = left_at(book, at) as usize;
        let head = byte_at(book, at, SYMBOLS) as usize;
        cells[row * width + head] = p;
    }
}
