// The lowest production by which a book breaks the profile.
ghost use Rattle.grammar.specs.Plain.{Breaks};
ghost use Rattle.sets.specs.Calls.{Decides};
ghost use Rattle.answers.specs.Lowest.{LowestIn};
ghost use Rattle.book.specs.Columns.{grammar_in};
ghost use Rattle.profile.specs.Breaking.{Alike, Shared, BreaksAt};

use answers::buffers::cell_or;
use book::Index;
use book::columns::{gather_heads, gather_lefts, gather_lengths};

// Bytes from here on are nonterminals.
const FIRST_NONTERMINAL: u8 = 128;

// Whether two productions have the same left side and the same first byte.
fn alike(lefts: &[u8], heads: &[u8], q: u8, p: u8) -> bool
    ensures { Decides result (Alike lefts.now heads.now q p) }
{
    let (q, p) = (q as usize, p as usize);
    cell_or(lefts, q, 0) == cell_or(lefts, p, 0) && cell_or(heads, q, 0) == cell_or(heads, p, 0)
}

// Whether a lower production has the left side and the first byte of production p.
fn shares(lefts: &[u8], heads: &[u8], p: u8) -> bool
    ensures { Decides result (Shared lefts.now heads.now p) }
{
    for q in 0..p {
        if alike(lefts, heads, q, p) {
            return true;
        }
    }
    false
}

// Whether production p breaks the profile, where no lower one does. Of an empty right side no byte is looked at.
fn breaks(lefts: &[u8], lengths: &[u8], heads: &[u8], p: u8) -> bool
    ensures { BreaksAt lefts.now lengths.now heads.now p result }
{
    if cell_or(lengths, p as usize, 0) == 0 {
        return true;
    }
    if FIRST_NONTERMINAL <= cell_or(heads, p as usize, 0) {
        return true;
    }
    shares(lefts, heads, p)
}

// The lowest production that breaks the profile.
pub(crate) fn first_break(book: &[u8], index: &Index) -> Option<u8>
    ensures { LowestIn
        (Breaks (grammar_in book.now index.now))
        index.now.outline.productions
        result }
{
    let outline = index.outline;
    let lefts = gather_lefts(book, &index.places, outline);
    let lengths = gather_lengths(book, &index.places, outline);
    let heads = gather_heads(book, &index.places, outline);
    for p in 0..outline.productions {
        if breaks(&lefts, &lengths, &heads, p) {
            return Some(p);
        }
    }
    None
}
