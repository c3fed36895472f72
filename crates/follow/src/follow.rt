// FOLLOW of each nonterminal: the records once, and then their tails in passes until one changes nothing.
ghost use Rattle.std.specs.Prelude.{◌≡◌, ◌≤◌, replicate};
ghost use Rattle.grammar.specs.Grammar.{Every};
ghost use Rattle.sets.specs.Calls.{number};
ghost use Rattle.answers.specs.Limits.{most_nonterminals, most_productions};
ghost use Rattle.reader.specs.Fields.{symbol_of_byte, length_at, right_at};
ghost use Rattle.first.specs.Forms.{Legible};
ghost use Rattle.first.specs.Steps.{Made, passed};
ghost use Rattle.follow.specs.Walks.{Narrow, PassedOver, follow_step, follow_steps, Walkable, WalkableFrom};
ghost use Rattle.follow.specs.Walks.{FollowFound};

use crate::tails::find_tails;
use book::Index;
use first::families::unite;
use reader::fields::{LEFT, LENGTH, SYMBOLS};
use sets::{END_MARK, Set, join, load, single, store};

// What lies before a symbol, and whether passing over the symbols from there on changed nothing.
#[derive(Clone, Copy)]
pub(crate) struct Passed {
    pub(crate) ahead: Set,
    pub(crate) settled: bool,
}

// What lies behind a symbol adds to FOLLOW of it, if it is a nonterminal, and then goes on behind what the symbol
// begins with.
fn pass_over(byte: u8, first: &[u64], behind: Passed, follow: &mut [u64]) -> Passed
    requires { Narrow (symbol_of_byte byte) }
    ensures { PassedOver first.now (symbol_of_byte byte) behind
        follow.old result follow.new }
{
    if byte < 128 {
        return Passed {
            ahead: single(byte),
            settled: behind.settled,
        };
    }
    let n = (byte - 128) as usize;
    let same = unite(follow, n, behind.ahead);
    Passed {
        ahead: join(load(first, n), behind.ahead),
        settled: behind.settled & same,
    }
}

// The symbols of the record at a place, from the right to a position: one trailer, which starts as FOLLOW of the left
// side. Whether that changed nothing.
fn follow_step(book: &[u8], place: u16, from: u8, first: &[u64], follow: &mut [u64]) -> bool
    requires { Legible book.now place × Every Narrow (right_at book.now place)
        × (from ≤ length_at book.now place) }
    ensures { Made (follow_step book.now first.now place from)
        follow.old follow.new result }
{
    let at = place as usize;
    let mut passed = Passed {
        ahead: load(follow, book[at + LEFT] as usize),
        settled: true,
    };
    for j in (from..book[at + LENGTH]).rev() {
        passed = pass_over(book[at + SYMBOLS + j as usize], first, passed, follow);
    }
    passed.settled
}

// Each record once, in order, from its position on, and whether that changed nothing.
fn follow_pass(book: &[u8], index: &Index, first: &[u64], from: &[u8], follow: &mut [u64]) -> bool
    requires { WalkableFrom book.now index.now.places index.now.outline.productions from.now }
    ensures { Made (passed (follow_steps book.now index.now.places first.now
        from.now) index.now.outline.productions) follow.old follow.new result }
{
    let count = index.outline.productions as usize;
    let mut settled = true;
    for (p, place) in index.places[..count].iter().enumerate() {
        settled &= follow_step(book, *place, from[p], first, follow);
    }
    settled
}

// FOLLOW of each nonterminal, from sets without members and the end mark behind the start symbol: each record once, and
// then their tails in passes until one changes nothing.
pub(crate) fn follows(book: &[u8], index: &Index, first: &[u64], follow: &mut [u64; 64])
    requires { Walkable book.now index.now.places index.now.outline.productions × (index.now.outline.productions ≤ most_productions)
        × (follow.old ≡ replicate most_nonterminals 0) }
    ensures { FollowFound book.now index.now.places index.now.outline.productions index.now.outline.start
        first.now follow.new }
{
    let mut from = [0u8; 128];
    store(follow, index.outline.start as usize, single(END_MARK));
    follow_pass(book, index, first, &from, follow);
    find_tails(book, index, first, &mut from);
    while !follow_pass(book, index, first, &from, follow) {}
}
