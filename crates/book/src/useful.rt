// Refusal 6: the nonterminals that occur in no derivation of a token string from the start.
ghost use Rattle.std.specs.Prelude.{◌≡◌, ◌+◌, ◌≤◌, ◌<◌, length};
ghost use Rattle.sets.specs.Sets.{width, Exactly};
ghost use Rattle.sets.specs.Calls.{number};
ghost use Rattle.answers.specs.Limits.{most_productions};
ghost use Rattle.book.specs.Closure.{Extended, Follows};
ghost use Rattle.book.specs.Useful.{IsNonterminal, NamedAt, SetsOf, Surveyable, Surveyed, KeptNames};
ghost use Rattle.book.specs.Useful.{LowestMissing, TellsUseless};

use crate::closure::closure;
use grammar::Symbol;
use reader::fields::{LEFT, LENGTH, SYMBOLS, symbol_of};
use sets::{Set, has, load, none, single, store, with, within};

// The set with the nonterminal added that the symbol is.
fn with_symbol(names: Set, s: Symbol) -> Set
    ensures { Extended (IsNonterminal s) (number names) (number result) }
{
    match s {
        Symbol::Token(_) => names,
        Symbol::Nonterminal(n) => with(names, n),
    }
}

// The nonterminals among the symbols of the record at `at`.
fn names_at(book: &[u8], at: usize, count: usize) -> Set
    requires { at + 4 + count ≤ length book.now }
    ensures { Exactly width (number result) (NamedAt book.now at count) }
{
    let mut names = none();
    for i in 0..count {
        names = with_symbol(names, symbol_of(book[at + SYMBOLS + i]));
    }
    names
}

// The place of each record, the names on its right side and its left side; a place rises by at most 259, so 128 of
// them cannot wrap.
pub(crate) fn survey(
    book: &[u8],
    count: usize,
    places: &mut [u16],
    names: &mut [u64],
    lefts: &mut [u64],
)
    requires { Surveyable book.now count places.old names.old lefts.old }
    ensures { Surveyed book.now count places.old
        places.new names.new lefts.new }
{
    let mut place: u16 = 6;
    for p in 0..count {
        places[p] = place;
        let at = place as usize;
        let length = book[at + LENGTH];
        store(names, p, names_at(book, at, length as usize));
        store(lefts, p, single(book[at + LEFT]));
        place += 4 + length as u16;
    }
}

// The names of a right side, where all of them are productive; otherwise none.
fn kept(names: Set, productive: Set) -> Set
    ensures { Exactly width (number result) (Follows (number names) (number names) (number productive)) }
{
    if within(names, productive) {
        names
    } else {
        none()
    }
}

// Of each right side, the names are kept where it derives a token string.
fn keep_productive(names: &mut [u64], count: usize, productive: Set)
    requires { (count ≤ most_productions) × (length names.old ≡ most_productions) }
    ensures { SetsOf (KeptNames names.old (number productive)) count names.new }
{
    for p in 0..count {
        store(names, p, kept(load(names, p), productive));
    }
}

// The lowest number below `count` that is not in the set, if one is not.
fn lowest_missing(set: Set, count: u8) -> Option<u8>
    ensures { LowestMissing (number set) count result }
{
    for k in 0..count {
        if !has(set, k) {
            return Some(k);
        }
    }
    None
}

// Productive first, then used through productive productions only: with a start that is not productive, nothing is.
pub(crate) fn first_useless(
    names: &mut [u64],
    lefts: &[u64],
    count: usize,
    nonterminals: u8,
    start: u8,
) -> Option<u8>
    requires { (count ≤ most_productions) × (length names.old ≡ most_productions) }
    ensures { TellsUseless count names.old lefts.now nonterminals start result }
{
    let productive = closure(names, lefts, count, none());
    let used = if has(productive, start) {
        keep_productive(names, count, productive);
        closure(lefts, names, count, single(start))
    } else {
        none()
    };
    lowest_missing(used, nonterminals)
}
