// What each byte of a book says by its place: header and record fields, symbols.
ghost use Rattle.std.specs.Prelude.{◌≡◌, ◌+◌, get_or};
ghost use Rattle.sets.specs.Calls.{Decides};
ghost use Rattle.reader.specs.Book.{byte_of, IsSymbol};
ghost use Rattle.reader.specs.Fields.{left_at, length_at, symbol_at, symbol_of_byte};

use answers::buffers::cell_or;
use grammar::Symbol;

// Where T, N, the start and P stand in the header, which begins with `GR`.
pub const TOKENS: usize = 2;

pub const NONTERMINALS: usize = 3;

pub const START: usize = 4;

pub const PRODUCTIONS: usize = 5;

// Where the left side stands in a record, which is `PR`, the left side, the length of the right side, and its symbols.
pub const LEFT: usize = 2;

// Where the length of the right side stands in a record.
pub const LENGTH: usize = 3;

// Where the symbols of the right side start in a record.
pub const SYMBOLS: usize = 4;

// The byte at place `at + more`, 0 past the end; the sum is never formed where it could wrap.
pub fn byte_at(book: &[u8], at: usize, more: usize) -> u8
    ensures { result ≡ get_or book.now (at + more) 0 }
{
    match at.checked_add(more) {
        Some(place) => cell_or(book, place, 0),
        None => 0,
    }
}

// The place of record p; 0 past the end.
pub fn place_at(places: &[u16], p: usize) -> u16
    ensures { result ≡ get_or places.now p 0 }
{
    cell_or(places, p, 0)
}

// The left side of the record at `at`.
pub fn left_at(book: &[u8], at: usize) -> u8
    ensures { result ≡ left_at book.now at }
{
    byte_at(book, at, LEFT)
}

// The length of the right side of the record at `at`.
pub fn length_at(book: &[u8], at: usize) -> u8
    ensures { result ≡ length_at book.now at }
{
    byte_at(book, at, LENGTH)
}

// The symbol that a byte of a right side stands for.
pub fn symbol_of(byte: u8) -> Symbol
    ensures { result ≡ symbol_of_byte byte }
{
    if byte < 128 {
        Symbol::Token(byte)
    } else {
        Symbol::Nonterminal(byte - 128)
    }
}

// Symbol `i` of the right side of the record at `at`.
pub fn symbol_at(book: &[u8], at: usize, i: usize) -> Symbol
    ensures { result ≡ symbol_at book.now at i }
{
    if i < book.len() {
        symbol_of(byte_at(book, at, SYMBOLS + i))
    } else {
        Symbol::Token(0)
    }
}

// The byte of symbol `i` of the right side of the record at `at`; 0 past the end.
pub fn symbol_byte(book: &[u8], at: u16, i: u8) -> u8
    ensures { result ≡ byte_of (symbol_at book.now at i) }
{
    cell_or(book, at as usize + SYMBOLS + i as usize, 0)
}

// A token below `t`, or 128 and a nonterminal below `n`.
pub fn is_symbol(byte: u8, t: u8, n: u8) -> bool
    ensures { Decides result (IsSymbol t n byte) }
{
    byte < t || 128 <= byte && byte - 128 < n
}
