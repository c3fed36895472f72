// A book's sheet: its text put together in a local buffer by what the bytes of the book say, and copied where there is
// room.
ghost use Rattle.std.specs.Prelude.{◌≡◌, [], ◌∷◌, ◌++◌, get_or, ◌+◌};
ghost use Rattle.grammar.specs.Grammar.{Grammar};
ghost use Rattle.text.specs.Text.{decimal, Put};
ghost use Rattle.reader.specs.Book.{spells, reads};
ghost use Rattle.reader.specs.Fields.{symbol_of_byte, form_in};
ghost use Rattle.sheet.specs.Sheet.{symbol_text, symbols_text};
ghost use Rattle.sheet.specs.Writing.{letter_of, number_of, record_text, records_text, head_text, book_text};
ghost use Rattle.sheet.specs.Calls.{Copied, WriteOutcome};

use answers::buffers::write_front;
use answers::refusals::Refusal;
use answers::{Answer, done, refusal};
use reader::fields::{
    NONTERMINALS, PRODUCTIONS, START, SYMBOLS, TOKENS, byte_at, left_at, length_at,
};
use reader::walk::read;
use text::{decimal, put};

// No sheet of a book is longer.
pub const LONGEST_SHEET: usize = 8973;

// `t` for a token, `n` for a nonterminal.
fn letter_of(byte: u8) -> u8
    ensures { result ≡ letter_of byte }
{
    if byte < 128 { b't' } else { b'n' }
}

// The number of the symbol that a byte stands for.
fn number_of(byte: u8) -> u64
    ensures { result ≡ number_of byte }
{
    if byte < 128 {
        byte as u64
    } else {
        (byte - 128) as u64
    }
}

// A number in decimal: most of a sheet's have one digit or two.
fn put_value(out: &mut [u8], at: usize, n: u64) -> usize
    ensures { Put out.old at (decimal n) out.new result }
{
    if n < 10 {
        put(out, at, b'0' + n as u8)
    } else if n < 100 {
        let tens = put(out, at, b'0' + (n / 10) as u8);
        put(out, tens, b'0' + (n % 10) as u8)
    } else {
        decimal(out, at, n)
    }
}

// A space, the letter and the number of the symbol that a byte stands for.
fn put_symbol(out: &mut [u8], at: usize, byte: u8) -> usize
    ensures { Put out.old at (symbol_text (symbol_of_byte byte)) out.new result }
{
    let spaced = put(out, at, b' ');
    let lettered = put(out, spaced, letter_of(byte));
    put_value(out, lettered, number_of(byte))
}

// The symbols of the record at a place, so many of them.
fn put_right(out: &mut [u8], at: usize, book: &[u8], place: usize, count: u8) -> usize
    ensures { Put out.old at (symbols_text (form_in book.now (place + 4) count)) out.new result }
{
    let mut next = at;
    for i in 0..count as usize {
        let byte = byte_at(book, place, SYMBOLS + i);
        next = put_symbol(out, next, byte);
    }
    next
}

// The line of the record at a place.
fn put_line(out: &mut [u8], at: usize, book: &[u8], place: usize) -> usize
    ensures { Put out.old at (record_text book.now place) out.new result }
{
    let lettered = put(out, at, b'n');
    let left = put_value(out, lettered, left_at(book, place) as u64);
    let spaced = put(out, left, b' ');
    let marked = put(out, spaced, b':');
    let listed = put_right(out, marked, book, place, length_at(book, place));
    put(out, listed, b'\n')
}

// The lines of so many records, the first of them behind the header.
fn put_lines(out: &mut [u8], at: usize, book: &[u8], count: u8) -> usize
    ensures { Put out.old at (records_text book.now count 6) out.new result }
{
    let mut place: usize = 6;
    let mut next = at;
    for _ in 0..count {
        next = put_line(out, next, book, place);
        let length = length_at(book, place) as usize;
        place = place + SYMBOLS + length;
    }
    next
}

// The number that a byte of the header is, and the mark behind it.
fn put_number(out: &mut [u8], at: usize, book: &[u8], field: usize, mark: u8) -> usize
    ensures { Put out.old at (decimal (get_or book.now field 0) ++ (mark ∷ [])) out.new result }
{
    let written = decimal(out, at, byte_at(book, 0, field) as u64);
    put(out, written, mark)
}

// The first line: T, N, the start symbol and P.
fn put_first(out: &mut [u8], book: &[u8]) -> usize
    ensures { Put out.old 0 (head_text book.now) out.new result }
{
    let tokens = put_number(out, 0, book, TOKENS, b' ');
    let nonterminals = put_number(out, tokens, book, NONTERMINALS, b' ');
    let start = put_number(out, nonterminals, book, START, b' ');
    put_number(out, start, book, PRODUCTIONS, b'\n')
}

// The first line and the lines of the records.
fn put_sheet(out: &mut [u8], book: &[u8]) -> usize
    ensures { Put out.old 0 (book_text book.now) out.new result }
{
    let first = put_first(out, book);
    put_lines(out, first, book, byte_at(book, 0, PRODUCTIONS))
}

// The bytes into the lent buffer; where that is too short, nothing is written, and the place is how many are needed.
pub(crate) fn copy(bytes: &[u8], out: &mut [u8]) -> Answer
    ensures { Copied bytes.now out.old result out.new }
{
    if out.len() < bytes.len() {
        return refusal(Refusal::Room, bytes.len() as u64, 0);
    }
    write_front(bytes, out);
    done(bytes.len() as u64)
}

// The sheet of a book that spells a grammar.
fn write_read(book: &[u8], sheet: &mut [u8]) -> Answer
    requires { (g : Grammar) × (spells book.now ≡ reads g) }
    ensures { WriteOutcome book.now sheet.old result sheet.new }
{
    let mut text = [0u8; LONGEST_SHEET];
    let size = put_sheet(&mut text, book);
    copy(&text[..size], sheet)
}

// The sheet of a book into the lent buffer, or the refusal 1 to 5 of the book, or 7.
pub fn write(book: &[u8], sheet: &mut [u8]) -> Answer
    ensures { WriteOutcome book.now sheet.old result sheet.new }
{
    match read(book) {
        Ok(_) => write_read(book, sheet),
        Err(fault) => Answer::from(fault),
    }
}
