// The bytes of a book put together from a sheet whose values are in range.
ghost use Rattle.std.specs.Prelude.{◌≡◌};
ghost use Rattle.answers.specs.Limits.{most_symbols};
ghost use Rattle.text.specs.Text.{Put};
ghost use Rattle.sheet.specs.Booking.{Copies, right_in, right_end, record_in, line_after, records_in};
ghost use Rattle.sheet.specs.Booking.{head_bytes, book_in};
ghost use Rattle.sheet.specs.Booking as booking;

use crate::judging::{Head, is_space, left_number, past, right_place, symbol_number};
use answers::limits::MOST_SYMBOLS;
use reader::fields::byte_at;
use text::{Number, put, put_all};

// A right side has no more symbols.
const SYMBOLS: usize = MOST_SYMBOLS as usize;

// The place that is next in the sheet, and the one that is next in the book.
#[derive(Clone, Copy)]
pub(crate) struct Places {
    pub sheet: usize,
    pub book: usize,
}

// The byte of the symbol at a place, whose number was read: a token its number, a nonterminal 128 more.
fn byte_from(sheet: &[u8], at: usize, number: u64) -> u8
    ensures { result ≡ booking.byte_from sheet.now at number }
{
    let low = (number % 128) as u8;
    if byte_at(sheet, at, 1) == b't' {
        low
    } else {
        128 + low
    }
}

// The bytes of the symbols from a place on.
fn put_right(out: &mut [u8], sheet: &[u8], at: usize) -> Places
    ensures { Copies out.old 0 (right_in sheet.now most_symbols at)
        (right_end sheet.now most_symbols at) out.new result }
{
    let mut place = at;
    let mut next: usize = 0;
    for _ in 0..MOST_SYMBOLS {
        if !is_space(sheet, place) {
            break;
        }
        let number = symbol_number(sheet, place);
        next = put(out, next, byte_from(sheet, place, number.value));
        place = number.next;
    }
    Places {
        sheet: place,
        book: next,
    }
}

// A number below 256 as a byte.
fn put_byte(out: &mut [u8], at: usize, number: Number) -> usize
    ensures { Put out.old at (booking.number_byte number) out.new result }
{
    put(out, at, (number.value % 256) as u8)
}

// The record of the line at a place: `PR`, the left side, the length, the symbols.
fn put_line(out: &mut [u8], at: usize, sheet: &[u8], place: usize) -> Places
    ensures { Copies out.old at (record_in sheet.now place)
        (line_after sheet.now place) out.new result }
{
    let mut symbols = [0u8; SYMBOLS];
    let right = put_right(&mut symbols, sheet, right_place(sheet, place));
    let begun = put(out, at, b'P');
    let marked = put(out, begun, b'R');
    let left = put_byte(out, marked, left_number(sheet, place));
    let sized = put(out, left, right.book as u8);
    let listed = put_all(out, sized, &symbols[..right.book]);
    Places {
        sheet: past(sheet, right.sheet),
        book: listed,
    }
}

// The records of so many lines.
fn put_lines(out: &mut [u8], at: usize, sheet: &[u8], place: usize, count: u64) -> usize
    ensures { Put out.old at (records_in sheet.now count place) out.new result }
{
    let mut from = place;
    let mut next = at;
    for _ in 0..count {
        let places = put_line(out, next, sheet, from);
        from = places.sheet;
        next = places.book;
    }
    next
}

// `GR`, T, N, the start, P.
fn put_head(out: &mut [u8], head: Head) -> usize
    ensures { Put out.old 0 (head_bytes head) out.new result }
{
    let begun = put(out, 0, b'G');
    let marked = put(out, begun, b'R');
    let tokens = put_byte(out, marked, head.tokens);
    let nonterminals = put_byte(out, tokens, head.nonterminals);
    let start = put_byte(out, nonterminals, head.start);
    put_byte(out, start, head.count)
}

// The header, and the records of as many lines as the first line says.
pub(crate) fn put_book(out: &mut [u8], sheet: &[u8], head: Head) -> usize
    ensures { Put out.old 0 (book_in sheet.now head) out.new result }
{
    let first = put_head(out, head);
    put_lines(
        out,
        first,
        sheet,
        past(sheet, head.count.next),
        head.count.value,
    )
}
