// The bytes of a book judged from the front: refusals 1 to 5. What goes on answers the next place.
ghost use Rattle.std.specs.Prelude.{◌≡◌, suc, ◌+◌, ◌-◌, ◌≤◌, ◌<◌, length, Ok};
ghost use Rattle.reader.specs.Positional.{wanted_from, marked_from, symbols_from, head_at, head_from};
ghost use Rattle.reader.specs.Positional.{record_from, each_record_from, header_of, records_from, ended_at};

use crate::Fault;
use crate::fields::{LENGTH, NONTERMINALS, PRODUCTIONS, SYMBOLS, TOKENS, byte_at, is_symbol};
use answers::limits::{MOST_NONTERMINALS, MOST_PRODUCTIONS, MOST_SYMBOLS, MOST_TOKENS};
use answers::refusals::Refusal;

// The book ends where a byte is still wanted.
fn cut_off(book: &[u8]) -> Fault
    ensures { result ≡ record { why = Refusal.Short; place = length book.now } }
{
    Fault {
        why: Refusal::Short,
        place: book.len(),
    }
}

// A byte in `low .. high` is wanted at the place.
fn wanted(book: &[u8], place: usize, low: u8, high: u8, why: Refusal) -> Result<usize, Fault>
    ensures { result ≡ wanted_from book.now low high why (Ok place) }
{
    match book.get(place) {
        None => Err(cut_off(book)),
        Some(byte) if low <= *byte && *byte < high => Ok(place + 1),
        Some(_) => Err(Fault { why, place }),
    }
}

// A mark: the letter, then `R`.
fn marked(book: &[u8], at: usize, letter: u8) -> Result<usize, Fault>
    requires { letter < 255 }
    ensures { result ≡ marked_from book.now letter 82 (Ok at) }
{
    let next = wanted(book, at, letter, letter + 1, Refusal::Mark)?;
    wanted(book, next, b'R', b'R' + 1, Refusal::Mark)
}

// The bytes from `from` up to `last` are symbols of the grammar.
fn symbols(book: &[u8], from: usize, last: usize, t: u8, n: u8) -> Result<usize, Fault>
    requires { (from ≤ last) × (last ≤ length book.now) }
    ensures { result ≡ symbols_from book.now t n (last - from) (Ok from) }
{
    let mut at = from;
    while at < last {
        if !is_symbol(book[at], t, n) {
            return Err(Fault {
                why: Refusal::Symbol,
                place: at,
            });
        }
        at += 1;
    }
    Ok(at)
}

// A right side of so many symbols from `at` on.
fn right(book: &[u8], at: usize, t: u8, n: u8, count: u8) -> Result<usize, Fault>
    requires { at ≤ length book.now }
    ensures { result ≡ symbols_from book.now t n count (Ok at) }
{
    let wanted = count as usize;
    if wanted <= book.len() - at {
        symbols(book, at, at + wanted, t, n)
    } else {
        symbols(book, at, book.len(), t, n)?;
        Err(cut_off(book))
    }
}

// The four bytes from `at` on begin a record: `PR`, the left side, the length of the right side.
fn is_head(book: &[u8], at: usize, n: u8) -> bool
    ensures { result ≡ head_at book.now n at }
{
    let Some(rest) = book.get(at..) else {
        return false;
    };
    match rest {
        [b'P', b'R', left, length, ..] => *left < n && *length <= MOST_SYMBOLS,
        _ => false,
    }
}

// The same four bytes, one by one: the first that is missing or wrong is refused.
fn head(book: &[u8], at: usize, n: u8) -> Result<usize, Fault>
    ensures { result ≡ head_from book.now n (Ok at) }
{
    let left = marked(book, at, b'P')?;
    let length = wanted(book, left, 0, n, Refusal::Symbol)?;
    wanted(book, length, 0, MOST_SYMBOLS + 1, Refusal::Limit)
}

// The four bytes that begin a record, and its symbols.
fn record(book: &[u8], at: usize, t: u8, n: u8) -> Result<usize, Fault>
    ensures { result ≡ record_from book.now t n (Ok at) }
{
    if is_head(book, at, n) {
        right(book, at + SYMBOLS, t, n, book[at + LENGTH])
    } else {
        head(book, at, n)
    }
}

// `GR`, T, N, the start below N, P.
pub(crate) fn header(book: &[u8]) -> Result<usize, Fault>
    ensures { result ≡ header_of book.now }
{
    let tokens = marked(book, 0, b'G')?;
    let nonterminals = wanted(book, tokens, 1, MOST_TOKENS + 1, Refusal::Limit)?;
    let start = wanted(book, nonterminals, 1, MOST_NONTERMINALS + 1, Refusal::Limit)?;
    let n = byte_at(book, 0, NONTERMINALS);
    let productions = wanted(book, start, 0, n, Refusal::Limit)?;
    wanted(book, productions, 1, MOST_PRODUCTIONS + 1, Refusal::Limit)
}

// The records from `from` on, as many as the header says.
pub(crate) fn records(book: &[u8], from: usize) -> Result<usize, Fault>
    ensures { result ≡ records_from book.now (Ok from) }
{
    let t = byte_at(book, 0, TOKENS);
    let n = byte_at(book, 0, NONTERMINALS);
    let mut at = from;
    for _ in 0..byte_at(book, 0, PRODUCTIONS) {
        at = record(book, at, t, n)?;
    }
    Ok(at)
}

// Nothing follows at `at`.
pub(crate) fn end(book: &[u8], at: usize) -> Result<usize, Fault>
    ensures { result ≡ ended_at book.now at }
{
    if at < book.len() {
        Err(Fault {
            why: Refusal::Extra,
            place: at,
        })
    } else {
        Ok(at)
    }
}
