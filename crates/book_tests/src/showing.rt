// What this program prints of a book that was judged.
use book::judging::judge;
use grammar::Symbol;
use reader::fields::{left_at, length_at, symbol_at};
use std::io;

// A line with the book's name, number, place, T, N, start and P; of a refused book the last four are 0.
pub(crate) fn show(rt: &impl Print, name: &str, book: &[u8]) -> io::Result<()> {
    match judge(book) {
        Ok(index) => println!(rt;
            "{name} 0 0 {} {} {} {}",
            index.outline.tokens,
            index.outline.nonterminals,
            index.outline.start,
            index.outline.productions
        ),
        Err(refused) => println!(rt; "{name} {} {} 0 0 0 0", refused.number, refused.place),
    }
}

// A symbol by its case and number.
fn show_symbol(rt: &impl Print, symbol: Symbol) -> io::Result<()> {
    match symbol {
        Symbol::Token(t) => print!(rt; " token {t}"),
        Symbol::Nonterminal(n) => print!(rt; " nonterminal {n}"),
    }
}

// The left side and the symbols of the record at a place.
fn show_record(rt: &impl Print, book: &[u8], at: usize) -> io::Result<()> {
    print!(rt; " {}", left_at(book, at))?;
    for i in 0..length_at(book, at) as usize {
        show_symbol(rt, symbol_at(book, at, i))?;
    }
    rt.print("\n")
}

// A line with each production, as the index and the accessors give it.
pub(crate) fn show_productions(rt: &impl Print, book: &[u8]) -> io::Result<()> {
    if let Ok(index) = judge(book) {
        let count = index.outline.productions as usize;
        for (p, place) in index.places.iter().take(count).enumerate() {
            print!(rt; "production {p}")?;
            show_record(rt, book, *place as usize)?;
        }
    }
    Ok(())
}

// The same of the first `size` bytes.
pub(crate) fn show_first(rt: &impl Print, name: &str, book: &[u8], size: usize) -> io::Result<()> {
    if size <= book.len() {
        show(rt, name, &book[..size])?;
    }
    Ok(())
}

pub(crate) fn put(book: &mut [u8], at: usize, byte: u8) {
    if at < book.len() {
        book[at] = byte;
    }
}

// The same with one byte changed, which is put back.
pub(crate) fn show_changed(
    rt: &impl Print,
    name: &str,
    book: &mut [u8],
    at: usize,
    byte: u8,
) -> io::Result<()> {
    if at < book.len() {
        let old = book[at];
        put(book, at, byte);
        show(rt, name, &*book)?;
        put(book, at, old);
    }
    Ok(())
}
