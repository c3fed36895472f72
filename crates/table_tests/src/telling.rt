// What this program prints of a book: its sets, lookaheads, beginnings, table and the check of it.
ghost use Rattle.std.specs.Prelude.{◌<◌};

use crate::checks::show_checks;
use answers::refusals::DONE;
use book::Index;
use book::judging::judge;
use first::forms::Trail;
use reader::fields::{SYMBOLS, length_at};
use std::io;
use table::VACANT;

// A line for each of the first `count` sets of a family.
fn show_sets(rt: &impl Print, word: &str, family: &[u64], count: usize) -> io::Result<()> {
    for (n, set) in family.iter().take(count).enumerate() {
        println!(rt; "{word} {n} {set:016x}")?;
    }
    Ok(())
}

// A set, and how many leading symbols can vanish.
fn show_trail(rt: &impl Print, word: &str, p: usize, trail: Trail) -> io::Result<()> {
    println!(rt; "{word} {p} {:016x} {}", trail.set.word, trail.vanishing)
}

fn show_lookaheads(rt: &impl Print, book: &[u8], count: u8) -> io::Result<()> {
    for p in 0..count {
        if let Ok(ahead) = follow::lookahead(book, u64::from(p)) {
            show_trail(rt, "ahead", p as usize, ahead)?;
        }
    }
    Ok(())
}

// FIRST of the right side of each production.
fn show_beginnings(rt: &impl Print, book: &[u8], index: &Index) -> io::Result<()> {
    let count = index.outline.productions as usize;
    for (p, place) in index.places.iter().take(count).enumerate() {
        let at = *place as usize;
        let from = at + SYMBOLS;
        let end = from + length_at(book, at) as usize;
        if let Some(right) = book.get(from..end) {
            if let Ok(begin) = first::first_of(book, right) {
                show_trail(rt, "begin", p, begin)?;
            }
        }
    }
    Ok(())
}

fn show_row(rt: &impl Print, row: usize, cells: &[u8]) -> io::Result<()> {
    print!(rt; "row {row}")?;
    for cell in cells {
        if *cell == VACANT {
            rt.print(" -")?;
        } else {
            print!(rt; " {cell}")?;
        }
    }
    rt.print("\n")
}

fn show_rows(rt: &impl Print, cells: &[u8], columns: usize) -> io::Result<()>
    requires { 0 < columns }
{
    for (row, cells) in cells.chunks(columns).enumerate() {
        show_row(rt, row, cells)?;
    }
    Ok(())
}

// The rows of a table without conflict, and the check of it.
fn show_table(rt: &impl Print, book: &[u8], index: &Index, cells: &mut [u8]) -> io::Result<()> {
    let columns = index.outline.tokens as usize + 1;
    let size = columns.saturating_mul(index.outline.nonterminals as usize);
    if let Some(table) = cells.get_mut(..size) {
        show_rows(rt, table, columns)?;
        show_checks(rt, book, index, table)?;
    }
    Ok(())
}

pub(crate) fn show(rt: &impl Print, book: &[u8]) -> io::Result<()> {
    let mut first = [0u64; 64];
    let mut follow = [0u64; 64];
    let mut cells = [0u8; 4032];
    follow::sets(book, &mut first, &mut follow);
    let built = table::build(book, &mut first, &mut follow, &mut cells);
    println!(rt; "build {} {} {}", built.number, built.place, built.detail)?;
    if let Ok(index) = judge(book) {
        let rows = index.outline.nonterminals as usize;
        show_sets(rt, "first", &first, rows)?;
        show_sets(rt, "follow", &follow, rows)?;
        show_lookaheads(rt, book, index.outline.productions)?;
        show_beginnings(rt, book, &index)?;
        if built.number == DONE {
            show_table(rt, book, &index, &mut cells)?;
        }
    }
    Ok(())
}
