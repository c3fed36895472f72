// Lines of numbers, of sets and of a table's rows.
ghost use Rattle.sets.specs.Calls.{number};
ghost use Rattle.text.specs.Text.{Put};
ghost use Rattle.showing.specs.Lines.{numbers_line, set_line, set_lines, row_line, row_lines};

use crate::pieces::further;
use crate::spelling::{Cells, Sets, each, spaced};
use crate::words::numbers;
use sets::{Set, load, word};
use text::put;

// A line of a word and numbers.
pub fn numbers_line(out: &mut [u8], at: usize, name: &[u8], told: &[u64]) -> usize
    ensures { Put out.old at (numbers_line name.now told.now) out.new result }
{
    let place = numbers(out, at, name, told);
    put(out, place, b'\n')
}

// A line of a word, a number and its set.
pub fn set_line(out: &mut [u8], at: usize, name: &[u8], n: u64, set: Set) -> usize
    ensures { Put out.old at (set_line name.now n (number set)) out.new result }
{
    let told = [n];
    let named = numbers(out, at, name, &told);
    let place = spaced::<u64, Sets>(out, named, word(set));
    put(out, place, b'\n')
}

// A line for each set of a family, numbered from 0 on.
pub fn set_lines(out: &mut [u8], at: usize, name: &[u8], family: &[u64]) -> usize
    ensures { Put out.old at (set_lines name.now 0 family.now) out.new result }
{
    let mut place = at;
    for n in 0..family.len() {
        place = set_line(out, place, name, n as u64, load(family, n));
    }
    place
}

// The line of a nonterminal's row.
fn row_line(out: &mut [u8], at: usize, nonterminal: u64, row: &[u8]) -> usize
    ensures { Put out.old at (row_line nonterminal row.now) out.new result }
{
    let told = [nonterminal];
    let named = numbers(out, at, b"row", &told);
    let place = each::<u8, Cells>(out, named, row);
    put(out, place, b'\n')
}

// So many rows of `columns` cells each, as far as the table has cells.
pub fn row_lines(out: &mut [u8], at: usize, columns: usize, rows: usize, table: &[u8]) -> usize
    ensures { Put out.old at (row_lines columns 0 rows table.now) out.new result }
{
    let mut place = at;
    let mut from = 0;
    for row in 0..rows {
        let end = further(from, columns, table.len());
        place = row_line(out, place, row as u64, &table[from..end]);
        from = end;
    }
    place
}
