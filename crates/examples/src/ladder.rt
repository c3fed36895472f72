// Example L: a derivation that is longer than its string.
use crate::showing::{end_line, show_answer, show_cells};
use answers::refusals::DONE;
use run::running::run;
use std::io;

// The first thirteen cells of a list.
fn show_front(rt: &impl Print, list: &[u8]) -> io::Result<()> {
    if let Some(front) = list.get(..13) {
        show_cells(rt, " list", front)?;
    }
    Ok(())
}

// The cells from 2,044 on.
fn show_back(rt: &impl Print, list: &[u8]) -> io::Result<()> {
    if let Some(back) = list.get(2044..) {
        show_cells(rt, " ..", back)?;
    }
    Ok(())
}

// The empty string, and the ends of the list.
fn show_climb(
    rt: &impl Print,
    name: &str,
    book: &[u8],
    table: &[u8],
    stack: &mut [u8],
    list: &mut [u8],
) -> io::Result<()> {
    let answer = run(book, table, b"", stack, list);
    show_answer(rt, name, answer)?;
    show_cells(rt, " stack", &*stack)?;
    show_front(rt, &*list)?;
    show_back(rt, &*list)?;
    end_line(rt)
}

fn climbs(rt: &impl Print, book: &[u8], table: &[u8]) -> io::Result<()> {
    show_climb(rt, "L", book, table, &mut [99u8; 11], &mut [99u8; 2047])?;
    show_climb(
        rt,
        "L-stack-10",
        book,
        table,
        &mut [99u8; 10],
        &mut [99u8; 2047],
    )?;
    show_climb(
        rt,
        "L-list-2046",
        book,
        table,
        &mut [99u8; 11],
        &mut [99u8; 2046],
    )
}

// Example L: 2,047 productions and a stack of 11 for the empty string.
pub(crate) fn all(rt: &impl Print) -> io::Result<()> {
    let book =
        b"GR\x01\x0b\x00\x0bPR\x00\x02\x81\x81PR\x01\x02\x82\x82PR\x02\x02\x83\x83PR\x03\x02\x84\x84\
          PR\x04\x02\x85\x85PR\x05\x02\x86\x86PR\x06\x02\x87\x87PR\x07\x02\x88\x88PR\x08\x02\x89\x89\
          PR\x09\x02\x8a\x8aPR\x0a\x00";
    let mut first = [99u64; 11];
    let mut follow = [99u64; 11];
    let mut table = [99u8; 22];
    let built = table::build(book, &mut first, &mut follow, &mut table);
    if built.number == DONE {
        climbs(rt, book, &table)?;
    }
    Ok(())
}
