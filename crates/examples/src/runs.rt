// Examples A to G: runs on the house book.
use crate::showing::{end_line, show_answer, show_cells};
use answers::refusals::DONE;
use run::running::run;
use std::io;

// A run, and what is left in all of its stack and list.
fn show_run(
    rt: &impl Print,
    name: &str,
    book: &[u8],
    table: &[u8],
    tokens: &[u8],
    stack: &mut [u8],
    list: &mut [u8],
) -> io::Result<()> {
    let answer = run(book, table, tokens, stack, list);
    show_answer(rt, name, answer)?;
    show_cells(rt, " stack", &*stack)?;
    show_cells(rt, " list", &*list)?;
    end_line(rt)
}

// Examples A to C: restore name in name and name, with just enough room, and one cell less of stack and of list.
fn just_enough(rt: &impl Print, house: &[u8], table: &[u8]) -> io::Result<()> {
    let tokens = b"\x00\x01\x02\x01\x03\x01";
    show_run(
        rt,
        "A",
        house,
        table,
        tokens,
        &mut [99u8; 3],
        &mut [99u8; 7],
    )?;
    show_run(
        rt,
        "B",
        house,
        table,
        tokens,
        &mut [99u8; 2],
        &mut [99u8; 7],
    )?;
    show_run(
        rt,
        "C",
        house,
        table,
        tokens,
        &mut [99u8; 3],
        &mut [99u8; 6],
    )
}

// Examples D to G.
fn with_room(rt: &impl Print, house: &[u8], table: &[u8]) -> io::Result<()> {
    show_run(
        rt,
        "D",
        house,
        table,
        b"\x00\x01",
        &mut [99u8; 4],
        &mut [99u8; 6],
    )?;
    show_run(rt, "E", house, table, b"", &mut [99u8; 4], &mut [99u8; 6])?;
    show_run(
        rt,
        "F",
        house,
        table,
        b"\x00\x01\x01",
        &mut [99u8; 4],
        &mut [99u8; 6],
    )?;
    show_run(
        rt,
        "G",
        house,
        table,
        b"\x00\x01\x04",
        &mut [99u8; 4],
        &mut [99u8; 6],
    )
}

pub(crate) fn all(rt: &impl Print, house: &[u8]) -> io::Result<()> {
    let mut first = [99u64; 4];
    let mut follow = [99u64; 4];
    let mut table = [99u8; 20];
    let built = table::build(house, &mut first, &mut follow, &mut table);
    if built.number == DONE {
        just_enough(rt, house, &table)?;
        with_room(rt, house, &table)?;
    }
    Ok(())
}
