// Example M, from the source documents.
use crate::showing::{end_line, show_answer, show_cells, show_sets};
use run::running::run;
use std::io;

// FIRST of S, A, B and C in source document 002.
fn first_sets(rt: &impl Print) -> io::Result<()> {
    let mut first = [99u64; 4];
    let mut follow = [99u64; 4];
    let answer = follow::sets(
        b"GR\x04\x04\x00\x07PR\x00\x02\x81\x80PR\x00\x02\x82\x81PR\x01\x02\x00\x82PR\x01\x01\x83\
          PR\x02\x02\x01\x81PR\x02\x01\x03PR\x03\x01\x02",
        &mut first,
        &mut follow,
    );
    show_answer(rt, "M-002", answer)?;
    show_sets(rt, " first", &first)?;
    end_line(rt)
}

// Table 4.1 of source document 001, and its run of v + v x v.
fn expressions(rt: &impl Print) -> io::Result<()> {
    let mut first = [99u64; 5];
    let mut follow = [99u64; 5];
    let mut table = [99u8; 30];
    let book =
        b"GR\x05\x05\x00\x08PR\x00\x02\x82\x81PR\x01\x03\x00\x82\x81PR\x01\x00PR\x02\x02\x84\x83\
          PR\x03\x03\x01\x84\x83PR\x03\x00PR\x04\x03\x02\x80\x03PR\x04\x01\x04";
    let built = table::build(book, &mut first, &mut follow, &mut table);
    show_answer(rt, "M-001", built)?;
    show_cells(rt, " table", &table)?;
    end_line(rt)?;
    let mut stack = [99u8; 4];
    let mut list = [99u8; 11];
    let answer = run(book, &table, b"\x04\x00\x04\x01\x04", &mut stack, &mut list);
    show_answer(rt, "M-001-run", answer)?;
    show_cells(rt, " stack", &stack)?;
    show_cells(rt, " list", &list)?;
    end_line(rt)
}

// Example M.
pub(crate) fn all(rt: &impl Print) -> io::Result<()> {
    first_sets(rt)?;
    expressions(rt)
}
