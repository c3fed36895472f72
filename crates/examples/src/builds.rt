// Examples H1, I and J: building.
use crate::showing::{end_line, show_answer, show_cells, show_sets};
use std::io;

fn show_build(rt: &impl Print, name: &str, book: &[u8]) -> io::Result<()> {
    let mut first = [99u64; 4];
    let mut follow = [99u64; 4];
    let mut cells = [99u8; 20];
    let answer = table::build(book, &mut first, &mut follow, &mut cells);
    show_answer(rt, name, answer)?;
    show_sets(rt, " first", &first)?;
    show_sets(rt, " follow", &follow)?;
    show_cells(rt, " table", &cells)?;
    end_line(rt)
}

// Example H1 with H before it, and examples I and J.
pub(crate) fn all(rt: &impl Print, house: &[u8], conflicted: &[u8]) -> io::Result<()> {
    show_build(rt, "H", house)?;
    show_build(rt, "H1", conflicted)?;
    show_build(
        rt,
        "I",
        b"GR\x02\x03\x00\x04PR\x00\x01\x00PR\x00\x02\x81\x82PR\x01\x01\x01PR\x02\x01\x82",
    )?;
    show_build(
        rt,
        "J",
        b"GR\x02\x02\x00\x03PR\x00\x03\x01\x80\x01PR\x00\x02\x81\x00PR\x01\x01\x01",
    )
}
