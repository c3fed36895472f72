// Example K.
use crate::showing::{end_line, show_answer, show_cells};
use expand::expand;
use std::io;

fn show_expansion(rt: &impl Print, name: &str, book: &[u8], list: &[u8]) -> io::Result<()> {
    let mut stack = [99u8; 4];
    let mut output = [99u8; 4];
    let answer = expand(book, list, &mut stack, &mut output);
    show_answer(rt, name, answer)?;
    show_cells(rt, " stack", &stack)?;
    show_cells(rt, " tokens", &output)?;
    end_line(rt)
}

// Example K: a complete list, and one that is cut short.
pub(crate) fn all(rt: &impl Print, house: &[u8]) -> io::Result<()> {
    show_expansion(rt, "K", house, b"\x00\x01\x03\x05")?;
    show_expansion(rt, "K-short", house, b"\x00\x01\x03")
}
