// Small books: the smallest, one with a byte too many, and books with useless symbols.
use crate::showing::{show, show_first};
use std::io;

pub(crate) fn short(rt: &impl Print) -> io::Result<()> {
    let book = [71u8, 82, 1, 1, 0, 1, 80, 82, 0, 0, 0];
    show_first(rt, "smallest", &book, 10)?;
    show(rt, "smallest-and-a-byte", &book)?;
    let bad = [71u8, 82, 0];
    show(rt, "bad-before-missing", &bad)
}

pub(crate) fn useless(rt: &impl Print) -> io::Result<()> {
    let extra = [71u8, 82, 1, 2, 0, 1, 80, 82, 0, 0, 0];
    show(rt, "extra-before-useless", &extra)?;
    show_first(rt, "without-productions", &extra, 10)?;
    let itself = [71u8, 82, 1, 1, 0, 1, 80, 82, 0, 1, 128];
    show(rt, "start-derives-itself", &itself)?;
    let dead_start = [71u8, 82, 1, 2, 1, 2, 80, 82, 0, 0, 80, 82, 1, 1, 129];
    show(rt, "start-1-derives-itself", &dead_start)?;
    let example_i =
        b"GR\x02\x03\x00\x04PR\x00\x01\x00PR\x00\x02\x81\x82PR\x01\x01\x01PR\x02\x01\x82";
    show(rt, "example-i", example_i)
}
