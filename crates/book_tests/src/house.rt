// House book H, whole and with one byte changed.
use crate::showing::{show, show_changed, show_first, show_productions};
use std::io;

// House book H.
fn house() -> [u8; 39] {
    *b"GR\x04\x04\x00\x06PR\x00\x02\x00\x81PR\x01\x03\x01\x82\x83PR\x02\x02\x02\x01PR\x02\x00\
       PR\x03\x02\x03\x81PR\x03\x00"
}

pub(crate) fn whole(rt: &impl Print) -> io::Result<()> {
    let book = house();
    show(rt, "house", &book)?;
    show_productions(rt, &book)?;
    show_first(rt, "no-bytes", &book, 0)?;
    show_first(rt, "first-byte-only", &book, 1)?;
    show_first(rt, "header-only", &book, 6)?;
    show_first(rt, "last-byte-missing", &book, 38)
}

pub(crate) fn marks(rt: &impl Print) -> io::Result<()> {
    let mut book = house();
    show_changed(rt, "mark-0", &mut book, 0, 80)?;
    show_changed(rt, "mark-1", &mut book, 1, 71)?;
    show_changed(rt, "mark-6", &mut book, 6, 71)?;
    show_changed(rt, "mark-7", &mut book, 7, 80)?;
    show_changed(rt, "mark-36", &mut book, 36, 83)
}

pub(crate) fn limits(rt: &impl Print) -> io::Result<()> {
    let mut book = house();
    show_changed(rt, "no-tokens", &mut book, 2, 0)?;
    show_changed(rt, "tokens-62", &mut book, 2, 62)?;
    show_changed(rt, "tokens-63", &mut book, 2, 63)?;
    show_changed(rt, "no-nonterminals", &mut book, 3, 0)?;
    show_changed(rt, "nonterminals-64", &mut book, 3, 64)?;
    show_changed(rt, "nonterminals-65", &mut book, 3, 65)?;
    show_changed(rt, "start-4", &mut book, 4, 4)?;
    show_changed(rt, "no-productions", &mut book, 5, 0)?;
    show_changed(rt, "productions-5", &mut book, 5, 5)?;
    show_changed(rt, "productions-7", &mut book, 5, 7)?;
    show_changed(rt, "productions-129", &mut book, 5, 129)?;
    show_changed(rt, "length-17", &mut book, 9, 17)?;
    show_changed(rt, "last-length-1", &mut book, 38, 1)?;
    show_changed(rt, "last-length-17", &mut book, 38, 17)
}

pub(crate) fn symbols(rt: &impl Print) -> io::Result<()> {
    let mut book = house();
    show_changed(rt, "left-4", &mut book, 8, 4)?;
    show_changed(rt, "last-left-4", &mut book, 37, 4)?;
    show_changed(rt, "token-4", &mut book, 10, 4)?;
    show_changed(rt, "symbol-127", &mut book, 11, 127)?;
    show_changed(rt, "nonterminal-4", &mut book, 11, 132)?;
    show_changed(rt, "tokens-3", &mut book, 2, 3)?;
    show_changed(rt, "nonterminals-3", &mut book, 3, 3)
}

pub(crate) fn uses(rt: &impl Print) -> io::Result<()> {
    let mut book = house();
    show_changed(rt, "start-1", &mut book, 4, 1)?;
    show_changed(rt, "nonterminals-5", &mut book, 3, 5)?;
    show_changed(rt, "nonterminal-1-needs-itself", &mut book, 16, 129)
}
