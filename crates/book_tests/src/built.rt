// Books at the limits: the longest chain of nonterminals and the longest book.
ghost use Rattle.std.specs.Prelude.{◌≤◌};

use crate::showing::{put, show, show_changed, show_first};
use std::io;

// `GR`, one token, start 0.
fn put_header(book: &mut [u8], nonterminals: u8, productions: u8) {
    put(book, 0, b'G');
    put(book, 1, b'R');
    put(book, 2, 1);
    put(book, 3, nonterminals);
    put(book, 5, productions);
}

// `PR`, the left side, the length.
fn put_record(book: &mut [u8], at: usize, left: u8, length: u8)
    requires { at ≤ 4096 }
{
    put(book, at, b'P');
    put(book, at + 1, b'R');
    put(book, at + 2, left);
    put(book, at + 3, length);
}

// Nonterminal n derives nonterminal n + 1.
fn put_link(book: &mut [u8], n: u8)
    requires { n ≤ 63 }
{
    let at = 6 + 5 * (n as usize);
    put_record(book, at, n, 1);
    put(book, at + 4, 129 + n);
}

fn put_links(book: &mut [u8]) {
    put_header(book, 64, 64);
    for n in 0..64 {
        put_link(book, n);
    }
}

// Nonterminals 0 to 63, each deriving the next, and the last one token 0.
pub(crate) fn chain(rt: &impl Print) -> io::Result<()> {
    let mut book = [0u8; 326];
    put_links(&mut book);
    show(rt, "chain-past-its-end", &book)?;
    put(&mut book, 325, 0);
    show(rt, "chain", &book)?;
    show_changed(rt, "chain-ends-at-62", &mut book, 323, 62)?;
    show_changed(rt, "chain-ends-at-0", &mut book, 323, 0)?;
    show_changed(rt, "chain-cut-after-0", &mut book, 10, 0)?;
    show_changed(rt, "chain-in-a-ring", &mut book, 325, 128)
}

// Records of sixteen tokens 0.
fn put_longest(book: &mut [u8]) {
    put_header(book, 1, 128);
    for p in 0..128 {
        put_record(book, 6 + 20 * p, 0, 16);
    }
}

pub(crate) fn longest(rt: &impl Print) -> io::Result<()> {
    let mut book = [0u8; 2566];
    put_longest(&mut book);
    show(rt, "longest", &book)?;
    show_first(rt, "longest-last-byte-missing", &book, 2565)?;
    show_changed(rt, "longest-last-mark", &mut book, 2547, 83)?;
    show_changed(rt, "longest-last-length", &mut book, 2549, 17)?;
    show_changed(rt, "longest-last-symbol", &mut book, 2565, 1)?;
    let mut longer = [0u8; 2567];
    put_longest(&mut longer);
    show(rt, "longer", &longer)
}
