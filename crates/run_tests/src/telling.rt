// What this program prints of a run, and the other calls that must agree with it.
use crate::comparing::{judged_alike, offers_alike};
use answers::refusals::{DONE, Refusal};
use book::judging::judge;
use expand::expand;
use reader::fields::byte_at;
use run::beside::run_beside;
use std::io;

fn show_word(rt: &impl Print, word: &str) -> io::Result<()> {
    rt.print(word)
}

fn show_number(rt: &impl Print, n: u64) -> io::Result<()> {
    print!(rt; " {n}")
}

fn show_cells(rt: &impl Print, name: &str, cells: &[u8]) -> io::Result<()> {
    show_word(rt, name)?;
    for cell in cells {
        show_number(rt, *cell as u64)?;
    }
    Ok(())
}

// A list expanded: the number, the steps, the depth and the tokens.
fn show_expansion(rt: &impl Print, book: &[u8], list: &[u8]) -> io::Result<()> {
    let mut stack = [99u8; 64];
    let mut output = [99u8; 32];
    let answer = expand(book, list, &mut stack, &mut output);
    show_word(rt, " expands")?;
    show_number(rt, answer.number as u64)?;
    show_number(rt, answer.steps)?;
    show_number(rt, answer.depth)?;
    show_cells(rt, " tokens", &output)
}

// The first `count` cells of a list, and their expansion.
fn show_list(rt: &impl Print, book: &[u8], list: &[u8], count: usize) -> io::Result<()> {
    if count <= list.len() {
        let part = &list[..count];
        show_cells(rt, " list", part)?;
        show_expansion(rt, book, part)?;
    }
    Ok(())
}

// Number, place, detail, steps, expected set and depth.
fn show_answer(rt: &impl Print, words: &[u64; 6]) -> io::Result<()> {
    show_word(rt, "run")?;
    show_number(rt, words[0])?;
    show_number(rt, words[1])?;
    show_number(rt, words[2])?;
    show_number(rt, words[3])?;
    print!(rt; " {:016x}", words[4])?;
    show_number(rt, words[5])
}

// How many productions are listed: the steps that matched no token.
fn listed(steps: u64, tokens: usize, left: usize) -> usize {
    if left <= tokens {
        let matched = (tokens - left) as u64;
        if matched <= steps {
            return (steps - matched) as usize;
        }
    }
    0
}

// Whether the run was refused before steps is said by its number; the calls on a judged book do not check the string.
fn in_steps(number: u64) -> bool {
    number == DONE as u64
        || number == Refusal::Room.number() as u64
        || number == Refusal::Syntax.number() as u64
}

// A line where a run on the judged book, or offers in turn, do not say what the run says.
fn show_whether_alike(
    rt: &impl Print,
    book: &[u8],
    table: &[u8],
    tokens: &[u8],
    words: &[u64; 6],
    stack: &[u8],
    list: &[u8],
) -> io::Result<()> {
    if let Ok(index) = judge(book) {
        if !judged_alike(book, index, table, tokens, words, stack, list) {
            show_word(rt, "differs judged\n")?;
        }
        if !offers_alike(book, index, table, tokens, words, list) {
            show_word(rt, "differs offered\n")?;
        }
    }
    Ok(())
}

// A run on a table: the tokens not yet matched, the answer, the list.
fn show_run(rt: &impl Print, book: &[u8], table: &[u8], tokens: &[u8]) -> io::Result<()> {
    let mut stack = [99u8; 64];
    let mut list = [99u8; 64];
    let mut words = [0u64; 6];
    let rest = run_beside(book, tokens, table, &mut stack, &mut list, &mut words);
    let count = listed(words[3], tokens.len(), rest.len());
    show_answer(rt, &words)?;
    show_cells(rt, " rest", rest)?;
    show_list(rt, book, &list, count)?;
    show_word(rt, "\n")?;
    if in_steps(words[0]) {
        show_whether_alike(rt, book, table, tokens, &words, &stack, &list)?;
    }
    Ok(())
}

// The table in the first `size` cells.
fn show_on(
    rt: &impl Print,
    book: &[u8],
    cells: &[u8],
    size: usize,
    tokens: &[u8],
) -> io::Result<()> {
    if size <= cells.len() {
        show_run(rt, book, &cells[..size], tokens)?;
    }
    Ok(())
}

// How many cells the table of so many nonterminals and tokens has.
fn cells_of(nonterminals: u8, tokens: u8) -> usize {
    nonterminals as usize * (tokens as usize + 1)
}

// A string on the table that building gives of its book.
fn show_built(rt: &impl Print, book: &[u8], tokens: &[u8]) -> io::Result<()> {
    let mut first = [0u64; 64];
    let mut follow = [0u64; 64];
    let mut cells = [0u8; 4032];
    let size = cells_of(byte_at(book, 0, 3), byte_at(book, 0, 2));
    let built = table::build(book, &mut first, &mut follow, &mut cells);
    if built.number == DONE {
        show_on(rt, book, &cells, size, tokens)?;
    }
    Ok(())
}

// The number of tokens, the tokens, the book.
pub(crate) fn show(rt: &impl Print, string: &[u8]) -> io::Result<()> {
    let count = byte_at(string, 0, 0) as usize;
    if count < string.len() {
        let from = count + 1;
        show_built(rt, &string[from..], &string[1..from])?;
    }
    Ok(())
}
