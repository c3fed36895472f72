// Runs every token string on standard input on the table of its book, and expands the list that it gives; a run on the
// judged book and offers in turn are to say the same. A string stands behind the length of what belongs to it, low byte
// first: the number of tokens, the tokens, the book.
#![tactic(auto)]

mod chaining;
mod comparing;
mod strings;
mod telling;

use showing::streams::read;
use std::io;

// No more of the input is read.
const READ: usize = 65536;

fn main(rt: HostRuntime) -> io::Result<()> {
    let mut input = [0u8; READ];
    let size = read(&rt, &mut input)?;
    strings::each(&rt, &input, size)
}
