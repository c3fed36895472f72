// Works out every book on standard input, each behind its length, low byte first: the answer to building it, its sets,
// the lookahead of each production and FIRST of its right side, each with how many leading symbols can vanish, and its
// table with the check of it.
#![tactic(auto)]

mod books;
mod checks;
mod telling;

use showing::streams::read;
use std::io;

// No more of the input is read.
const READ: usize = 65536;

fn main(rt: HostRuntime) -> io::Result<()> {
    let mut input = [0u8; READ];
    let size = read(&rt, &mut input)?;
    books::each(&rt, &input, size)
}
