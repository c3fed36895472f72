// Lists the book on standard input: its grammar, sets and table, or the refusal.
#![tactic(auto)]

ghost use Rattle.lister.specs.Showing.{Roomy, Shows};

use answers::limits::LONGEST_BOOK;
use listing::{LONGEST_LISTING, list};
use showing::streams::{print, read};
use std::io;

// One byte more than the longest book; what stands beyond changes no listing.
const READ: usize = LONGEST_BOOK + 1;

// The listing of the input whose first bytes these are.
fn show(book: &[u8], size: usize, text: &mut [u8]) -> usize
    requires { Roomy book.now size text.old }
    ensures { Shows book.now size text.new result }
{
    list(&book[..size], text).unwrap_or(0)
}

fn main(rt: HostRuntime) -> io::Result<()> {
    let mut book = [0u8; READ];
    let mut text = [0u8; LONGEST_LISTING];
    let size = read(&rt, &mut book)?;
    let shown = show(&book, size, &mut text);
    print(&rt, &text, shown)?;
    Ok(())
}
