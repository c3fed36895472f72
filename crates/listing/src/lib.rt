// The text of a book's listing: its grammar, sets and table, or the refusal.
#![tactic(auto)]

ghost use Rattle.std.specs.Prelude.{◌≤◌, length};
ghost use Rattle.listing.specs.Calls.{Listed};
ghost use Rattle.listing.specs.Writing.{ServedPut, Written};

use crate::header::header_in;
use crate::lines::{grammar_line, refused_line};
use answers::limits::{MOST_NONTERMINALS, MOST_TOKENS};
use answers::refusals::{DONE, Refusal};
use answers::{Answer, refusal};
use book::columns::Outline;
use showing::lines::{row_lines, set_lines};
use table::build;
use text::put_all;

mod header;
mod lines;

// Room for the sets and the table of every book: its nonterminals, and a column for each token and the end mark.
const SETS: usize = MOST_NONTERMINALS as usize;

const CELLS: usize = SETS * (MOST_TOKENS as usize + 1);

// No listing is longer.
pub const LONGEST_LISTING: usize = 19989;

// The grammar's line, and the lines of its sets and its table.
fn served(out: &mut [u8], header: Outline, first: &[u64], follow: &[u64], table: &[u8]) -> usize
    requires { (header.nonterminals ≤ length first.now) × (header.nonterminals ≤ length follow.now) }
    ensures { ServedPut header first.now follow.now table.now
        out.old out.new result }
{
    let n = header.nonterminals as usize;
    let opened = grammar_line(out, header);
    let begun = set_lines(out, opened, b"first", &first[..n]);
    let followed = set_lines(out, begun, b"follow", &follow[..n]);
    row_lines(out, followed, header.tokens as usize + 1, n, table)
}

// The listing of a book, from the front of the buffer as far as there is room, and how many bytes of it were written.
fn write(book: &[u8], out: &mut [u8]) -> usize
    ensures { Written book.now out.old out.new result }
{
    let mut first = [0u64; SETS];
    let mut follow = [0u64; SETS];
    let mut table = [0u8; CELLS];
    let answer = build(book, &mut first, &mut follow, &mut table);
    if answer.number == DONE {
        served(out, header_in(book), &first, &follow, &table)
    } else {
        refused_line(out, answer)
    }
}

// The listing of a book into the lent buffer, and how many bytes were written; where the buffer is too short, nothing
// is written, and the place is how many bytes are needed.
pub fn list(book: &[u8], out: &mut [u8]) -> Result<usize, Answer>
    ensures { Listed book.now out.old result out.new }
{
    let mut text = [0u8; LONGEST_LISTING];
    let size = write(book, &mut text);
    if out.len() < size {
        return Err(refusal(Refusal::Room, size as u64, 0));
    }
    Ok(put_all(out, 0, &text[..size]))
}
