// What a run and an expansion share: the productions, the stack as bytes, how many cells of a lent buffer count, and what
// comes next.
#![tactic(auto)]

ghost use Rattle.std.specs.Prelude.{◌≡◌, ◌+◌, ◌%◌, ◌≤◌, min, length, drop, set};
ghost use Rattle.std.proofs.lemmas.List.Edits.{sets};
ghost use Rattle.grammar.specs.declared.Symbol.TheVariants.{Nonterminal};
ghost use Rattle.answers.specs.Buffers.{cleared};
ghost use Rattle.answers.specs.Limits.{most_cells};
ghost use Rattle.reader.specs.Book.{byte_of};
ghost use Rattle.reader.specs.Fields.{form_in};
ghost use Rattle.stack.specs.Ahead.{ahead_in};
ghost use Rattle.stack.specs.Stack.{stack_bytes, replacing};

use answers::limits::MOST_CELLS;
use reader::fields::symbol_byte;

pub mod rules;

// What comes after the first i bytes.
pub fn ahead_of(bytes: &[u8], i: usize) -> Option<u8>
    ensures { result ≡ ahead_in (drop i bytes.now) }
{
    bytes.get(i).copied()
}

// How many cells count of a lent buffer that has so many.
pub fn counts(cells: usize) -> usize
    ensures { result ≡ min cells most_cells }
{
    cells.min(MOST_CELLS)
}

// The start symbol is put into the lowest cell, where there is one.
pub fn put_start(stack: &mut [u8], start: u8)
    ensures { stack.new ≡ set stack.old 0 (byte_of (Nonterminal (start % 128))) }
{
    if 0 < stack.len() {
        stack[0] = 128 + start % 128;
    }
}

// The right side of the record at `at` is put on the stack, its leftmost symbol on top.
fn push(book: &[u8], at: u16, count: u8, stack: &mut [u8], height: usize)
    requires { height + count ≤ length stack.old }
    ensures { stack.new
        ≡ sets stack.old height (stack_bytes (form_in book.now (at + 4) count)) }
{
    let top = height + count as usize;
    for i in 0..count {
        stack[top - 1 - i as usize] = symbol_byte(book, at, i);
    }
}

// The symbol on top, which has `below` cells under it, gives way to the right side of the record at `at`; a cell that
// is in use no more is 0. Where the stack has no such cells nothing changes.
pub fn replace(book: &[u8], at: u16, count: u8, stack: &mut [u8], below: usize)
    ensures { stack.new
        ≡ replacing (stack_bytes (form_in book.now (at + 4) count)) below stack.old }
{
    if below < stack.len() {
        let top = below + count as usize;
        if top <= stack.len() {
            stack[below] = 0;
            push(book, at, count, stack, below);
        }
    }
}

// Every stack cell is set to 0.
pub fn clear(stack: &mut [u8])
    ensures { stack.new ≡ cleared stack.old }
{
    stack.fill(0);
}
