// The items of a line, each behind a space: numbers, sets and cells.
ghost use Rattle.std.specs.Prelude.{◌++◌, List, ℕ};
ghost use Rattle.text.specs.Text.{decimal, hexadecimal, Put};
ghost use Rattle.showing.specs.Words.{spaced, each};
ghost use Rattle.showing.specs.Lines.{cell_sign};

use table::VACANT;
use text::{decimal, hexadecimal, put, put_all};

// How an item is spelled: its text, and what puts it.
pub(crate) trait Spelling<T> {
    ghost spelled: { T → List ℕ };

    fn put(out: &mut [u8], at: usize, item: T) -> usize
        ensures { Put out.old at (spelled item) out.new result };
}

// A number in decimal.
pub(crate) struct Numbers;

impl Spelling<u64> for Numbers {
    ghost spelled = { decimal };

    fn put(out: &mut [u8], at: usize, number: u64) -> usize {
        decimal(out, at, number)
    }
}

impl Spelling<u8> for Numbers {
    ghost spelled = { decimal };

    fn put(out: &mut [u8], at: usize, number: u8) -> usize {
        decimal(out, at, u64::from(number))
    }
}

// A set, told by its word, in hexadecimal.
pub(crate) struct Sets;

impl Spelling<u64> for Sets {
    ghost spelled = { hexadecimal };

    fn put(out: &mut [u8], at: usize, word: u64) -> usize {
        hexadecimal(out, at, word)
    }
}

// A cell of a table, `-` where it is vacant.
pub(crate) struct Cells;

impl Spelling<u8> for Cells {
    ghost spelled = { cell_sign };

    fn put(out: &mut [u8], at: usize, cell: u8) -> usize {
        if cell == VACANT {
            put(out, at, b'-')
        } else {
            decimal(out, at, u64::from(cell))
        }
    }
}

// An item behind a space.
pub(crate) fn spaced<T, S: Spelling<T>>(out: &mut [u8], at: usize, item: T) -> usize
    ensures { Put out.old at (spaced S.spelled item) out.new result }
{
    let place = put(out, at, b' ');
    S::put(out, place, item)
}

// Each of the items behind a space.
pub(crate) fn each<T: Copy, S: Spelling<T>>(out: &mut [u8], at: usize, items: &[T]) -> usize
    ensures { Put out.old at (each (spaced S.spelled) items.now)
        out.new result }
{
    let mut place = at;
    for item in items {
        place = spaced::<T, S>(out, place, *item);
    }
    place
}

// A word and the items behind it.
pub(crate) fn behind<T: Copy, S: Spelling<T>>(
    out: &mut [u8],
    at: usize,
    name: &[u8],
    items: &[T],
) -> usize
    ensures { Put out.old at (name.now ++ each (spaced S.spelled) items.now)
        out.new result }
{
    let place = put_all(out, at, name);
    each::<T, S>(out, place, items)
}
