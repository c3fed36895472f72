// The longest match from a place of the line.
ghost use Rattle.std.specs.Prelude.{◌≡◌, ◌/◌, ◌≤◌, ◌<◌, min, length, drop};
ghost use Rattle.pieces.specs.Moves.{Matched};
ghost use Rattle.answers.specs.Limits.{most_states, row_cells};
ghost use Rattle.pieces.specs.Rows.{rows_in, cell_at, Says};

use answers::limits::{BYTE_VALUES, MOST_PATTERNS, MOST_STATES, ROW_CELLS};

// How many rows so many cells are.
pub(crate) fn rows_in(cells: usize) -> usize
    ensures { result ≡ min (cells / row_cells) most_states }
{
    (cells / ROW_CELLS).min(MOST_STATES)
}

// The cell of a row.
fn cell_at(machine: &[u16], row: usize, column: usize) -> usize
    requires { (row < rows_in machine.now) × (column < row_cells) }
    ensures { result ≡ cell_at machine.now row column }
{
    usize::from(machine[row * ROW_CELLS + column])
}

// The longest match from place `from` on, by its token and the place behind it: a cell that names no row ends the walk.
pub(crate) fn longest(machine: &[u16], rows: usize, line: &[u8], from: usize) -> Option<(u8, usize)>
    requires { (rows ≡ rows_in machine.now) × (from ≤ length line.now) }
    ensures { Matched (Says machine.now) (drop from line.now) from result }
{
    if rows == 0 {
        return None;
    }
    let mut best = None;
    let mut row = 0;
    for (i, byte) in line[from..].iter().enumerate() {
        let next = cell_at(machine, row, usize::from(*byte));
        if rows <= next {
            return best;
        }
        row = next;
        let token = cell_at(machine, row, BYTE_VALUES);
        if token < MOST_PATTERNS {
            best = Some((token as u8, from + i + 1));
        }
    }
    best
}
