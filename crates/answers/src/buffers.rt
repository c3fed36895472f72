// Lent buffers: the check that one has room, a cell of one, and cells written into the front of one.
ghost use Rattle.std.specs.Prelude.{◌≡◌, slice_index_or};
ghost use Rattle.answers.specs.Buffers.{written};
ghost use Rattle.answers.specs.Checks.{RoomTested};

use crate::refusals::{Detailed, Refusal};
use crate::{Answer, refusal};

// A buffer has room for so many cells.
pub fn check_room<D: Detailed>(have: usize, want: usize, lent: D) -> Result<(), Answer>
    ensures { RoomTested have want (D.detailed lent) result }
{
    let detail = lent.told_detail();
    if have < want {
        Err(refusal(Refusal::Room, want as u64, detail))
    } else {
        Ok(())
    }
}

// Cell i; past the end what is told.
pub fn cell_or<T: Copy>(cells: &[T], i: usize, beyond: T) -> T
    ensures { result ≡ slice_index_or cells.now i beyond }
{
    if i < cells.len() { cells[i] } else { beyond }
}

// Cells into the front of a buffer, as many as it has room for.
pub fn write_front<T: Copy>(cells: &[T], buffer: &mut [T])
    ensures { buffer.new ≡ written cells.now buffer.old }
{
    let count = cells.len().min(buffer.len());
    buffer[..count].copy_from_slice(&cells[..count]);
}
