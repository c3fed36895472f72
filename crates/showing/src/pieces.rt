// Input that is cut into pieces, each behind its length of two bytes, low byte first.
ghost use Rattle.std.specs.Prelude.{◌≡◌, ◌+◌, min};
ghost use Rattle.showing.specs.Pieces.{Cut, size_at};

use reader::fields::byte_at;

// Where a piece starts, and where it ends.
#[derive(Clone, Copy)]
pub struct Piece {
    pub from: usize,
    pub end: usize,
}

// The place so many bytes on, or the end of all where that comes first.
pub(crate) fn further(at: usize, more: usize, end: usize) -> usize
    ensures { result ≡ min (at + more) end }
{
    at.saturating_add(more).min(end)
}

// How many bytes the piece at a place has.
fn size_at(input: &[u8], at: usize) -> usize
    ensures { result ≡ size_at input.now at }
{
    usize::from(byte_at(input, at, 0)) + 256 * usize::from(byte_at(input, at, 1))
}

// The piece at a place, as far as there is input.
pub fn piece_at(input: &[u8], at: usize) -> Piece
    ensures { Cut input.now at result }
{
    let from = further(at, 2, input.len());
    let size = size_at(input, at);
    Piece {
        from,
        end: further(from, size, input.len()),
    }
}
