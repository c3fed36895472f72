// Cells that no production claims: so many as a small table has, and as many as the largest.
ghost use Rattle.table.specs.Vacancy.{Vacancy};

use crate::VACANT;

// The most cells that a small table has: for it only so many are made vacant.
pub const FEW: usize = 512;

// The cells of the largest table, 64 rows of 63 columns.
pub const MOST: usize = 4032;

// So many cells, all of them vacant.
pub fn vacant<const N: usize>() -> [u8; N]
    ensures { Vacancy N result }
{
    [VACANT; N]
}
