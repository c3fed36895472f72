// The checks of the calls: room for the sets, and a production's number.
ghost use Rattle.follow.specs.Checks.{SetsRoomed, Numbered};

use answers::buffers::check_room;
use answers::refusals::{Lent, Refusal};
use answers::{Answer, refusal};

// Both set buffers have room for N sets.
pub fn sets_room(first: usize, follow: usize, n: usize) -> Result<(), Answer>
    ensures { SetsRoomed first follow n result }
{
    check_room(first, n, Lent::First)?;
    check_room(follow, n, Lent::Follow)
}

// A production's number is below P.
pub(crate) fn numbered(production: u64, productions: u8) -> Result<(), Answer>
    ensures { Numbered production productions result }
{
    if production < productions as u64 {
        Ok(())
    } else {
        Err(refusal(Refusal::Production, production, 0))
    }
}
