// One position: a byte, a byte behind a backslash, or a class.
ghost use Rattle.parts.specs.Joins.{SingleRead};

use crate::Part;
use crate::classes::{class, spread};
use crate::joins::lone;
use crate::letters::{OPEN_CLASS, byte_at, letter_at};

// What stands at a place where no group opens, or the place refused; its position is the next one.
pub fn single(pattern: &[u8], at: usize, count: usize, readers: &mut [u64]) -> Result<Part, usize>
    ensures { SingleRead pattern.now at count readers.old result readers.new }
{
    if byte_at(pattern, at) == OPEN_CLASS {
        let next = class(pattern, at + 1, count, readers)?;
        return Ok(lone(next, count));
    }
    let letter = letter_at(pattern, at)?;
    spread(readers, letter.byte, letter.byte, count);
    Ok(lone(letter.at, count))
}
