// One pattern whole: an alternation that reaches the end of its text and is not empty.
ghost use Rattle.sets.specs.Calls.{Decides};
ghost use Rattle.positions.specs.Whole.{WholePart, PatternRead};

use crate::reading::alternation;
use parts::Part;

// How many groups may be open at the same time.
pub const MOST_OPEN_GROUPS: usize = 8;

// Whether a part is a whole text and not empty.
fn whole(total: usize, part: Part) -> bool
    ensures { Decides result (WholePart total part) }
{
    total <= part.at && !part.empty
}

// The pattern's part, or the place where the text is bad. `count` is how many positions stand before it.
pub fn pattern(
    text: &[u8],
    count: usize,
    readers: &mut [u64],
    follow: &mut [u64],
) -> Result<Part, usize>
    ensures { PatternRead text.now count readers.old follow.old
        result readers.new follow.new }
{
    let part = alternation(text, 0, MOST_OPEN_GROUPS, count, readers, follow)?;
    if whole(text.len(), part) {
        Ok(part)
    } else {
        Err(part.at)
    }
}
