// Leading on: to each position of a set the points that can come next are added.
ghost use Rattle.std.specs.Prelude.{◌<◌, ◌^◌};
ghost use Rattle.parts.specs.Leading.{LedWord, Led};

use answers::buffers::cell_or;
use answers::limits::{POINT_WORDS, POSITION_WORDS};
use points::{WORD_WIDTH, lowest, unite};

// For the positions of one word, which are numbered from `base` on.
fn lead_word(follow: &mut [u64], base: usize, word: u64, next: &[u64])
    requires { base < 2 ^ 32 }
    ensures { LedWord base word next.now follow.old follow.new }
{
    let mut rest = word;
    while let Some(place) = lowest(rest) {
        unite(follow, (base + place) * POINT_WORDS, POINT_WORDS, next, 0);
        rest ^= 1u64 << place;
    }
}

// For all positions of a set.
pub fn lead(follow: &mut [u64], last: &[u64], next: &[u64])
    ensures { Led last.now next.now follow.old follow.new }
{
    for i in 0..POSITION_WORDS {
        lead_word(follow, i * WORD_WIDTH, cell_or(last, i, 0), next);
    }
}
