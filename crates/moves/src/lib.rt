// Where a set of points leads by a byte: the points that can come after its positions that read the byte.
#![tactic(auto)]

ghost use Rattle.std.specs.Prelude.{◌^◌, ◌<◌};
ghost use Rattle.moves.specs.Growing.{Five, Grown, WordLeads};
ghost use Rattle.moves.specs.Tables.{NextWords};

use answers::buffers::cell_or;
use answers::limits::{POINT_WORDS, POSITION_WORDS};
use points::{WORD_WIDTH, lowest, unite};

// The points that can come after the positions of one word, which are numbered from `base` on, are added.
fn lead_word(next: &mut [u64; POINT_WORDS], base: usize, word: u64, follow: &[u64])
    requires { (base < 2 ^ 32) × Five next.old }
    ensures { Grown next.old next.new (WordLeads base word follow.now) }
{
    let mut rest = word;
    while let Some(place) = lowest(rest) {
        unite(next, 0, POINT_WORDS, follow, (base + place) * POINT_WORDS);
        rest ^= 1u64 << place;
    }
}

// The points that come after set number `state` of a slice of sets.
pub fn after(
    next: &mut [u64; POINT_WORDS],
    sets: &[u64],
    state: u16,
    readers: &[u64],
    byte: u8,
    follow: &[u64],
)
    ensures { NextWords sets.now state readers.now byte
        follow.now next.new }
{
    *next = [0u64; POINT_WORDS];
    let from = usize::from(state) * POINT_WORDS;
    let row = usize::from(byte) * POSITION_WORDS;
    for i in 0..POSITION_WORDS {
        let word = cell_or(sets, from + i, 0) & cell_or(readers, row + i, 0);
        lead_word(next, i * WORD_WIDTH, word, follow);
    }
}
