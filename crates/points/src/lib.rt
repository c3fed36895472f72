// Sets of many words, kept flat in a slice: a set starts at word `at` of the slice and has `words` words, lowest first.
// A word past the end of the slice counts as 0 and is not written.
#![tactic(auto)]

ghost use Rattle.std.specs.Prelude.{◌≡◌, ◌+◌, ◌-◌, ◌<◌, min, get_or, length};
ghost use Rattle.points.specs.Points.{Has, Put, Unite, Same, None, Lowest};

// How many places a word has.
pub const WORD_WIDTH: usize = 64;

// How many of the words from `at` on lie in a slice of this length.
fn held(length: usize, at: usize, words: usize) -> usize
    ensures { result ≡ min words (length - at) }
{
    words.min(length.saturating_sub(at))
}

// Word i from `at` on.
fn word(sets: &[u64], at: usize, i: usize) -> u64
    requires { at + i < length sets.now }
    ensures { result ≡ get_or sets.now (at + i) 0 }
{
    sets[at + i]
}

pub fn has(sets: &[u64], at: usize, words: usize, place: usize) -> bool
    ensures { Has sets.now at words place result }
{
    let i = place / WORD_WIDTH;
    i < held(sets.len(), at, words) && (word(sets, at, i) >> (place % WORD_WIDTH)) % 2 == 1
}

// A place that the set does not have, or whose word lies past the end, adds nothing.
pub fn put(sets: &mut [u64], at: usize, words: usize, place: usize)
    ensures { Put sets.old at words place sets.new }
{
    let i = place / WORD_WIDTH;
    if i < held(sets.len(), at, words) {
        sets[at + i] |= 1u64 << (place % WORD_WIDTH);
    }
}

// The set at `at` becomes its union with the set at `from` of another slice.
pub fn unite(sets: &mut [u64], at: usize, words: usize, other: &[u64], from: usize)
    ensures { Unite sets.old at words other.now from sets.new }
{
    let end = held(other.len(), from, held(sets.len(), at, words));
    for i in 0..end {
        sets[at + i] |= word(other, from, i);
    }
}

pub fn none(sets: &[u64], at: usize, words: usize) -> bool
    ensures { None sets.now at words result }
{
    let count = held(sets.len(), at, words);
    for i in 0..count {
        if word(sets, at, i) != 0 {
            return false;
        }
    }
    true
}

// Word by word as far as both slices reach; past that end the other set has to have no member.
pub fn same(sets: &[u64], at: usize, other: &[u64], from: usize, words: usize) -> bool
    ensures { Same sets.now at other.now from words result }
{
    let count = held(other.len(), from, held(sets.len(), at, words));
    for i in 0..count {
        if word(sets, at, i) != word(other, from, i) {
            return false;
        }
    }
    none(sets, at + count, words - count) && none(other, from + count, words - count)
}

// The lowest member of a word; 0 has none.
pub fn lowest(word: u64) -> Option<usize>
    ensures { Lowest word result }
{
    if word == 0 {
        None
    } else {
        Some(word.trailing_zeros() as usize)
    }
}
