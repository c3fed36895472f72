// Parts of a pattern: what one byte or class comes to, and what a sign, two in turn and either of two make of it.
#![tactic(auto)]

use answers::limits::POSITION_WORDS;

pub mod classes;
pub mod items;
pub mod joins;
pub mod leading;
pub mod letters;

// A part of a pattern that was read: the place behind it, how many positions there are up to its end, whether it can be
// empty, and which of them can come first and last. What is no part is refused with its place.
#[derive(Clone, Copy)]
pub struct Part {
    pub at: usize,
    pub count: usize,
    pub empty: bool,
    pub first: [u64; POSITION_WORDS],
    pub last: [u64; POSITION_WORDS],
}
