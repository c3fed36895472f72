// Words, numbers, sets, answers and cells as lines of text in a lent buffer, and input cut into its pieces: what the
// listing and the test programs share. A place goes in and the next one comes back; what finds no room is not written.
#![tactic(auto)]

pub mod lines;
pub mod pieces;
mod spelling;
pub mod streams;
pub mod words;
