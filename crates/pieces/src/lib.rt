// A line cut into tokens with given machine cells.
#![tactic(auto)]

pub mod cutting;
mod longest;

// Why a cut ends before the end of the line: at the place where a token would start.
#[derive(Clone, Copy)]
pub enum Stuck {
    NoToken(u64),
    NoRoom(u64),
}

// What is done at a place of the line: a space is dropped, or a token is taken up to the place behind it.
#[derive(Clone, Copy)]
enum Move {
    Skip,
    Take(u8, usize),
}
