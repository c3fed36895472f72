// The two tables that are lent: how many words they have.
use answers::limits::{BYTE_VALUES, MOST_POSITIONS, POINT_WORDS, POSITION_WORDS};

// For each byte the positions that read it.
pub const READERS_LENGTH: usize = BYTE_VALUES * POSITION_WORDS;

// For each position the points that can come after it, and behind them those that can come first.
pub const FOLLOW_LENGTH: usize = (MOST_POSITIONS + 1) * POINT_WORDS;
