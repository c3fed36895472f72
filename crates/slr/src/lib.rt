// Bottom-up tables: items, states, actions and the machine that they drive. Definitions and theorems, no functions.
#![tactic(auto)]

// In a cell of a table of actions and moves: 512 + p reduces by production p, 1,023 accepts, 65,535 is empty.
pub const REDUCE: u16 = 512;

pub const ACCEPT: u16 = 1023;

pub const EMPTY: u16 = 65535;

// The most states that a table may have.
pub const MOST_STATES: usize = 256;
