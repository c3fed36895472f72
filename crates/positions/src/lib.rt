// One pattern read into the tables of its positions, or refused at the byte where the text stops being a pattern.
#![tactic(auto)]

mod reading;
pub mod whole;
