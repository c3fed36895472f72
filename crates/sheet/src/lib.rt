// Grammar sheets: a book as text that can be typed, and back.
#![tactic(auto)]

mod booking;
mod form;
mod judging;
pub mod reading;
pub mod writing;
