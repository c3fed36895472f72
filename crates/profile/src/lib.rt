// The plain profile: whether a book is plain, and a run that needs only such a book.
#![tactic(auto)]

mod breaks;
mod heads;
pub mod plain;
