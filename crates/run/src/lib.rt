// Token strings run on a book and a table: judged, checked, run, and answered.
#![tactic(auto)]

use answers::Answer;

mod answering;
pub mod beside;
pub mod checking;
pub mod running;

// The answer of a run, and how many tokens it matched.
#[derive(Clone, Copy)]
pub(crate) struct Account {
    pub answer: Answer,
    pub matched: usize,
}
