// The machines that run and expand, with the room that they are lent: definitions and theorems, no functions. What code
// and definitions both name is declared here.
#![tactic(auto)]

// Why a run stops: list or stack is too short, or syntax: it wants the end mark, that token, or a filled column of that
// row.
#[derive(Clone, Copy)]
pub enum Reason {
    FullList,
    FullStack,
    WantsEnd,
    WantsToken(u8),
    WantsRow(u8),
}

// Why an expansion stops: the list does not fit, or stack or output is too short.
#[derive(Clone, Copy)]
pub enum Obstacle {
    Unfit,
    FullStack,
    FullOutput,
}
