// Token strings run bottom-up on a book and a table of actions and moves: judged, checked, run, and answered.
#![tactic(auto)]

mod answering;
mod checking;
mod deciding;
mod reading;
mod reducing;
pub mod running;

// The state on top, how many states are held and productions listed, how many tokens are matched, and the most states
// held at any moment so far.
#[derive(Clone, Copy)]
pub(crate) struct Stage {
    pub top: u8,
    pub height: usize,
    pub listed: usize,
    pub matched: usize,
    pub deepest: usize,
}

// Why a run stops: list or stack is full, or syntax: it wants a filled column of the state on top.
#[derive(Clone, Copy)]
pub(crate) enum Cause {
    FullList,
    FullStack,
    Wants,
}

// How the reductions of a column end: its token is shifted to a state, the end mark is accepted, or the run stops.
#[derive(Clone, Copy)]
pub(crate) enum Ending {
    Shift(u8),
    Accept,
    Stop(Cause),
}

// What is done next: a reduction by a production, which pushes a state above the one in that cell of the stack; or the
// reductions end.
#[derive(Clone, Copy)]
pub(crate) enum Turn {
    Reduce(u8, u8, usize),
    Finish(Ending),
}

// Why a run stops, and where it stands then.
#[derive(Clone, Copy)]
pub(crate) struct Halt {
    pub cause: Cause,
    pub at: Stage,
}
