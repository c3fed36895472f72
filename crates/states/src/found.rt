// The states found so far, each by its set of points, one behind the other: one is sought, and one is kept.
ghost use Rattle.std.specs.Prelude.{◌+◌, ◌*◌, ◌≤◌, ◌<◌, ◌≡◌};
ghost use Rattle.sets.specs.Calls.{Decides};
ghost use Rattle.sets.specs.Words.{AreWords};
ghost use Rattle.answers.specs.Answers.{refusal};
ghost use Rattle.answers.specs.Limits.{point_words, most_states};
ghost use Rattle.answers.specs.Refusals.{states};
ghost use Rattle.moves.specs.Tables.{set_of};
ghost use Rattle.states.specs.Sets.{Begun, Kept, Sought};

use answers::limits::{MOST_POSITIONS, MOST_STATES, POINT_WORDS};
use answers::refusals::Refusal;
use answers::{Answer, refusal};
use points::{none, unite};

// The words of the sets of the most states.
const SETS: usize = MOST_STATES * POINT_WORDS;

// The sets of the states, of which the first `count` were found.
#[derive(Drop)]
pub(crate) struct States {
    pub(crate) sets: [u64; SETS],
    pub(crate) count: usize,
    ghost few: { count ≤ most_states },
}

// Another state was found where the most were kept.
#[derive(Drop)]
pub(crate) struct TooManyStates;

impl From<TooManyStates> for Answer {
    ghost from_gives = { λ _ answer. answer ≡ refusal states most_states 0 };

    fn from(_: TooManyStates) -> Answer {
        refusal(Refusal::States, MOST_STATES as u64, 0)
    }
}

impl States {
    // No state.
    pub(crate) fn new() -> States
        ensures { result.count ≡ 0 }
    {
        States {
            sets: [0; SETS],
            count: 0,
        }
    }

    // Whether a state has this set.
    fn is_state(&self, state: usize, next: &[u64; POINT_WORDS]) -> bool
        requires known { state < self.now.count }
        requires words { AreWords next.now }
        ensures { Decides result (set_of self.now.sets state ≡ set_of next.now 0) }
    {
        let at = state * POINT_WORDS;
        self.sets[at..at + POINT_WORDS] == next[..]
    }

    // The first state that has this set.
    pub(crate) fn seek(&self, next: &[u64; POINT_WORDS]) -> Option<usize>
        requires { AreWords next.now }
        ensures { Sought self.now.sets self.now.count (set_of next.now 0) result }
    {
        for state in 0..self.count {
            if self.is_state(state, next) {
                return Some(state);
            }
        }
        None
    }

    // A set is kept as that of the next state.
    pub(crate) fn keep(&mut self, next: &[u64; POINT_WORDS])
        requires { self.old.count < most_states }
        ensures kept { Kept self.old.sets self.old.count next.now self.new.sets }
        ensures one { self.new.count ≡ self.old.count + 1 }
    {
        let at = self.count * POINT_WORDS;
        self.sets[at..at + POINT_WORDS].copy_from_slice(next);
        self.count += 1;
    }

    // What can come first is state 0, if there is anything.
    pub(crate) fn begin(&mut self, follow: &[u64])
        requires { self.old.count ≡ 0 }
        ensures { Begun follow.now self.new.sets self.new.count }
    {
        let mut first = [0u64; POINT_WORDS];
        unite(
            &mut first,
            0,
            POINT_WORDS,
            follow,
            MOST_POSITIONS * POINT_WORDS,
        );
        if !none(&first, 0, POINT_WORDS) {
            self.keep(&first);
        }
    }
}
