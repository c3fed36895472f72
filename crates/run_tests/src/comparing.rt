// Whether a run on the judged book, and offers in turn, say what the run says: its words, its list and its stack.
use crate::chaining::offer_each;
use answers::Answer;
use answers::refusals::{DONE, Lent, Refusal};
use book::Index;
use machine::Reason;
use offer::{Halt, Progress};
use run::running::run_judged;
use sets::word;

// The words are this answer's.
fn tells(words: &[u64; 6], answer: Answer) -> bool {
    words[0] == answer.number as u64
        && words[1] == answer.place
        && words[2] == answer.detail
        && words[3] == answer.steps
        && words[4] == word(answer.expected)
        && words[5] == answer.depth
}

// The steps are the productions listed and the tokens matched.
fn adds_up(steps: u64, at: Progress) -> bool {
    let matched = at.matched as u64;
    matched <= steps && steps - matched == at.listed as u64
}

// The number and the detail are this stop's.
fn stops_for(number: u64, detail: u64, reason: Reason) -> bool {
    match reason {
        Reason::FullList => number == Refusal::Room.number() as u64
            && detail == Lent::List.detail(),
        Reason::FullStack => {
            number == Refusal::Room.number() as u64 && detail == Lent::Stack.detail()
        }
        Reason::WantsEnd | Reason::WantsToken(_) | Reason::WantsRow(_) => {
            number == Refusal::Syntax.number() as u64 && detail == 0
        }
    }
}

// The words are this reply's, as far as it has them.
fn replies(words: &[u64; 6], reply: Result<Progress, Halt>) -> bool {
    match reply {
        Ok(at) => words[0] == DONE as u64 && adds_up(words[3], at),
        Err(Halt::Stopped(reason, at)) => {
            stops_for(words[0], words[2], reason)
                && words[1] == at.matched as u64
                && adds_up(words[3], at)
        }
        Err(Halt::Refused(answer)) => tells(words, answer),
    }
}

// A run on the judged book has the same words, list and stack.
pub(crate) fn judged_alike(
    book: &[u8],
    index: Index,
    table: &[u8],
    tokens: &[u8],
    words: &[u64; 6],
    run_stack: &[u8],
    run_list: &[u8],
) -> bool {
    let mut stack = [99u8; 64];
    let mut list = [99u8; 64];
    let answer = run_judged(book, Ok(index), table, tokens, &mut stack, &mut list);
    tells(words, answer) && &stack[..] == run_stack && &list[..] == run_list
}

// Offers in turn have the same words and list, and the depth is the greatest that any of them tells.
pub(crate) fn offers_alike(
    book: &[u8],
    index: Index,
    table: &[u8],
    tokens: &[u8],
    words: &[u64; 6],
    run_list: &[u8],
) -> bool {
    let mut stack = [99u8; 64];
    let mut list = [99u8; 64];
    let chain = offer_each(book, index, table, tokens, &mut stack, &mut list);
    let reply = chain.reply;
    replies(words, reply) && words[5] == chain.deepest as u64 && &list[..] == run_list
}
