// A token string offered column by column to a run in progress.
use book::Index;
use offer::offering::offer;
use offer::{Halt, Progress};
use stack::put_start;

// The last reply, and the most stack cells that any of the offers told of.
#[derive(Clone, Copy)]
pub(crate) struct Chain {
    pub reply: Result<Progress, Halt>,
    pub deepest: usize,
}

// The most stack cells held in one offer.
fn deepest_in(reply: Result<Progress, Halt>) -> usize {
    match reply {
        Ok(at) => at.deepest,
        Err(Halt::Stopped(_, at)) => at.deepest,
        Err(Halt::Refused(_)) => 0,
    }
}

// One column more, where what was offered before it is taken, and the larger of the two depths.
fn chain_next(
    book: &[u8],
    index: Index,
    table: &[u8],
    column: u8,
    stack: &mut [u8],
    list: &mut [u8],
    before: Chain,
) -> Chain {
    let last = before.reply;
    let Ok(at) = last else {
        return before;
    };
    let reply = offer(book, Ok(index), table, column, stack, list, at);
    Chain {
        reply,
        deepest: before.deepest.max(deepest_in(reply)),
    }
}

// Each token from the start symbol on, then the end mark.
pub(crate) fn offer_each(
    book: &[u8],
    index: Index,
    table: &[u8],
    tokens: &[u8],
    stack: &mut [u8],
    list: &mut [u8],
) -> Chain {
    put_start(stack, index.outline.start);
    let mut chain = Chain {
        reply: Ok(Progress {
            height: 1,
            listed: 0,
            matched: 0,
            deepest: 0,
        }),
        deepest: 0,
    };
    for token in tokens {
        chain = chain_next(book, index, table, *token, stack, list, chain);
    }
    chain_next(book, index, table, index.outline.tokens, stack, list, chain)
}
