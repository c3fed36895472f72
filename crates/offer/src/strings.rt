// A whole token string offered from the start symbol on.
ghost use Rattle.std.specs.Prelude.{◌≤◌, length};
ghost use Rattle.book.specs.Columns.{outlined};
ghost use Rattle.offer.specs.Strings.{Stepped, StringOutcome};

use crate::offering::offer_at;
use crate::{Halt, Progress};
use book::columns::Outline;
use machine::Reason;
use stack::rules::Rules;
use stack::{clear, put_start};

// From the start symbol on, the tokens are offered one by one, then the end mark.
fn offer_all(
    rules: &Rules,
    table: &[u8],
    tokens: &[u8],
    stack: &mut [u8],
    list: &mut [u8],
) -> Result<Progress, Halt>
    requires { 1 ≤ length stack.old }
    ensures { Stepped
        (outlined rules.now.book.now rules.now.places.now rules.now.outline)
        table.now
        tokens.now
        stack.old
        list.old
        result
        stack.new
        list.new }
{
    put_start(stack, rules.outline.start);
    let mut at = Progress {
        height: 1,
        listed: 0,
        matched: 0,
        deepest: 1,
    };
    for token in tokens {
        let ahead = Some(*token);
        at = offer_at(rules, table, ahead, stack, list, at)?;
    }
    offer_at(rules, table, None, stack, list, at)
}

// A whole token string offered, then the end mark, from the start symbol on; after that every stack cell is 0. Without
// a stack cell nothing is done.
pub fn offer_string(
    book: &[u8],
    places: &[u16],
    outline: Outline,
    table: &[u8],
    tokens: &[u8],
    stack: &mut [u8],
    list: &mut [u8],
) -> Result<Progress, Halt>
    ensures { StringOutcome
        (outlined book.now places.now outline)
        table.now
        tokens.now
        stack.old
        list.old
        result
        stack.new
        list.new }
{
    if stack.len() == 0 {
        let at = Progress {
            height: 0,
            listed: 0,
            matched: 0,
            deepest: 0,
        };
        return Err(Halt::Stopped(Reason::FullStack, at));
    }
    let rules = Rules::new(book, places, outline);
    let reply = offer_all(&rules, table, tokens, stack, list);
    clear(stack);
    reply
}
