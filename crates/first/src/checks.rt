// The check of a symbol string: that it is short enough, and has symbols of the grammar only.
ghost use Rattle.first.specs.Checks.{Stranger, Spelled};

use answers::limits::MOST_SYMBOLS;
use answers::refusals::Refusal;
use answers::{Answer, refusal};
use reader::fields::is_symbol;

// The first byte that is no symbol of the grammar.
fn stranger(symbols: &[u8], t: u8, n: u8) -> Option<usize>
    ensures { Stranger t n symbols.now result }
{
    for (i, byte) in symbols.iter().enumerate() {
        if !is_symbol(*byte, t, n) {
            return Some(i);
        }
    }
    None
}

// A symbol string is short enough, and each byte is a symbol of the grammar.
pub(crate) fn spelled(symbols: &[u8], t: u8, n: u8) -> Result<(), Answer>
    ensures { Spelled t n symbols.now result }
{
    if (MOST_SYMBOLS as usize) < symbols.len() {
        return Err(refusal(Refusal::Limit, MOST_SYMBOLS as u64, 0));
    }
    match stranger(symbols, t, n) {
        Some(i) => Err(refusal(Refusal::Symbol, i as u64, 0)),
        None => Ok(()),
    }
}
