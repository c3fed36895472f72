// Classes: which bytes a position reads.
ghost use Rattle.parts.specs.Classes.{SpanRead, Spread, ElementRead, ClassRead};

use crate::letters::{CLOSE_CLASS, DASH, byte_at, class_letter_at};
use answers::limits::POSITION_WORDS;
use points::put;

// Bytes from low to high that stand in a class, and the place behind them.
#[derive(Clone, Copy)]
pub struct Span {
    pub at: usize,
    pub low: u8,
    pub high: u8,
}

// A byte or a range, or the place refused; a range that falls is refused at its upper end's own byte.
fn span_at(pattern: &[u8], at: usize) -> Result<Span, usize>
    ensures { SpanRead pattern.now at result }
{
    let low = class_letter_at(pattern, at)?;
    if byte_at(pattern, low.at) != DASH {
        return Ok(Span {
            at: low.at,
            low: low.byte,
            high: low.byte,
        });
    }
    let high = class_letter_at(pattern, low.at + 1)?;
    if high.byte < low.byte {
        return Err(high.at - 1);
    }
    Ok(Span {
        at: high.at,
        low: low.byte,
        high: high.byte,
    })
}

// The position reads each byte from low to high.
pub(crate) fn spread(readers: &mut [u64], low: u8, high: u8, position: usize)
    ensures { Spread low high position readers.old readers.new }
{
    for byte in low as usize..high as usize + 1 {
        put(readers, byte * POSITION_WORDS, POSITION_WORDS, position);
    }
}

// One element, whose bytes the position reads: the place behind it, or the place refused.
fn element(pattern: &[u8], at: usize, position: usize, readers: &mut [u64]) -> Result<usize, usize>
    ensures { ElementRead pattern.now at position readers.old result readers.new }
{
    let span = span_at(pattern, at)?;
    spread(readers, span.low, span.high, position);
    Ok(span.at)
}

// A class from behind its opening on: the place behind its end, or the place refused.
pub(crate) fn class(
    pattern: &[u8],
    at: usize,
    position: usize,
    readers: &mut [u64],
) -> Result<usize, usize>
    ensures { ClassRead pattern.now at position readers.old result readers.new }
{
    let mut next = element(pattern, at, position, readers)?;
    while byte_at(pattern, next) != CLOSE_CLASS {
        next = element(pattern, next, position, readers)?;
    }
    Ok(next + 1)
}
