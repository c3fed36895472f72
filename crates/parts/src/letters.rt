// One byte of a pattern, plain or behind a backslash.
ghost use Rattle.std.specs.Prelude.{◌≡◌, ◌≤◌, ◌<◌, length, get_or, MatchResult};
ghost use Rattle.pattern.specs.Marks.{special, special_in_class, among};
ghost use Rattle.parts.specs.Letters.{LetterRead};

use answers::buffers::cell_or;

pub const OPEN_GROUP: u8 = 40;

pub const CLOSE_GROUP: u8 = 41;

pub const OPEN_CLASS: u8 = 91;

pub const CLOSE_CLASS: u8 = 93;

pub const BAR: u8 = 124;

pub const STAR: u8 = 42;

pub const PLUS: u8 = 43;

pub const QUESTION: u8 = 63;

pub const BACKSLASH: u8 = 92;

pub const DASH: u8 = 45;

// A byte that was read and the place behind it.
#[derive(Clone, Copy)]
pub struct Letter {
    pub at: usize,
    pub byte: u8,
}

// The byte at a place; past the end 0, which is no mark.
pub fn byte_at(pattern: &[u8], at: usize) -> u8
    ensures { result ≡ get_or pattern.now at 0 }
{
    cell_or(pattern, at, 0)
}

// Whether a byte is plain only behind a backslash.
fn special(byte: u8) -> bool
    ensures { result ≡ among byte special }
{
    matches!(
        byte,
        OPEN_GROUP
            | CLOSE_GROUP
            | OPEN_CLASS
            | CLOSE_CLASS
            | BAR
            | STAR
            | PLUS
            | QUESTION
            | BACKSLASH
    )
}

// The byte at a place, or the place itself where the text has ended.
fn next_byte(pattern: &[u8], at: usize) -> Result<u8, usize>
    ensures { MatchResult
        result
        (λ b. (at < length pattern.now) × (b ≡ get_or pattern.now at 0))
        (λ place. (length pattern.now ≤ at) × (place ≡ at)) }
{
    pattern.get(at).copied().ok_or(at)
}

// Outside a class: a byte that may stand there as it is, or any behind a backslash; or the place refused.
pub(crate) fn letter_at(pattern: &[u8], at: usize) -> Result<Letter, usize>
    ensures { LetterRead pattern.now at special result }
{
    let byte = next_byte(pattern, at)?;
    let next = at + 1;
    if byte == BACKSLASH {
        let byte = next_byte(pattern, next)?;
        return Ok(Letter { at: next + 1, byte });
    }
    if special(byte) {
        return Err(at);
    }
    Ok(Letter { at: next, byte })
}

// In a class, where the dash is no plain byte either.
pub(crate) fn class_letter_at(pattern: &[u8], at: usize) -> Result<Letter, usize>
    ensures { LetterRead pattern.now at special_in_class result }
{
    if byte_at(pattern, at) == DASH {
        return Err(at);
    }
    letter_at(pattern, at)
}
