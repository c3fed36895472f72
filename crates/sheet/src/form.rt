// The form of a sheet, byte by byte: what may come next, and the first byte that breaks it.
ghost use Rattle.std.specs.Prelude.{◌≡◌, MatchResult};
ghost use Rattle.sheet.specs.Sheet.{HasForm, BreaksAt};
ghost use Rattle.sheet.specs.Form as form;

use text::is_digit;

// Where a number stands: one of the first line's four, a left side, or a symbol of a right side.
#[derive(Clone, Copy)]
pub(crate) enum Slot {
    Tokens,
    Nonterminals,
    Start,
    Count,
    Left,
    Right,
}

// What may come next: a number's first digit, more digits, what follows a number, a further line, the colon, a
// letter.
#[derive(Clone, Copy)]
pub(crate) enum Phase {
    First(Slot),
    More(Slot),
    Behind(Slot),
    Line,
    Colon,
    Letter,
}

// Only the wanted byte leads on.
fn wants(byte: u8, wanted: u8, next: Phase) -> Option<Phase>
    ensures { result ≡ form.wants byte wanted next }
{
    (byte == wanted).then_some(next)
}

// Behind a number.
fn behind(slot: Slot, byte: u8) -> Option<Phase>
    ensures { result ≡ form.behind slot byte }
{
    match slot {
        Slot::Tokens => wants(byte, b' ', Phase::First(Slot::Nonterminals)),
        Slot::Nonterminals => wants(byte, b' ', Phase::First(Slot::Start)),
        Slot::Start => wants(byte, b' ', Phase::First(Slot::Count)),
        Slot::Count => wants(byte, b'\n', Phase::Line),
        Slot::Left => wants(byte, b' ', Phase::Colon),
        Slot::Right => {
            if byte == b' ' {
                Some(Phase::Letter)
            } else {
                wants(byte, b'\n', Phase::Line)
            }
        }
    }
}

// At the first digit of a number: behind a 0 no digit can stand.
fn begin(slot: Slot, byte: u8) -> Option<Phase>
    ensures { result ≡ form.begin slot byte }
{
    if byte == b'0' {
        Some(Phase::Behind(slot))
    } else if is_digit(byte) {
        Some(Phase::More(slot))
    } else {
        None
    }
}

// At a further digit of a number, or behind it.
fn go_on(slot: Slot, byte: u8) -> Option<Phase>
    ensures { result ≡ form.go_on slot byte }
{
    if is_digit(byte) {
        Some(Phase::More(slot))
    } else {
        behind(slot, byte)
    }
}

// At the letter of a symbol.
fn letter(byte: u8) -> Option<Phase>
    ensures { result ≡ form.letter byte }
{
    if byte == b't' {
        Some(Phase::First(Slot::Right))
    } else {
        wants(byte, b'n', Phase::First(Slot::Right))
    }
}

// Where a byte leads, if anywhere.
fn step(phase: Phase, byte: u8) -> Option<Phase>
    ensures { result ≡ form.step phase byte }
{
    match phase {
        Phase::First(slot) => begin(slot, byte),
        Phase::More(slot) => go_on(slot, byte),
        Phase::Behind(slot) => behind(slot, byte),
        Phase::Line => wants(byte, b'n', Phase::First(Slot::Left)),
        Phase::Colon => wants(byte, b':', Phase::Behind(Slot::Right)),
        Phase::Letter => letter(byte),
    }
}

// The sheet has the form, or the first byte that breaks it, or its length where it breaks off.
pub(crate) fn first_break(sheet: &[u8]) -> Result<(), usize>
    ensures { MatchResult result (λ _. HasForm sheet.now) (BreaksAt sheet.now) }
{
    let mut phase = Phase::First(Slot::Tokens);
    for (at, byte) in sheet.iter().enumerate() {
        phase = step(phase, *byte).ok_or(at)?;
    }
    match phase {
        Phase::Line => Ok(()),
        _ => Err(sheet.len()),
    }
}
