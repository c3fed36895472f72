// The values of a sheet that has the form, judged from the front: 4 and 5, then 1 and 3.
ghost use Rattle.std.specs.Prelude.{◌≡◌, ◌+◌};
ghost use Rattle.answers.specs.Limits.{most_symbols};
ghost use Rattle.sheet.specs.Judging as judging;

use answers::limits::{MOST_NONTERMINALS, MOST_PRODUCTIONS, MOST_SYMBOLS, MOST_TOKENS};
use answers::refusals::Refusal;
use reader::Fault;
use reader::fields::byte_at;
use text::{Number, read_number};

// The four numbers of the first line.
#[derive(Clone, Copy)]
pub(crate) struct Head {
    pub tokens: Number,
    pub nonterminals: Number,
    pub start: Number,
    pub count: Number,
}

// The place behind a byte, at most the length.
pub(crate) fn past(sheet: &[u8], at: usize) -> usize
    ensures { result ≡ judging.past sheet.now at }
{
    if at < sheet.len() {
        at + 1
    } else {
        sheet.len()
    }
}

// The four numbers, each behind the one before it and one byte.
pub(crate) fn head_in(sheet: &[u8]) -> Head
    ensures { result ≡ judging.head_in sheet.now }
{
    let tokens = read_number(sheet, 0);
    let nonterminals = read_number(sheet, past(sheet, tokens.next));
    let start = read_number(sheet, past(sheet, nonterminals.next));
    let count = read_number(sheet, past(sheet, start.next));
    Head {
        tokens,
        nonterminals,
        start,
        count,
    }
}

// A number from `low` up to and without `high`, and the place behind it; else the refusal at its own place.
fn checked(number: Number, low: u64, high: u64, why: Refusal, place: usize) -> Result<usize, Fault>
    ensures { result ≡ judging.checked number low high why place }
{
    if low <= number.value && number.value < high {
        Ok(number.next)
    } else {
        Err(Fault { why, place })
    }
}

// T, N, a start below N, P.
fn judge_head(sheet: &[u8], head: Head) -> Result<usize, Fault>
    ensures { result ≡ judging.head_judged sheet.now head }
{
    let most_tokens = MOST_TOKENS as u64 + 1;
    checked(head.tokens, 1, most_tokens, Refusal::Limit, 0)?;
    let second = past(sheet, head.tokens.next);
    let most_nonterminals = MOST_NONTERMINALS as u64 + 1;
    checked(
        head.nonterminals,
        1,
        most_nonterminals,
        Refusal::Limit,
        second,
    )?;
    let third = past(sheet, head.nonterminals.next);
    checked(
        head.start,
        0,
        head.nonterminals.value,
        Refusal::Limit,
        third,
    )?;
    let fourth = past(sheet, head.start.next);
    let most_productions = MOST_PRODUCTIONS as u64 + 1;
    checked(head.count, 1, most_productions, Refusal::Limit, fourth)
}

// Whether a symbol stands here.
pub(crate) fn is_space(sheet: &[u8], at: usize) -> bool
    ensures { result ≡ judging.is_space sheet.now at }
{
    byte_at(sheet, at, 0) == b' '
}

// The number of the symbol at a place, behind its space and its letter.
pub(crate) fn symbol_number(sheet: &[u8], at: usize) -> Number
    ensures { result ≡ judging.symbol_number sheet.now at }
{
    read_number(sheet, past(sheet, past(sheet, at)))
}

// A token below `t` or a nonterminal below `n`.
fn judge_symbol(sheet: &[u8], at: usize, t: u64, n: u64) -> Result<usize, Fault>
    ensures { result ≡ judging.symbol_judged sheet.now t n at }
{
    let number = symbol_number(sheet, at);
    let place = past(sheet, past(sheet, at));
    let high = if byte_at(sheet, at, 1) == b't' { t } else { n };
    checked(number, 0, high, Refusal::Symbol, place)
}

// A symbol more where there is none: the place is that of its letter.
fn closed(sheet: &[u8], at: usize) -> Result<usize, Fault>
    ensures { result ≡ judging.closed sheet.now at }
{
    if is_space(sheet, at) {
        Err(Fault {
            why: Refusal::Limit,
            place: past(sheet, at),
        })
    } else {
        Ok(at)
    }
}

// The symbols from a place on, up to the line feed.
fn judge_symbols(sheet: &[u8], at: usize, t: u64, n: u64) -> Result<usize, Fault>
    ensures { result ≡ judging.symbols_judged sheet.now t n most_symbols at }
{
    let mut place = at;
    for _ in 0..MOST_SYMBOLS {
        if !is_space(sheet, place) {
            return Ok(place);
        }
        place = judge_symbol(sheet, place, t, n)?;
    }
    closed(sheet, place)
}

// The number of the left side of the line at a place.
pub(crate) fn left_number(sheet: &[u8], at: usize) -> Number
    ensures { result ≡ judging.left_number sheet.now at }
{
    read_number(sheet, past(sheet, at))
}

// Where the symbols of the line at a place start, behind ` :`.
pub(crate) fn right_place(sheet: &[u8], at: usize) -> usize
    ensures { result ≡ judging.right_place sheet.now at }
{
    past(sheet, past(sheet, left_number(sheet, at).next))
}

// The left side and the symbols of the line at a place, up to the line feed.
fn judge_line(sheet: &[u8], at: usize, t: u64, n: u64) -> Result<usize, Fault>
    ensures { result ≡ judging.line_judged sheet.now t n at }
{
    checked(
        left_number(sheet, at),
        0,
        n,
        Refusal::Symbol,
        past(sheet, at),
    )?;
    judge_symbols(sheet, right_place(sheet, at), t, n)
}

// The line at a place, where there is one.
fn judge_next(sheet: &[u8], at: usize, t: u64, n: u64) -> Result<usize, Fault>
    ensures { result ≡ judging.next_judged sheet.now t n at }
{
    if at < sheet.len() {
        judge_line(sheet, at, t, n)
    } else {
        Err(Fault {
            why: Refusal::Short,
            place: sheet.len(),
        })
    }
}

// So many lines from a place on.
fn judge_lines(sheet: &[u8], at: usize, t: u64, n: u64, count: u64) -> Result<usize, Fault>
    ensures { result ≡ judging.lines_judged sheet.now t n count at }
{
    let mut place = at;
    for _ in 0..count {
        place = past(sheet, judge_next(sheet, place, t, n)?);
    }
    Ok(place)
}

// Nothing behind them.
fn judge_end(sheet: &[u8], at: usize) -> Result<usize, Fault>
    ensures { result ≡ judging.ended_at sheet.now at }
{
    if at < sheet.len() {
        Err(Fault {
            why: Refusal::Extra,
            place: at,
        })
    } else {
        Ok(at)
    }
}

// The first line, as many lines as it says, the end.
pub(crate) fn judge(sheet: &[u8], head: Head) -> Result<usize, Fault>
    ensures { result ≡ judging.sheet_judged sheet.now head }
{
    judge_head(sheet, head)?;
    let from = past(sheet, head.count.next);
    let tokens = head.tokens.value;
    let nonterminals = head.nonterminals.value;
    let end = judge_lines(sheet, from, tokens, nonterminals, head.count.value)?;
    judge_end(sheet, end)
}
