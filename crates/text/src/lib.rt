// Texts and numbers written into a lent buffer, and numbers read from a text.
// A place goes in and the next one comes back; what finds no room is not written.
#![tactic(auto)]

ghost use Rattle.std.specs.Prelude.{◌≡◌, [], ◌∷◌, ◌+◌, ◌-◌, ◌*◌, ◌≤◌, ◌<◌, min, get_or};
ghost use Rattle.text.specs.Text.{digit, decimal, hexadecimal, Put};
ghost use Rattle.text.specs.Reading.{is_digit, most_read, number_at};

// A number that was read, and the place behind it.
#[derive(Clone, Copy)]
pub struct Number {
    pub value: u64,
    pub next: usize,
}

// Larger numbers are read as this one.
pub const MOST_READ: u64 = 1000;

// One byte, where there is room.
pub fn put(out: &mut [u8], at: usize, byte: u8) -> usize
    ensures { Put out.old at (byte ∷ []) out.new result }
{
    if at < out.len() {
        out[at] = byte;
        at + 1
    } else {
        at
    }
}

// Each byte of the text in turn.
pub fn put_all(out: &mut [u8], at: usize, text: &[u8]) -> usize
    ensures { Put out.old at text.now out.new result }
{
    let mut place = at;
    for byte in text {
        place = put(out, place, *byte);
    }
    place
}

// The character of a number below sixteen.
fn digit(d: u64) -> u8
    requires { d < 16 }
    ensures { result ≡ digit d }
{
    if d < 10 {
        b'0' + d as u8
    } else {
        b'a' - 10 + d as u8
    }
}

// The number in decimal, highest digit first, without leading zeros.
pub fn decimal(out: &mut [u8], at: usize, n: u64) -> usize
    ensures { Put out.old at (decimal n) out.new result }
{
    let mut last = at;
    if 10 <= n {
        last = decimal(out, at, n / 10);
    }
    put(out, last, digit(n % 10))
}

// The number in 16 hexadecimal digits, highest first.
pub fn hexadecimal(out: &mut [u8], at: usize, n: u64) -> usize
    ensures { Put out.old at (hexadecimal n) out.new result }
{
    let mut place = at;
    for left in (0..16u64).rev() {
        place = put(out, place, digit((n >> (4 * left)) % 16));
    }
    place
}

// '0' to '9'.
pub fn is_digit(byte: u8) -> bool
    ensures { result ≡ is_digit byte }
{
    byte.is_ascii_digit()
}

// Whether a digit stands at the place; past the end stands 0, which is none.
fn digit_at(text: &[u8], at: usize) -> bool
    ensures { result ≡ is_digit (get_or text.now at 0) }
{
    is_digit(text.get(at).copied().unwrap_or(0))
}

// The number with one digit more.
fn with_digit(value: u64, byte: u8) -> u64
    requires { (value ≤ most_read) × (48 ≤ byte) }
    ensures { result ≡ min (10 * value + (byte - 48)) most_read }
{
    (10 * value + u64::from(byte - b'0')).min(MOST_READ)
}

// The number that the digits from `at` on spell, all that stand there; none spell 0.
pub fn read_number(text: &[u8], at: usize) -> Number
    ensures { result ≡ number_at text.now at }
{
    let mut value: u64 = 0;
    let mut next = at;
    while digit_at(text, next) {
        value = with_digit(value, text[next]);
        next += 1;
    }
    Number { value, next }
}
