// Sets as numbers: bit k of a set's word says whether k is a member. A set goes by value, a family of sets is kept
// flat.
#![tactic(auto)]

ghost use Rattle.std.specs.Prelude.{◌≡◌};
ghost use Rattle.sets.specs.Sets.{member, column_place};
ghost use Rattle.sets.specs.Calls.{number, None, Single, With, Without, Union, Join, Within, Apart, Same, Load};
ghost use Rattle.sets.specs.Calls.{stored};

#[derive(Clone, Copy)]
pub struct Set {
    pub word: u64,
}

// How many bits a set has; those below the end mark's are the tokens.
pub const WIDTH: u8 = 64;

pub const END_MARK: u8 = 62;

pub const EMPTY_STRING: u8 = 63;

// The set with no member.
pub fn none() -> Set
    ensures { None result }
{
    Set { word: 0 }
}

// The set with one member; none where that is not below the width.
pub fn single(bit: u8) -> Set
    ensures { Single bit result }
{
    with(none(), bit)
}

// The word of a set, as a buffer has it.
pub fn word(s: Set) -> u64
    ensures { result ≡ number s }
{
    s.word
}

pub fn has(s: Set, bit: u8) -> bool
    ensures { result ≡ member bit (number s) }
{
    if bit < WIDTH {
        (s.word >> bit) % 2 == 1
    } else {
        false
    }
}

// A bit that is not below the width adds nothing.
pub fn with(s: Set, bit: u8) -> Set
    ensures { With s bit result }
{
    if bit < WIDTH {
        Set {
            word: s.word | (1u64 << bit),
        }
    } else {
        s
    }
}

pub fn without(s: Set, bit: u8) -> Set
    ensures { Without s bit result }
{
    if bit < WIDTH {
        Set {
            word: s.word & !(1u64 << bit),
        }
    } else {
        s
    }
}

pub fn union(x: Set, y: Set) -> Set
    ensures { Union x y result }
{
    Set {
        word: x.word | y.word,
    }
}

// x if it lacks the empty string; otherwise x without it, united with y.
pub fn join(x: Set, y: Set) -> Set
    ensures { Join x y result }
{
    if has(x, EMPTY_STRING) {
        union(without(x, EMPTY_STRING), y)
    } else {
        x
    }
}

// Whether every member of x is one of y.
pub fn within(x: Set, y: Set) -> bool
    ensures { Within x y result }
{
    (x.word | y.word) == y.word
}

// Whether no member of x is one of y.
pub fn apart(x: Set, y: Set) -> bool
    ensures { Apart x y result }
{
    (x.word & y.word) == 0
}

pub fn same(x: Set, y: Set) -> bool
    ensures { Same x y result }
{
    x.word == y.word
}

// The bit of a column of a table: after the tokens comes the end mark's column, and its bit is the same for every
// number of tokens.
pub fn column_bit(column: u8, tokens: u8) -> u8
    ensures { result ≡ column_place column tokens }
{
    if column < tokens { column } else { END_MARK }
}

// Set number n of a family; past its end there is no member.
pub fn load(sets: &[u64], n: usize) -> Set
    ensures { Load sets.now n result }
{
    if sets.len() <= n {
        return none();
    }
    Set { word: sets[n] }
}

// Set number n of a family is replaced; past its end nothing changes.
pub fn store(sets: &mut [u64], n: usize, s: Set)
    ensures { sets.new ≡ stored sets.old n (number s) }
{
    if n < sets.len() {
        sets[n] = s.word;
    }
}
