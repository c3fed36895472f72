// The papers' tables of refusals, and the details of refusal 7.
ghost use Rattle.std.specs.Prelude.{◌≡◌, ℕ};
ghost use Rattle.answers.specs.Refusals.{number_of, detail_of};

// The number of an answer that refuses nothing.
pub const DONE: u32 = 0;

// Why a call is refused, with the papers' numbers.
#[derive(Clone, Copy, PartialEq, Eq, Debug)]
pub enum Refusal {
    Short = 1,
    Mark = 2,
    Extra = 3,
    Limit = 4,
    Symbol = 5,
    Useless = 6,
    Room = 7,
    Conflict = 8,
    Table = 9,
    Token = 10,
    Syntax = 11,
    Production = 12,
    Form = 13,
    Pattern = 14,
    NoToken = 15,
    States = 16,
    Differs = 17,
    Profile = 21,
}

impl Refusal {
    // The papers' number.
    pub fn number(self) -> u32
        ensures { result ≡ number_of self }
    {
        self as u32
    }
}

// What tells the number of a refusal: its name, or the number itself.
pub trait Numbered {
    ghost numbered: { Self → ℕ };

    fn told_number(self) -> u32
        ensures { result ≡ numbered self };
}

impl Numbered for Refusal {
    ghost numbered = { number_of };

    fn told_number(self) -> u32 {
        self.number()
    }
}

impl Numbered for u32 {
    ghost numbered = { λ number. number };

    fn told_number(self) -> u32 {
        self
    }
}

// What is lent, of which refusal 7 finds one too short: the last two where a line is cut.
#[derive(Clone, Copy, PartialEq, Eq, Debug)]
pub enum Lent {
    Stack,
    List,
    Output,
    First,
    Follow,
    Table,
    Machine,
    Tokens,
}

impl Lent {
    // The papers' detail.
    pub fn detail(self) -> u64
        ensures { result ≡ detail_of self }
    {
        match self {
            Lent::Stack => 1,
            Lent::List => 2,
            Lent::Output => 3,
            Lent::First => 4,
            Lent::Follow => 5,
            Lent::Table => 6,
            Lent::Machine => 1,
            Lent::Tokens => 2,
        }
    }
}

// What tells a detail of refusal 7: what is lent, or the detail itself.
pub trait Detailed {
    ghost detailed: { Self → ℕ };

    fn told_detail(self) -> u64
        ensures { result ≡ detailed self };
}

impl Detailed for Lent {
    ghost detailed = { detail_of };

    fn told_detail(self) -> u64 {
        self.detail()
    }
}

impl Detailed for u64 {
    ghost detailed = { λ detail. detail };

    fn told_detail(self) -> u64 {
        self
    }
}
