// What a form can begin with: the join of its symbols' sets, and of a set behind them; and how many of its leading
// symbols can vanish.
ghost use Rattle.std.specs.Prelude.{◌≡◌};
ghost use Rattle.sets.specs.Calls.{number};
ghost use Rattle.reader.specs.Fields.{symbol_of_byte};
ghost use Rattle.first.specs.Trail.{symbol_set, Trailed, form_of};

use sets::{EMPTY_STRING, Set, has, join, load, single};

// A form's set with a set behind it, and how many symbols can vanish before the first that cannot.
#[derive(Clone, Copy)]
pub struct Trail {
    pub set: Set,
    pub vanishing: usize,
}

// FIRST of the symbol that a byte stands for.
pub fn symbol_set(byte: u8, first: &[u64]) -> Set
    ensures { number result ≡ symbol_set first.now (symbol_of_byte byte) }
{
    if byte < 128 {
        single(byte)
    } else {
        load(first, (byte - 128) as usize)
    }
}

// What a form can begin with, and then the set behind it: from the left, as far as all vanishes.
pub fn trail_of(form: &[u8], first: &[u64], behind: Set) -> Trail
    ensures { Trailed first.now (number behind) (form_of form.now) result }
{
    let mut begun = single(EMPTY_STRING);
    for (j, byte) in form.iter().enumerate() {
        begun = join(begun, symbol_set(*byte, first));
        if !has(begun, EMPTY_STRING) {
            return Trail {
                set: begun,
                vanishing: j,
            };
        }
    }
    Trail {
        set: join(begun, behind),
        vanishing: form.len(),
    }
}
