// Families of sets: a set for each nonterminal, and how one of them grows.
ghost use Rattle.sets.specs.Calls.{number};
ghost use Rattle.first.specs.Steps.{Made, united_at};

use sets::{Set, load, same, store, union};

// Set number n united with x, and whether that changed nothing.
pub fn unite(sets: &mut [u64], n: usize, x: Set) -> bool
    ensures { Made (λ cells. united_at cells n (number x)) sets.old sets.new result }
{
    let before = load(sets, n);
    store(sets, n, union(before, x));
    same(load(sets, n), before)
}
