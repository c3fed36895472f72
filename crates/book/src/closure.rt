// What rules reach from a seed: a set that grows until no rule adds to it.
ghost use Rattle.std.specs.Prelude.{◌<◌};
ghost use Rattle.sets.specs.Sets.{width, Exactly};
ghost use Rattle.sets.specs.Calls.{number};
ghost use Rattle.book.specs.Closure.{Applied, InClosure, Passed};

use sets::{Set, load, same, union, within};

// The set with `outs` number p added, where `ins` number p lies within it.
fn applied(ins: &[u64], outs: &[u64], p: usize, reached: Set) -> Set
    ensures { Applied ins.now outs.now p (number reached) (number result) }
{
    if within(load(ins, p), reached) {
        union(reached, load(outs, p))
    } else {
        reached
    }
}

// Each rule once, in order.
fn pass(ins: &[u64], outs: &[u64], count: usize, reached: Set) -> Set
    ensures { Passed ins.now outs.now count count (number reached) (number result) }
{
    let mut after = reached;
    for p in 0..count {
        after = applied(ins, outs, p, after);
    }
    after
}

// What is reached from the seed: passes until one changes nothing.
pub(crate) fn closure(ins: &[u64], outs: &[u64], count: usize, seed: Set) -> Set
    ensures { Exactly width (number result) (InClosure ins.now outs.now count (number seed)) }
{
    let mut reached = seed;
    let mut after = pass(ins, outs, count, reached);
    while !same(after, reached) {
        reached = after;
        after = pass(ins, outs, count, reached);
    }
    reached
}
