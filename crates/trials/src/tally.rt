// Counts of what answers come to, and how they are printed. `met` counts the best values that a point tried is worth.
use crate::count::{one_more, print_count};
use crate::outcome::Outcome;
use crate::print::print;
use knapsack::Kind;

#[derive(Clone, Copy)]
pub struct Tally {
    pub best: u64,
    pub met: u64,
    pub infeasible: u64,
    pub unbounded: u64,
    pub wrong: u64,
}

pub fn no_answers() -> Tally {
    Tally {
        best: 0,
        met: 0,
        infeasible: 0,
        unbounded: 0,
        wrong: 0,
    }
}

// One answer more.
pub fn tallied(t: Tally, k: Kind, o: Outcome) -> Tally {
    Tally {
        best: one_more(t.best, k == Kind::Optimal),
        met: one_more(t.met, o.met),
        infeasible: one_more(t.infeasible, k == Kind::Infeasible),
        unbounded: one_more(t.unbounded, k == Kind::Unbounded),
        wrong: one_more(t.wrong, !o.agrees),
    }
}

// What so many problems of n items each, drawn from a seed, came to.
pub fn print_tally(name: &[u8], seed: u64, problems: u64, n: usize, t: Tally) {
    print(name);
    print_count(b", seed ", seed);
    print_count(b", problems ", problems);
    print_count(b", items ", n as u64);
    print_count(b": best ", t.best);
    print_count(b" (met ", t.met);
    print_count(b"), infeasible ", t.infeasible);
    print_count(b", unbounded ", t.unbounded);
    print_count(b"; disagreements ", t.wrong);
    print(b"\n");
}
