// An answer's kind and value beside plain enumeration of the points of a record, which may have blank items and is not the one that was answered: its
// point is of another length. An absent bound is closed at ±reach for the enumeration. The two agree if the answer is
//   best         no point tried is worth more and, where every bound is present, one is worth as much
//   infeasible   no point tried is feasible
//   unbounded    some point tried is feasible, and a step farther out one is worth more
ghost use Rattle.std.specs.Prelude.{◌≤◌};

use knapsack::{Answer, Kind};
use model::Model;
use trials::enumerate::{best_value, is_above, is_reached};
use trials::exact::{Ratio, ratio_of};
use trials::outcome::{Outcome, shut_problem};

const REACH: i64 = 20;

// No weight is farther from zero than 4, so that unbounded steps need not be longer.
const FARTHER: i64 = 24;

fn best_within(m: Model, n: usize, reach: i64) -> Option<Ratio>
    requires { n ≤ 15 }
{
    best_value(shut_problem(m, n, reach), n)
}

fn best_outcome(a: Answer, b: Option<Ratio>, sure: bool) -> Outcome {
    let v = ratio_of(a.value);
    let met = is_reached(b, v);
    let reached = met || !sure;
    Outcome {
        agrees: reached && !is_above(b, v),
        met,
    }
}

// More is to be had farther out.
fn rises(m: Model, n: usize, b: Option<Ratio>) -> bool
    requires { n ≤ 15 }
{
    b.is_some_and(|v| is_above(best_within(m, n, FARTHER), v))
}

fn unmet(agrees: bool) -> Outcome {
    Outcome {
        agrees: agrees,
        met: false,
    }
}

// An answer beside the first n items of a record, whose bounds are all present or not.
pub fn outcome_beside(m: Model, n: usize, a: Answer, sure: bool) -> Outcome
    requires { n ≤ 15 }
{
    let b = best_within(m, n, REACH);
    match a.kind {
        Kind::Optimal => best_outcome(a, b, sure),
        Kind::Infeasible => unmet(b.is_none()),
        Kind::Unbounded => unmet(rises(m, n, b)),
        Kind::Refused(_) => unmet(false),
    }
}
