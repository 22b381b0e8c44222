// An answer beside plain enumeration. An absent bound is closed at ±reach for the enumeration. The two agree if the answer is
//   best         the point check allows the point at the value told, no point tried is worth more, and, where some best point is
//                sure to be within reach, one is worth as much
//   infeasible   no point tried is feasible
//   unbounded    the point check allows the start, and the steps are a ray
ghost use Rattle.std.specs.Prelude.{◌≤◌};

use crate::enumerate::{best_value, is_above, is_reached};
use crate::exact::{Ratio, ratio_of, times};
use crate::holds::{point_holds, ray_holds};
use knapsack::{Answer, Kind};
use model::{Model, ModelItem};

// ---- the problem with its absent bounds closed

fn shut_item(x: ModelItem, reach: i64) -> ModelItem {
    ModelItem {
        lower: x.lower.or(Some(times(reach, -1))),
        upper: x.upper.or(Some(reach)),
        ..x
    }
}

pub fn shut_problem(p: Model, n: usize, reach: i64) -> Model
    requires { n ≤ 15 }
{
    let mut q = p;
    for x in &mut q.items[..n] {
        *x = shut_item(*x, reach);
    }
    q
}

// ---- the answer against the best value that was found

// Whether the two agree, and whether a point tried is worth the best value told.
#[derive(Clone, Copy)]
pub struct Outcome {
    pub agrees: bool,
    pub met: bool,
}

// Without enumeration: what is shown is allowed by the point check at the value told, and the steps of an unbounded answer are a ray.
pub fn is_allowed(p: Model, a: Answer) -> bool {
    match a.kind {
        Kind::Optimal => point_holds(p, a),
        Kind::Infeasible => true,
        Kind::Unbounded => ray_holds(p, a),
        Kind::Refused(_) => false,
    }
}

// The value told is at least the best one found, and as much where that has to be.
fn best_outcome(p: Model, a: Answer, b: Option<Ratio>, sure: bool) -> Outcome {
    let v = ratio_of(a.value);
    let met = is_reached(b, v);
    let reached = met || !sure;
    Outcome {
        agrees: reached && !is_above(b, v) && point_holds(p, a),
        met,
    }
}

// The answer to a problem of n items, of which some best point, if there is any, is sure to be within reach or not.
pub fn outcome_of(p: Model, a: Answer, n: usize, reach: i64, sure: bool) -> Outcome
    requires { n ≤ 15 }
{
    let b = best_value(shut_problem(p, n, reach), n);
    match a.kind {
        Kind::Optimal => best_outcome(p, a, b, sure),
        Kind::Infeasible => Outcome {
            agrees: b.is_none(),
            met: false,
        },
        Kind::Unbounded => Outcome {
            agrees: ray_holds(p, a),
            met: false,
        },
        Kind::Refused(_) => Outcome {
            agrees: false,
            met: false,
        },
    }
}
