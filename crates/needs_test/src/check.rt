// The point check, with needs, beside a plain one: the best point of the problem without its needs keeps all else, so the check has to name the item of
// the first line that the point breaks, or tell the value.
ghost use Rattle.std.specs.Prelude.{◌≤◌};

use arith::Fraction;
use feasibility::{Candidate, Finding, check_point};
use knapsack::{Answer, Kind, Refusal};
use model::{Model, Need, Sense, setters};
use planner::plan_within;

// The amount of an item, by its number from 1; 0 if there is none.
fn amount_of(point: [Fraction; 16], item: usize) -> Fraction {
    if 0 < item && item <= 16 {
        point[item - 1]
    } else {
        Fraction { p: 0, q: 1 }
    }
}

// Amounts of named items are whole.
fn is_broken(point: [Fraction; 16], need: Need) -> bool {
    let x = amount_of(point, need.item);
    let y = amount_of(point, need.cover);
    0 < x.p && y.p < 1
}

// The item of the first line that a point breaks; none if it keeps all of them.
fn broken(m: Model, point: [Fraction; 16]) -> Option<usize> {
    for need in m.needs.lines.iter().take(m.needs.count) {
        if is_broken(point, *need) {
            return Some(need.item);
        }
    }
    None
}

fn is_named(r: Result<Finding, Refusal>, broken: Option<usize>) -> bool {
    match (r, broken) {
        (Ok(Finding::Feasible(_)), None) => true,
        (Ok(Finding::Violates(k)), Some(item)) => k == item,
        _ => false,
    }
}

// Whether the check says of the plain best point what it has to.
pub fn check_holds(m: Model, most: u64) -> bool {
    let plain = setters::with_need_count(m, 0);
    let a = plan_within(plain, Sense::Sure, most);
    if !matches!(a.kind, Kind::Optimal) {
        return true;
    }
    let amounts = a.point;
    let count = m.count;
    let r = check_point(m, Sense::Sure, Candidate { amounts, count });
    is_named(r, broken(m, a.point))
}
