// A place against plain enumeration, which has nothing of the planner: the problem with its whole amounts fixed there is worth as much as the
// problem.
ghost use Rattle.std.specs.Prelude.{◌≤◌};

use model::{Model, ModelItem};
use trials::enumerate::best_value;
use trials::exact::{Ratio, is_less};

fn keeps(x: ModelItem, v: i64) -> bool {
    x.lower.is_none_or(|l| l <= v) && x.upper.is_none_or(|u| v <= u)
}

fn fixed_item(x: ModelItem, v: i64) -> ModelItem {
    ModelItem {
        lower: Some(v),
        upper: Some(v),
        ..x
    }
}

// With item k fixed at v, if that is within its bounds.
fn with_fixed(m: Model, k: usize, v: i64) -> Option<Model> {
    let mut q = m;
    let x = q.items.get_mut(k)?;
    if !keeps(*x, v) {
        return None;
    }
    *x = fixed_item(*x, v);
    Some(q)
}

// With the items of the first n levels fixed at a place, if that is within their bounds.
fn fixed_at(m: Model, level: [usize; 16], n: usize, place: [i64; 16]) -> Option<Model>
    requires { n ≤ 16 }
{
    let mut q = m;
    for d in 0..n {
        q = with_fixed(q, level[d], place[d])?;
    }
    Some(q)
}

fn are_equal(a: Option<Ratio>, b: Option<Ratio>) -> bool {
    matches!((a, b), (Some(v), Some(w)) if !is_less(v, w) && !is_less(w, v))
}

// Whether the place found is a best one of a problem of n items, or rightly none.
pub fn agrees(
    m: Model,
    n: usize,
    level: [usize; 16],
    levels: usize,
    place: Option<[i64; 16]>,
) -> bool
    requires { (n ≤ 15) × (levels ≤ 16) }
{
    let best = best_value(m, n);
    match place {
        Some(x) => {
            fixed_at(m, level, levels, x).is_some_and(|there| are_equal(best, best_value(there, n)))
        }
        None => best.is_none(),
    }
}
