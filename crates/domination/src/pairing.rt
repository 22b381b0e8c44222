// The least pair of two items: the trade with its signs, if both items have room for it.
ghost use Rattle.std.specs.Prelude.{◌≡◌, ◌≤◌};
ghost use Rattle.knapsack.specs.Ranges.{BoundInRange};
ghost use Rattle.model.specs.Records.{ItemFigures};
ghost use Rattle.domination.specs.Pairs.{Fit, Traded, room_for, steps, one_way, swapped, pair_of, one_sign, eligible};

use super::trade::{is_less_efficient, trade_of};
use arith::with_sign;
use knapsack::{Item, Mark};

// Whether n steps fit between two bounds.
fn room_for(lower: Option<i64>, upper: Option<i64>, n: u64) -> bool
    requires { BoundInRange lower × (BoundInRange upper × (n ≤ 1000)) }
    ensures { result ≡ room_for lower upper n }
{
    match (lower, upper) {
        (Some(l), Some(u)) => n as i64 <= u - l,
        _ => true,
    }
}

fn has_room(x: Item, n: u64) -> bool
    requires { ItemFigures x × (n ≤ 1000) }
    ensures { result ≡ room_for x.lower x.upper n }
{
    room_for(x.lower, x.upper, n)
}

// Steps of these sizes: x's with the sign of its weight, y's with the opposite one.
fn steps_of(x: Item, y: Item, give: u64, take: u64) -> Option<(i64, i64)>
    requires { ItemFigures x × (ItemFigures y × ((give ≤ 1000) × (take ≤ 1000))) }
    ensures { result ≡ steps x y give take }
{
    Some((with_sign(x.weight, give), 0 - with_sign(y.weight, take)))
}

// The least pair of x, the less efficient, and y. The least steps of both are found without the bounds: where one of them has
// no room, no greater one has (see proofs/Minimal, bound).
#[tactic(auto, unfolding(crate::specs::Pairs::one_way), using(crate::proofs::Sizes::trade_small))]
fn one_way(x: Item, y: Item) -> Option<(i64, i64)>
    requires { Traded x y }
    ensures { result ≡ one_way x y }
{
    let t = trade_of(x, y);
    if has_room(x, t.give) && has_room(y, t.take) {
        return steps_of(x, y, t.give, t.take);
    }
    None
}

fn swap(q: Option<(i64, i64)>) -> Option<(i64, i64)>
    ensures { result ≡ swapped q }
{
    match q {
        None => None,
        Some((r, s)) => Some((s, r)),
    }
}

// The least pair of two eligible items; of equal ratios there is none.
#[tactic(auto, unfolding(crate::specs::Pairs::pair_of))]
pub fn pair_of(x: Item, y: Item) -> Option<(i64, i64)>
    requires { Fit x × Fit y }
    ensures { result ≡ pair_of x y }
{
    if is_less_efficient(x, y) {
        return one_way(x, y);
    }
    if is_less_efficient(y, x) {
        return swap(one_way(y, x));
    }
    None
}

// Both above zero, or both below.
fn one_sign(w: i64, c: i64) -> bool
    ensures { result ≡ one_sign w c }
{
    0 < w && 0 < c || w < 0 && c < 0
}

// Whether an item may be paired (01's refusal 10).
pub fn is_eligible(x: Item) -> bool
    ensures { result ≡ eligible x }
{
    x.mark == Mark::Integer && one_sign(x.weight, x.price)
}
