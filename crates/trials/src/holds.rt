// Whether an answer's point is one, by the point check and its divisors, and whether its steps are a ray (paper 01, "Unbounded"), by
// plain sums.
ghost use Rattle.std.specs.Prelude.{◌≤◌};

use crate::exact::{as_signed, is_far, plus, times};
use crate::print::size_of;
use arith::Fraction;
use feasibility::{Candidate, Finding, check_point};
use knapsack::{Answer, Mark, Refusal};
use model::{Model, ModelItem, Sense, beyond};

fn checked(p: Model, a: Answer) -> Result<Finding, Refusal> {
    let amounts = a.point;
    let count = p.count;
    check_point(p, Sense::Sure, Candidate { amounts, count })
}

fn is_worth(r: Result<Finding, Refusal>, v: Fraction) -> bool {
    r == Ok(Finding::Feasible(v))
}

fn is_feasible(r: Result<Finding, Refusal>) -> bool {
    matches!(r, Ok(Finding::Feasible(_)))
}

// The divisor of an item's amounts: a continuous one's is its weight without sign, 1 where it is 0 (paper 02, request 12).
fn own_divisor(x: ModelItem) -> u64 {
    match x.mark {
        Mark::Integer => 1,
        Mark::Continuous => size_of(x.high).max(1),
    }
}

// Whether each amount is over its item's own divisor.
fn divisors_hold(p: Model, a: Answer) -> bool {
    for k in 0..p.count.min(16) {
        if a.point[k].q != own_divisor(p.items[k]) {
            return false;
        }
    }
    true
}

// Feasible, within the limits of paper 01, and worth the value told.
pub fn point_holds(p: Model, a: Answer) -> bool {
    divisors_hold(p, a) && is_worth(checked(p, a), a.value)
}

// ---- its weight by plain sums, whatever its divisors

// What the items so far weigh: p / q.
#[derive(Clone, Copy)]
struct Load {
    p: i64,
    q: i64,
}

fn with_amount(s: Load, x: ModelItem, v: Fraction) -> Load {
    let d = as_signed(v.q);
    let w = times(x.high, v.p);
    Load {
        p: plus(times(s.p, d), times(w, s.q)),
        q: times(s.q, d),
    }
}

fn load_of(p: Model, amounts: [Fraction; 16], n: usize) -> Load
    requires { n ≤ 16 }
{
    let mut s = Load { p: 0, q: 1 };
    for k in 0..n {
        s = with_amount(s, p.items[k], amounts[k]);
    }
    s
}

// Whether the point fits.
pub fn fits(p: Model, a: Answer) -> bool {
    if p.count > 16 {
        return false;
    }
    let s = load_of(p, a.point, p.count);
    let limit = times(p.capacity, s.q);
    !is_far(s.p) && s.p <= limit
}

// ---- rays

// What is known of the steps so far: none meets a bound, how many move, and their weight and gain.
#[derive(Clone, Copy)]
struct Ray {
    open: bool,
    moved: usize,
    weight: i64,
    gain: i64,
}

fn is_absent(b: Option<i64>) -> bool {
    match b {
        None => true,
        Some(_) => false,
    }
}

// Whether an item may take its step, which is within ±1,000, for ever.
fn may_move(x: ModelItem, s: i64) -> bool {
    if beyond(s, 1000) {
        return false;
    }
    if s < 0 {
        return is_absent(x.lower);
    }
    if s > 0 {
        return is_absent(x.upper);
    }
    true
}

// One more, and 3 for all above 2.
fn one_more(n: usize, s: i64) -> usize {
    if s != 0 && n < 3 { n + 1 } else { n }
}

fn with_step(r: Ray, x: ModelItem, s: i64) -> Ray {
    Ray {
        open: r.open && may_move(x, s),
        moved: one_more(r.moved, s),
        weight: plus(r.weight, times(x.high, s)),
        gain: plus(r.gain, times(x.price, s)),
    }
}

// The steps of the first n items.
fn ray_of(p: Model, steps: [i64; 16], n: usize) -> Ray
    requires { n ≤ 16 }
{
    let mut r = Ray {
        open: true,
        moved: 0,
        weight: 0,
        gain: 0,
    };
    for k in 0..n {
        r = with_step(r, p.items[k], steps[k]);
    }
    r
}

// Steps on one or two items, which weigh nothing or less, and gain.
fn is_ray(r: Ray) -> bool {
    let is_short = r.moved == 1 || r.moved == 2;
    r.open && is_short && !is_far(r.weight) && !is_far(r.gain) && r.weight <= 0 && r.gain > 0
}

// The steps are a ray.
pub fn leads_on(p: Model, a: Answer) -> bool {
    if p.count > 16 {
        return false;
    }
    is_ray(ray_of(p, a.steps, p.count))
}

// The start is feasible and within the limits, and the steps are a ray.
pub fn ray_holds(p: Model, a: Answer) -> bool {
    leads_on(p, a) && divisors_hold(p, a) && is_feasible(checked(p, a))
}
