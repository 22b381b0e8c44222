// The best value of a small problem whose bounds are all present, by trying every point that can be best. An integer item takes every
// amount of its box. A continuous one stands at one of its ends, but for one of them, the filler, which may take what the others leave
// of the capacity: a point of a box under one limit that is best for given integer amounts can be had so. With no order, no
// relaxation and no cut this has nothing of the planner. A point that breaks a need is left out.
ghost use Rattle.std.specs.Prelude.{◌≤◌};

use crate::exact::{Ratio, is_less, plus, times};
use crate::kept::{chosen, keeps};
use crate::print::size_of;
use knapsack::Mark;
use model::{Model, ModelItem};

// The amounts that an item takes: first, first + step, … so many.
#[derive(Clone, Copy)]
pub struct Choices {
    pub first: i64,
    pub step: i64,
    pub number: u64,
}

// What is left of a point's number, and the weight and the value of its first items.
#[derive(Clone, Copy)]
pub struct Sums {
    pub rest: u64,
    pub weight: i64,
    pub value: i64,
}

pub fn minus(a: i64, b: i64) -> i64 {
    plus(a, times(b, -1))
}

// A bound that is present; 0 for an absent one, which a problem that is enumerated has not.
fn at(b: Option<i64>) -> i64 {
    b.unwrap_or(0)
}

pub fn low(x: ModelItem) -> i64 {
    at(x.lower)
}

pub fn high(x: ModelItem) -> i64 {
    at(x.upper)
}

// Bounds that cross leave none.
fn no_choice() -> Choices {
    Choices {
        first: 0,
        step: 0,
        number: 0,
    }
}

// The filler is left out: it takes 0 for the time being.
pub fn choices_of(x: ModelItem, filler: bool) -> Choices {
    if filler {
        return Choices {
            first: 0,
            step: 0,
            number: 1,
        };
    }
    let span = minus(high(x), low(x));
    if span < 0 {
        return no_choice();
    }
    if x.mark == Mark::Continuous {
        return Choices {
            first: low(x),
            step: span,
            number: 2,
        };
    }
    Choices {
        first: low(x),
        step: 1,
        number: size_of(plus(span, 1)),
    }
}

// n · m, for small ones.
fn scaled(n: u64, m: u64) -> u64 {
    if n > 1000000 {
        return n;
    }
    if m > 1000000 {
        return m;
    }
    n * m
}

// How many points there are.
pub fn points(p: Model, filler: usize, n: usize) -> u64
    requires { n ≤ 16 }
{
    let mut total: u64 = 1;
    for k in 0..n {
        let c = choices_of(p.items[k], k == filler);
        total = scaled(total, c.number);
    }
    total
}

// One item more: its amount is the next digit of the point's number.
fn with_item(s: Sums, x: ModelItem, filler: bool) -> Sums {
    let c = choices_of(x, filler);
    if c.number == 0 {
        return s;
    }
    let digit = s.rest % c.number;
    let amount = chosen(c, digit);
    Sums {
        rest: s.rest / c.number,
        weight: plus(s.weight, times(x.high, amount)),
        value: plus(s.value, times(x.price, amount)),
    }
}

// The weight and the value of a point.
pub fn sums_of(p: &Model, filler: usize, n: usize, number: u64) -> Sums
    requires { n ≤ 16 }
{
    let mut s = Sums {
        rest: number,
        weight: 0,
        value: 0,
    };
    for k in 0..n {
        s = with_item(s, p.items[k], k == filler);
    }
    s
}

// ---- the best value, none where no feasible point was tried

// Whether the best value is above another.
pub fn is_above(best: Option<Ratio>, v: Ratio) -> bool {
    best.is_some_and(|b| is_less(v, b))
}

// Whether there is a best value, and it is no less than another.
pub fn is_reached(best: Option<Ratio>, v: Ratio) -> bool {
    best.is_some_and(|b| !is_less(b, v))
}

fn offered(best: Option<Ratio>, p: i64, q: i64) -> Option<Ratio> {
    let v = Ratio { p, q };
    if is_reached(best, v) { best } else { Some(v) }
}

// A point with no filler.
fn with_corner(best: Option<Ratio>, p: &Model, s: Sums) -> Option<Ratio> {
    if p.capacity < s.weight {
        return best;
    }
    offered(best, s.value, 1)
}

pub fn between(a: i64, x: i64, b: i64) -> bool {
    a <= x && x <= b
}

// A point whose filler x takes room / weight, both of them with the sign that makes the weight positive.
fn with_filler(best: Option<Ratio>, p: &Model, x: ModelItem, s: Sums) -> Option<Ratio> {
    let sign = if x.high < 0 { -1 } else { 1 };
    let a = times(x.high, sign);
    let room = times(minus(p.capacity, s.weight), sign);
    if between(times(low(x), a), room, times(high(x), a)) {
        return offered(best, plus(times(s.value, a), times(x.price, room)), a);
    }
    best
}

// The point of a number, if it keeps the needs.
fn with_point(best: Option<Ratio>, p: &Model, filler: usize, n: usize, number: u64) -> Option<Ratio>
    requires { n ≤ 15 }
{
    if !keeps(p, filler, n, number) {
        return best;
    }
    let s = sums_of(p, filler, n, number);
    if filler < n {
        return with_filler(best, p, p.items[filler], s);
    }
    with_corner(best, p, s)
}

pub fn can_fill(x: ModelItem) -> bool {
    x.mark == Mark::Continuous && x.high != 0
}

// All points with one filler, or with none where its number is n.
fn over_filler<T, F: Fn(T, usize, u64) -> T>(
    start: T,
    p: Model,
    n: usize,
    filler: usize,
    step: F,
) -> T
    requires n_bound { n ≤ 15 }
    requires callable { F.IsAlwaysCallable step }
{
    let mut t = start;
    for number in 0..points(p, filler, n) {
        t = step(t, filler, number);
    }
    t
}

// All points of a problem, by their fillers and numbers.
pub fn over_points<T, F: Fn(T, usize, u64) -> T>(start: T, p: Model, n: usize, step: F) -> T
    requires n_bound { n ≤ 15 }
    requires callable { F.IsAlwaysCallable step }
{
    let mut t = over_filler(start, p, n, n, &step);
    for k in 0..n {
        if can_fill(p.items[k]) {
            t = over_filler(t, p, n, k, &step);
        }
    }
    t
}

// The best value of a problem of at most 15 items with every bound present.
pub fn best_value(p: Model, n: usize) -> Option<Ratio>
    requires { n ≤ 15 }
{
    over_points(None, p, n, |best, filler, number| {
        with_point(best, &p, filler, n, number)
    })
}
