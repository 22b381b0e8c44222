// Problems drawn from a seed, by a linear congruential generator. What is drawn from a state comes of its higher bits.
ghost use Rattle.std.specs.Prelude.{◌≤◌};

use crate::exact::times;
use crate::make::record_of;
use knapsack::Mark;
use model::{Model, ModelItem, no_item};

// No figure is farther from zero than its span, and the capacity is a multiple of the unit. Of four bounds so many are absent, of four
// items so many continuous, and of eight pairs of bounds so many cross, unless they are equal.
#[derive(Clone, Copy)]
pub struct Spans {
    pub weight: u64,
    pub price: u64,
    pub bound: u64,
    pub capacity: u64,
    pub unit: i64,
    pub absent: u64,
    pub loose: u64,
    pub crossing: u64,
}

// Small figures, for problems that are enumerated.
pub fn small(absent: u64, loose: u64) -> Spans {
    Spans {
        weight: 4,
        price: 5,
        bound: 3,
        capacity: 12,
        unit: 1,
        absent: absent,
        loose: loose,
        crossing: 1,
    }
}

#[derive(Clone, Copy)]
struct Ends {
    lower: i64,
    upper: i64,
}

#[derive(Clone, Copy)]
pub struct DrawnItem {
    pub item: ModelItem,
    pub state: u64,
}

#[derive(Clone, Copy)]
pub struct DrawnProblem {
    pub problem: Model,
    pub state: u64,
}

pub fn next(state: u64) -> u64 {
    (state % 2147483648 * 1103515245 + 12345) % 2147483648
}

// From 0 to span, for a span below 32,768.
pub fn below(state: u64, span: u64) -> u64
    ensures { result ≤ span }
{
    if span > 32767 {
        return 0;
    }
    state / 65536 % (span + 1)
}

// From -span to span, for a span up to 10,000.
pub fn figure(state: u64, span: u64) -> i64 {
    if span > 10000 {
        return 0;
    }
    let n = below(state, 2 * span);
    n as i64 - span as i64
}

fn drawn_mark(state: u64, s: Spans) -> Mark {
    if below(state, 3) < s.loose {
        Mark::Continuous
    } else {
        Mark::Integer
    }
}

// One weight in eight is 0.
fn drawn_weight(state: u64, s: Spans) -> i64 {
    if below(state, 7) == 0 {
        return 0;
    }
    figure(state, s.weight)
}

// One price in four is twice the weight, for equal ratios.
fn drawn_price(state: u64, weight: i64, s: Spans) -> i64 {
    if below(state, 3) == 0 {
        return times(weight, 2);
    }
    figure(state, s.price)
}

// No item is blank: a price 0 beside weight 0 becomes 1.
pub fn mended_price(weight: i64, price: i64) -> i64 {
    if weight == 0 && price == 0 { 1 } else { price }
}

fn drawn_bound(state: u64, at: i64, s: Spans) -> Option<i64> {
    if below(state, 3) < s.absent {
        None
    } else {
        Some(at)
    }
}

fn drawn_ends(state: u64, a: i64, b: i64, s: Spans) -> Ends {
    let low = a.min(b);
    let high = a.max(b);
    if below(state, 7) < s.crossing {
        return Ends {
            lower: high,
            upper: low,
        };
    }
    Ends {
        lower: low,
        upper: high,
    }
}

pub fn drawn_item(state: u64, s: Spans) -> DrawnItem {
    let m = next(state);
    let a = next(m);
    let c = next(a);
    let l = next(c);
    let u = next(l);
    let i = next(u);
    let j = next(i);
    let mark = drawn_mark(m, s);
    let weight = drawn_weight(a, s);
    let ends = drawn_ends(c, figure(l, s.bound), figure(u, s.bound), s);
    let lower = drawn_bound(i, ends.lower, s);
    let upper = drawn_bound(j, ends.upper, s);
    let x = ModelItem {
        mark: mark,
        low: weight,
        high: weight,
        price: mended_price(weight, drawn_price(c, weight, s)),
        lower: lower,
        upper: upper,
    };
    DrawnItem { item: x, state: j }
}

pub fn drawn_capacity(state: u64, s: Spans) -> i64 {
    times(figure(state, s.capacity), s.unit)
}

// A problem of so many items; the places beyond them are drawn too.
pub fn drawn_problem(state: u64, count: usize, s: Spans) -> DrawnProblem {
    let mut items = [no_item(); 16];
    let mut now = next(state);
    let capacity = drawn_capacity(now, s);
    for x in &mut items {
        let d = drawn_item(now, s);
        *x = d.item;
        now = d.state;
    }
    DrawnProblem {
        problem: record_of(capacity, count, items),
        state: now,
    }
}
