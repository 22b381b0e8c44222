// The points of a small problem that can be best (enumerate), each beside the point that an answer shows: none is worth more, and none that is
// worth as much comes before it. With no order of filling, no relaxation, no loss and no key this has nothing of the planner.
ghost use Rattle.std.specs.Prelude.{◌≤◌};

use crate::enumerate::{Sums, between, choices_of, high, low, minus, over_points, sums_of};
use crate::exact::{Ratio, is_less, plus, ratio_of, times};
use crate::kept::{chosen, keeps};
use arith::Fraction;
use knapsack::Answer;
use model::{Model, ModelItem};
use std::cmp::Ordering;

// The item that takes what the others leave of the capacity, and its amount.
#[derive(Clone, Copy)]
struct Filler {
    at: usize,
    amount: Ratio,
}

// What is left of a point's number, and how the point stands to the one shown so far, by the first item that differs.
#[derive(Clone, Copy)]
struct Walk {
    rest: u64,
    order: Ordering,
}

// Whether some point beats the one shown, and whether the one shown was met.
#[derive(Clone, Copy)]
pub struct Judged {
    pub beaten: bool,
    pub met: bool,
}

fn compared(a: Ratio, b: Ratio) -> Ordering {
    if is_less(a, b) {
        Ordering::Less
    } else if is_less(b, a) {
        Ordering::Greater
    } else {
        Ordering::Equal
    }
}

// One item more: its amount is the next digit of the point's number, or that of the filler.
fn walked(w: Walk, x: ModelItem, v: Fraction, k: usize, f: Filler) -> Walk {
    if k == f.at {
        return Walk {
            rest: w.rest,
            order: w.order.then(compared(f.amount, ratio_of(v))),
        };
    }
    let c = choices_of(x, false);
    if c.number == 0 {
        return w;
    }
    let amount = Ratio {
        p: chosen(c, w.rest % c.number),
        q: 1,
    };
    Walk {
        rest: w.rest / c.number,
        order: w.order.then(compared(amount, ratio_of(v))),
    }
}

fn order_of(p: &Model, a: &Answer, n: usize, number: u64, f: Filler) -> Ordering
    requires { n ≤ 15 }
{
    let mut w = Walk {
        rest: number,
        order: Ordering::Equal,
    };
    for k in 0..n {
        w = walked(w, p.items[k], a.point[k], k, f);
    }
    w.order
}

// A point with its value.
fn with_point(
    j: Judged,
    m: &Model,
    a: &Answer,
    n: usize,
    number: u64,
    f: Filler,
    v: Ratio,
) -> Judged
    requires { n ≤ 15 }
{
    let order = compared(v, ratio_of(a.value));
    if order == Ordering::Greater {
        return Judged { beaten: true, ..j };
    }
    if order == Ordering::Less {
        return j;
    }
    let o = order_of(m, a, n, number, f);
    Judged {
        beaten: j.beaten || o == Ordering::Less,
        met: j.met || o == Ordering::Equal,
    }
}

// A point with no filler.
fn with_corner(j: Judged, m: &Model, a: &Answer, n: usize, number: u64, s: Sums) -> Judged
    requires { n ≤ 15 }
{
    if m.capacity < s.weight {
        return j;
    }
    let amount = Ratio { p: 0, q: 1 };
    let value = Ratio { p: s.value, q: 1 };
    with_point(j, m, a, n, number, Filler { at: 16, amount }, value)
}

// A point whose filler x takes room / weight, both of them with the sign that makes the weight w positive.
fn with_filler(
    j: Judged,
    m: &Model,
    a: &Answer,
    n: usize,
    number: u64,
    s: Sums,
    x: ModelItem,
    k: usize,
) -> Judged
    requires { n ≤ 15 }
{
    let sign = if x.high < 0 { -1 } else { 1 };
    let w = times(x.high, sign);
    let room = times(minus(m.capacity, s.weight), sign);
    if !between(times(low(x), w), room, times(high(x), w)) {
        return j;
    }
    let amount = Ratio { p: room, q: w };
    let value = Ratio {
        p: plus(times(s.value, w), times(x.price, room)),
        q: w,
    };
    with_point(j, m, a, n, number, Filler { at: k, amount }, value)
}

// The point of a number, if it keeps the needs.
fn with_numbered(j: Judged, m: &Model, a: &Answer, filler: usize, n: usize, number: u64) -> Judged
    requires { n ≤ 15 }
{
    if !keeps(m, filler, n, number) {
        return j;
    }
    let s = sums_of(m, filler, n, number);
    if filler < n {
        return with_filler(j, m, a, n, number, s, m.items[filler], filler);
    }
    with_corner(j, m, a, n, number, s)
}

// All points of a problem of n items with every bound present, beside an optimal answer.
pub fn judge(m: Model, a: Answer, n: usize) -> Judged
    requires { n ≤ 15 }
{
    let none = Judged {
        beaten: false,
        met: false,
    };
    over_points(none, m, n, |j, filler, number| {
        with_numbered(j, &m, &a, filler, n, number)
    })
}
