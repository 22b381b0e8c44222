// Which price to watch (paper 02, request 13): for a best point and each item the least whole fall of that item's price after which the point is no
// longer best. The field calls this price ranging. The falls that keep a point best are those up to one of them, so a fall is looked for between one
// that keeps it and one that does not, by solving the problem at the lowered price; a better point that comes to light there tells by its own value from
// which fall on it is better. Lowered problems are judged by their meaning: an item may come to weight 0 and price 0, which no record may have.
// On weights within ranges (request 11) this follows the sure answer. An item takes at most 21 solvings: LEAPS and 15 of halving, as no fall is above
// 20,000; one that stands at its lower bound takes none.
#![tactic(auto)]

ghost use Rattle.std.specs.Prelude.{true, ◌≡◌, ◌+◌, ◌≤◌, ◌<◌, nat_abs};
ghost use Rattle.knapsack.specs.Meaning.{instance_of, Shown, amount_at, point_of};
ghost use Rattle.knapsack.specs.Ranges.{item_at, BoundInRange};
ghost use Rattle.comparing.specs.Comparing.{amount_in, point_in};
ghost use Rattle.model.specs.Records.{FiguresInRange, needs_of};
ghost use Rattle.feasibility.specs.Amounts.{GoodAmount};
ghost use Rattle.ranging.specs.Ranging.{deepest, lowered, FallIs, no_falls, FallsOf};
ghost use Rattle.ranging.specs.Searching.{lowered_at, Lowerable, StandsLow, WorthOf, Passes, Passed, Watched, Spans, Narrows, FallsAre};

use arith::Fraction;
use comparing::less_fraction;
use feasibility::{Candidate, breaks_bound, worth};
use knapsack::{Answer, Item, Problem, is_absent, with_item};
use model::{Model, Needs, Sense, Side, plain_of};
use planner::{is_optimal, plan, solve_needs};
use solver::STEPS;

// The planner's sure answer, and for a best point the falls at the first count places: 0 is 02's none.
#[derive(Clone, Copy)]
pub struct Falls {
    pub answer: Answer,
    pub of: [u64; 16],
}

// After the fall low the point is best, after the fall high it is not, or that is past the last. The next leaps tries are just below high.
#[derive(Clone, Copy)]
pub struct Span {
    pub low: u64,
    pub high: u64,
    pub leaps: u64,
}

// A break told by a better point is mostly the right one, so it is tried first; after so many tries the span is halved, which is never slow.
const LEAPS: u64 = 6;

// ---- the problem at a lower price

// How far the price c can fall.
fn deepest(c: i64) -> u64
    requires { nat_abs c ≤ 10000 }
    ensures { result ≡ deepest c }
{
    (c + 10000) as u64
}

// The item with its price lowered by d.
fn lowered(p: Problem, k: usize, d: u64) -> Problem
    requires { (k < 16) × ((nat_abs (item_at p k).price ≤ 10000) × (d ≤ 20000)) }
    ensures { result ≡ lowered_at p k d }
{
    let i = p.items[k];
    let n = d as i64;
    let x = Item {
        price: i.price - n,
        ..i
    };
    with_item(p, k, x)
}

// ---- which of two points is worth more

// What the point x is worth in p.
fn worth_of(p: Problem, x: [Fraction; 16]) -> Fraction
    requires { FiguresInRange p × Shown (instance_of p) (amount_in x) }
    ensures { WorthOf p x result }
{
    let c = Candidate {
        amounts: x,
        count: p.count,
    };
    worth(p, c)
}

// Whether the point of b is worth more than that of a after a fall of d.
fn is_passed(p: Problem, k: usize, d: u64, a: Answer, b: Answer) -> bool
    requires { Lowerable p k d × (Shown (instance_of p) (amount_at a) × Shown (instance_of p) (amount_at b)) }
    ensures { Passes (lowered (instance_of p) k d) (point_of a) (point_of b) result }
{
    let q = lowered(p, k, d);
    let v = worth_of(q, a.point);
    let w = worth_of(q, b.point);
    less_fraction(v, w)
}

// The first fall above low after which the point of b is worth more than that of a, as it is after the fall high.
fn first_passed(p: Problem, k: usize, a: Answer, b: Answer, low: u64, high: u64) -> u64
    requires lowerable { Lowerable p k high × (Shown (instance_of p) (amount_at a) × Shown (instance_of p) (amount_at b)) }
    requires passed { Passed p k a b low high }
    ensures { Passed p k a b low result × (result ≤ high) }
{
    let mut from = low;
    let mut to = high;
    while from + 1 < to {
        let d = from + (to - from) / 2;
        if is_passed(p, k, d, a, b) {
            to = d;
        } else {
            from = d;
        }
    }
    to
}

// ---- the fall of an item

// A fall within the span: just below its end, or its middle.
fn probe(s: Span) -> u64
    requires { s.low + 1 < s.high }
    ensures { (s.low < result) × (result < s.high) }
{
    if 0 < s.leaps {
        s.high - 1
    } else {
        s.low + (s.high - s.low) / 2
    }
}

fn fewer(leaps: u64) -> u64 {
    if 0 < leaps { leaps - 1 } else { 0 }
}

// A narrower span. Where the problem has no end after the fall tried, or another point is worth more, that of a is not best.
fn narrowed(p: Problem, ns: Needs, a: Answer, k: usize, s: Span) -> Span
    requires watched { Watched p ns a × (k < p.count) }
    requires spans { Spans p ns a k s × (s.low + 1 < s.high) }
    ensures { Narrows p ns a k s result }
{
    let low = s.low;
    let high = s.high;
    let leaps = s.leaps;
    let d = probe(s);
    let solved = solve_needs(lowered(p, k, d), ns, STEPS);
    let b = solved.answer;
    if is_optimal(b) {
        if is_passed(p, k, d, a, b) {
            return Span {
                low,
                high: first_passed(p, k, a, b, low, d),
                leaps: fewer(leaps),
            };
        }
        return Span {
            low: d,
            high,
            leaps,
        };
    }
    Span {
        low,
        high: d,
        leaps: 0,
    }
}

// Whether there is no more of item k than its lower bound b: no point has less of it, so that its price may fall as it will.
fn stands_low(b: Option<i64>, x: [Fraction; 16], k: usize) -> bool
    requires { (k < 16) × (BoundInRange b × GoodAmount (amount_in x k)) }
    ensures { result ≡ true → StandsLow b (point_in x k) }
{
    if is_absent(b) {
        return false;
    }
    let y = x[k];
    let p = y.p;
    let q = y.q;
    !breaks_bound(Side::Upper, b, p, q)
}

// The least fall of the price of item k after which the point of a is no longer best; 0 where it is best still at the lowest price.
fn fall_of(p: Problem, ns: Needs, a: Answer, k: usize) -> u64
    requires { Watched p ns a × (k < p.count) }
    ensures { FallIs (instance_of p) (needs_of ns) (point_of a) k result }
{
    let i = p.items[k];
    let b = i.lower;
    let x = a.point;
    if stands_low(b, x, k) {
        return 0;
    }
    let most = deepest(i.price);
    let mut s = Span {
        low: 0,
        high: most + 1,
        leaps: LEAPS,
    };
    while s.low + 1 < s.high {
        s = narrowed(p, ns, a, k, s);
    }
    if most < s.high { 0 } else { s.high }
}

// ---- all items

fn falls_of(p: Problem, ns: Needs, a: Answer) -> [u64; 16]
    requires { Watched p ns a }
    ensures { FallsAre p ns a p.count result }
{
    let mut of = [0u64; 16];
    for k in 0..p.count {
        of[k] = fall_of(p, ns, a, k);
    }
    of
}

// Another reply than a best point.
pub fn no_falls(a: Answer) -> Falls
    ensures { result ≡ no_falls a }
{
    Falls {
        answer: a,
        of: [0; 16],
    }
}

// The planner's sure answer to any record, and the falls of its best point.
pub fn price_falls(m: Model) -> Falls
    ensures { FallsOf m result }
{
    let a = plan(m, Sense::Sure);
    if is_optimal(a) {
        let ns = m.needs;
        let of = falls_of(plain_of(m, Sense::Sure), ns, a);
        return Falls { answer: a, of };
    }
    no_falls(a)
}
