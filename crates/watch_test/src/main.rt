// The falls of best points (paper 02, "Which price to watch"), held to plain enumeration: after every fall up to 29, and after the last, the point shown
// is best still exactly if no point that is tried at the lowered price is worth more. Absent bounds are closed for the enumeration, farther off than the
// small figures of these problems lead. With weights within ranges the falls are those of the sure answer: the enumeration takes every weight at its high
// end. A problem on which the two disagree is printed.
#![tactic(auto)]

ghost use Rattle.std.specs.Prelude.{◌≤◌};

use arith::Fraction;
use knapsack::Kind;
use model::{Model, ModelItem, setters};
use ranging::{Falls, price_falls};
use trials::count::{one_more, print_count};
use trials::draw::{DrawnProblem, Spans, drawn_problem};
use trials::enumerate::{best_value, minus};
use trials::exact::{Ratio, as_signed, is_less, plus, ratio_of, times};
use trials::make::{first_of, free, from_zero, held, loose, needing, two};
use trials::needs::with_drawn_needs;
use trials::outcome::shut_problem;
use trials::print::{print, print_field, print_kind, print_problem};
use trials::ranges::{at_ends, with_drawn_ranges};

// ---- chosen problems

fn is_best(w: Falls) -> bool {
    w.answer.kind == Kind::Optimal
}

// The falls in the order of the items; 0 is none.
fn print_falls(w: Falls, n: usize) {
    for fall in w.of.iter().take(n) {
        print_field(*fall);
    }
}

fn show(m: Model) {
    print_problem(m);
    print(b": ");
    let w = price_falls(m);
    print_kind(w.answer);
    print(b":");
    if is_best(w) {
        print_falls(w, m.count);
    }
    print(b"\n");
}

// Sheet F; a free choice of two; a fall that ends in no bound; one that leaves weight 0 and price 0; the lowest price; a continuous item; a need.
fn chosen() {
    show(two(10, held(3, 5, 0, 10), held(4, 6, 0, 10)));
    show(first_of(5, 3, held(1, 1, 0, 5), held(1, 1, 0, 5), held(0, 1, 0, 1)));
    show(two(0, free(1, 2), free(1, 2)));
    show(two(4, held(0, 3, -2, 2), held(1, 1, 0, 4)));
    show(two(4, held(1, -10000, 1, 2), held(1, 10000, 0, 4)));
    show(two(7, loose(held(3, 5, 0, 2)), held(2, 3, 0, 2)));
    show(needing(two(3, held(1, 2, 0, 3), held(1, 1, 0, 3)), 0, 1, 2));
    show(two(-1, held(1, 1, 0, 1), held(1, 1, 0, 1)));
    show(two(0, from_zero(-1, 1), held(1, 1, 0, 1)));
}

// ---- drawn problems

// What was found: replies with a best point, falls that are not none, falls tried, and how many of them were judged otherwise.
#[derive(Clone, Copy)]
struct Counts {
    best: u64,
    some: u64,
    tried: u64,
    wrong: u64,
}

// The record with the price of item k lowered by d; no entry takes it.
fn lowered(m: Model, k: usize, d: i64) -> Model
    requires { k ≤ 15 }
{
    let x = m.items[k];
    let cheaper = ModelItem {
        price: minus(x.price, d),
        ..x
    };
    setters::with_item(m, k, cheaper)
}

// Whether the point shown, worth v before and with the amount x of item k, is best still after a fall of d.
fn is_best_after(m: Model, n: usize, k: usize, d: i64, v: Fraction, x: Fraction, reach: i64) -> bool
    requires { (n ≤ 15) × (k ≤ 15) }
{
    let sure = at_ends(lowered(m, k, d), 65535);
    let none = Ratio { p: 0, q: 1 };
    let b = best_value(shut_problem(sure, n, reach), n).unwrap_or(none);
    let q = as_signed(v.q);
    let r = as_signed(x.q);
    let after = Ratio {
        p: minus(times(v.p, r), times(times(d, x.p), q)),
        q: times(q, r),
    };
    !is_less(after, b)
}

// One fall more: what is told of it, and what is so.
fn with_fall(c: Counts, told: bool, is_so: bool) -> Counts {
    Counts {
        tried: one_more(c.tried, true),
        wrong: one_more(c.wrong, told != is_so),
        ..c
    }
}

// Farther off than is enumerated: where some lower bound is absent the point shown may be.
fn is_far(x: Fraction, reach: i64) -> bool {
    let r = ratio_of(x);
    is_less(Ratio { p: reach, q: 1 }, r)
        || is_less(
            r,
            Ratio {
                p: times(reach, -1),
                q: 1,
            },
        )
}

// The falls of item k up to 29, and the last.
fn with_item_falls(start: Counts, m: Model, w: Falls, n: usize, k: usize, reach: i64) -> Counts
    requires { (n ≤ 15) × (k ≤ 15) }
{
    let a = w.answer;
    let x = a.point[k];
    if is_far(x, reach) {
        return start;
    }
    let fall = as_signed(w.of[k]);
    let last = plus(m.items[k].price, 10000);
    let mut c = start;
    for d in 1..31 {
        let e = if d == 30 { last } else { as_signed(d) };
        let told = fall == 0 || e < fall;
        c = with_fall(c, told, is_best_after(m, n, k, e, a.value, x, reach));
    }
    Counts {
        some: one_more(c.some, 0 < fall),
        ..c
    }
}

fn with_problem(start: Counts, m: Model, n: usize, reach: i64) -> Counts
    requires { n ≤ 15 }
{
    let w = price_falls(m);
    if !is_best(w) {
        return start;
    }
    let mut c = start;
    for k in 0..n {
        c = with_item_falls(c, m, w, n, k, reach);
    }
    if start.wrong != c.wrong {
        print(b"disagreement: ");
        print_problem(m);
        print_falls(w, n);
        print(b"\n");
    }
    Counts {
        best: one_more(c.best, true),
        ..c
    }
}

// How problems are drawn: of so many items, and one more, about one needs another; and whether about half of the weights are within ranges.
#[derive(Clone, Copy)]
struct Drawing {
    spans: Spans,
    among: u64,
    ranged: bool,
}

fn drawn_record(state: u64, n: usize, z: Drawing) -> DrawnProblem {
    let d = drawn_problem(state, n, z.spans);
    let e = with_drawn_needs(d.problem, d.state, z.among);
    if z.ranged {
        return with_drawn_ranges(e.problem, e.state, 1, 3);
    }
    e
}

fn counts_of(seed: u64, problems: u64, n: usize, z: Drawing, reach: i64) -> Counts
    requires { n ≤ 15 }
{
    let mut c = Counts {
        best: 0,
        some: 0,
        tried: 0,
        wrong: 0,
    };
    let mut state = seed;
    for _ in 0..problems {
        let d = drawn_record(state, n, z);
        c = with_problem(c, d.problem, n, reach);
        state = d.state;
    }
    c
}

fn small(absent: u64, loose: u64, among: u64) -> Drawing {
    let spans = Spans {
        weight: 3,
        price: 6,
        bound: 2,
        capacity: 9,
        unit: 1,
        absent,
        loose,
        crossing: 0,
    };
    Drawing {
        spans,
        among,
        ranged: false,
    }
}

fn ranged(absent: u64, loose: u64, among: u64) -> Drawing {
    Drawing {
        ranged: true,
        ..small(absent, loose, among)
    }
}

fn drawn(name: &[u8], seed: u64, problems: u64, n: usize, z: Drawing, reach: i64)
    requires { n ≤ 15 }
{
    let c = counts_of(seed, problems, n, z, reach);
    print(name);
    print_count(b", seed ", seed);
    print_count(b", problems ", problems);
    print_count(b", items ", n as u64);
    print_count(b": best ", c.best);
    print_count(b", falls ", c.some);
    print_count(b", tried ", c.tried);
    print_count(b"; disagreements ", c.wrong);
    print(b"\n");
}

fn main() {
    chosen();
    drawn(b"integer", 1, 200, 2, small(0, 0, 32767), 2);
    drawn(b"integer, needs", 2, 200, 3, small(0, 0, 3), 2);
    drawn(b"mixed", 3, 200, 3, small(0, 2, 32767), 2);
    drawn(b"mixed, needs", 4, 100, 4, small(0, 2, 6), 2);
    drawn(b"open", 5, 200, 2, small(2, 2, 32767), 24);
    drawn(b"open, needs", 6, 60, 3, small(2, 2, 5), 24);
    drawn(b"ranges", 7, 200, 3, ranged(0, 2, 32767), 2);
    drawn(b"ranges, needs", 8, 200, 3, ranged(0, 2, 5), 2);
    drawn(b"ranges, open", 9, 100, 2, ranged(2, 2, 32767), 24);
}
