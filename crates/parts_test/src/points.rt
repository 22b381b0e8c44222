// The point check on drawn points. What is not a whole number is mostly at one place, the filler; some amounts are at the limits or beyond, and some over
// a divisor that is not the item's.
ghost use Rattle.std.specs.Prelude.{◌≤◌};

use arith::Fraction;
use feasibility::{Candidate, Finding, check_point};
use knapsack::{Mark, Refusal};
use model::{Model, ModelItem, Sense, beyond};
use trials::count::{one_more, print_count};
use trials::draw::{Spans, below, drawn_problem, figure, next};
use trials::exact::{as_signed, times};
use trials::print::{print, print_number, print_problem, print_signed, size_of};
use trials::ranges::{at_ends, with_drawn_ranges};

// ---- what is drawn

#[derive(Clone, Copy)]
struct DrawnPoint {
    point: Candidate,
    state: u64,
}

fn fraction(p: i64, q: u64) -> Fraction {
    Fraction { p: p, q: q }
}

// At the limits of paper 01's refusal 8, or just beyond: over the divisor q, or 0.
fn limit_amount(n: u64, q: u64) -> Fraction
    requires { q ≤ 6 }
{
    let most = product(as_signed(q), 1000000000);
    let least = product(as_signed(q), -1000000000);
    match n {
        0 => fraction(0, 0),
        1 => fraction(0, 1001),
        2 => fraction(most, q),
        3 => fraction(least, q),
        4 => fraction(total(most, 1), q),
        5 => fraction(total(least, -1), q),
        6 => fraction(total(most, -1), q),
        7 => fraction(1, q + 1),
        _ => fraction(-9223372036854775808, q),
    }
}

// One divisor in 32 is that of any weight.
fn drawn_divisor(state: u64, i: ModelItem) -> u64
    ensures { result ≤ 6 }
{
    if below(state, 31) == 0 {
        return 1 + below(next(state), 5);
    }
    let q = own_divisor(i);
    if q < 6 { q } else { 6 }
}

// The filler has any amount, the others whole ones.
fn drawn_amount(state: u64, i: ModelItem, filler: bool) -> Fraction {
    let a = next(state);
    let q = drawn_divisor(state, i);
    if below(state, 39) == 0 {
        return limit_amount(below(a, 8), q);
    }
    if filler || below(next(a), 15) == 0 {
        return fraction(figure(a, 3 * q), q);
    }
    fraction(times(figure(a, 3), as_signed(q)), q)
}

// One count in 16 is any number up to 20.
fn drawn_count(state: u64, n: usize) -> usize {
    if below(state, 15) == 0 {
        return below(next(state), 20) as usize;
    }
    n
}

fn no_amounts() -> [Fraction; 16] {
    [Fraction { p: 0, q: 1 }; 16]
}

fn drawn_point(state: u64, m: Model, n: usize) -> DrawnPoint {
    let mut amounts = no_amounts();
    let filler = below(state, n as u64) as usize;
    let mut now = next(state);
    let count = drawn_count(now, n);
    for k in 0..16 {
        now = next(now);
        amounts[k] = drawn_amount(now, m.items[k], k == filler);
        now = next(now);
    }
    DrawnPoint {
        point: Candidate { amounts, count },
        state: now,
    }
}

// ---- the amounts, plainly

// What is known of the amounts so far: one is refused, how many are not whole numbers, and the last of their divisors, or 1.
#[derive(Clone, Copy)]
struct Shape {
    bad: bool,
    fractions: u64,
    divisor: u64,
}

fn divides(d: u64, n: u64) -> bool {
    d != 0 && n % d == 0
}

// Whether a number from 2 to q divides both.
fn shares(n: u64, q: u64) -> bool {
    for d in 2..=q {
        if divides(d, n) && divides(d, q) {
            return true;
        }
    }
    false
}

// A continuous item's amounts are over its weight without sign, 1 where it is 0 (paper 02, request 12).
fn own_divisor(i: ModelItem) -> u64 {
    match i.mark {
        Mark::Integer => 1,
        Mark::Continuous => size_of(i.high).max(1),
    }
}

fn is_bad(i: ModelItem, x: Fraction) -> bool {
    let q = x.q;
    q != own_divisor(i) || q > 1000 || size_of(x.p) > 1000000000 * q
}

fn is_whole(x: Fraction) -> bool {
    divides(x.q, size_of(x.p))
}

fn with_amount(h: Shape, i: ModelItem, x: Fraction) -> Shape {
    let split = !is_whole(x);
    Shape {
        bad: h.bad || is_bad(i, x),
        fractions: one_more(h.fractions, split),
        divisor: if split { x.q } else { h.divisor },
    }
}

fn shape_of(m: Model, c: Candidate, n: usize) -> Shape
    requires { n ≤ 15 }
{
    let mut h = Shape {
        bad: false,
        fractions: 0,
        divisor: 1,
    };
    for k in 0..n {
        h = with_amount(h, m.items[k], c.amounts[k]);
    }
    h
}

// ---- the sums over one divisor

// The first place whose item breaks a rule; weight and value times the divisor.
#[derive(Clone, Copy)]
struct Sums {
    broken: Option<usize>,
    weight: i64,
    value: i64,
}

// a · b of a figure and a number of any amount, and a + b; what is farther off is handed on.
fn product(a: i64, b: i64) -> i64 {
    if beyond(a, 10000) {
        return a;
    }
    if beyond(b, 100000000000000) {
        return b;
    }
    a * b
}

fn total(a: i64, b: i64) -> i64 {
    if beyond(a, 1000000000000000000) {
        return a;
    }
    if beyond(b, 1000000000000000000) {
        return b;
    }
    a + b
}

// Whether p / q is below a bound.
fn is_below(x: Fraction, b: Option<i64>) -> bool {
    match b {
        None => false,
        Some(v) => x.p < product(v, as_signed(x.q)),
    }
}

fn is_above(x: Fraction, b: Option<i64>) -> bool {
    match b {
        None => false,
        Some(v) => product(v, as_signed(x.q)) < x.p,
    }
}

fn breaks(i: ModelItem, x: Fraction) -> bool {
    is_below(x, i.lower) || is_above(x, i.upper)
}

// p / q over the divisor: a whole number times it, or the one that is none.
fn numerator(x: Fraction, divisor: u64) -> i64 {
    if is_whole(x) {
        let n = as_signed(size_of(x.p).checked_div(x.q).unwrap_or(0));
        let whole = if x.p < 0 { times(n, -1) } else { n };
        product(as_signed(divisor), whole)
    } else {
        x.p
    }
}

fn with_item(s: Sums, k: usize, i: ModelItem, x: Fraction, divisor: u64) -> Sums {
    let n = numerator(x, divisor);
    let broken = if s.broken.is_none() && breaks(i, x) {
        Some(k)
    } else {
        s.broken
    };
    Sums {
        broken,
        weight: total(s.weight, product(i.high, n)),
        value: total(s.value, product(i.price, n)),
    }
}

fn sums_of(p: Model, c: Candidate, n: usize, divisor: u64) -> Sums
    requires { n ≤ 15 }
{
    let mut s = Sums {
        broken: None,
        weight: 0,
        value: 0,
    };
    for k in 0..n {
        s = with_item(s, k, p.items[k], c.amounts[k], divisor);
    }
    s
}

// ---- the reply against them

// 7 or 8; none where nothing is refused.
fn refusal_of(c: Candidate, h: Shape, n: usize) -> Option<u64> {
    if c.count != n {
        Some(7)
    } else if h.bad || h.fractions > 1 {
        Some(8)
    } else {
        None
    }
}

// v is value / divisor in lowest terms.
fn is_value(v: Fraction, value: i64, divisor: u64) -> bool {
    0 < v.q
        && v.q <= 1000
        && !shares(size_of(v.p), v.q)
        && product(as_signed(divisor), v.p) == product(as_signed(v.q), value)
}

fn is_over(p: Model, s: Sums, divisor: u64) -> bool {
    times(p.capacity, as_signed(divisor)) < s.weight
}

// The reply to a point that is not refused.
fn is_told(r: Result<Finding, Refusal>, p: Model, s: Sums, divisor: u64) -> bool {
    let over = is_over(p, s, divisor);
    match r {
        Err(_) => false,
        Ok(Finding::Feasible(v)) => s.broken.is_none() && !over && is_value(v, s.value, divisor),
        Ok(Finding::Violates(0)) => s.broken.is_none() && over,
        Ok(Finding::Violates(i)) => matches!(s.broken, Some(k) if k < 16 && i == k + 1),
    }
}

fn is_refused(r: Result<Finding, Refusal>, number: u64) -> bool {
    r == Err(Refusal { number, line: 0 })
}

fn agrees(r: Result<Finding, Refusal>, p: Model, c: Candidate, n: usize) -> bool
    requires { n ≤ 15 }
{
    let h = shape_of(p, c, n);
    match refusal_of(c, h, n) {
        Some(number) => is_refused(r, number),
        None => is_told(r, p, sums_of(p, c, n, h.divisor), h.divisor),
    }
}

// ---- counts

#[derive(Clone, Copy)]
struct Tally {
    seven: u64,
    eight: u64,
    yes: u64,
    split: u64,
    item: u64,
    weight: u64,
    wrong: u64,
}

fn tallied(t: Tally, r: Result<Finding, Refusal>, right: bool) -> Tally {
    Tally {
        seven: one_more(t.seven, matches!(r, Err(f) if f.number == 7)),
        eight: one_more(t.eight, matches!(r, Err(f) if f.number == 8)),
        yes: one_more(t.yes, matches!(r, Ok(Finding::Feasible(_)))),
        split: one_more(t.split, matches!(r, Ok(Finding::Feasible(v)) if v.q != 1)),
        item: one_more(t.item, matches!(r, Ok(Finding::Violates(k)) if k > 0)),
        weight: one_more(t.weight, matches!(r, Ok(Finding::Violates(0)))),
        wrong: one_more(t.wrong, !right),
    }
}

fn print_amount(x: Fraction) {
    print(b" ");
    print_signed(x.p);
    print(b"/");
    print_number(x.q);
}

fn print_wrong(p: Model, c: Candidate, n: usize)
    requires { n ≤ 15 }
{
    print(b"disagreement: ");
    print_problem(p);
    print_count(b"; amounts ", c.count as u64);
    for x in &c.amounts[..n] {
        print_amount(*x);
    }
    print(b"\n");
}

// The reply in a sense, held to the record whose weights are known, each at that end.
fn agrees_at(m: Model, sense: Sense, ends: u64, c: Candidate, n: usize) -> bool
    requires { n ≤ 15 }
{
    agrees(check_point(m, sense, c), at_ends(m, ends), c, n)
}

// Both senses of the record with ranges drawn for it (paper 02, request 11).
fn senses_agree(p: Model, c: Candidate, n: usize) -> bool
    requires { n ≤ 15 }
{
    let d = with_drawn_ranges(p, next(size_of(p.capacity)), 1, 4);
    let m = d.problem;
    agrees_at(m, Sense::Sure, 65535, c, n) && agrees_at(m, Sense::Possible, 0, c, n)
}

fn tried(t: Tally, p: Model, c: Candidate, n: usize) -> Tally
    requires { n ≤ 15 }
{
    let r = check_point(p, Sense::Sure, c);
    let right = agrees(r, p, c, n) && senses_agree(p, c, n);
    if !right {
        print_wrong(p, c, n);
    }
    tallied(t, r, right)
}

// Small figures; of four bounds two are absent, of four items three continuous, and of eight pairs of bounds one crosses.
fn spans() -> Spans {
    Spans {
        weight: 4,
        price: 5,
        bound: 3,
        capacity: 12,
        unit: 1,
        absent: 2,
        loose: 3,
        crossing: 1,
    }
}

// What so many points of n items each come to.
fn tally_of(seed: u64, points: u64, n: usize) -> Tally
    requires { n ≤ 15 }
{
    let mut t = Tally {
        seven: 0,
        eight: 0,
        yes: 0,
        split: 0,
        item: 0,
        weight: 0,
        wrong: 0,
    };
    let mut state = seed;
    for _ in 0..points {
        let d = drawn_problem(state, n, spans());
        let e = drawn_point(d.state, d.problem, n);
        t = tried(t, d.problem, e.point, n);
        state = e.state;
    }
    t
}

fn drawn(seed: u64, points: u64, n: usize)
    requires { n ≤ 15 }
{
    let t = tally_of(seed, points, n);
    print_count(b"points, seed ", seed);
    print_count(b", items ", n as u64);
    print_count(b", points ", points);
    print_count(b": refused 7 ", t.seven);
    print_count(b", refused 8 ", t.eight);
    print_count(b", yes ", t.yes);
    print_count(b" (by a fraction ", t.split);
    print_count(b"), no by an item ", t.item);
    print_count(b", by the weight ", t.weight);
    print_count(b"; disagreements ", t.wrong);
    print(b"\n");
}

pub fn show_points() {
    drawn(31, 2000, 1);
    drawn(32, 4000, 2);
    drawn(33, 6000, 3);
    drawn(34, 8000, 4);
}
