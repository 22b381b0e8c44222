// The least pair on drawn problems. Weights are within ±4 and prices within ±8, so that where steps exist some are within ±32.
ghost use Rattle.std.specs.Prelude.{◌≤◌};

use domination::least_pair;
use knapsack::{Mark, Refusal};
use model::{Model, ModelItem, Sense, no_item};
use trials::count::{one_more, print_count};
use trials::draw::{Spans, drawn_problem, next};
use trials::exact::{as_signed, plus, times};
use trials::print::{print, print_problem, size_of};
use trials::ranges::{at_ends, with_drawn_ranges};

const REACH: i64 = 40;

// ---- all steps

// The least sizes of the first steps and of the second.
#[derive(Clone, Copy)]
struct Least {
    first: u64,
    second: u64,
}

// Whether a step is no longer than upper minus lower.
fn is_within(l: i64, u: i64, step: i64) -> bool {
    let room = plus(u, times(l, -1));
    step <= room && times(step, -1) <= room
}

fn has_room(x: ModelItem, step: i64) -> bool {
    match (x.lower, x.upper) {
        (Some(l), Some(u)) => is_within(l, u, step),
        _ => true,
    }
}

// Paper 01's conditions on the steps r of x and s of y.
fn is_pair(x: ModelItem, y: ModelItem, r: i64, s: i64) -> bool {
    r != 0
        && s != 0
        && 0 <= plus(times(x.high, r), times(y.high, s))
        && plus(times(x.price, r), times(y.price, s)) < 0
        && has_room(x, r)
        && has_room(y, s)
}

// With one pair of steps more.
fn with_steps(m: Option<Least>, r: i64, s: i64) -> Least {
    let first = size_of(r);
    let second = size_of(s);
    match m {
        None => Least { first, second },
        Some(l) => Least {
            first: first.min(l.first),
            second: second.min(l.second),
        },
    }
}

fn step_at(k: u64) -> i64 {
    plus(as_signed(k), 0 - REACH)
}

// All second steps beside one first step.
fn with_row(start: Option<Least>, x: ModelItem, y: ModelItem, r: i64) -> Option<Least> {
    let mut m = start;
    for k in 0..81 {
        let s = step_at(k);
        if is_pair(x, y, r, s) {
            m = Some(with_steps(m, r, s));
        }
    }
    m
}

// None where no steps are a pair.
fn least_of(x: ModelItem, y: ModelItem) -> Option<Least> {
    let mut m = None;
    for k in 0..81 {
        m = with_row(m, x, y, step_at(k));
    }
    m
}

// ---- the reply against them

// Integer, with weight and price of one sign.
fn may_pair(x: ModelItem) -> bool {
    matches!(x.mark, Mark::Integer) && times(x.high, x.price) > 0
}

fn is_item(i: usize, n: usize) -> bool {
    0 < i && i <= n
}

fn item_numbered(p: Model, i: usize) -> ModelItem {
    if i == 0 || i > 16 {
        return no_item();
    }
    p.items[i - 1]
}

fn is_least(q: Option<(i64, i64)>, x: ModelItem, y: ModelItem) -> bool {
    match (q, least_of(x, y)) {
        (None, None) => true,
        (Some((r, s)), Some(m)) => {
            size_of(r) == m.first && size_of(s) == m.second && is_pair(x, y, r, s)
        }
        _ => false,
    }
}

// 9 or 10; none where nothing is refused.
fn refusal_of(x: ModelItem, y: ModelItem, n: usize, i: usize, j: usize) -> Option<u64> {
    if !is_item(i, n) || !is_item(j, n) || i == j {
        Some(9)
    } else if may_pair(x) && may_pair(y) {
        None
    } else {
        Some(10)
    }
}

fn agrees(r: Result<Option<(i64, i64)>, Refusal>, p: Model, n: usize, i: usize, j: usize) -> bool {
    let x = item_numbered(p, i);
    let y = item_numbered(p, j);
    match (r, refusal_of(x, y, n, i, j)) {
        (Err(f), Some(number)) => f.number == number && f.line == 0,
        (Ok(q), None) => is_least(q, x, y),
        _ => false,
    }
}

// ---- counts

#[derive(Clone, Copy)]
struct Tally {
    nine: u64,
    ten: u64,
    missing: u64,
    steps: u64,
    wrong: u64,
}

fn is_refused(r: Result<Option<(i64, i64)>, Refusal>, number: u64) -> bool {
    matches!(r, Err(f) if f.number == number)
}

fn tallied(t: Tally, r: Result<Option<(i64, i64)>, Refusal>, right: bool) -> Tally {
    Tally {
        nine: one_more(t.nine, is_refused(r, 9)),
        ten: one_more(t.ten, is_refused(r, 10)),
        missing: one_more(t.missing, matches!(r, Ok(None))),
        steps: one_more(t.steps, matches!(r, Ok(Some((_, _))))),
        wrong: one_more(t.wrong, !right),
    }
}

fn print_wrong(p: Model, i: usize, j: usize) {
    print(b"disagreement: ");
    print_problem(p);
    print_count(b"; items ", i as u64);
    print_count(b" and ", j as u64);
    print(b"\n");
}

// The reply in a sense, held to the record whose weights are known, each at that end.
fn agrees_at(m: Model, sense: Sense, ends: u64, n: usize, i: usize, j: usize) -> bool
    requires { n ≤ 15 }
{
    agrees(least_pair(m, sense, i, j), at_ends(m, ends), n, i, j)
}

// Both senses of the record with ranges drawn for it (paper 02, request 11).
fn senses_agree(p: Model, n: usize, i: usize, j: usize) -> bool
    requires { n ≤ 15 }
{
    let d = with_drawn_ranges(p, next(size_of(p.capacity)), 1, 4);
    let m = d.problem;
    agrees_at(m, Sense::Sure, 65535, n, i, j) && agrees_at(m, Sense::Possible, 0, n, i, j)
}

fn tried(t: Tally, p: Model, n: usize, i: usize, j: usize) -> Tally
    requires { n ≤ 15 }
{
    let r = least_pair(p, Sense::Sure, i, j);
    let right = agrees(r, p, n, i, j) && (is_refused(r, 9) || senses_agree(p, n, i, j));
    if !right {
        print_wrong(p, i, j);
    }
    tallied(t, r, right)
}

// Item numbers 0 to n + 1, as the second and as the first.
fn with_seconds(start: Tally, p: Model, n: usize, i: usize) -> Tally
    requires { n ≤ 15 }
{
    let mut t = start;
    for j in 0..n + 2 {
        t = tried(t, p, n, i, j);
    }
    t
}

fn with_problem(start: Tally, p: Model, n: usize) -> Tally
    requires { n ≤ 15 }
{
    let mut t = start;
    for i in 0..n + 2 {
        t = with_seconds(t, p, n, i);
    }
    t
}

// Small figures; of four bounds one is absent, of four items one continuous, and of eight pairs of bounds one crosses.
fn spans() -> Spans {
    Spans {
        weight: 4,
        price: 5,
        bound: 20,
        capacity: 12,
        unit: 1,
        absent: 1,
        loose: 1,
        crossing: 1,
    }
}

// What all pairs of so many problems of n items each come to.
fn tally_of(seed: u64, problems: u64, n: usize) -> Tally
    requires { n ≤ 15 }
{
    let mut t = Tally {
        nine: 0,
        ten: 0,
        missing: 0,
        steps: 0,
        wrong: 0,
    };
    let mut state = seed;
    for _ in 0..problems {
        let d = drawn_problem(state, n, spans());
        t = with_problem(t, d.problem, n);
        state = d.state;
    }
    t
}

fn drawn(seed: u64, problems: u64, n: usize)
    requires { n ≤ 15 }
{
    let t = tally_of(seed, problems, n);
    print_count(b"pairs, seed ", seed);
    print_count(b", items ", n as u64);
    print_count(b", problems ", problems);
    print_count(b": refused 9 ", t.nine);
    print_count(b", refused 10 ", t.ten);
    print_count(b", none ", t.missing);
    print_count(b", steps ", t.steps);
    print_count(b"; disagreements ", t.wrong);
    print(b"\n");
}

pub fn show_pairs() {
    drawn(41, 6000, 2);
    drawn(42, 4000, 3);
    drawn(43, 2000, 4);
}
