// Plans problems in which every item has a lower bound, and holds each best point to plain enumeration: of all best points the planner shows the one
// that comes first (paper 02, "Always the same charge"). A problem on which the two disagree is printed. Absent upper bounds are closed at the reach for
// the enumeration; `met` counts the points shown that it has.
#![tactic(auto)]

ghost use Rattle.std.specs.Prelude.{◌≤◌};

use knapsack::{Answer, Kind};
use model::{Model, ModelItem, Sense};
use planner::plan_within;
use solver::STEPS;
use trials::count::{one_more, print_count};
use trials::draw::{Spans, drawn_problem};
use trials::make::{first_of, from_zero, held, loose, two};
use trials::outcome::shut_problem;
use trials::points::judge;
use trials::print::{print, print_kind, print_problem, print_three};

const REACH: i64 = 16;

// ---- chosen problems

fn show(p: Model) {
    print_problem(p);
    let a = plan_within(p, Sense::Sure, STEPS);
    print(b": ");
    print_kind(a);
    print(b":");
    print_three(a);
    print(b"\n");
}

// A continuous item before an integer one; the last best point; one that only the last item tells apart; against the order of filling; fallen as far as
// the room allows; weightless, or worth nothing; an upper bound that is absent.
fn chosen() {
    let x = held(1, 1, 0, 5);
    show(two(3, loose(x), x));
    show(two(3, x, loose(x)));
    show(first_of(4, 3, x, x, loose(x)));
    show(first_of(3, 3, held(2, 4, 0, 1), held(1, 2, 0, 2), held(3, 6, 0, 1)));
    show(two(4, loose(held(-2, 0, 0, 3)), held(1, 1, 0, 9)));
    show(two(1, held(0, -1, -2, 2), loose(held(1, 0, -1, 4))));
    show(two(2, from_zero(3, 3), from_zero(-2, -2)));
}

// ---- drawn problems

#[derive(Clone, Copy)]
struct Counts {
    best: u64,
    met: u64,
    wrong: u64,
}

fn with_lower(x: ModelItem) -> ModelItem {
    let lower = x.lower.or(Some(-1));
    ModelItem { lower, ..x }
}

// With a lower bound for each of the first n items.
fn lowered(p: Model, n: usize) -> Model
    requires { n ≤ 15 }
{
    let mut q = p;
    for x in &mut q.items[..n] {
        *x = with_lower(*x);
    }
    q
}

fn print_wrong(p: Model, a: Answer) {
    print(b"disagreement: ");
    print_problem(p);
    print(b": ");
    print_kind(a);
    print_three(a);
    print(b"\n");
}

// One problem more. Where upper bounds are absent, the first best points of some are beyond the reach.
fn tried(c: Counts, p: Model, n: usize, open: bool, most: u64) -> Counts
    requires { n ≤ 15 }
{
    let a = plan_within(p, Sense::Sure, most);
    if a.kind != Kind::Optimal {
        return c;
    }
    let j = judge(shut_problem(p, n, REACH), a, n);
    let held = j.met || open;
    let wrong = j.beaten || !held;
    if wrong {
        print_wrong(p, a);
    }
    Counts {
        best: one_more(c.best, true),
        met: one_more(c.met, j.met),
        wrong: one_more(c.wrong, wrong),
    }
}

fn counts_of(seed: u64, problems: u64, n: usize, z: Spans, most: u64) -> Counts
    requires { n ≤ 15 }
{
    let open = z.absent > 0;
    let mut c = Counts {
        best: 0,
        met: 0,
        wrong: 0,
    };
    let mut state = seed;
    for _ in 0..problems {
        let d = drawn_problem(state, n, z);
        c = tried(c, lowered(d.problem, n), n, open, most);
        state = d.state;
    }
    c
}

// Small figures and few ratios, so that best points are many. No bounds cross.
fn small(absent: u64, loose: u64) -> Spans {
    Spans {
        weight: 3,
        price: 3,
        bound: 3,
        capacity: 9,
        unit: 1,
        absent: absent,
        loose: loose,
        crossing: 0,
    }
}

fn drawn(name: &[u8], most: u64, seed: u64, n: usize, z: Spans)
    requires { n ≤ 15 }
{
    let c = counts_of(seed, 1000, n, z, most);
    print(name);
    print_count(b", seed ", seed);
    print_count(b", items ", n as u64);
    print_count(b": best ", c.best);
    print_count(b" (met ", c.met);
    print_count(b"); disagreements ", c.wrong);
    print(b"\n");
}

fn shut_problems() {
    drawn(b"integer", STEPS, 1, 2, small(0, 0));
    drawn(b"integer", STEPS, 2, 3, small(0, 0));
    drawn(b"integer", STEPS, 3, 4, small(0, 0));
    drawn(b"mixed", STEPS, 4, 2, small(0, 2));
    drawn(b"mixed", STEPS, 5, 3, small(0, 2));
    drawn(b"mixed", STEPS, 6, 4, small(0, 2));
    drawn(b"continuous", STEPS, 7, 4, small(0, 4));
    drawn(b"no steps, mixed", 0, 8, 4, small(0, 2));
}

fn open_problems() {
    drawn(b"integer, open", STEPS, 11, 2, small(2, 0));
    drawn(b"integer, open", STEPS, 12, 3, small(1, 0));
    drawn(b"mixed, open", STEPS, 13, 2, small(2, 2));
    drawn(b"mixed, open", STEPS, 14, 3, small(1, 2));
    drawn(b"no steps, mixed, open", 0, 15, 3, small(1, 2));
}

fn main() {
    chosen();
    shut_problems();
    open_problems();
}
