// Plans problems in which items need others (paper 02, "One item needs another"), and holds each reply to plain enumeration of the points that keep the
// needs: its kind, its value and, where every item has a lower bound, that no point worth as much comes before the one shown. The best point of the
// same problem without its needs is tried by the point check, which names the first line that it breaks. A problem on which they disagree is printed.
#![tactic(auto)]

mod check; // the point check beside a plain one

ghost use Rattle.std.specs.Prelude.{◌≤◌};

use crate::check::check_holds;
use knapsack::{Answer, Kind};
use model::{Model, Need, Sense};
use planner::plan_within;
use solver::STEPS;
use trials::count::print_count;
use trials::draw::{Spans, drawn_problem};
use trials::make::{first_of, from_zero, held, needing, two};
use trials::needs::with_drawn_needs;
use trials::outcome::{Outcome, outcome_of, shut_problem};
use trials::points::judge;
use trials::print::{print, print_kind, print_problem, print_three};
use trials::tally::{Tally, no_answers, print_tally, tallied};

const REACH: i64 = 20;

// ---- chosen problems

fn print_need(need: Need) {
    print_count(b", ", need.item as u64);
    print_count(b" needs ", need.cover as u64);
}

fn print_needs(p: Model) {
    for need in p.needs.lines.iter().take(p.needs.count) {
        print_need(*need);
    }
}

fn show(p: Model) {
    print_problem(p);
    print_needs(p);
    let a = plan_within(p, Sense::Sure, STEPS);
    print(b": ");
    print_kind(a);
    print(b":");
    print_three(a);
    print(b"\n");
}

// The two on which a pair with a named item would discard the best point, least and of equal value; the lightest point breaks the
// need; nothing keeps it; a chain; a cycle; a ray beside a need.
fn chosen() {
    show(needing(
        first_of(
            12,
            3,
            held(3, 5, 0, 10),
            held(4, 6, 0, 10),
            held(1, -100, 0, 1),
        ),
        0,
        1,
        3,
    ));
    show(needing(
        first_of(3, 3, held(1, 1, 0, 3), held(1, 1, 0, 3), held(1, -5, 0, 1)),
        0,
        2,
        3,
    ));
    show(needing(two(10, held(1, 1, 1, 5), held(1, -1, 0, 5)), 0, 1, 2));
    show(needing(two(1, held(1, 1, 1, 1), held(1, 1, 0, 1)), 0, 1, 2));
    show(needing(
        needing(
            first_of(3, 3, held(1, 9, 0, 3), held(1, 1, 0, 3), held(1, -1, 0, 3)),
            0,
            1,
            2,
        ),
        1,
        2,
        3,
    ));
    show(needing(
        needing(two(3, held(1, 2, 0, 3), held(1, 1, 0, 3)), 0, 1, 2),
        1,
        2,
        1,
    ));
    show(needing(
        first_of(2, 3, held(1, 5, 1, 2), held(1, -1, 0, 2), from_zero(-1, 1)),
        0,
        1,
        2,
    ));
}

// ---- drawn problems

// Whether the first n items have lower bounds.
fn all_lower(m: Model, n: usize) -> bool
    requires { n ≤ 15 }
{
    m.items[..n].iter().all(|x| x.lower.is_some())
}

// Whether the point shown is the first, where that is owed.
fn is_first(p: Model, a: Answer, n: usize) -> bool
    requires { n ≤ 15 }
{
    if a.kind != Kind::Optimal || !all_lower(p, n) {
        return true;
    }
    !judge(shut_problem(p, n, REACH), a, n).beaten
}

fn print_wrong(p: Model, a: Answer) {
    print(b"disagreement: ");
    print_problem(p);
    print_needs(p);
    print(b": ");
    print_kind(a);
    print_three(a);
    print(b"\n");
}

fn tried(t: Tally, p: Model, n: usize, open: bool, most: u64) -> Tally
    requires { n ≤ 15 }
{
    let a = plan_within(p, Sense::Sure, most);
    let o = outcome_of(p, a, n, REACH, !open);
    let agrees = o.agrees && is_first(p, a, n) && check_holds(p, most);
    if !agrees {
        print_wrong(p, a);
    }
    tallied(t, a.kind, Outcome { agrees, met: o.met })
}

// What so many problems of n items each come to; of among + 1 pairs of items about one is a need.
fn tally_of(seed: u64, problems: u64, n: usize, among: u64, z: Spans, most: u64) -> Tally
    requires { n ≤ 15 }
{
    let open = z.absent > 0;
    let mut t = no_answers();
    let mut state = seed;
    for _ in 0..problems {
        let d = drawn_problem(state, n, z);
        let e = with_drawn_needs(d.problem, d.state, among);
        t = tried(t, e.problem, n, open, most);
        state = e.state;
    }
    t
}

// Small figures and few ratios, so that best points are many; one pair of bounds in eight crosses.
fn small(absent: u64, loose: u64) -> Spans {
    Spans {
        weight: 3,
        price: 4,
        bound: 2,
        capacity: 9,
        unit: 1,
        absent: absent,
        loose: loose,
        crossing: 1,
    }
}

fn drawn(name: &[u8], most: u64, seed: u64, n: usize, among: u64, z: Spans)
    requires { n ≤ 15 }
{
    let t = tally_of(seed, 1000, n, among, z, most);
    print_tally(name, seed, 1000, n, t);
}

fn main() {
    chosen();
    drawn(b"integer", STEPS, 1, 2, 1, small(0, 0));
    drawn(b"integer", STEPS, 2, 3, 2, small(0, 0));
    drawn(b"integer", STEPS, 3, 4, 5, small(0, 0));
    drawn(b"integer", STEPS, 4, 5, 9, small(0, 0));
    drawn(b"mixed", STEPS, 5, 3, 3, small(0, 2));
    drawn(b"mixed", STEPS, 6, 4, 5, small(0, 2));
    drawn(b"mixed", STEPS, 7, 5, 9, small(0, 2));
    drawn(b"open", STEPS, 8, 3, 3, small(2, 2));
    drawn(b"open", STEPS, 9, 4, 5, small(1, 2));
    drawn(b"no steps, mixed", 0, 10, 4, 5, small(0, 2));
    drawn(b"no steps, open", 0, 11, 4, 5, small(1, 2));
}
