// Weights known within ranges (paper 02, request 11): drawn problems with ranges, planned in both senses and held to plain enumeration at every corner,
// where each weight is known and stands at one end of its range, and at weights drawn inside the ranges. Amounts of such items are at least 0, so that the
// corners decide.
//   sure       its point fits at every corner and at all weights drawn, and at some corner nothing is better; or at some corner nothing fits
//   possible   its point fits at some corner, and at every corner nothing is better; or at every corner nothing fits
// Of an unbounded reply the steps are a ray where the point has to fit. The two kinds are one of six pairs, and where both are best the sure value is
// no greater.
ghost use Rattle.std.specs.Prelude.{◌≤◌};

use knapsack::{Answer, Kind};
use model::{Model, Sense, beyond};
use planner::plan;
use trials::count::{one_more, print_count};
use trials::draw::{DrawnProblem, Spans, drawn_problem, small};
use trials::enumerate::{best_value, is_above};
use trials::exact::{Ratio, is_less, ratio_of};
use trials::holds::{fits, leads_on};
use trials::needs::with_drawn_needs;
use trials::outcome::{is_allowed, shut_problem};
use trials::print::{print, print_kind, print_problem};
use trials::ranges::{at_drawn, at_ends, with_drawn_ranges};

const REACH: i64 = 20;

// ---- one answer at the corners

// What has been seen of an answer: it holds at every corner and inside, at some corner; nothing better is there at every corner, at some.
#[derive(Clone, Copy)]
struct Seen {
    held: bool,
    once_held: bool,
    unbeaten: bool,
    once_unbeaten: bool,
}

// A start that is farther off than plain sums go. The point check has allowed it at the ends of its sense. No problem here has more than three items.
fn is_far_off(a: Answer) -> bool {
    a.point[..3].iter().any(|x| beyond(x.p, 1000000))
}

fn holds_at(m: Model, a: Answer) -> bool {
    match a.kind {
        Kind::Optimal => fits(m, a),
        Kind::Infeasible => true,
        Kind::Unbounded => leads_on(m, a) && (is_far_off(a) || fits(m, a)),
        Kind::Refused(_) => false,
    }
}

fn is_unbeaten(a: Answer, b: Option<Ratio>) -> bool {
    match a.kind {
        Kind::Optimal => !is_above(b, ratio_of(a.value)),
        Kind::Infeasible => b.is_none(),
        Kind::Unbounded => true,
        Kind::Refused(_) => false,
    }
}

// At a corner, and at weights inside the ranges, which a sure answer may not break either.
fn with_corner(s: Seen, m: Model, inside: Model, n: usize, a: Answer) -> Seen
    requires { n ≤ 15 }
{
    let holds = holds_at(m, a);
    let between = holds_at(inside, a);
    let best = is_unbeaten(a, best_value(shut_problem(m, n, REACH), n));
    Seen {
        held: s.held && holds && between,
        once_held: s.once_held || holds,
        unbeaten: s.unbeaten && best,
        once_unbeaten: s.once_unbeaten || best,
    }
}

// At so many corners of a problem.
fn seen_of(m: Model, n: usize, a: Answer, corners: u64) -> Seen
    requires { n ≤ 15 }
{
    let mut s = Seen {
        held: true,
        once_held: false,
        unbeaten: true,
        once_unbeaten: false,
    };
    for e in 0..corners {
        s = with_corner(s, at_ends(m, e), at_drawn(m, e), n, a);
    }
    s
}

fn is_sure(s: Seen) -> bool {
    s.held && s.once_unbeaten
}

fn is_possible(s: Seen) -> bool {
    s.once_held && s.unbeaten
}

// ---- both answers

// Best beside best, infeasible beside infeasible, unbounded beside unbounded, infeasible beside best and beside unbounded, best beside unbounded.
#[derive(Clone, Copy, PartialEq)]
enum Pair {
    Best,
    Infeasible,
    Unbounded,
    OnlyPossible,
    Grows,
    Opens,
}

// How often each has been met; and problems on which something fails.
#[derive(Clone, Copy)]
struct Pairs {
    best: u64,
    infeasible: u64,
    unbounded: u64,
    only_possible: u64,
    grows: u64,
    opens: u64,
    greater: u64,
    wrong: u64,
}

// The kinds of the sure and of the possible answer, where they can stand side by side.
fn pair_of(a: Answer, b: Answer) -> Option<Pair> {
    match (a.kind, b.kind) {
        (Kind::Optimal, Kind::Optimal) => Some(Pair::Best),
        (Kind::Infeasible, Kind::Infeasible) => Some(Pair::Infeasible),
        (Kind::Unbounded, Kind::Unbounded) => Some(Pair::Unbounded),
        (Kind::Infeasible, Kind::Optimal) => Some(Pair::OnlyPossible),
        (Kind::Infeasible, Kind::Unbounded) => Some(Pair::Grows),
        (Kind::Optimal, Kind::Unbounded) => Some(Pair::Opens),
        _ => None,
    }
}

fn is_worth_less(a: Answer, b: Answer) -> bool {
    is_less(ratio_of(a.value), ratio_of(b.value))
}

fn counted(p: Pairs, pair: Option<Pair>, less: bool, right: bool) -> Pairs {
    Pairs {
        best: one_more(p.best, pair == Some(Pair::Best)),
        infeasible: one_more(p.infeasible, pair == Some(Pair::Infeasible)),
        unbounded: one_more(p.unbounded, pair == Some(Pair::Unbounded)),
        only_possible: one_more(p.only_possible, pair == Some(Pair::OnlyPossible)),
        grows: one_more(p.grows, pair == Some(Pair::Grows)),
        opens: one_more(p.opens, pair == Some(Pair::Opens)),
        greater: one_more(p.greater, pair == Some(Pair::Best) && less),
        wrong: one_more(p.wrong, !right),
    }
}

fn print_wrong(m: Model, a: Answer, b: Answer) {
    print(b"disagreement: ");
    print_problem(m);
    print(b": ");
    print_kind(a);
    print(b", ");
    print_kind(b);
    print(b"\n");
}

fn tried(p: Pairs, m: Model, n: usize, corners: u64) -> Pairs
    requires { n ≤ 15 }
{
    let a = plan(m, Sense::Sure);
    let b = plan(m, Sense::Possible);
    let pair = pair_of(a, b);
    let sure = is_sure(seen_of(m, n, a, corners));
    let possible = is_possible(seen_of(m, n, b, corners));
    let order = pair != Some(Pair::Best) || !is_worth_less(b, a);
    // Each over the divisors of its sense, by the record with that sense's weights alone.
    let allowed = is_allowed(at_ends(m, 65535), a) && is_allowed(at_ends(m, 0), b);
    let right = sure && possible && order && pair.is_some() && allowed;
    if !right {
        print_wrong(m, a, b);
    }
    counted(p, pair, is_worth_less(a, b), right)
}

// ---- many

fn no_pairs() -> Pairs {
    Pairs {
        best: 0,
        infeasible: 0,
        unbounded: 0,
        only_possible: 0,
        grows: 0,
        opens: 0,
        greater: 0,
        wrong: 0,
    }
}

// Of the items about half get a range; with needs where among is above 0.
fn drawn_ranges(state: u64, n: usize, among: u64, z: Spans) -> DrawnProblem {
    let d = drawn_problem(state, n, z);
    let r = with_drawn_ranges(d.problem, d.state, 1, z.weight);
    if among == 0 {
        return r;
    }
    with_drawn_needs(r.problem, r.state, among)
}

fn pairs_of(seed: u64, problems: u64, n: usize, among: u64, z: Spans, corners: u64) -> Pairs
    requires { n ≤ 15 }
{
    let mut p = no_pairs();
    let mut state = seed;
    for _ in 0..problems {
        let d = drawn_ranges(state, n, among, z);
        p = tried(p, d.problem, n, corners);
        state = d.state;
    }
    p
}

fn print_pairs(p: Pairs) {
    print_count(b": best ", p.best);
    print_count(b" (greater ", p.greater);
    print_count(b"), infeasible ", p.infeasible);
    print_count(b", unbounded ", p.unbounded);
    print_count(b", infeasible and best ", p.only_possible);
    print_count(b", infeasible and unbounded ", p.grows);
    print_count(b", best and unbounded ", p.opens);
    print_count(b"; disagreements ", p.wrong);
    print(b"\n");
}

fn drawn(name: &[u8], seed: u64, problems: u64, n: usize, among: u64, z: Spans, corners: u64)
    requires { n ≤ 15 }
{
    let p = pairs_of(seed, problems, n, among, z, corners);
    print(name);
    print_count(b", seed ", seed);
    print_count(b", problems ", problems);
    print_count(b", items ", n as u64);
    print_pairs(p);
}

pub fn show_senses() {
    drawn(b"ranges, integer", 51, 1000, 1, 0, small(0, 0), 2);
    drawn(b"ranges, integer", 52, 1000, 2, 0, small(0, 0), 4);
    drawn(b"ranges, integer", 53, 1000, 3, 0, small(0, 0), 8);
    drawn(b"ranges, mixed", 54, 1000, 2, 0, small(0, 2), 4);
    drawn(b"ranges, mixed", 55, 1000, 3, 0, small(0, 2), 8);
    drawn(b"ranges, open", 56, 1000, 1, 0, small(2, 2), 2);
    drawn(b"ranges, open", 57, 1000, 2, 0, small(2, 2), 4);
    drawn(b"ranges, open", 58, 500, 3, 0, small(1, 2), 8);
    drawn(b"ranges, needs", 59, 500, 3, 2, small(0, 1), 8);
}
