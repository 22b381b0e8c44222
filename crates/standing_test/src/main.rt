// Standing plans (paper 02, request 10) through long drawn runs of changes. Each change is held to a plain twin (twin.rt): the verdict, and the record that
// is left. An accepted one is held to that record solved afresh, in kind and value, and in full where every item has a lower bound, and where points are few
// to plain enumeration of them. A refused one has to leave the plan as it was. `disagreements` counts the changes for which one of these fails.
#![tactic(auto)]

mod draw; // changes from a seed
mod same; // records and answers beside one another
mod twin; // the changes, made plainly

ghost use Rattle.std.specs.Prelude.{◌≤◌};

use crate::draw::{Change, drawn_change};
use crate::same::{alike, same_problem};
use crate::twin::{Twin, number_told, twin_of};
use knapsack::Answer;
use model::{Answers, Model, ModelItem, Sense, setters};
use planner::plan;
use standing::{Changed, Plan, add_item, open, remove_item, set_upper};
use trials::count::{one_more, print_count};
use trials::draw::{Spans, drawn_problem};
use trials::make::{first_of, from_zero, held, needing, one, two};
use trials::needs::with_drawn_needs;
use trials::outcome::{Outcome, is_allowed, outcome_of};
use trials::print::{print, print_field, print_kind, print_problem};
use trials::ranges::at_ends;
use trials::tally::{Tally, no_answers, tallied};

const REACH: i64 = 20;

// ---- chosen changes

fn print_plan(p: Plan) {
    let m = p.model;
    let both = p.answers;
    let b = both.possible;
    print_problem(m);
    print_count(b", needs ", m.needs.count as u64);
    print(b": ");
    print_kind(both.sure);
    print(b" and ");
    print_kind(b);
    print(b"\n");
}

// What a change is told, and the plan after it.
fn show(name: &[u8], r: Changed) -> Plan {
    let p = r.plan;
    print(name);
    match number_told(r.verdict) {
        None => print(b": "),
        Some(n) => {
            print_count(b": refused ", n);
            print(b", still ");
        }
    }
    print_plan(p);
    p
}

// Sheet F of paper 01, its items coming and going.
fn chosen() {
    let p = show(b"open", open(two(10, held(3, 5, 0, 10), held(4, 6, 0, 10))));
    let q = show(b"remove 1", remove_item(p, 1));
    let r = show(b"remove 2", remove_item(q, 2));
    let s = show(b"remove 1", remove_item(r, 1));
    let t = show(b"upper 1, 1", set_upper(s, 1, Some(1)));
    let u = show(b"upper 0, 1", set_upper(t, 0, Some(1)));
    let v = show(b"upper 1, none", set_upper(u, 1, None));
    let w = show(b"add", add_item(v, from_zero(-1, 0)));
    let x = show(b"add blank", add_item(w, from_zero(0, 0)));
    let y = show(b"upper 2, 10001", set_upper(x, 2, Some(10001)));
    show(b"upper 2, -1", set_upper(y, 2, Some(-1)));
}

// A need goes with either of its items, moves with both, and holds on to an upper bound.
fn chosen_needs() {
    let m = needing(
        first_of(
            12,
            3,
            held(3, 5, 0, 10),
            held(4, 6, 0, 10),
            held(1, -100, 0, 1),
        ),
        0,
        2,
        3,
    );
    let p = show(b"open", open(m));
    show(b"upper 2, none", set_upper(p, 2, None));
    show(b"remove 3", remove_item(p, 3));
    show(b"remove 2", remove_item(p, 2));
    show(b"remove 1", remove_item(p, 1));
}

fn ranged(low: i64, high: i64, lower: i64) -> ModelItem {
    let mut x = held(low, 5, lower, 10);
    x.high = high;
    x
}

// Weights within a range: the two answers differ, and refusals 19 and 20 are the changed record's.
fn chosen_ranges() {
    let p = show(b"open", open(one(10, held(4, 6, 0, 10))));
    let q = show(b"add 3:5", add_item(p, ranged(3, 5, 0)));
    show(b"add 5:3", add_item(q, ranged(5, 3, 0)));
    show(b"add 3:5, lower -1", add_item(q, ranged(3, 5, -1)));
    show(b"upper 2, 1", set_upper(q, 2, Some(1)));
    show(b"remove 1", remove_item(q, 1));
}

// Plans that did not come from the planner: their records are tried first, their answers play no part.
fn chosen_strange() {
    let p = open(one(4, held(3, 5, 0, 10)));
    let q = p.plan;
    let a = q.answers;
    let m = q.model;
    let none = setters::with_count(m, 0);
    let many = setters::with_count(m, 17);
    let other = one(7, held(3, 5, 0, 10));
    show(
        b"no items, remove 1",
        remove_item(
            Plan {
                model: none,
                answers: a,
            },
            1,
        ),
    );
    show(
        b"17 items, add",
        add_item(
            Plan {
                model: many,
                answers: a,
            },
            held(1, 1, 0, 1),
        ),
    );
    show(
        b"another answer, upper 1, 9",
        set_upper(
            Plan {
                model: other,
                answers: a,
            },
            1,
            Some(9),
        ),
    );
    show(b"open, refused", open(none));
}

// ---- one change

fn change_of(p: Plan, c: Change) -> Changed {
    match c {
        Change::Add(x) => add_item(p, x),
        Change::Remove(k) => remove_item(p, k),
        Change::SetUpper(k, u) => set_upper(p, k, u),
    }
}

// Without enumeration, of many items.
fn shown_outcome(m: Model, a: Answer) -> Outcome {
    Outcome {
        agrees: is_allowed(m, a),
        met: false,
    }
}

// How runs are made: no more than so many items are added; points are enumerated; every bound is present.
#[derive(Clone, Copy)]
struct Manner {
    most: usize,
    few: bool,
    closed: bool,
}

// The weights of m are known.
fn judged(m: Model, a: Answer, w: Manner) -> Outcome {
    let n = m.count;
    if 15 < n || !w.few {
        return shown_outcome(m, a);
    }
    outcome_of(m, a, n, REACH, w.closed)
}

// The sure answer with every weight at its high end, the possible one with every weight at its low one.
fn judged_both(m: Model, a: Answers, w: Manner) -> Outcome {
    let high = judged(at_ends(m, 65535), a.sure, w);
    let low = judged(at_ends(m, 0), a.possible, w);
    Outcome {
        agrees: high.agrees && low.agrees,
        met: high.met,
    }
}

// The answer is that of the record solved afresh.
fn is_fresh_in(m: Model, sense: Sense, a: Answer, w: Manner) -> bool {
    let b = plan(m, sense);
    if w.closed { a == b } else { alike(a, b) }
}

fn is_fresh(m: Model, a: Answers, w: Manner) -> bool {
    is_fresh_in(m, Sense::Sure, a.sure, w) && is_fresh_in(m, Sense::Possible, a.possible, w)
}

// What the changes of a family come to.
#[derive(Clone, Copy)]
struct Seen {
    answers: Tally,
    figure: u64,
    named: u64,
    blank: u64,
    full: u64,
    missing: u64,
    only: u64,
    reversed: u64,
    ranged: u64,
    other: u64,
    wrong: u64,
}

fn seen_none() -> Seen {
    let answers = no_answers();
    Seen {
        answers,
        figure: 0,
        named: 0,
        blank: 0,
        full: 0,
        missing: 0,
        only: 0,
        reversed: 0,
        ranged: 0,
        other: 0,
        wrong: 0,
    }
}

fn is_listed(n: u64) -> bool {
    matches!(n, 4 | 14..=20)
}

fn with_refusal(s: Seen, n: u64, wrong: bool) -> Seen {
    Seen {
        answers: s.answers,
        figure: one_more(s.figure, n == 4),
        named: one_more(s.named, n == 14),
        blank: one_more(s.blank, n == 15),
        full: one_more(s.full, n == 16),
        missing: one_more(s.missing, n == 17),
        only: one_more(s.only, n == 18),
        reversed: one_more(s.reversed, n == 19),
        ranged: one_more(s.ranged, n == 20),
        other: one_more(s.other, !is_listed(n)),
        wrong: one_more(s.wrong, wrong),
    }
}

fn with_answer(s: Seen, a: Answer, o: Outcome) -> Seen {
    Seen {
        answers: tallied(s.answers, a.kind, o),
        ..s
    }
}

fn refused_rightly(p: Plan, r: Changed, t: Twin) -> bool {
    number_told(r.verdict) == t.number && p == r.plan
}

fn judged_change(s: Seen, p: Plan, r: Changed, t: Twin, w: Manner) -> Seen {
    if let Some(n) = number_told(r.verdict) {
        return with_refusal(s, n, !refused_rightly(p, r, t));
    }
    let q = r.plan;
    let m = t.model;
    let both = q.answers;
    let j = judged_both(m, both, w);
    let agrees = t.number.is_none() && same_problem(m, q.model) && is_fresh(m, both, w) && j.agrees;
    with_answer(s, both.sure, Outcome { agrees, met: j.met })
}

// ---- runs of changes

#[derive(Clone, Copy)]
struct Run {
    plan: Plan,
    seen: Seen,
    state: u64,
}

// Plans of runs have at most 16 items.
fn size_of(m: Model) -> usize
    ensures { result ≤ 16 }
{
    m.count.min(16)
}

fn stepped(x: Run, w: Manner, z: Spans) -> Run {
    let p = x.plan;
    let m = p.model;
    let d = drawn_change(x.state, size_of(m), w.most, z);
    let r = change_of(p, d.change);
    let seen = judged_change(x.seen, p, r, twin_of(m, d.change), w);
    Run {
        plan: r.plan,
        seen,
        state: d.state,
    }
}

// From a drawn problem of so many items, with needs.
fn begun(s: Seen, state: u64, n: usize, among: u64, z: Spans) -> Run {
    let d = drawn_problem(state, n, z);
    let e = with_drawn_needs(d.problem, d.state, among);
    let r = open(e.problem);
    Run {
        plan: r.plan,
        seen: s,
        state: e.state,
    }
}

fn run_of(x: Run, changes: u64, w: Manner, z: Spans) -> Run {
    let mut now = x;
    for _ in 0..changes {
        now = stepped(now, w, z);
    }
    now
}

fn runs_of(seed: u64, runs: u64, changes: u64, n: usize, among: u64, w: Manner, z: Spans) -> Seen {
    let mut seen = seen_none();
    let mut state = seed;
    for _ in 0..runs {
        let b = begun(seen, state, n, among, z);
        let r = run_of(b, changes, w, z);
        seen = r.seen;
        state = r.state;
    }
    seen
}

fn print_seen(s: Seen) {
    let t = s.answers;
    print_count(b": best ", t.best);
    print_count(b" (met ", t.met);
    print_count(b"), infeasible ", t.infeasible);
    print_count(b", unbounded ", t.unbounded);
    print(b"; refused 4, 14 to 20, others:");
    print_field(s.figure);
    print_field(s.named);
    print_field(s.blank);
    print_field(s.full);
    print_field(s.missing);
    print_field(s.only);
    print_field(s.reversed);
    print_field(s.ranged);
    print_field(s.other);
    print_count(b"; disagreements ", t.wrong);
    print_count(b" and ", s.wrong);
    print(b"\n");
}

fn drawn(
    name: &[u8],
    seed: u64,
    runs: u64,
    changes: u64,
    n: usize,
    among: u64,
    w: Manner,
    z: Spans,
) {
    print(name);
    print_count(b", seed ", seed);
    print_count(b", runs ", runs);
    print_count(b" of changes ", changes);
    print_seen(runs_of(seed, runs, changes, n, among, w, z));
}

// Of eight pairs of bounds so many cross.
fn small(absent: u64, loose: u64, crossing: u64) -> Spans {
    Spans {
        weight: 3,
        price: 4,
        bound: 2,
        capacity: 9,
        unit: 1,
        absent,
        loose,
        crossing,
    }
}

fn manner_of(most: usize, few: bool, closed: bool) -> Manner {
    Manner { most, few, closed }
}

fn main() {
    chosen();
    chosen_needs();
    chosen_ranges();
    chosen_strange();
    drawn(
        b"integer",
        1,
        20,
        100,
        3,
        3,
        manner_of(4, true, true),
        small(0, 0, 1),
    );
    drawn(
        b"mixed",
        2,
        20,
        100,
        3,
        3,
        manner_of(4, true, true),
        small(0, 2, 1),
    );
    drawn(
        b"one item",
        3,
        20,
        50,
        1,
        3,
        manner_of(2, true, true),
        small(0, 1, 1),
    );
    drawn(
        b"open",
        4,
        20,
        100,
        3,
        3,
        manner_of(3, true, false),
        small(2, 2, 1),
    );
    drawn(
        b"needs",
        5,
        200,
        8,
        5,
        2,
        manner_of(5, true, true),
        small(0, 0, 0),
    );
    drawn(
        b"needs, open",
        6,
        200,
        8,
        4,
        2,
        manner_of(4, true, false),
        small(1, 1, 0),
    );
    drawn(
        b"many items",
        7,
        10,
        60,
        15,
        15,
        manner_of(17, false, true),
        small(0, 1, 0),
    );
    drawn(
        b"many items, open",
        8,
        10,
        60,
        15,
        15,
        manner_of(17, false, false),
        small(1, 1, 0),
    );
}
