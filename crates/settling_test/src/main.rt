// Settles thousands of drawn small problems by the scales alone, and holds each to plain enumeration: the place found keeps the bounds, and the
// best value with its whole amounts is that of the problem; if none is found, no point tried is feasible. Each is settled twice, with nothing known
// and with a poor incumbent. A problem on which they disagree is printed.
#![tactic(auto)]

mod judge; // judge.rt: a place against enumeration

ghost use Rattle.std.specs.Prelude.{◌≡◌, true, false, ℕ, ◌≤◌, ◌<◌, length};
ghost use Rattle.arith.specs.Within.{Within};
ghost use Rattle.greedy.specs.Fill.{at};
ghost use Rattle.model.specs.Records.{FiguresInRange};
ghost use Rattle.setting.specs.Ready.{ReadySetting};
ghost use Rattle.ceiling.specs.Sizes.{Spanned};
ghost use Rattle.settling.specs.Settling.{Tried};

use arith::Mixed;
use greedy::{bound_of, fill_up};
use judge::agrees;
use knapsack::Problem;
use model::{Model, Sense};
use prepare::prepare;
use setting::{Setting, fixed};
use settling::{Settled, settle};
use trials::count::{one_more, print_count};
use trials::draw::{Spans, drawn_problem, small};
use trials::print::{print, print_problem};

// How many problems were settled, have no feasible point, have bounds that cross, and are answered wrongly; and the most cells written.
#[derive(Clone, Copy)]
struct Tally {
    best: u64,
    infeasible: u64,
    crossed: u64,
    wrong: u64,
    most: u64,
}

fn nothing_yet() -> Tally {
    Tally {
        best: 0,
        infeasible: 0,
        crossed: 0,
        wrong: 0,
        most: 0,
    }
}

// One problem more that was settled.
fn tallied(t: Tally, found: bool, agreed: bool, written: u64) -> Tally {
    Tally {
        best: one_more(t.best, found),
        infeasible: one_more(t.infeasible, !found),
        crossed: t.crossed,
        wrong: one_more(t.wrong, !agreed),
        most: t.most.max(written),
    }
}

// One more that was not: its bounds cross, or it is none that is drawn here.
fn passed_over(t: Tally, crossed: bool) -> Tally {
    Tally {
        best: t.best,
        infeasible: t.infeasible,
        crossed: one_more(t.crossed, crossed),
        wrong: one_more(t.wrong, !crossed),
        most: t.most,
    }
}

// ---- ends that are near, as those of problems with every bound

fn is_near(z: i64) -> bool
    ensures { result ≡ true → Within 10000 z }
{
    -10000 <= z && z <= 10000
}

fn are_near(xs: [i64; 16], n: usize) -> bool
    requires { n ≤ 16 }
    ensures { result ≡ true → (k : ℕ) → k < n → Within 10000 (at xs k) }
{
    for k in 0..n {
        if !is_near(xs[k]) {
            return false;
        }
    }
    true
}

fn is_narrow(s: Setting) -> bool
    requires { ReadySetting s }
    ensures { result ≡ true → Spanned s.cols s.ends }
{
    let n = s.cols.count;
    are_near(s.ends.lo, n) && are_near(s.ends.hi, n)
}

// ---- incumbents: the place where every level stands at its lower end

// What its filling is worth, if that is known.
#[derive(Clone, Copy)]
struct Incumbent {
    known: bool,
    value: Mixed,
}

fn nobody() -> Incumbent
    ensures { result.known ≡ false }
{
    let value = Mixed {
        whole: 0,
        part: 0,
        parts: 1,
    };
    Incumbent {
        known: false,
        value: value,
    }
}

// Known if it is feasible.
fn lowest(s: Setting) -> Incumbent
    requires { ReadySetting s }
    ensures { result.known ≡ true → Tried s.cols s.ends s.level s.levels (at s.low) result.value }
{
    let x = s.low;
    let e = fixed(s, x, s.levels);
    let f = fill_up(s.cols, e);
    let value = bound_of(s.cols, f);
    if f.room < 0 {
        return Incumbent {
            known: false,
            value: value,
        };
    }
    Incumbent {
        known: true,
        value: value,
    }
}

// ---- problems

fn settled(s: Setting, i: Incumbent, cells: &mut [u64]) -> Settled
    requires ready_setting { ReadySetting s × Spanned s.cols s.ends }
    requires tried { i.known ≡ true → Tried s.cols s.ends s.level s.levels (at s.low) i.value }
    requires in_bounds { 65535 ≤ length cells.old }
{
    let value = i.value;
    let x = s.low;
    let level = s.level;
    settle(s.cols, s.ends, level, s.levels, i.known, x, value, cells)
}

fn print_wrong(m: Model) {
    print(b"disagreement: ");
    print_problem(m);
    print(b"\n");
}

// A setting of a problem of n items.
fn judged(t: Tally, m: Model, n: usize, s: Setting, cells: &mut [u64]) -> Tally
    requires n_bound { (n ≤ 15) × (ReadySetting s × Spanned s.cols s.ends) }
    requires in_bounds { 65535 ≤ length cells.old }
{
    let alone = settled(s, nobody(), cells);
    let after = settled(s, lowest(s), cells);
    let level = s.level;
    let first = agrees(m, n, level, s.levels, alone.place);
    let second = agrees(m, n, level, s.levels, after.place);
    let good = first && second;
    if !good {
        print_wrong(m);
    }
    tallied(
        t,
        alone.place.is_some(),
        good,
        alone.written.max(after.written),
    )
}

fn answered(t: Tally, p: Problem, m: Model, n: usize, cells: &mut [u64]) -> Tally
    requires n_bound { (n ≤ 15) × FiguresInRange p }
    requires in_bounds { 65535 ≤ length cells.old }
{
    if model::some_crosses(p) {
        return passed_over(t, true);
    }
    let s = prepare(p);
    if is_narrow(s) {
        return judged(t, m, n, s, cells);
    }
    passed_over(t, false)
}

fn tried(t: Tally, m: Model, n: usize, cells: &mut [u64]) -> Tally
    requires n_bound { n ≤ 15 }
    requires in_bounds { 65535 ≤ length cells.old }
{
    match model::check_model(m) {
        Ok(()) => answered(t, model::plain_of(m, Sense::Sure), m, n, cells),
        Err(_) => passed_over(t, false),
    }
}

// What so many problems of n items each come to.
fn tally_of(seed: u64, problems: u64, n: usize, z: Spans, cells: &mut [u64]) -> Tally
    requires n_bound { n ≤ 15 }
    requires in_bounds { 65535 ≤ length cells.old }
{
    let mut t = nothing_yet();
    let mut state = seed;
    for _ in 0..problems {
        let d = drawn_problem(state, n, z);
        t = tried(t, d.problem, n, cells);
        state = d.state;
    }
    t
}

fn drawn(name: &[u8], seed: u64, problems: u64, n: usize, z: Spans, cells: &mut [u64])
    requires n_bound { n ≤ 15 }
    requires in_bounds { 65535 ≤ length cells.old }
{
    let t = tally_of(seed, problems, n, z, cells);
    print(name);
    print_count(b", seed ", seed);
    print_count(b", problems ", problems);
    print_count(b", items ", n as u64);
    print_count(b": best ", t.best);
    print_count(b", infeasible ", t.infeasible);
    print_count(b", crossed ", t.crossed);
    print_count(b"; disagreements ", t.wrong);
    print_count(b"; most cells ", t.most);
    print(b"\n");
}

// Greater weights and prices, so that frames differ and costs are cut at the cap.
fn wide(loose: u64) -> Spans {
    Spans {
        weight: 200,
        price: 300,
        bound: 3,
        capacity: 800,
        unit: 1,
        absent: 0,
        loose: loose,
        crossing: 1,
    }
}

fn main() {
    let mut cells = [0u64; 65535];
    drawn(b"integer", 1, 500, 1, small(0, 0), &mut cells);
    drawn(b"integer", 2, 4000, 2, small(0, 0), &mut cells);
    drawn(b"integer", 3, 4000, 4, small(0, 0), &mut cells);
    drawn(b"mixed", 4, 4000, 2, small(0, 2), &mut cells);
    drawn(b"mixed", 5, 4000, 4, small(0, 2), &mut cells);
    drawn(b"continuous", 6, 1000, 4, small(0, 4), &mut cells);
    drawn(b"wide integer", 7, 2000, 4, wide(0), &mut cells);
    drawn(b"wide mixed", 8, 2000, 4, wide(2), &mut cells);
}
