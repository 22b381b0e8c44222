// The solver of plain problems. Paper 01, "The problem": optimal, infeasible and unbounded are said exactly when they are true. A problem with needs is
// solved by cases, each a plain problem; `named` tells which items its needs name: no pair with one of them discards a point (paper 02, request 7).
#![tactic(auto)]

ghost use Rattle.std.specs.Prelude.{◌≡◌, true};
ghost use Rattle.arith.proofs.Mixes.{over};
ghost use Rattle.greedy.specs.Fill.{at};
ghost use Rattle.greedy.specs.Sized.{SizedColumns};
ghost use Rattle.knapsack.specs.Ranges.{InRange};
ghost use Rattle.knapsack.specs.Meaning.{bare};
ghost use Rattle.model.specs.Records.{FiguresInRange};
ghost use Rattle.ceiling.specs.Sizes.{Spanned};
ghost use Rattle.placed.specs.Placed.{FirstShown};
ghost use Rattle.prepare.specs.Pairs.{PairsOf};
ghost use Rattle.setting.specs.Ready.{ReadySetting};
ghost use Rattle.setting.specs.Box.{Inside, Long};
ghost use Rattle.settling.specs.Settling.{Settles, SettleWrites};
ghost use Rattle.solver.specs.Outcomes.{Joinable, Cornered, Best, TiedTo, worth_of, Standing, Answerable, Answered};
ghost use Rattle.solver.specs.Outcomes.{Counts, Cells, SolvesWithin, Solves};

use arith::{Fraction, Mixed, reduce};
use firsts::amounts_of;
use foremost::tied;
use greedy::{Columns, Fill, begin, bound_of, fill_up};
use knapsack::{Answer, Kind, Problem};
use model::some_crosses;
use placed::{Placed, shown_first};
use prepare::{narrowed, pairs_of, prepare, reach_of};
use rays::find_ray;
use search::run;
use setting::{Pairs, Setting, fixed};
use settling::{Settled, settle};

// How many steps a search may take before the scales answer. Nearly all searches end before; one that has not may take for ever.
pub const STEPS: u64 = 500;

// A value as one number of parts.
fn joined(v: Mixed) -> i64
    requires { Joinable v }
    ensures { result ≡ over v }
{
    v.whole * (v.parts as i64) + (v.part as i64)
}

// An answer with no point.
pub fn no_point(k: Kind) -> Answer
    ensures { result ≡ bare k }
{
    Answer {
        kind: k,
        point: [Fraction { p: 0, q: 1 }; 16],
        steps: [0; 16],
        value: Fraction { p: 0, q: 1 },
    }
}

// The answer of a ray: its steps, from the point where every item is lightest.
fn unbounded(s: Setting, steps: [i64; 16]) -> Answer
    requires { ReadySetting s }
    ensures { Cornered s steps result }
{
    let f = Fill {
        at: 0,
        room: 0,
        worth: 0,
    };
    let x = amounts_of(s, s.cols, s.ends, f);
    let point = x.point;
    let nought = Fraction { p: 0, q: 1 };
    Answer {
        kind: Kind::Unbounded,
        point: point,
        steps: steps,
        value: nought,
    }
}

// The answer of the place x, by its filling in the order of filling of c.
fn optimal(s: Setting, c: Columns, x: [i64; 16]) -> Answer
    requires { ReadySetting s × (SizedColumns c × Inside s (at x)) }
    ensures { Best s c x result }
{
    let e = fixed(s, x, s.levels);
    let f = fill_up(c, e);
    let v = bound_of(c, f);
    let y = amounts_of(s, c, e, f);
    let n = joined(v);
    let value = reduce(n, v.parts);
    let point = y.point;
    let still: [i64; 16] = [0; 16];
    Answer {
        kind: Kind::Optimal,
        point: point,
        steps: still,
        value: value,
    }
}

// The setting with its columns in the order of filling that gives the first of the relaxed optima.
fn with_tied(s: Setting) -> Setting
    requires { SizedColumns s.cols }
    ensures { TiedTo s result }
{
    let cols = tied(s.cols);
    let ends = s.ends;
    let level = s.level;
    let low = s.low;
    let high = s.high;
    let lattice = s.lattice;
    Setting {
        cols: cols,
        ends: ends,
        level: level,
        low: low,
        high: high,
        lattice: lattice,
        levels: s.levels,
    }
}

// What the place x is worth, if there is one.
fn value_at(s: Setting, found: bool, x: [i64; 16]) -> Mixed
    requires { ReadySetting s × (found ≡ true → Standing s x) }
    ensures { result ≡ worth_of s found x }
{
    if found {
        let e = fixed(s, x, s.levels);
        let f = fill_up(s.cols, e);
        return bound_of(s.cols, f);
    }
    Mixed {
        whole: 0,
        part: 0,
        parts: 1,
    }
}

// What is left of a search whose incumbent is at x, by scales. Their cells are lent from here, so that only a search that has not ended pays for them.
fn settled(s: Setting, found: bool, x: [i64; 16]) -> Settled
    requires { ReadySetting s × (Spanned s.cols s.ends × (found ≡ true → Standing s x)) }
    ensures settles { Settles s.cols s.ends s.level s.levels result }
    ensures settle_writes { SettleWrites s.cols s.ends s.level s.levels found (worth_of s found x) result.first result.written }
{
    let cols = s.cols;
    let ends = s.ends;
    let level = s.level;
    let v = value_at(s, found, x);
    let mut cells = [0u64; 65535];
    settle(cols, ends, level, s.levels, found, x, v, &mut cells)
}

// The answer of the place that the scales have found, with the point that comes first.
fn by_scales(s: Setting, p: Problem, t: Settled) -> Placed
    requires { Answerable p s × (Long s.ends × Settles s.cols s.ends s.level s.levels t) }
    ensures { FirstShown p t.first result }
{
    let x = t.place.unwrap_or([0; 16]);
    let a = optimal(s, s.cols, x);
    shown_first(p, s, x, t.first, a)
}

// An answer, how many steps its search took, and how many cells the scales wrote.
#[derive(Clone, Copy)]
pub struct Solved {
    pub answer: Answer,
    pub steps: u64,
    pub cells: u64,
}

fn with_work(a: Answer, steps: u64, cells: u64) -> Solved
    ensures { result ≡ record { answer = a; steps = steps; cells = cells } }
{
    Solved {
        answer: a,
        steps: steps,
        cells: cells,
    }
}

// The answer of a problem that has a best point. A search that has ended has found the one that comes first; where it has not ended after so many
// steps, the scales find it.
fn answered(s: Setting, p: Problem, named: [bool; 16], pairs: Pairs, most: u64) -> Solved
    requires { Answerable p s × PairsOf p named pairs }
    ensures { Answered most p named result }
{
    let t = with_tied(s);
    let q = run(t, pairs, most);
    let best = q.best;
    let x = best.place;
    if q.done {
        let c = t.cols;
        let a = optimal(s, c, x);
        return with_work(a, q.steps, 0);
    }
    let b = settled(s, best.found, x);
    let f = by_scales(s, p, b);
    let a = f.answer;
    let cells = b.written + f.cells;
    with_work(a, q.steps, cells)
}

// The answer of a problem in range as it stands, by a search of at most so many steps. No search is needed where its lightest point is too heavy, or
// where it has a ray; else there is a best place, for the lightest point is feasible: see proofs/Outcomes (must-find).
fn decide(p: Problem, named: [bool; 16], most: u64) -> Solved
    requires { InRange p }
    ensures solves_within { SolvesWithin most p result }
    ensures counts { Counts most p named result.answer result.steps }
    ensures cells { Cells most p named result.answer result.cells }
{
    let s = prepare(p);
    let f = begin(s.cols, s.ends);
    if f.room < 0 {
        let a = no_point(Kind::Infeasible);
        return with_work(a, 0, 0);
    }
    if let Some(steps) = find_ray(p) {
        return with_work(unbounded(s, steps), 0, 0);
    }
    let near = narrowed(s, reach_of(p));
    let pairs = pairs_of(p, named);
    answered(near, p, named, pairs, most)
}

// The answer of a problem whose figures are in range, by a search of at most so many steps. Where bounds cross it is infeasible, even if there is a
// ray: see model's proofs/Crossings (crossed-infeasible).
pub fn solve_within(p: Problem, named: [bool; 16], most: u64) -> Solved
    requires { FiguresInRange p }
    ensures solves_within { SolvesWithin most p result }
    ensures counts { Counts most p named result.answer result.steps }
    ensures cells { Cells most p named result.answer result.cells }
{
    if some_crosses(p) {
        let none = no_point(Kind::Infeasible);
        return with_work(none, 0, 0);
    }
    decide(p, named, most)
}

pub fn solve(p: Problem, named: [bool; 16]) -> Solved
    requires { FiguresInRange p }
    ensures solves { Solves p result }
    ensures counts { Counts 500 p named result.answer result.steps }
    ensures cells { Cells 500 p named result.answer result.cells }
{
    solve_within(p, named, STEPS)
}
