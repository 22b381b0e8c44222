// One item needs another (paper 02, request 7): the planner's entries, for records with needs. A need is kept exactly if there is none of its item, or at
// least 1 of its cover. So the plain problem is solved; if its point keeps all needs it is the best, else the two cases of the first broken need are gone
// through, each a plain problem with one bound narrowed. A case whose best point is not ahead of what is known is left. See crate cases for the mathematics.
#![tactic(auto)]

ghost use Rattle.std.specs.Prelude.{◌≡◌, true, ◌-◌, ◌≤◌, ◌<◌};
ghost use Rattle.knapsack.specs.Meaning.{instance_of};
ghost use Rattle.knapsack.specs.declared.Kind.TheVariants.{Optimal};
ghost use Rattle.model.specs.Promises.{Planned};
ghost use Rattle.model.specs.Records.{FiguresInRange, need_at, placed, needs_of};
ghost use Rattle.cases.proofs.Splitting.{cap, raise};
ghost use Rattle.planner.specs.Branching.{
  is_optimal,
  is_unbounded,
  Placed,
  NamedBy,
  breaks,
  FirstBroken,
  capped_at,
  raised_at,
  Comparable,
  Leading,
  Outdoes,
  nothing_yet,
  Countable,
  counted_of,
  with_best,
  few_of,
  SolvesCase,
  Branches,
  Through,
  CasesTake,
  unpriced_item,
  Unpriced,
  Told,
  FromRay,
  RayTakes,
  NeedsTake,
  Needed,
  Endless,
  SolvesNeeds,
};

use arith::Fraction;
use comparing::{comes_before, less_fraction};
use knapsack::{Answer, Item, Kind, Problem, with_item};
use model::{Model, Need, Needs, Sense, check_model, plain_of};
use solver::{STEPS, Solved, no_point, solve_within};

// ---- needs by places

// The place of item number k.
fn place_of(k: usize) -> usize
    ensures { result ≡ k - 1 }
{
    if k == 0 {
        return 0;
    }
    k - 1
}

// The need of line i, by places from 0.
fn need_at(ns: Needs, i: usize) -> Need
    requires { i < 16 }
    ensures { result ≡ placed (need_at ns i) }
{
    let n = ns.lines[i];
    Need {
        item: place_of(n.item),
        cover: place_of(n.cover),
    }
}

// The items that a need names.
pub fn named_of(ns: Needs) -> [bool; 16]
    requires { Placed ns }
    ensures { NamedBy (needs_of ns) result }
{
    let mut named = [false; 16];
    for i in 0..ns.count {
        let n = need_at(ns, i);
        named[n.cover] = true;
        named[n.item] = true;
    }
    named
}

// ---- needs that a point breaks

// Whether there is some of the item, and nothing of its cover: the cover's amount is whole and not below 0.
fn breaks(x: [Fraction; 16], n: Need) -> bool
    requires { (n.item < 16) × (n.cover < 16) }
    ensures { result ≡ breaks x n }
{
    0 < x[n.item].p && !(0 < x[n.cover].p)
}

// The line of the first need that x breaks, or their number.
fn first_broken(x: [Fraction; 16], ns: Needs) -> usize
    requires { Placed ns }
    ensures { FirstBroken x ns result }
{
    for i in 0..ns.count {
        if breaks(x, need_at(ns, i)) {
            return i;
        }
    }
    ns.count
}

// ---- the two cases

fn cap(b: Option<i64>) -> Option<i64>
    ensures { result ≡ cap b }
{
    match b {
        None => Some(0),
        Some(u) => if 0 < u { Some(0) } else { Some(u) },
    }
}

fn raise(b: Option<i64>) -> Option<i64>
    ensures { result ≡ raise b }
{
    match b {
        None => Some(1),
        Some(l) => if 1 < l { Some(l) } else { Some(1) },
    }
}

// None of item k.
fn without(p: Problem, k: usize) -> Problem
    requires { k < 16 }
    ensures { result ≡ capped_at p k }
{
    let i = p.items[k];
    with_item(
        p,
        k,
        Item {
            upper: cap(i.upper),
            ..i
        },
    )
}

// At least 1 of item m.
fn having(p: Problem, m: usize) -> Problem
    requires { m < 16 }
    ensures { result ≡ raised_at p m }
{
    let i = p.items[m];
    with_item(
        p,
        m,
        Item {
            lower: raise(i.lower),
            ..i
        },
    )
}

// ---- the best so far

// The best answer that was found, and the work that it took: the cases solved, the steps of their searches, and the cells that their scales wrote.
#[derive(Clone, Copy)]
pub struct Best {
    pub found: bool,
    pub answer: Answer,
    pub cases: u64,
    pub steps: u64,
    pub cells: u64,
}

fn nothing_yet() -> Best
    ensures { result ≡ nothing_yet }
{
    Best {
        found: false,
        answer: no_point(Kind::Infeasible),
        cases: 0,
        steps: 0,
        cells: 0,
    }
}

// One case more.
fn counted(b: Best, r: Solved) -> Best
    requires { Countable b r }
    ensures { result ≡ counted_of b r }
{
    Best {
        cases: b.cases + 1,
        steps: b.steps + r.steps,
        cells: b.cells + r.cells,
        ..b
    }
}

// With the answer a.
fn with_best(b: Best, a: Answer) -> Best
    ensures { result ≡ with_best b a }
{
    Best {
        found: true,
        answer: a,
        ..b
    }
}

pub fn is_optimal(a: Answer) -> bool
    ensures { result ≡ is_optimal a.kind }
{
    matches!(a.kind, Kind::Optimal)
}

fn is_unbounded(a: Answer) -> bool
    ensures { result ≡ is_unbounded a.kind }
{
    matches!(a.kind, Kind::Unbounded)
}

// Whether a is worth more than c, or as much at a point that comes first.
fn leads(a: Answer, c: Answer, n: usize) -> bool
    requires { (n ≤ 16) × (Comparable n a × Comparable n c) }
    ensures { Leading n a c result }
{
    let v = a.value;
    let w = c.value;
    if less_fraction(w, v) {
        return true;
    }
    if less_fraction(v, w) {
        return false;
    }
    let x = a.point;
    let y = c.point;
    comes_before(x, y, n)
}

// Whether a has a point that is ahead of the best so far.
fn outdoes(a: Answer, b: Best, n: usize) -> bool
    requires { (n ≤ 16) × ((a.kind ≡ Optimal → Comparable n a) × (b.found ≡ true → Comparable n b.answer)) }
    ensures { Outdoes n a b result }
{
    if is_optimal(a) {
        if b.found {
            let c = b.answer;
            return leads(a, c, n);
        }
        return true;
    }
    false
}

// ---- the cases

// How many steps the search of a case may take, whatever is asked: all of them together can then be counted.
const CASE_STEPS: u64 = 1000000000000;

fn few_steps(most: u64) -> u64
    ensures { result ≡ few_of most }
{
    most.min(CASE_STEPS)
}

// A case, by a search of at most so many steps, in which no pair with an item that a need names discards anything.
fn solve_case(p: Problem, ns: Needs, most: u64) -> Solved
    requires { FiguresInRange p × Placed ns }
    ensures { SolvesCase most p (needs_of ns) result }
{
    solve_within(p, named_of(ns), most)
}

// The problem p, whose plain answer is r, gone through with its needs: the best of b and of its points.
fn branch(p: Problem, r: Solved, ns: Needs, most: u64, b: Best) -> Best
    requires { Branches p r ns most b }
    ensures through { Through (instance_of p) (needs_of ns) most b result }
    ensures cases_take { CasesTake ns most p r b result }
{
    let c = counted(b, r);
    let a = r.answer;
    if outdoes(a, c, p.count) {
        let x = a.point;
        let i = first_broken(x, ns);
        if i < ns.count {
            let n = need_at(ns, i);
            let q = without(p, n.item);
            let d = branch(q, solve_case(q, ns, most), ns, most, c);
            let h = having(p, n.cover);
            return branch(h, solve_case(h, ns, most), ns, most, d);
        }
        return with_best(c, a);
    }
    c
}

// ---- the answer

fn unpriced_item(i: Item) -> Item
    ensures { result ≡ unpriced_item i }
{
    Item { price: 0, ..i }
}

// The problem at price 0: every feasible point is best.
fn unpriced(p: Problem) -> Problem
    ensures { Unpriced p 16 result }
{
    let mut q = p;
    for k in 0..16 {
        q = with_item(q, k, unpriced_item(p.items[k]));
    }
    q
}

fn told(b: Best) -> Solved
    ensures { Told b result }
{
    if b.found {
        let a = b.answer;
        return Solved {
            answer: a,
            steps: b.steps,
            cells: b.cells,
        };
    }
    let a = no_point(Kind::Infeasible);
    Solved {
        answer: a,
        steps: b.steps,
        cells: b.cells,
    }
}

// The steps d from the point that was found.
fn from_ray(b: Best, d: [i64; 16]) -> Solved
    ensures { FromRay b d result }
{
    if b.found {
        let a = b.answer;
        let point = a.point;
        let nought = Fraction { p: 0, q: 1 };
        let u = Answer {
            kind: Kind::Unbounded,
            point: point,
            steps: d,
            value: nought,
        };
        return Solved {
            answer: u,
            steps: b.steps,
            cells: b.cells,
        };
    }
    told(b)
}

// The answer of a problem whose plain answer r shows steps that are unbounded. They never move an item that a need may name, so any point that keeps the
// needs is a start: r's own, or else the best at price 0.
fn solve_ray(p: Problem, r: Solved, ns: Needs, most: u64) -> Solved
    requires { Endless p r ns most }
    ensures solves_needs { SolvesNeeds most p (needs_of ns) result }
    ensures ray_takes { RayTakes ns most p r result }
{
    let a = r.answer;
    let x = a.point;
    let broken = first_broken(x, ns);
    if broken < ns.count {
        let d = a.steps;
        let none = nothing_yet();
        let c = counted(none, r);
        let q = unpriced(p);
        let b = branch(q, solve_case(q, ns, most), ns, most, c);
        return from_ray(b, d);
    }
    r
}

// The answer of a problem with needs, by searches of at most so many steps, one for each case.
pub fn solve_needs(p: Problem, ns: Needs, most: u64) -> Solved
    requires { Needed p ns }
    ensures solves_needs { SolvesNeeds most p (needs_of ns) result }
    ensures needs_take { NeedsTake most p ns result }
{
    let few = few_steps(most);
    let r = solve_case(p, ns, few);
    let a = r.answer;
    if is_unbounded(a) {
        return solve_ray(p, r, ns, few);
    }
    let none = nothing_yet();
    told(branch(p, r, ns, few, none))
}

// ---- records

// The reply to any record, by searches of at most so many steps.
pub fn plan_within(m: Model, sense: Sense, most: u64) -> Answer
    ensures { Planned sense m result }
{
    let v = check_model(m);
    match v {
        Ok(()) => {
            let ns = m.needs;
            let r = solve_needs(plain_of(m, sense), ns, most);
            r.answer
        }
        Err(f) => no_point(Kind::Refused(f)),
    }
}

// The planner's reply to any record, in a sense.
pub fn plan(m: Model, sense: Sense) -> Answer
    ensures { Planned sense m result }
{
    plan_within(m, sense, STEPS)
}
