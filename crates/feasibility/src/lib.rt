// Point check: whether a proposed point is feasible, and what it is worth. Paper 01, "Parts that stand in public", rows 7 and 8 of "Refused, by place";
// paper 02, requests 7 and 12.
// Once nothing is refused at most one amount is not a whole number; over its divisor every amount is an integer, and so are the sums of
// weights and prices, below 2 · 10^17. What a reply says is `Told` in specs/Check, which the entry promises (proofs/Meaning).
#![tactic(auto)]

ghost use Rattle.std.specs.Prelude.{◌≡◌, ◌*◌, ◌≤◌, ◌<◌, pos, nat_abs, ◌*ℤ◌};
ghost use Rattle.knapsack.specs.Ranges.{item_at, BoundInRange};
ghost use Rattle.model.specs.Records.{ItemFigures, FiguresInRange};
ghost use Rattle.feasibility.specs.Amounts.{proposed_at, farther, bad_amount, is_whole, joined, common_divisor, numerator, GoodAmount};
ghost use Rattle.feasibility.specs.Check.{
  breaks_bound,
  breaks,
  earlier_of,
  numbered,
  first_broken,
  lacks,
  uncovered_at,
  first_lacking,
  first_breach,
  figure_of,
  term,
  total_of,
  judged,
  amount_check,
  point_check,
  Checkable,
  Lined,
  Coverable,
  Told,
  Sizeable,
  Worth,
};

use arith::{Fraction, floor_div, reduce};
use knapsack::{Item, Problem, Refusal, own_divisor};
use model::refusals::Reason;
use model::{Model, Needs, Sense, Side, beyond, check_model, plain_of};

// 01's proposed point: an amount for each item, at the first count places.
#[derive(Clone, Copy)]
pub struct Candidate {
    pub amounts: [Fraction; 16],
    pub count: usize,
}

// 01's yes with the exact value, or its no: the first item, from 1, that breaks its mark or a bound, or else that of the first broken need, or 0 where
// only the weight is over.
#[derive(Clone, Copy, PartialEq, Eq)]
pub enum Finding {
    Feasible(Fraction),
    Violates(usize),
}

// Which figure of an item is summed.
#[derive(Clone, Copy)]
enum Figure {
    Weight,
    Price,
}

// v · q.
fn times(v: i64, q: u64) -> i64
    requires { (nat_abs v * q ≤ 1000000000000000) × (q ≤ 1000) }
    ensures { result ≡ v *ℤ pos q }
{
    v * q as i64
}

// Whether p / q is outside ±1,000,000,000.
fn is_farther(p: i64, q: u64) -> bool
    requires { q ≤ 1000 }
    ensures { result ≡ farther p q }
{
    beyond(p, times(1000000000, q))
}

// Refusal 8 of an amount by itself: its divisor is the item's own.
#[tactic(auto, unfolding(crate::specs::Amounts::bad_amount))]
fn is_bad_amount(i: Item, x: Fraction) -> bool
    requires { ItemFigures i }
    ensures { result ≡ bad_amount i x }
{
    x.q != own_divisor(i.mark, i.weight) || is_farther(x.p, x.q)
}

fn is_whole(x: Fraction) -> bool
    requires { GoodAmount x }
    ensures { result ≡ is_whole x }
{
    x.p.unsigned_abs() % x.q == 0
}

// The common divisor d of the amounts so far and of one more.
#[tactic(auto, unfolding(crate::specs::Amounts::joined))]
fn join(d: u64, i: Item, x: Fraction) -> u64
    requires { ItemFigures i }
    ensures { result ≡ joined d i x }
{
    if is_bad_amount(i, x) {
        return 0;
    }
    if is_whole(x) {
        return d;
    }
    if d == 1 { x.q } else { 0 }
}

// The divisor of the one amount that is not whole, or 1; 0 where refusal 8 is due.
fn common_divisor(p: Problem, c: Candidate) -> u64
    requires { FiguresInRange p × (c.count ≡ p.count) }
    ensures { result ≡ common_divisor c.count (item_at p) (proposed_at c) }
{
    let mut d = 1;
    for k in 0..c.count {
        d = join(d, p.items[k], c.amounts[k]);
    }
    d
}

// Whether p / q is past a bound on its side.
pub fn breaks_bound(s: Side, b: Option<i64>, p: i64, q: u64) -> bool
    requires { BoundInRange b × (q ≤ 1000) }
    ensures { result ≡ breaks_bound s b p q }
{
    let Some(v) = b else {
        return false;
    };
    let n = times(v, q);
    match s {
        Side::Lower => p < n,
        Side::Upper => n < p,
    }
}

// Whether an amount breaks a bound of its item. Over their own divisor all amounts keep their mark.
#[tactic(auto, unfolding(crate::specs::Check::breaks))]
fn does_break(i: Item, x: Fraction) -> bool
    requires { ItemFigures i × GoodAmount x }
    ensures { result ≡ breaks i x }
{
    breaks_bound(Side::Lower, i.lower, x.p, x.q) || breaks_bound(Side::Upper, i.upper, x.p, x.q)
}

// The number of the first item that breaks: the one found so far if it is not 0, or that of the item at place k, or 0.
fn earlier(found: usize, k: usize, i: Item, x: Fraction) -> usize
    requires { (k < 16) × (ItemFigures i × GoodAmount x) }
    ensures { result ≡ earlier_of found (numbered k i x) }
{
    if found == 0 {
        if does_break(i, x) { k + 1 } else { found }
    } else {
        found
    }
}

// The first item, from 1, that breaks its mark or a bound; 0 where none does.
fn first_broken(p: Problem, c: Candidate) -> usize
    requires { Checkable p c }
    ensures { result ≡ first_broken p.count p c }
{
    let mut found = 0;
    for k in 0..p.count {
        found = earlier(found, k, p.items[k], c.amounts[k]);
    }
    found
}

// Whether there is any of an item and less than 1 of its cover.
fn does_lack(x: Fraction, y: Fraction) -> bool
    requires { GoodAmount x × GoodAmount y }
    ensures { result ≡ lacks x y }
{
    breaks_bound(Side::Upper, Some(0), x.p, x.q) && breaks_bound(Side::Lower, Some(1), y.p, y.q)
}

// The item of line j where it lacks its cover, or 0.
fn uncovered_at(needs: Needs, j: usize, c: Candidate) -> usize
    requires { (j < needs.count) × Coverable needs c }
    ensures { result ≡ uncovered_at needs c j }
{
    let need = needs.lines[j];
    if does_lack(c.amounts[need.item - 1], c.amounts[need.cover - 1]) {
        need.item
    } else {
        0
    }
}

// The number found, or else n. None is 0 here and above, as 01's reply gives it: `Told` and `weight-iff` (proofs/Meaning) say what `Violates(0)` means.
fn number_or(found: usize, n: usize) -> usize
    ensures { result ≡ earlier_of found n }
{
    if found == 0 { n } else { found }
}

// The item of the first broken need; 0 where none is.
fn first_lacking(needs: Needs, c: Candidate) -> usize
    requires { Coverable needs c }
    ensures { result ≡ first_lacking needs.count needs c }
{
    let mut found = 0;
    for j in 0..needs.count {
        found = number_or(found, uncovered_at(needs, j, c));
    }
    found
}

// Marks and bounds come before needs.
fn first_breach(p: Problem, needs: Needs, c: Candidate) -> usize
    requires { Checkable p c × Coverable needs c }
    ensures { result ≡ first_breach p needs c }
{
    number_or(first_broken(p, c), first_lacking(needs, c))
}

fn figure_of(f: Figure, i: Item) -> i64
    ensures { result ≡ figure_of f i }
{
    match f {
        Figure::Weight => i.weight,
        Figure::Price => i.price,
    }
}

// An amount in d-th parts.
fn parts(d: u64, x: Fraction) -> i64
    requires { (d ≤ 1000) × GoodAmount x }
    ensures { result ≡ numerator d x }
{
    floor_div(times(x.p, d), x.q as i64)
}

// An item's figure times its amount, over the divisor d: within 10^16.
fn one_term(f: Figure, d: u64, i: Item, x: Fraction) -> i64
    requires { (d ≤ 1000) × (ItemFigures i × GoodAmount x) }
    ensures { result ≡ term f d i x }
{
    figure_of(f, i) * parts(d, x)
}

// The sum of a figure times the amounts, over the divisor d.
fn total(f: Figure, d: u64, p: Problem, c: Candidate) -> i64
    requires { (d ≤ 1000) × Checkable p c }
    ensures { result ≡ total_of f d p.count p c }
{
    let mut sum = 0;
    for k in 0..p.count {
        sum += one_term(f, d, p.items[k], c.amounts[k]);
    }
    sum
}

// What a point is worth that row 8 does not refuse, over its common divisor: not in lowest terms.
pub fn worth(p: Problem, c: Candidate) -> Fraction
    requires { Sizeable p c }
    ensures { Worth p c result }
{
    let d = common_divisor(p, c);
    Fraction {
        p: total(Figure::Price, d, p, c),
        q: d,
    }
}

// The reply where nothing is refused, d being the common divisor.
fn judge(d: u64, p: Problem, needs: Needs, c: Candidate) -> Finding
    requires { ((1 ≤ d) × (d ≤ 1000)) × (Checkable p c × Coverable needs c) }
    ensures { result ≡ judged d p needs c }
{
    let k = first_breach(p, needs, c);
    if 0 < k {
        return Finding::Violates(k);
    }
    let b = times(p.capacity, d);
    let w = total(Figure::Weight, d, p, c);
    if b < w {
        return Finding::Violates(0);
    }
    let v = total(Figure::Price, d, p, c);
    Finding::Feasible(reduce(v, d))
}

// The reply to a point of an accepted problem: refusals 7 and 8, then yes or no.
fn check_amounts(p: Problem, needs: Needs, c: Candidate) -> Result<Finding, Refusal>
    requires { FiguresInRange p × Lined p.count needs }
    ensures { result ≡ amount_check p needs c }
{
    Reason::Amounts.refuse_if(c.count != p.count)?;
    let d = common_divisor(p, c);
    Reason::Amount.refuse_if(d == 0)?;
    Ok(judge(d, p, needs, c))
}

// 01's point check, in a sense: the one reply by definition, and what it says, by its case.
pub fn check_point(m: Model, sense: Sense, c: Candidate) -> Result<Finding, Refusal>
    ensures value { result ≡ point_check sense m c }
    ensures told { Told sense m c result }
{
    check_model(m)?;
    check_amounts(plain_of(m, sense), m.needs, c)
}
