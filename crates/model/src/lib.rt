// The problem as it is handed over (paper 01: a problem handed over as a record): the record, its refusals, and what the entries owe for it (specs/).
// An entry tries the record by check_model and goes on with plain_of, the solver's problem.
#![tactic(auto)]

pub mod naming; // the tests of a line of needs
pub mod refusals; // the reasons and their numbers
pub mod setters; // records by steps

ghost use Rattle.std.specs.Prelude.{◌≡◌, ◌≤◌, ◌<◌, eqb, pos, nat_abs, ◌≤ℤ◌};
ghost use Rattle.model.specs.declared.Blanks.TheVariants as blanks;
ghost use Rattle.model.specs.Records.{
  item_at,
  no_item,
  weight_in,
  item_in,
  unfilled,
  plain_of,
  outside,
  bad_bound,
  bad_weights,
  bad_figure,
  crossed,
  crosses,
  bounds_cross,
  is_reversed,
  is_weightless,
  is_blank,
  is_range,
  is_ranged_below,
  Finds,
  TriesItems,
  some_range,
  some_crosses,
  held,
  refusal_of,
  refused_if,
  or_else,
  count_verdict,
  figure_verdict,
  kind_verdict,
  item_verdict,
  need_verdict,
  needs_verdict,
  verdict,
};

use crate::refusals::Reason;
use knapsack::{Answer, Item, Mark, Problem, Refusal, with_item};

// 02's line `k m`: where there is any of item k, there is at least 1 of item m, its cover. Both are item numbers, from 1.
#[derive(Clone, Copy, PartialEq, Eq)]
pub struct Need {
    pub item: usize,
    pub cover: usize,
}

// 02's section of needs: its first count lines.
#[derive(Clone, Copy, PartialEq, Eq)]
pub struct Needs {
    pub lines: [Need; 16],
    pub count: usize,
}

// An item as it is handed over: its weight is known to be from low to high (02, request 11).
#[derive(Clone, Copy, PartialEq, Eq)]
pub struct ModelItem {
    pub mark: Mark,
    pub low: i64,
    pub high: i64,
    pub price: i64,
    pub lower: Option<i64>,
    pub upper: Option<i64>,
}

// A record: the items are the first count places, and the capacity is 01's limit b.
#[derive(Clone, Copy, PartialEq, Eq)]
pub struct Model {
    pub items: [ModelItem; 16],
    pub count: usize,
    pub capacity: i64,
    pub needs: Needs,
}

// What a point is held to (02, request 11): sure, that it fits for every weight in the ranges, or possible, that it fits for some.
#[derive(Clone, Copy, PartialEq, Eq)]
pub enum Sense {
    Sure,
    Possible,
}

// The planner's answers in both senses.
#[derive(Clone, Copy, PartialEq, Eq)]
pub struct Answers {
    pub sure: Answer,
    pub possible: Answer,
}

// What becomes of blank items, of weight 0 and price 0: a reader refuses them, the converter of stored sheets keeps them to drop them itself.
#[derive(Clone, Copy, PartialEq, Eq)]
pub enum Blanks {
    Refused,
    Kept,
}

// Which bound of an item.
#[derive(Clone, Copy, PartialEq, Eq)]
pub enum Side {
    Lower,
    Upper,
}

// ---- a record in a sense: the solver's problem

// An unused place.
pub fn no_item() -> ModelItem
    ensures { result ≡ no_item }
{
    ModelItem {
        mark: Mark::Integer,
        low: 0,
        high: 0,
        price: 0,
        lower: None,
        upper: None,
    }
}

// The weight that decides: the high one in the sure sense, the low one in the possible.
fn weight_in(i: ModelItem, sense: Sense) -> i64
    ensures { result ≡ weight_in sense i }
{
    match sense {
        Sense::Sure => i.high,
        Sense::Possible => i.low,
    }
}

pub fn item_in(i: ModelItem, sense: Sense) -> Item
    ensures { result ≡ item_in sense i }
{
    Item {
        mark: i.mark,
        weight: weight_in(i, sense),
        price: i.price,
        lower: i.lower,
        upper: i.upper,
    }
}

// The solver's problem before its items are filled in.
fn unfilled(m: Model) -> Problem
    ensures { result ≡ unfilled m }
{
    Problem {
        items: [knapsack::blank_item(); 16],
        count: m.count,
        capacity: m.capacity,
    }
}

// The solver's problem. Why this is what the sense means: proofs/Senses (sense-iff).
pub fn plain_of(m: Model, sense: Sense) -> Problem
    ensures { result ≡ plain_of sense m }
{
    let mut p = unfilled(m);
    for k in 0..16 {
        p.items[k] = item_in(m.items[k], sense);
    }
    p
}

// ---- tests

// Whether x is farther than n from zero.
pub fn beyond(x: i64, n: i64) -> bool
    requires { (pos 0 ≤ℤ n) × (n ≤ℤ pos 1000000000000000000) }
    ensures { result ≡ outside (nat_abs n) x }
{
    x < 0 - n || n < x
}

pub fn bad_bound(b: Option<i64>) -> bool
    ensures { result ≡ bad_bound b }
{
    match b {
        None => false,
        Some(v) => beyond(v, 10000),
    }
}

// Whether a weight is out of its range.
fn bad_weights(i: ModelItem) -> bool
    ensures { result ≡ bad_weights i }
{
    beyond(i.low, 1000) || beyond(i.high, 1000)
}

pub fn bad_figure(i: ModelItem) -> bool
    ensures { result ≡ bad_figure i }
{
    bad_weights(i) || beyond(i.price, 10000) || bad_bound(i.lower) || bad_bound(i.upper)
}

fn is_zero(z: i64) -> bool
    ensures { result ≡ eqb (nat_abs z) 0 }
{
    z == 0
}

pub fn is_reversed(i: ModelItem) -> bool
    ensures { result ≡ is_reversed i }
{
    i.high < i.low
}

// Whether an item has weight 0, whatever its weight may be.
fn is_weightless(i: ModelItem) -> bool
    ensures { result ≡ is_weightless i }
{
    is_zero(i.low) && is_zero(i.high)
}

pub fn is_blank(i: ModelItem) -> bool
    ensures { result ≡ is_blank i }
{
    is_weightless(i) && is_zero(i.price)
}

// Whether the weight is not one figure.
fn is_range(i: ModelItem) -> bool
    ensures { result ≡ is_range i }
{
    i.low < i.high || is_reversed(i)
}

// Whether an item's weight is a range, and its amount may be below 0: what it weighs at most would then not be told by the high weight.
pub fn is_ranged_below(i: ModelItem) -> bool
    ensures { result ≡ is_ranged_below i }
{
    i.low < i.high && naming::is_below_zero(i.lower)
}

// Whether a lower bound is above an upper.
fn crossed_bounds(l: Option<i64>, u: Option<i64>) -> bool
    ensures { result ≡ crossed l u }
{
    let (Some(a), Some(b)) = (l, u) else {
        return false;
    };
    b < a
}

pub fn does_cross(i: Item) -> bool
    ensures { result ≡ crosses i }
{
    crossed_bounds(i.lower, i.upper)
}

pub fn do_bounds_cross(i: ModelItem) -> bool
    ensures { result ≡ bounds_cross i }
{
    crossed_bounds(i.lower, i.upper)
}

// Whether some item's bounds cross. Such a problem is accepted and has no feasible point: see proofs/Crossings (crossed-infeasible).
pub fn some_crosses(p: Problem) -> bool
    requires { p.count ≤ 16 }
    ensures { result ≡ some_crosses p }
{
    for k in 0..p.count {
        if does_cross(p.items[k]) {
            return true;
        }
    }
    false
}

// How many of n items or lines there are to be tried.
fn held_of(n: usize) -> usize
    ensures { (result ≡ held n) × (result ≤ 16) }
{
    n.min(16)
}

// Whether a test says yes to some item.
fn some_item<F: Fn(ModelItem) -> bool>(m: Model, test: F) -> bool
    requires { F.IsAlwaysCallable test }
    ensures { Finds (F.post test) m result }
{
    for k in 0..held_of(m.count) {
        if test(m.items[k]) {
            return true;
        }
    }
    false
}

// Whether some weight is not one figure: else the two senses are one problem.
pub fn some_range(m: Model) -> bool
    ensures { result ≡ some_range m }
{
    some_item(m, is_range)
}

// ---- verdicts: a row of the refusals is one function

// No sheet was read, so there is no line.
pub fn refusal_of(number: u64) -> Refusal
    ensures { result ≡ refusal_of number }
{
    Refusal { number, line: 0 }
}

pub fn refused_if(test: bool, number: u64) -> Result<(), Refusal>
    ensures { result ≡ refused_if test number }
{
    if test {
        Err(refusal_of(number))
    } else {
        Ok(())
    }
}

// The first that refuses.
pub fn first_of(v: Result<(), Refusal>, w: Result<(), Refusal>) -> Result<(), Refusal>
    ensures { result ≡ or_else v w }
{
    match v {
        Ok(()) => w,
        Err(_) => v,
    }
}

fn check_counts(m: Model) -> Result<(), Refusal>
    ensures { result ≡ count_verdict m }
{
    let few = m.count == 0;
    let many = 16 < m.count || 16 < m.needs.count;
    Reason::Count.refuse_if(few || many)
}

// A row that tries every item.
fn check_items<F: Fn(ModelItem) -> bool>(m: Model, test: F, reason: Reason) -> Result<(), Refusal>
    requires { F.IsAlwaysCallable test }
    ensures { TriesItems (F.post test) reason m result }
{
    reason.refuse_if(some_item(m, test))
}

fn check_figures(m: Model) -> Result<(), Refusal>
    ensures { result ≡ figure_verdict m }
{
    Reason::Figure.refuse_if(beyond(m.capacity, 100000000))?;
    check_items(m, bad_figure, Reason::Figure)
}

// One line of needs: 5, then 14.
fn check_need(m: Model, j: usize) -> Result<(), Refusal>
    requires { j < 16 }
    ensures { result ≡ need_verdict m j }
{
    let before = naming::line_before(m.needs, j);
    let need = m.needs.lines[j];
    let is_bad = naming::is_bad_line(held_of(m.count), before, need);
    Reason::ItemNumber.refuse_if(is_bad)?;
    Reason::NamedItem.refuse_if(naming::names_unfit(m, need))
}

fn check_needs(m: Model) -> Result<(), Refusal>
    ensures { result ≡ needs_verdict (held m.needs.count) m }
{
    for j in 0..held_of(m.needs.count) {
        check_need(m, j)?;
    }
    Ok(())
}

// The rows of single items: 19 on every item, then 15.
fn check_kinds(m: Model) -> Result<(), Refusal>
    ensures { result ≡ kind_verdict blanks.Refused m }
{
    check_items(m, is_reversed, Reason::WeightRange)?;
    check_items(m, is_blank, Reason::BlankItem)
}

// A record's refusal: 3 (count of items, then of needs), then 4 (capacity, then each item's figures), then 19 and 15, then 5 and 14 of each line of needs,
// then 20; line 0.
#[tactic(auto, unfolding(crate::specs::Records::verdict_by))]
pub fn check_model(m: Model) -> Result<(), Refusal>
    ensures { result ≡ verdict m }
{
    check_counts(m)?;
    check_figures(m)?;
    check_kinds(m)?;
    check_needs(m)?;
    check_items(m, is_ranged_below, Reason::RangedItem)
}
