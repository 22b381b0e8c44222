// The mixed integer knapsack problem of paper 01 as the solver knows it: its types, and what its answers mean (specs/).
// The theorems about the meaning that every crate above cites are in proofs/. What is handed over is crate model's.
#![tactic(auto)]

ghost use Rattle.std.specs.Prelude.{◌≡◌, ◌<◌};
ghost use Rattle.arith.specs.Within.{Within};
ghost use Rattle.knapsack.specs.Items.{is_absent, is_open, with_item};
ghost use Rattle.knapsack.specs.Meaning.{weight_divisor, divisor_by};
ghost use Rattle.knapsack.specs.Ranges.{blank};

use arith::{Fraction, magnitude};

// Integer is 01's W, whole; continuous is its L, loose.
#[derive(Clone, Copy, PartialEq, Eq)]
pub enum Mark {
    Integer,
    Continuous,
}

// The bounds are amounts, none where the item has no such bound.
#[derive(Clone, Copy, PartialEq, Eq)]
pub struct Item {
    pub mark: Mark,
    pub weight: i64,
    pub price: i64,
    pub lower: Option<i64>,
    pub upper: Option<i64>,
}

// A plain problem: the items are the first count places, and the capacity is 01's limit b.
#[derive(Clone, Copy, PartialEq, Eq)]
pub struct Problem {
    pub items: [Item; 16],
    pub count: usize,
    pub capacity: i64,
}

// 01's number of the refusal, and the line of the sheet; 0 where no sheet was read.
#[derive(Clone, Copy, PartialEq, Eq)]
pub struct Refusal {
    pub number: u64,
    pub line: u64,
}

// The kind of an answer: 01's best, infeasible, unbounded, or a refusal.
#[derive(Clone, Copy, PartialEq, Eq)]
pub enum Kind {
    Optimal,
    Infeasible,
    Unbounded,
    Refused(Refusal),
}

// The reply of planner and relaxation: an amount for each item, its steps, and what the point is worth.
#[derive(Clone, Copy, PartialEq, Eq)]
pub struct Answer {
    pub kind: Kind,
    pub point: [Fraction; 16],
    pub steps: [i64; 16],
    pub value: Fraction,
}

// A place beyond the count.
pub fn blank_item() -> Item
    ensures { result ≡ blank }
{
    Item {
        mark: Mark::Integer,
        weight: 0,
        price: 0,
        lower: None,
        upper: None,
    }
}

// ---- items

pub fn is_absent(b: Option<i64>) -> bool
    ensures { result ≡ is_absent b }
{
    b.is_none()
}

// Whether an item lacks a bound.
pub fn is_open(x: Item) -> bool
    ensures { result ≡ is_open x }
{
    is_absent(x.lower) || is_absent(x.upper)
}

// The problem with an item stored.
pub fn with_item(p: Problem, j: usize, x: Item) -> Problem
    requires { j < 16 }
    ensures { result ≡ with_item p j x }
{
    let mut q = p;
    q.items[j] = x;
    q
}

// ---- what amounts are shown over: paper 02, "Loose amounts over the item's own weight"

// A weight without its sign; 1 where it is 0.
pub fn weight_divisor(a: i64) -> u64
    requires { Within 1000 a }
    ensures { result ≡ weight_divisor a }
{
    magnitude(a).max(1)
}

// The divisor of an item's amounts: that of its weight where it is continuous.
pub fn own_divisor(m: Mark, a: i64) -> u64
    requires { Within 1000 a }
    ensures { result ≡ divisor_by m a }
{
    match m {
        Mark::Integer => 1,
        Mark::Continuous => weight_divisor(a),
    }
}
