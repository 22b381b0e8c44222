// Needs drawn for a record. Paper 02, request 7. An item that is named is made fit for it where it is not: integer, with both bounds, none of
// them below 0. Lines are given in their order, and at most 16.
ghost use Rattle.std.specs.Prelude.{◌≤◌};

use crate::draw::{DrawnProblem, below, next};
use crate::exact::times;
use knapsack::Mark;
use model::naming::is_unfit;
use model::{Model, ModelItem, Need, setters};

pub fn lifted_lower(b: Option<i64>) -> Option<i64> {
    Some(b.unwrap_or(0).max(0))
}

// Without its sign.
pub fn turned(v: i64) -> i64 {
    if v < 0 { times(v, -1) } else { v }
}

fn lifted_upper(b: Option<i64>) -> Option<i64> {
    Some(b.map_or(3, turned))
}

fn fit_item(x: ModelItem) -> ModelItem {
    ModelItem {
        mark: Mark::Integer,
        lower: lifted_lower(x.lower),
        upper: lifted_upper(x.upper),
        ..x
    }
}

fn with_fit(m: Model, k: usize) -> Model
    requires { k ≤ 15 }
{
    let x = m.items[k];
    if is_unfit(x) {
        return setters::with_item(m, k, fit_item(x));
    }
    m
}

// The record with one line more, by the places of two items, if it has both of them and room for the line.
fn with_line(m: Model, k: usize, l: usize) -> Model
    requires { (k ≤ 15) × (l ≤ 15) }
{
    let n = m.count;
    let j = m.needs.count;
    if n <= k || n <= l || k == l || 15 < j {
        return m;
    }
    let fit = with_fit(with_fit(m, k), l);
    let need = Need {
        item: k + 1,
        cover: l + 1,
    };
    setters::with_need_count(setters::with_need(fit, j, need), j + 1)
}

// Of so many pairs of items, and one more, about one becomes a line.
pub fn with_drawn_needs(m: Model, state: u64, among: u64) -> DrawnProblem {
    let mut p = m;
    let mut now = state;
    for t in 0..256 {
        now = next(now);
        if below(now, among) == 0 {
            p = with_line(p, t / 16, t % 16);
        }
    }
    DrawnProblem {
        problem: p,
        state: now,
    }
}

// All pairs of items from a place on, as long as there is room.
pub fn with_all_needs(m: Model, from: usize) -> Model {
    let mut p = m;
    for t in 0..256 {
        if from <= t / 16 && from <= t % 16 {
            p = with_line(p, t / 16, t % 16);
        }
    }
    p
}
