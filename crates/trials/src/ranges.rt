// Weights known within ranges (paper 02, request 11): ranges drawn for a record, and the records between, each weight of which is known: at one end of
// its range, or drawn inside it. In such a record the two senses are one, and the rest of this crate speaks of such records: it takes the high weight.
ghost use Rattle.std.specs.Prelude.{◌≤◌};

use crate::draw::{DrawnProblem, below, figure, mended_price, next};
use crate::exact::{as_signed, plus, times};
use crate::needs::{lifted_lower, turned};
use crate::print::size_of;
use model::{Model, ModelItem, setters};

// The item's weight and another are the ends of its range. No amount is below 0, and no weight between the ends makes the item blank.
fn ranged_item(x: ModelItem, other: i64) -> ModelItem {
    ModelItem {
        mark: x.mark,
        low: x.high.min(other),
        high: x.high.max(other),
        price: mended_price(0, x.price),
        lower: lifted_lower(x.lower),
        upper: x.upper.map(turned),
    }
}

fn with_range(m: Model, k: usize, other: i64) -> Model
    requires { k ≤ 15 }
{
    setters::with_item(m, k, ranged_item(m.items[k], other))
}

// Of so many items, and one more, about one gets a range, with weights up to a span.
pub fn with_drawn_ranges(m: Model, state: u64, among: u64, span: u64) -> DrawnProblem {
    let mut p = m;
    let mut now = state;
    for k in 0..16 {
        let other = next(now);
        now = next(other);
        if below(now, among) == 0 {
            p = with_range(p, k, figure(other, span));
        }
    }
    DrawnProblem {
        problem: p,
        state: now,
    }
}

fn known_item(x: ModelItem, weight: i64) -> ModelItem {
    ModelItem {
        low: weight,
        high: weight,
        ..x
    }
}

fn with_end(m: Model, k: usize, high: bool) -> Model
    requires { k ≤ 15 }
{
    let x = m.items[k];
    let weight = if high { x.high } else { x.low };
    setters::with_item(m, k, known_item(x, weight))
}

// Each weight at one end of its range: the binary digits of a number, the lowest for item 1, tell where it is the high one.
pub fn at_ends(m: Model, ends: u64) -> Model {
    let mut p = m;
    let mut rest = ends;
    for k in 0..16 {
        p = with_end(p, k, rest % 2 == 1);
        rest = rest / 2;
    }
    p
}

// From low to high, where low is not above high.
fn drawn_inside(low: i64, high: i64, state: u64) -> i64 {
    let span = size_of(plus(high, times(low, -1)));
    plus(low, as_signed(below(state, span)))
}

fn with_drawn_weight(m: Model, k: usize, state: u64) -> Model
    requires { k ≤ 15 }
{
    let x = m.items[k];
    let weight = drawn_inside(x.low, x.high, state);
    setters::with_item(m, k, known_item(x, weight))
}

// Each weight at a figure drawn inside its range.
pub fn at_drawn(m: Model, state: u64) -> Model {
    let mut p = m;
    let mut now = state;
    for k in 0..16 {
        now = next(now);
        p = with_drawn_weight(p, k, now);
    }
    p
}
