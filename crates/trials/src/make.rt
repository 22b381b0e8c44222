// Items and problems made by hand.
ghost use Rattle.std.specs.Prelude.{◌≤◌};

use knapsack::Mark;
use model::{Model, ModelItem, Need, no_item, setters};

pub fn item(weight: i64, price: i64, lower: Option<i64>, upper: Option<i64>) -> ModelItem {
    ModelItem {
        mark: Mark::Integer,
        low: weight,
        high: weight,
        price: price,
        lower: lower,
        upper: upper,
    }
}

// With both bounds.
pub fn held(weight: i64, price: i64, lower: i64, upper: i64) -> ModelItem {
    item(weight, price, Some(lower), Some(upper))
}

// From 0 on, with no upper bound.
pub fn from_zero(weight: i64, price: i64) -> ModelItem {
    item(weight, price, Some(0), None)
}

// Up to 0, with no lower bound.
pub fn to_zero(weight: i64, price: i64) -> ModelItem {
    item(weight, price, None, Some(0))
}

// With no bound at all.
pub fn free(weight: i64, price: i64) -> ModelItem {
    item(weight, price, None, None)
}

// The same item, continuous.
pub fn loose(x: ModelItem) -> ModelItem {
    ModelItem {
        mark: Mark::Continuous,
        ..x
    }
}

// The record of a capacity, a count and all 16 places.
pub fn record_of(capacity: i64, count: usize, items: [ModelItem; 16]) -> Model {
    let m = setters::with_capacity(setters::empty_model(), capacity);
    setters::with_items(setters::with_count(m, count), items)
}

// The first count of x, y and z are the problem's items.
pub fn first_of(capacity: i64, count: usize, x: ModelItem, y: ModelItem, z: ModelItem) -> Model {
    let mut items = [no_item(); 16];
    items[0] = x;
    items[1] = y;
    items[2] = z;
    record_of(capacity, count, items)
}

pub fn one(capacity: i64, x: ModelItem) -> Model {
    let blank = no_item();
    first_of(capacity, 1, x, blank, blank)
}

pub fn two(capacity: i64, x: ModelItem, y: ModelItem) -> Model {
    let blank = no_item();
    first_of(capacity, 2, x, y, blank)
}

// With a line of needs at a place, which is the last one.
pub fn needing(m: Model, place: usize, item: usize, cover: usize) -> Model
    requires { place ≤ 15 }
{
    let need = Need { item, cover };
    setters::with_need_count(setters::with_need(m, place, need), place + 1)
}
