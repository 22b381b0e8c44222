// A record is filled by these alone: whoever reads, draws or lends one need not know its fields.
ghost use Rattle.std.specs.Prelude.{◌≡◌, ◌<◌};
ghost use Rattle.model.specs.Records.{empty_model};
ghost use Rattle.model.specs.Setters.{
  with_capacity,
  with_count,
  with_items,
  with_item,
  appended,
  bounded,
  with_bound,
  with_needs,
  with_need_count,
  with_need,
  appended_need,
};

use crate::{Model, ModelItem, Need, Needs, Side, naming};

// The record of a refusal.
pub fn empty_model() -> Model
    ensures { result ≡ empty_model }
{
    Model {
        items: [crate::no_item(); 16],
        count: 0,
        capacity: 0,
        needs: naming::no_needs(),
    }
}

pub fn with_capacity(m: Model, b: i64) -> Model
    ensures { result ≡ with_capacity m b }
{
    Model { capacity: b, ..m }
}

pub fn with_count(m: Model, count: usize) -> Model
    ensures { result ≡ with_count m count }
{
    Model { count, ..m }
}

// All places at once.
pub fn with_items(m: Model, items: [ModelItem; 16]) -> Model
    ensures { result ≡ with_items m items }
{
    Model { items, ..m }
}

pub fn with_item(m: Model, j: usize, x: ModelItem) -> Model
    requires { j < 16 }
    ensures { result ≡ with_item m j x }
{
    let mut n = m;
    n.items[j] = x;
    n
}

// With an item more, in the first unused place.
pub fn append(m: Model, x: ModelItem) -> Model
    requires { m.count < 16 }
    ensures { result ≡ appended m x }
{
    with_count(with_item(m, m.count, x), m.count + 1)
}

// An item with another bound on one side.
pub fn with_side(item: ModelItem, side: Side, b: Option<i64>) -> ModelItem
    ensures { result ≡ bounded side b item }
{
    match side {
        Side::Lower => ModelItem { lower: b, ..item },
        Side::Upper => ModelItem { upper: b, ..item },
    }
}

pub fn with_bound(m: Model, side: Side, j: usize, b: Option<i64>) -> Model
    requires { j < 16 }
    ensures { result ≡ with_bound m side j b }
{
    with_item(m, j, with_side(m.items[j], side, b))
}

pub fn with_needs(m: Model, needs: Needs) -> Model
    ensures { result ≡ with_needs m needs }
{
    Model { needs, ..m }
}

pub fn with_need_count(m: Model, count: usize) -> Model
    ensures { result ≡ with_need_count m count }
{
    let needs = Needs { count, ..m.needs };
    with_needs(m, needs)
}

pub fn with_need(m: Model, j: usize, x: Need) -> Model
    requires { j < 16 }
    ensures { result ≡ with_need m j x }
{
    let mut ns = m.needs;
    ns.lines[j] = x;
    with_needs(m, ns)
}

// With a line of needs more.
pub fn append_need(m: Model, x: Need) -> Model
    requires { m.needs.count < 16 }
    ensures { result ≡ appended_need m x }
{
    let t = m.needs.count;
    with_need_count(with_need(m, t, x), t + 1)
}
