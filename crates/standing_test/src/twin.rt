// A plain twin of the changes: what a change is refused for, and the record that it leaves. Removal moves all places down, and asks of each pair of new
// numbers whether the old ones stand in a line of needs.
ghost use Rattle.std.specs.Prelude.{◌≤◌};

use crate::draw::Change;
use knapsack::Refusal;
use model::{Model, ModelItem, Need, Needs, check_model, setters};

// The number of a refusal.
pub fn number_told(v: Result<(), Refusal>) -> Option<u64> {
    v.err().map(|f| f.number)
}

#[derive(Clone, Copy)]
pub struct Twin {
    pub number: Option<u64>,
    pub model: Model,
}

// ---- the rows

fn own_number(m: Model, c: Change) -> Option<u64> {
    let n = m.count;
    match c {
        Change::Add(_) if n == 16 => Some(16),
        Change::Remove(k) | Change::SetUpper(k, _) if k == 0 || n < k => Some(17),
        Change::Remove(_) if n == 1 => Some(18),
        _ => None,
    }
}

// ---- the records

// A new number, as it was before item k went.
fn raised(k: usize, a: usize) -> usize
    requires { a ≤ 16 }
{
    if a < k { a } else { a + 1 }
}

fn has_line(ns: Needs, a: usize, b: usize) -> bool {
    let mut lines = ns.lines.iter().take(ns.count);
    lines.any(|x| x.item == a && x.cover == b)
}

// With a line more, where there is room.
fn with_line(m: Model, a: usize, b: usize) -> Model {
    let t = m.needs.count;
    if 15 < t {
        return m;
    }
    let need = Need { item: a, cover: b };
    setters::with_need_count(setters::with_need(m, t, need), t + 1)
}

fn with_needs_but(m: Model, old: Needs, k: usize) -> Model {
    let mut q = setters::with_need_count(m, 0);
    for a in 1..=16 {
        for b in 1..=16 {
            if has_line(old, raised(k, a), raised(k, b)) {
                q = with_line(q, a, b);
            }
        }
    }
    q
}

// With place j + 1 moved down, unless it is before item k.
fn with_next(q: Model, m: Model, k: usize, j: usize) -> Model
    requires { j ≤ 14 }
{
    if j + 1 < k {
        return q;
    }
    setters::with_item(q, j, m.items[j + 1])
}

fn moved_down(m: Model, k: usize) -> Model {
    let mut q = m;
    for j in 0..15 {
        q = with_next(q, m, k, j);
    }
    q
}

fn without(m: Model, k: usize) -> Model {
    let n = m.count;
    let q = with_needs_but(moved_down(m, k), m.needs, k);
    if n == 0 {
        return q;
    }
    setters::with_count(q, n - 1)
}

fn with_upper(m: Model, k: usize, u: Option<i64>) -> Model {
    if k == 0 || 16 < k {
        return m;
    }
    let x = m.items[k - 1];
    setters::with_item(m, k - 1, ModelItem { upper: u, ..x })
}

fn with_last(m: Model, x: ModelItem) -> Model {
    let n = m.count;
    if 15 < n {
        return m;
    }
    setters::with_count(setters::with_item(m, n, x), n + 1)
}

fn made(m: Model, c: Change) -> Model {
    match c {
        Change::Add(x) => with_last(m, x),
        Change::Remove(k) => without(m, k),
        Change::SetUpper(k, u) => with_upper(m, k, u),
    }
}

pub fn twin_of(m: Model, c: Change) -> Twin {
    let own = own_number(m, c);
    if own.is_some() {
        return Twin {
            number: own,
            model: m,
        };
    }
    let q = made(m, c);
    Twin {
        number: number_told(check_model(q)),
        model: q,
    }
}
