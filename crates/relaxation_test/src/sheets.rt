// Sheets made by hand or drawn, their records, and the relaxations of these.
ghost use Rattle.std.specs.Prelude.{◌≤◌};

use model::naming::no_needs;
use model::{Model, ModelItem, Need, Needs, Sense, no_item, setters};
use relaxation::Terms;
use trials::draw::{Spans, drawn_capacity, drawn_item, next};
use trials::make::{held, loose};
use trials::needs::with_drawn_needs;
use trials::ranges::with_drawn_ranges;

// A capacity, a list, of which the first count items are lent, and terms: the needs and the sense.
#[derive(Clone, Copy)]
pub struct Sheet {
    pub items: [ModelItem; 18],
    pub count: usize,
    pub capacity: i64,
    pub terms: Terms,
    ghost in_list: { count ≤ 18 },
}

// ---- sheets made by hand

// No needs, and the sure sense.
fn plain_terms() -> Terms {
    Terms {
        needs: no_needs(),
        sense: Sense::Sure,
    }
}

// Behind the items that are lent stand others.
pub fn with_items(capacity: i64, count: usize, x: ModelItem, y: ModelItem, z: ModelItem) -> Sheet
    requires { count ≤ 18 }
{
    let other = held(7, -77, 5, 6);
    let mut items = [other; 18];
    items[0] = x;
    items[1] = y;
    items[2] = z;
    Sheet {
        items,
        count,
        capacity,
        terms: plain_terms(),
    }
}

// With the need of item k for item m as the next line, and so many lines counted.
pub fn with_need(s: Sheet, count: usize, k: usize, m: usize) -> Sheet {
    let mut needs = s.terms.needs;
    let place = needs.count;
    if let Some(line) = needs.lines.get_mut(place) {
        *line = Need { item: k, cover: m };
    }
    needs.count = count;
    with_needs(s, needs)
}

fn with_needs(s: Sheet, needs: Needs) -> Sheet {
    let mut r = s;
    r.terms.needs = needs;
    r
}

pub fn one(capacity: i64, x: ModelItem) -> Sheet {
    let blank = no_item();
    with_items(capacity, 1, x, blank, blank)
}

pub fn two(capacity: i64, x: ModelItem, y: ModelItem) -> Sheet {
    let blank = no_item();
    with_items(capacity, 2, x, y, blank)
}

pub fn three(capacity: i64, x: ModelItem, y: ModelItem, z: ModelItem) -> Sheet {
    with_items(capacity, 3, x, y, z)
}

// ---- drawn sheets

// Weights and prices up to the ends of their ranges; no bounds cross.
pub fn large(bound: u64, unit: i64, absent: u64) -> Spans {
    Spans {
        weight: 1000,
        price: 10000,
        bound,
        capacity: 10000,
        unit,
        absent,
        loose: 2,
        crossing: 0,
    }
}

#[derive(Clone, Copy)]
pub struct DrawnSheet {
    pub sheet: Sheet,
    pub state: u64,
}

// A sheet of so many items; the places behind them are drawn too.
pub fn drawn_sheet(state: u64, count: usize, z: Spans) -> DrawnSheet
    requires { count ≤ 18 }
{
    let mut items = [no_item(); 18];
    let mut now = next(state);
    let capacity = drawn_capacity(now, z);
    for k in 0..18 {
        let d = drawn_item(now, z);
        items[k] = d.item;
        now = d.state;
    }
    let sheet = Sheet {
        items,
        count,
        capacity,
        terms: plain_terms(),
    };
    DrawnSheet { sheet, state: now }
}

// ---- records

// The sheet as a record; it has the first 16 items.
pub fn record_of(s: Sheet) -> Model {
    let mut items = [no_item(); 16];
    items.copy_from_slice(&s.items[..16]);
    let plain = trials::make::record_of(s.capacity, s.count, items);
    setters::with_needs(plain, s.terms.needs)
}

// The sheet with the first 16 items and the needs of a record.
fn with_record(s: Sheet, m: Model) -> Sheet {
    let mut r = with_needs(s, m.needs);
    r.items[..16].copy_from_slice(&m.items);
    r
}

// A drawn sheet with needs drawn for it: of among + 1 pairs of items about one. Items that are named are made fit for it.
pub fn with_drawn_lines(d: DrawnSheet, among: u64) -> DrawnSheet {
    let e = with_drawn_needs(record_of(d.sheet), d.state, among);
    DrawnSheet {
        sheet: with_record(d.sheet, e.problem),
        state: e.state,
    }
}

// The sheet with ranges drawn for its weights, and a sense (paper 02, request 11).
pub fn ranged(s: Sheet, state: u64, sense: Sense) -> Sheet {
    let d = with_drawn_ranges(record_of(s), state, 1, 4);
    let mut r = with_record(s, d.problem);
    r.terms.sense = sense;
    r
}

// Whether a need of the record names the item number k.
fn is_named(p: Model, k: usize) -> bool {
    let mut lines = p.needs.lines.iter().take(p.needs.count);
    lines.any(|need| need.item == k || need.cover == k)
}

// The item at a place, continuous unless a need names it.
fn relaxed_item(p: Model, k: usize) -> ModelItem
    requires { k ≤ 15 }
{
    let x = p.items[k];
    if is_named(p, k + 1) { x } else { loose(x) }
}

// The record with its items continuous, but for those that a need names.
pub fn loosened(p: Model) -> Model {
    let mut q = p;
    for k in 0..16 {
        q.items[k] = relaxed_item(p, k);
    }
    q
}
