// Blank items (paper 02, request 9) that the program makes itself, and what has to become of a record with some of them: each item is looked at by
// itself, and none is moved here.
ghost use Rattle.std.specs.Prelude.{◌≤◌};

use model::{Model, ModelItem, Need, setters};
use trials::draw::{DrawnProblem, below, next};

// Of an item: not blank, or what keeps a blank one from being left out. Of a record: the same of its items together.
#[derive(Clone, Copy)]
pub enum Reason {
    NoBlank,
    Harmless,
    NothingLeft,
    Crossing,
    Named,
}

// The item is the number of the one that stands against it, 0 where none does.
#[derive(Clone, Copy)]
pub struct Fate {
    pub reason: Reason,
    pub item: usize,
}

// ---- made

fn weightless(x: ModelItem, price: i64) -> ModelItem {
    ModelItem {
        low: 0,
        high: 0,
        price,
        ..x
    }
}

// The item at a place weighs nothing and has a price.
pub fn with_weightless(m: Model, k: usize, price: i64) -> Model
    requires { k ≤ 15 }
{
    setters::with_item(m, k, weightless(m.items[k], price))
}

// One item in three becomes blank.
pub fn with_drawn_blanks(m: Model, state: u64) -> DrawnProblem {
    let mut p = m;
    let mut now = state;
    for k in 0..16 {
        now = next(now);
        if below(now, 2) == 0 {
            p = with_weightless(p, k, 0);
        }
    }
    DrawnProblem {
        problem: p,
        state: now,
    }
}

// ---- looked at

pub fn is_blank(x: ModelItem) -> bool {
    x.low == 0 && x.high == 0 && x.price == 0
}

fn crosses(x: ModelItem) -> bool {
    matches!((x.lower, x.upper), (Some(a), Some(b)) if b < a)
}

fn names(need: Need, item: usize) -> bool {
    need.item == item || need.cover == item
}

// Whether a line of needs names an item, by its number from 1.
fn is_named(m: Model, item: usize) -> bool {
    for need in m.needs.lines.iter().take(m.needs.count) {
        if names(*need, item) {
            return true;
        }
    }
    false
}

fn reason_at(m: Model, k: usize) -> Reason
    requires { k ≤ 15 }
{
    let x = m.items[k];
    if !is_blank(x) {
        return Reason::NoBlank;
    }
    if crosses(x) {
        return Reason::Crossing;
    }
    if is_named(m, k + 1) {
        return Reason::Named;
    }
    Reason::Harmless
}

fn hinders(r: Reason) -> bool {
    matches!(r, Reason::NothingLeft | Reason::Crossing | Reason::Named)
}

// How many of the first n items are blank.
pub fn blanks_among(m: Model, n: usize) -> usize
    requires { n ≤ 16 }
    ensures { result ≤ n }
{
    let mut found: usize = 0;
    for k in 0..n {
        if is_blank(m.items[k]) {
            found += 1;
        }
    }
    found
}

// Whether a need names one of n items behind a blank one, so that its number has to move.
pub fn moves_need(m: Model, n: usize) -> bool
    requires { n ≤ 16 }
{
    let mut moves = false;
    for k in 0..n {
        if moves && is_named(m, k + 1) {
            return true;
        }
        moves = moves || is_blank(m.items[k]);
    }
    false
}

// The first of n items that cannot be left out.
fn first_hindering(m: Model, n: usize) -> Fate
    requires { n ≤ 16 }
{
    for k in 0..n {
        let reason = reason_at(m, k);
        if hinders(reason) {
            return Fate {
                reason,
                item: k + 1,
            };
        }
    }
    Fate {
        reason: Reason::Harmless,
        item: 0,
    }
}

// What has to become of a record of n items.
pub fn fate_of(m: Model, n: usize) -> Fate
    requires { n ≤ 16 }
{
    let blanks = blanks_among(m, n);
    if blanks == 0 {
        return Fate {
            reason: Reason::NoBlank,
            item: 0,
        };
    }
    if blanks == n {
        return Fate {
            reason: Reason::NothingLeft,
            item: 1,
        };
    }
    first_hindering(m, n)
}
