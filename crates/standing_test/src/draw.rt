// Changes drawn from a seed: one in four adds an item, one removes one, two set an upper bound, from 0 to twice its span. One item number in sixteen is 0,
// and some are one too high; of sixteen items one is blank, one has a weight out of range, one a low weight above its high one, four have a range, at no
// end of which they are blank, and which is refused if the amount may be below 0; and one bound in sixteen is out of range.
ghost use Rattle.std.specs.Prelude.{◌≤◌};

use model::ModelItem;
use trials::draw::{Spans, below, drawn_item, figure, mended_price, next};
use trials::exact::{as_signed, plus};

// Items are named by their numbers.
#[derive(Clone, Copy)]
pub enum Change {
    Add(ModelItem),
    Remove(usize),
    SetUpper(usize, Option<i64>),
}

// A change, and the state after its draws.
#[derive(Clone, Copy)]
pub struct DrawnChange {
    pub change: Change,
    pub state: u64,
}

fn spoiled(x: ModelItem, state: u64) -> ModelItem {
    let mut y = x;
    match below(state, 15) {
        0 => {
            y.low = 0;
            y.high = 0;
            y.price = 0;
        }
        1 => y.high = 1001,
        2 => y.low = plus(y.high, 1),
        3..=6 => {
            y.high = plus(y.high, 2);
            y.price = mended_price(0, y.price);
        }
        _ => {}
    }
    y
}

fn drawn_upper(state: u64, z: Spans) -> Option<i64> {
    let d = below(state, 15);
    if d == 0 {
        return Some(10001);
    }
    if d <= z.absent {
        return None;
    }
    Some(plus(figure(next(state), z.bound), as_signed(z.bound)))
}

// No item is added to `most` of them.
fn change_from(
    state: u64,
    number: usize,
    x: ModelItem,
    upper: Option<i64>,
    has_room: bool,
) -> Change {
    match below(state, 3) {
        0 if has_room => Change::Add(x),
        0 | 1 => Change::Remove(number),
        _ => Change::SetUpper(number, upper),
    }
}

fn drawn_number(state: u64, n: usize) -> usize
    requires { n ≤ 16 }
{
    if below(state, 15) == 0 {
        return 0;
    }
    below(next(state), n as u64) as usize + 1
}

// For a problem of n items.
pub fn drawn_change(state: u64, n: usize, most: usize, z: Spans) -> DrawnChange
    requires { n ≤ 16 }
{
    let a = next(state);
    let b = next(a);
    let c = next(b);
    let d = drawn_item(c, z);
    let e = next(d.state);
    let item = spoiled(d.item, e);
    let f = next(e);
    let change = change_from(a, drawn_number(b, n), item, drawn_upper(f, z), n < most);
    DrawnChange {
        change,
        state: next(f),
    }
}
