// The amounts of a filling, item by item, each over its item's own divisor. Paper 01: the point of an answer; paper 02, request 12.
ghost use Rattle.std.specs.Prelude.{◌≡◌, cond, ◌<◌};
ghost use Rattle.arith.specs.Limits.{most_room};
ghost use Rattle.arith.specs.Within.{Within};
ghost use Rattle.greedy.specs.Fill.{lightest, heaviest, taken_by, numerator};
ghost use Rattle.greedy.specs.Sized.{Sized, SizedColumns, SizedFill};
ghost use Rattle.greedy.specs.Amounts.{divisor_in, amount_of, Countable, Amounts};

use super::{Columns, Ends, Fill, heavy_end, light_end};
use arith::Fraction;
use knapsack::weight_divisor;

// A point, item by item.
#[derive(Clone, Copy)]
pub struct Amounted {
    pub point: [Fraction; 16],
}

// The whole amount of an item, raised or not.
pub fn standing(a: i64, p: i64, l: i64, h: i64, raised: bool) -> i64
    ensures { result ≡ cond raised (heaviest a l h) (lightest a p l h) }
{
    if raised {
        heavy_end(a, l, h)
    } else {
        light_end(a, p, l, h)
    }
}

// What the item of rank v takes of the room, if the filling ended there.
pub fn taking(a: i64, room: i64, v: usize, u: usize, n: usize) -> i64
    requires { Within most_room room }
    ensures { result ≡ taken_by a room v u n }
{
    if u < n && v == u {
        if a < 0 {
            return -room;
        }
        return room;
    }
    0
}

// Item k's amount, times q.
fn numerator_of(cols: Columns, ends: Ends, f: Fill, q: u64, k: usize) -> i64
    requires { Countable cols ends f q k }
    ensures { result ≡ numerator cols ends f q k }
{
    let a = cols.weight[k];
    let v = cols.rank[k];
    let x = standing(a, cols.price[k], ends.lo[k], ends.hi[k], v < f.at);
    x * (q as i64) + taking(a, f.room, v, f.at, cols.live)
}

// Item k's amount over q.
fn amount(cols: Columns, ends: Ends, f: Fill, q: u64, k: usize) -> Fraction
    requires { Countable cols ends f q k }
    ensures { result ≡ amount_of cols ends f q k }
{
    Fraction {
        p: numerator_of(cols, ends, f, q, k),
        q,
    }
}

// The divisor of item k's amounts: its weight without sign, unless it is whole.
fn divisor_at(cols: Columns, whole: [bool; 16], k: usize) -> u64
    requires { SizedColumns cols × (k < 16) }
    ensures { result ≡ divisor_in cols whole k }
{
    if whole[k] {
        1
    } else {
        weight_divisor(cols.weight[k])
    }
}

// All amounts; zero beyond the count. whole tells which items have whole amounts.
pub fn amounts(cols: Columns, ends: Ends, f: Fill, whole: [bool; 16]) -> Amounted
    requires { Sized cols ends × SizedFill cols f }
    ensures { Amounts cols ends f whole result.point }
{
    let mut r = Amounted {
        point: [Fraction { p: 0, q: 1 }; 16],
    };
    for k in 0..cols.count {
        let q = divisor_at(cols, whole, k);
        r.point[k] = amount(cols, ends, f, q, k);
    }
    r
}
