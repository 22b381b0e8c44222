// The relaxation of a box, in which every item has both bounds, by greedy filling over flat arrays: the planner's inner loop.
// The mathematics is document 000, chapter 3: a prefix of the order by price per weight stands at its heavy end, the rest at its
// light end, and at most one item between (the critical item).
#![tactic(auto)]

ghost use Rattle.std.specs.Prelude.{◌≡◌, ◌<◌};
ghost use Rattle.greedy.specs.Fill.{by_item, by_rank, unranked, columns_of, lightest, heaviest, fitted, begun, with_amount, raise_by, fill, bound, shared_by, start_of, rounded_by};
ghost use Rattle.arith.specs.Limits.{farthest};
ghost use Rattle.arith.specs.Within.{Within};
ghost use Rattle.greedy.specs.Sized.{Sized, SizedFill, Raisable, Shareable, Fittable};

use arith::{Mixed, ceil_div, floor_div, magnitude};
pub use point::{Amounted, amounts, standing, taking};

mod point; // point.rt: the amounts of a filling

// A problem by columns. By item: weight and price. By rank, in the order of falling price per weight: the item, its weight and
// price without the sign of the weight. rank is order turned round; the first live ranks are worth their weight.
#[derive(Clone, Copy)]
pub struct Columns {
    pub weight: [i64; 16],
    pub price: [i64; 16],
    pub order: [usize; 16],
    pub rank: [usize; 16],
    pub size: [i64; 16],
    pub rate: [i64; 16],
    pub live: usize,
    pub count: usize,
    pub capacity: i64,
}

// The bounds of a box, by item.
#[derive(Clone, Copy)]
pub struct Ends {
    pub lo: [i64; 16],
    pub hi: [i64; 16],
}

// Where a filling stands: the ranks before `at` are raised, `room` of the capacity is left, the amounts are worth `worth`.
#[derive(Clone, Copy)]
pub struct Fill {
    pub at: usize,
    pub room: i64,
    pub worth: i64,
}

// The end where an item weighs least.
pub fn light_end(a: i64, c: i64, l: i64, u: i64) -> i64
    ensures { result ≡ lightest a c l u }
{
    if 0 < a {
        return l;
    }
    if a < 0 {
        return u;
    }
    if 0 < c { u } else { l }
}

// Every item at its light end.
pub fn begin(cols: Columns, ends: Ends) -> Fill
    requires { Sized cols ends }
    ensures { result ≡ begun cols ends }
{
    begin_in(
        &cols.weight,
        &cols.price,
        &ends.lo,
        &ends.hi,
        cols.count,
        cols.capacity,
    )
}

// The same by the columns that it needs: a struct is copied at a call, an array that is lent is not.
pub fn begin_in<'a>(
    weight: &'a [i64; 16],
    price: &'a [i64; 16],
    lo: &'a [i64; 16],
    hi: &'a [i64; 16],
    n: usize,
    capacity: i64,
) -> Fill
    requires { Sized (by_item weight.now price.now n capacity) (record { lo = lo.now; hi = hi.now }) }
    ensures { result ≡ begun (by_item weight.now price.now n capacity) (record { lo = lo.entry.now; hi = hi.now }) }
{
    let mut f = Fill {
        at: 0,
        room: capacity,
        worth: 0,
    };
    for k in 0..n {
        let x = light_end(weight[k], price[k], lo[k], hi[k]);
        f = with_amount(f, weight[k], price[k], x);
    }
    f
}

// One item more, at the amount x.
pub fn with_amount(f: Fill, a: i64, c: i64, x: i64) -> Fill
    requires { Within 1000 a × (Within 10000 c × (Within farthest x × (Within 10000000000000 f.room × Within 100000000000000 f.worth))) }
    ensures { result ≡ with_amount f a c x }
{
    Fill {
        at: f.at,
        room: f.room - a * x,
        worth: f.worth + c * x,
    }
}

// The filling with the item of the next rank raised to its heavy end, if it fits.
pub fn raise(f: Fill, size: i64, rate: i64, width: i64) -> Option<Fill>
    requires { Raisable f size rate width }
    ensures { result ≡ raise_by f size rate width }
{
    let need = size * width;
    if f.room < need {
        return None;
    }
    Some(Fill {
        at: f.at + 1,
        room: f.room - need,
        worth: f.worth + rate * width,
    })
}

// The filling of a box: where it stops. A room below 0 says that the box is empty.
pub fn fill_up(cols: Columns, ends: Ends) -> Fill
    requires { Sized cols ends }
    ensures { result ≡ fill cols ends }
{
    fill_in(
        &cols.weight,
        &cols.price,
        &cols.order,
        &cols.size,
        &cols.rate,
        &ends.lo,
        &ends.hi,
        cols.live,
        cols.count,
        cols.capacity,
    )
}

// The same by the columns that it needs.
pub fn fill_in<'a>(
    weight: &'a [i64; 16],
    price: &'a [i64; 16],
    order: &'a [usize; 16],
    size: &'a [i64; 16],
    rate: &'a [i64; 16],
    lo: &'a [i64; 16],
    hi: &'a [i64; 16],
    live: usize,
    n: usize,
    capacity: i64,
) -> Fill
    requires { Sized (unranked weight.now price.now order.now size.now rate.now live n capacity) (record { lo = lo.now; hi = hi.now }) }
    ensures { result ≡ fill (unranked weight.now price.now order.now size.now rate.now live n capacity) (record { lo = lo.entry.now; hi = hi.now }) }
{
    let mut f = begin_in(weight, price, lo, hi, n, capacity);
    if f.room < 0 {
        return f;
    }
    for u in 0..live {
        let k = order[u];
        match raise(f, size[u], rate[u], hi[k] - lo[k]) {
            Some(g) => f = g,
            None => return f,
        }
    }
    f
}

// The value of the relaxation: what the whole amounts are worth, and what the room is worth at the critical item.
pub fn bound_of(cols: Columns, f: Fill) -> Mixed
    requires { SizedFill cols f }
    ensures { result ≡ bound cols f }
{
    bound_in(&cols.size, &cols.rate, cols.live, f)
}

// The same by the columns that it needs.
pub fn bound_in<'a>(size: &'a [i64; 16], rate: &'a [i64; 16], live: usize, f: Fill) -> Mixed
    requires { SizedFill (by_rank size.now rate.now live) f }
    ensures { result ≡ bound (by_rank size.now rate.now live) f }
{
    let u = f.at;
    if u < live {
        return share(f, magnitude(size[u]), magnitude(rate[u]));
    }
    Mixed {
        whole: f.worth,
        part: 0,
        parts: 1,
    }
}

// The worth with the room at the price p for a weight of s.
pub fn share(f: Fill, s: u64, p: u64) -> Mixed
    requires { Shareable f s p }
    ensures { result ≡ shared_by f s p }
{
    let x = p * magnitude(f.room);
    Mixed {
        whole: f.worth + (x / s) as i64,
        part: x % s,
        parts: s,
    }
}

// Item k's amount in the relaxation, rounded towards its light end.
pub fn start_of<'a>(
    weight: &'a [i64; 16],
    price: &'a [i64; 16],
    order: &'a [usize; 16],
    rank: &'a [usize; 16],
    size: &'a [i64; 16],
    rate: &'a [i64; 16],
    lo: &'a [i64; 16],
    hi: &'a [i64; 16],
    live: usize,
    n: usize,
    capacity: i64,
    k: usize,
) -> i64
    requires { Sized (columns_of weight.now price.now order.now rank.now size.now rate.now live n capacity) (record { lo = lo.now; hi = hi.now }) × (k < 16) }
    ensures { result ≡ start_of (columns_of weight.now price.now order.now rank.now size.now rate.now live n capacity) (record { lo = lo.entry.now; hi = hi.now }) k }
{
    let f = fill_in(weight, price, order, size, rate, lo, hi, live, n, capacity);
    rounded(f, weight[k], price[k], lo[k], hi[k], rank[k], live)
}

// The amount of the item of rank v in a filling of n live ranks, rounded towards its light end.
pub fn rounded(f: Fill, a: i64, c: i64, l: i64, u: i64, v: usize, n: usize) -> i64
    requires { Fittable l u f.room }
    ensures { result ≡ rounded_by f a c l u v n }
{
    let t = f.at;
    let r = f.room;
    let x = light_end(a, c, l, u);
    if r < 0 {
        return x;
    }
    if v < t {
        return heavy_end(a, l, u);
    }
    if v == t {
        if t < n {
            return fitting(a, l, u, r);
        }
    }
    x
}

pub fn heavy_end(a: i64, l: i64, u: i64) -> i64
    ensures { result ≡ heaviest a l u }
{
    if a < 0 { l } else { u }
}

// The amount of an item that just fits a room, from its light end on. Paper 01, "Dividing": rounded down for a limit from above, and up
// for one from below.
pub fn fitting(a: i64, l: i64, u: i64, room: i64) -> i64
    requires { Fittable l u room }
    ensures { result ≡ fitted a l u room }
{
    if a < 0 {
        return u + ceil_div(room, a);
    }
    if 0 < a {
        return l + floor_div(room, a);
    }
    l
}
