// From an accepted problem, everything that a search needs: the columns in the order of filling, the box, and the integer items as
// levels in the order of branching, with their ends and the lattices of what they change. Paper 01, "Relaxation", has the order of filling;
// ties are parted for small answers, see tables, filling_key.
#![tactic(auto)]

ghost use Rattle.std.specs.Prelude.{◌≡◌, ◌<◌};
ghost use Rattle.greedy.specs.Fill.{fill};
ghost use Rattle.greedy.specs.Sized.{Sized};
ghost use Rattle.knapsack.specs.Ranges.{InRange};
ghost use Rattle.prepare.specs.Prepared.{Columned, Boxed, critical_key, Latticing, Prepared};
ghost use Rattle.prepare.specs.Tables.{Listing};

use greedy::{Columns, Ends, fill_up};
use knapsack::Problem;
use lattice::{Lattice, lattices, unknown_lattices};
pub use narrowing::{narrowed, reach_of};
pub use pairs::pairs_of;
use setting::Setting;
use tables::{Figure, Key, Test, all_places, inverse, leading, ranking_by, table};

mod narrowing; // narrowing.rt: the nearer box of a search
mod pairs; // pairs.rt: the table of domination pairs
mod tables; // tables.rt: arrays by item, by rank and by level, and the two orders

// Of some items, without sign: the greatest weight of one that lacks a bound, and the greatest bound.
#[derive(Clone, Copy)]
pub struct Most {
    pub weight: u64,
    pub bound: u64,
}

// How far a search has to go: what an item may weigh, and an amount that any item may have.
#[derive(Clone, Copy)]
pub struct Reach {
    pub weight: u64,
    pub amount: u64,
}

// The problem by columns.
fn columns(p: Problem) -> Columns
    requires { InRange p }
    ensures { Columned p result }
{
    let n = p.count;
    let items = all_places();
    let order = ranking_by(p, Key::Filling);
    let weight = table(p, items, n, Figure::Weight);
    let price = table(p, items, n, Figure::Price);
    let rank = inverse(order, n);
    let size = table(p, order, n, Figure::Size);
    let rate = table(p, order, n, Figure::Rate);
    let live = leading(p, order, Test::Live);
    Columns {
        weight: weight,
        price: price,
        order: order,
        rank: rank,
        size: size,
        rate: rate,
        live: live,
        count: n,
        capacity: p.capacity,
    }
}

// The box: what stands for an absent bound is out of reach.
fn bounding_box(p: Problem) -> Ends
    requires { InRange p }
    ensures { Boxed p result }
{
    let n = p.count;
    let items = all_places();
    let lo = table(p, items, n, Figure::Low);
    let hi = table(p, items, n, Figure::High);
    Ends { lo: lo, hi: hi }
}

// How the items are ordered for branching.
fn branching(cols: Columns, ends: Ends) -> Key
    requires { Sized cols ends }
    ensures { result ≡ critical_key cols (fill cols ends) }
{
    let f = fill_up(cols, ends);
    let u = f.at;
    let n = cols.live;
    if f.room < 0 {
        return Key::Branching(0, 1);
    }
    if u < n {
        return Key::Branching(cols.rate[u], cols.size[u]);
    }
    Key::Branching(0, 1)
}

// The lattices of the first n levels; where a continuous item is free, nothing is known.
fn lattices_of(p: Problem, level: [usize; 16], n: usize) -> [Lattice; 16]
    requires { Listing p level n }
    ensures { Latticing p level n result }
{
    let items = all_places();
    let fixed = leading(p, items, Test::Fixed);
    if fixed < p.count {
        return unknown_lattices();
    }
    let weight = table(p, level, n, Figure::Weight);
    let price = table(p, level, n, Figure::Price);
    lattices(weight, price, n)
}

// Everything that a search needs.
pub fn prepare(p: Problem) -> Setting
    requires { InRange p }
    ensures { Prepared p result }
{
    let cols = columns(p);
    let ends = bounding_box(p);
    let by = branching(cols, ends);
    let level = ranking_by(p, by);
    let levels = leading(p, level, Test::Level);
    let low = table(p, level, levels, Figure::Low);
    let high = table(p, level, levels, Figure::High);
    let lattice = lattices_of(p, level, levels);
    Setting {
        cols: cols,
        ends: ends,
        level: level,
        low: low,
        high: high,
        lattice: lattice,
        levels: levels,
    }
}
