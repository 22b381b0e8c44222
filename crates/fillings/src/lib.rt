// Fillings of a capacity at least cost, and the first of them. A load has 17 parts, of which the last is the slack. Amounts that alone cost too much
// are taken out before the scales look for the least cost, modulo the weight of a part that costs nothing if there is enough of it. Which of the
// fillings that have it comes first is read off a key that is added to the costs: the amounts of some parts as digits of one number. Where only the
// first filling is sought, leaps try the first amounts of many parts at once before that.
#![tactic(auto)]

ghost use Rattle.std.specs.Prelude.{◌≡◌, ℕ, suc, ◌+◌, ◌-◌, ◌*◌, ◌/◌, ◌%◌, ◌^◌, ◌≤◌, ◌<◌, min, length};
ghost use Rattle.scales.specs.Filling.{load, sum, Bounds};
ghost use Rattle.residues.specs.Asked.{Chosen};
ghost use Rattle.fillings.specs.Keys.{keys, digits, radix};
ghost use Rattle.fillings.specs.Ranges.{num, flag, items_in, Among, offset_of, boxed, near_wide, low_near};
ghost use Rattle.fillings.specs.Ranges.{Made, Narrows, Fair};
ghost use Rattle.fillings.specs.Runs.{Grouped, Gathers, in_group, keyed_by, taken_key, left_key, keyed_taken, keyed_left};
ghost use Rattle.fillings.specs.Runs.{fixed_low, fixed_wide, Fixable, Fixes, Begins, LeastKeyed, Decodes, Runs};
ghost use Rattle.fillings.specs.Runs.{ScalesWrite, RunWrites, Whole, run_cells};
ghost use Rattle.fillings.specs.Leaps.{Nears, Keeps, Weighs, short_low, Shortens, Heads, Opens, Sought, leap_to, leap_share, Leaps, Leapt};
ghost use Rattle.fillings.specs.Foremost.{Keyable, Goes, FirstOf, LeastOf};

use residues::{free_part, least_beside};
use scales::Cost;
use std::array;

// The parts of a load, and for each whether its amount falls where more of it is taken.
#[derive(Clone, Copy)]
pub struct Parts {
    pub weight: [u64; 17],
    pub range: [u64; 17],
    pub taken: [u64; 17],
    pub left: [u64; 17],
    pub falls: [bool; 17],
}

// The amounts from low on, and wide more.
#[derive(Clone, Copy)]
pub struct Ranges {
    pub low: [u64; 17],
    pub wide: [u64; 17],
}

// The parts before `to`, from one on, and how many keys they have.
#[derive(Clone, Copy)]
pub struct Group {
    pub to: usize,
    pub base: u64,
}

// The least cost, the ranges that are left for it, with the parts before `to` fixed, and how many cells were written.
#[derive(Clone, Copy)]
pub struct Run {
    pub cost: u64,
    pub ranges: Ranges,
    pub to: usize,
    pub written: u64,
}

// Weights as costs, of what is taken and of what is left, each with a cap that every filling of the capacity is below.
#[derive(Clone, Copy)]
pub struct Weighing {
    pub capacity: u64,
    pub up: Parts,
    pub most: u64,
    pub down: Parts,
    pub spare: u64,
}

// The amounts of the first filling, if there is one, and how many cells were written.
#[derive(Clone, Copy)]
pub struct First {
    pub amounts: Option<[u64; 17]>,
    pub written: u64,
}

// The least cost of a filling, the amounts of the first filling that has it, if it is below the cap, and how many cells were written.
#[derive(Clone, Copy)]
pub struct Filled {
    pub least: u64,
    pub amounts: [u64; 17],
    pub written: u64,
}

// No cap is above this: two costs below it can be added.
const HIGHEST: u64 = 9223372036854775807;

// ---- what is left of a cap

// How many of so many units a cap affords. Mostly it is all of them, which a product tells without a division.
fn affordable(cap: u64, cost: u64, units: u64) -> u64
    requires { 1 ≤ cost }
    ensures { result ≡ min units (cap / cost) }
{
    if cost < 4294967296 && units < 4294967296 && cost * units <= cap {
        return units;
    }
    units.min(cap / cost)
}

// A cap less what so many units cost; 0 if that is no less.
fn less_units(cap: u64, cost: u64, units: u64) -> u64
    ensures { result ≡ cap - cost * units }
{
    if cost == 0 {
        return cap;
    }
    if affordable(cap, cost, units) < units {
        0
    } else {
        cap - cost * units
    }
}

// Less what a part costs at least with amounts from low on, and wide more.
fn less_part(cap: u64, t: u64, l: u64, low: u64, wide: u64, range: u64) -> u64
    requires { low + wide ≤ range }
    ensures { result ≡ cap - (t * low + l * (range - (low + wide))) }
{
    less_units(less_units(cap, t, low), l, range - low - wide)
}

fn remaining(p: Parts, r: Ranges, cap: u64) -> u64
    requires { Fair p × Among p r }
    ensures { result ≡ cap - offset_of p r }
{
    let mut left = cap;
    for k in 0..17 {
        left = less_part(left, p.taken[k], p.left[k], r.low[k], r.wide[k], p.range[k]);
    }
    left
}

// What the least amounts weigh.
fn low_load(p: Parts, r: Ranges) -> u64
    requires { Fair p × Among p r }
    ensures value { result ≡ load (items_in p) (num r.low) }
    ensures upper_bound { result < 2 ^ 63 }
{
    let mut sum: u64 = 0;
    for k in 0..17 {
        sum += p.weight[k] * r.low[k];
    }
    sum
}

// ---- amounts that alone cost too much are taken out

fn near_wide(left: u64, t: u64, l: u64, wide: u64) -> u64
    requires { 1 ≤ left }
    ensures { result ≡ near_wide left t l wide }
{
    if l == 0 {
        if t == 0 {
            wide
        } else {
            affordable(left - 1, t, wide)
        }
    } else {
        if t == 0 {
            affordable(left - 1, l, wide)
        } else {
            wide
        }
    }
}

// The least of n and one amounts near the cheaper end.
fn near_low(t: u64, low: u64, wide: u64, n: u64) -> u64
    requires { (n ≤ wide) × (low + wide < 2 ^ 64) }
    ensures { result ≡ low_near t low wide n }
{
    if t == 0 { low + (wide - n) } else { low }
}

fn narrowed(p: Parts, r: Ranges, left: u64) -> Ranges
    requires { (1 ≤ left) × (Fair p × Among p r) }
    ensures { Narrows p left r result }
{
    let mut n = r;
    for k in 0..17 {
        let w = near_wide(left, p.taken[k], p.left[k], r.wide[k]);
        n.low[k] = near_low(p.taken[k], r.low[k], r.wide[k], w);
        n.wide[k] = w;
    }
    n
}

// ---- keys

// The parts from one on, before the end, as many as costs up to left have room for in their keys.
fn group_of(wide: [u64; 17], from: usize, end: usize, left: u64) -> Group
    requires { (1 ≤ left) × ((left < 2 ^ 63) × (end ≤ 17)) }
    ensures { Grouped wide from end left result }
{
    let mut base: u64 = 1;
    for to in from..end {
        if HIGHEST / (left * base) <= wide[to] {
            return Group { to, base };
        }
        base *= wide[to] + 1;
    }
    Group {
        to: from.max(end),
        base,
    }
}

// What a unit of each part is worth in the key.
fn radices(wide: [u64; 17], from: usize, to: usize, base: u64) -> [u64; 17]
    requires { (from ≤ to) × ((to ≤ 17) × (base ≡ keys (num wide) from (to - from))) }
    ensures { Made 17 (radix (num wide) from to) result }
{
    let mut list = [0; 17];
    let mut b = base;
    for k in from..to {
        b /= wide[k] + 1;
        list[k] = b;
    }
    list
}

// The digits of a key.
fn digits_of(wide: [u64; 17], from: usize, to: usize, base: u64, key: u64) -> [u64; 17]
    requires { (from ≤ to) × ((to ≤ 17) × (base ≡ keys (num wide) from (to - from))) }
    ensures { Made 17 (digits (num wide) from (to - from) key) result }
{
    let mut list = [0; 17];
    let mut b = base;
    let mut rest = key;
    for k in from..to {
        b /= wide[k] + 1;
        list[k] = rest / b;
        rest %= b;
    }
    list
}

// A cost in units of base, with a added, at most cap.
fn keyed(cap: u64, left: u64, base: u64, cost: u64, a: u64) -> u64
    requires { (left * base < 2 ^ 63) × (a < 2 ^ 63) }
    ensures { result ≡ keyed_by cap left base cost a }
{
    cap.min(left.min(cost) * base + a)
}

fn taken_key(falls: bool, a: u64) -> u64
    ensures { result ≡ taken_key falls a }
{
    if falls { 0 } else { a }
}

fn left_key(falls: bool, a: u64) -> u64
    ensures { result ≡ left_key falls a }
{
    if falls { a } else { 0 }
}

fn keyed_takens(p: Parts, cap: u64, left: u64, base: u64, rad: [u64; 17]) -> [u64; 17]
    requires { (left * base < 2 ^ 63) × ((k : ℕ) → k < 17 → num rad k < 2 ^ 63) }
    ensures { Made 17 (keyed_taken p cap left base rad) result }
{
    array::from_fn(|k| keyed(cap, left, base, p.taken[k], taken_key(p.falls[k], rad[k])))
}

fn keyed_lefts(p: Parts, cap: u64, left: u64, base: u64, rad: [u64; 17]) -> [u64; 17]
    requires { (left * base < 2 ^ 63) × ((k : ℕ) → k < 17 → num rad k < 2 ^ 63) }
    ensures { Made 17 (keyed_left p cap left base rad) result }
{
    array::from_fn(|k| keyed(cap, left, base, p.left[k], left_key(p.falls[k], rad[k])))
}

// ---- amounts that are known

fn is_in_group(from: usize, to: usize, k: usize) -> bool
    ensures { result ≡ in_group from to k }
{
    (from..to).contains(&k)
}

fn fixed_low_at(p: Parts, r: Ranges, from: usize, to: usize, ds: [u64; 17], k: usize) -> u64
    requires { (k < 17) × ((num r.low k + num r.wide k < 2 ^ 64) × (num ds k ≤ num r.wide k)) }
    ensures { result ≡ fixed_low p r from to ds k }
{
    if !is_in_group(from, to, k) {
        r.low[k]
    } else if p.falls[k] {
        r.low[k] + (r.wide[k] - ds[k])
    } else {
        r.low[k] + ds[k]
    }
}

fn fixed_wide_at(r: Ranges, from: usize, to: usize, k: usize) -> u64
    requires { k < 17 }
    ensures { result ≡ fixed_wide r from to k }
{
    if is_in_group(from, to, k) {
        0
    } else {
        r.wide[k]
    }
}

// The parts from one on, before `to`, fixed at digits.
fn fixed(p: Parts, r: Ranges, from: usize, to: usize, ds: [u64; 17]) -> Ranges
    requires { Fixable r ds }
    ensures { Fixes p from to ds r result }
{
    Ranges {
        low: array::from_fn(|k| fixed_low_at(p, r, from, to, ds, k)),
        wide: array::from_fn(|k| fixed_wide_at(r, from, to, k)),
    }
}

// ---- runs

// Nothing that costs less than the cap.
fn nothing(r: Ranges, cap: u64, from: usize, written: u64) -> Run
    ensures { result ≡ record { cost = cap; ranges = r; to = from; written = written } }
{
    Run {
        cost: cap,
        ranges: r,
        to: from,
        written,
    }
}

// The first part after one that costs nothing and makes up for all others; 17 if there is none.
fn free_after(p: Parts, r: Ranges, from: usize, room: u64) -> usize
    requires { Fair p × (Among p r × ((length r.wide ≡ 17) × (from ≤ 16))) }
    ensures { Chosen (boxed p r) (from + 1) room result }
{
    free_part(p.weight, r.wide, p.taken, p.left, from + 1, room)
}

// The least cost with the keys of a group, from the least amounts on.
fn least_keyed(
    p: Parts,
    r: Ranges,
    from: usize,
    left: u64,
    room: u64,
    g: Group,
    free: usize,
    cells: &mut [u64],
) -> Cost
    requires fair { Fair p × (Among p r × ((length r.wide ≡ 17) × Gathers r.wide from left g)) }
    requires chosen { Chosen (boxed p r) (from + 1) room free × (g.to ≤ free) }
    requires in_bounds { 65535 ≤ length cells.old }
    ensures { LeastKeyed p r from left room g free result }
{
    let rad = radices(r.wide, from, g.to, g.base);
    let most = left * g.base;
    let ts = keyed_takens(p, most, left, g.base, rad);
    let ls = keyed_lefts(p, most, left, g.base, rad);
    least_beside(p.weight, r.wide, ts, ls, free, room, most, cells)
}

// The ranges with a group fixed at the digits of a key.
fn decoded(p: Parts, r: Ranges, from: usize, left: u64, g: Group, key: u64) -> Ranges
    requires { Fair p × (Among p r × (Gathers r.wide from left g × (key < g.base))) }
    ensures { Decodes p r from g key result }
{
    let ds = digits_of(r.wide, from, g.to, g.base, key);
    fixed(p, r, from, g.to, ds)
}

// The same where the offset leaves something of the cap, and the least amounts some room.
fn keyed_run(
    p: Parts,
    r: Ranges,
    capacity: u64,
    room: u64,
    cap: u64,
    left: u64,
    from: usize,
    cells: &mut [u64],
) -> Run
    requires begins { Begins p r capacity cap from left room }
    requires in_bounds { 65535 ≤ length cells.old }
    ensures runs { Runs p r capacity cap from result }
    ensures scales_write { ScalesWrite p r room from result.written }
{
    let free = free_after(p, r, from, room);
    let g = group_of(r.wide, from, free.min(16), left);
    let c = least_keyed(p, r, from, left, room, g, free, cells);
    if c.least == left * g.base {
        return nothing(r, cap, from, c.written);
    }
    Run {
        cost: cap - left + c.least / g.base,
        ranges: decoded(p, r, from, left, g, c.least % g.base),
        to: g.to,
        written: c.written,
    }
}

// The least cost of a filling within the ranges, at most cap; of the fillings that have it, the first amounts of some parts from one on.
fn run_over(p: Parts, r: Ranges, capacity: u64, cap: u64, from: usize, cells: &mut [u64]) -> Run
    requires fair { Fair p × (Among p r × ((from ≤ 16) × (cap < 2 ^ 63))) }
    requires in_bounds { 65535 ≤ length cells.old }
    ensures runs { Runs p r capacity cap from result }
    ensures run_writes { RunWrites p r capacity cap from result.written }
{
    let left = remaining(p, r, cap);
    if left == 0 {
        return nothing(r, cap, from, 0);
    }
    let n = narrowed(p, r, left);
    let low = low_load(p, n);
    if capacity < low {
        return nothing(r, cap, from, 0);
    }
    keyed_run(p, n, capacity, capacity - low, cap, left, from, cells)
}

fn whole_of(p: Parts) -> Ranges
    ensures { Whole p result }
{
    let wide = p.range;
    Ranges { low: [0; 17], wide }
}

// ---- leaps

// The same fillings that cost less than cap, within ranges from which what alone costs too much is taken out.
fn near(p: Parts, r: Ranges, cap: u64) -> Ranges
    requires { Fair p × Among p r }
    ensures { Nears p cap r result }
{
    let left = remaining(p, r, cap);
    if left == 0 {
        return r;
    }
    narrowed(p, r, left)
}

// By how much the first is above the second, and one more; 0 if it is less.
fn excess(total: u64, capacity: u64) -> u64
    requires { total < 2 ^ 63 }
    ensures { result ≡ (total + 1) - capacity }
{
    (total + 1).saturating_sub(capacity)
}

fn by_weight(p: Parts, capacity: u64) -> Weighing
    requires { Fair p }
    ensures { Weighs p result × (result.capacity ≡ capacity) }
{
    let weight = p.weight;
    let low = p.range;
    let none = [0; 17];
    let total = low_load(p, Ranges { low, wide: none });
    Weighing {
        capacity,
        up: Parts {
            taken: weight,
            left: none,
            ..p
        },
        most: capacity.min(total) + 1,
        down: Parts {
            taken: none,
            left: weight,
            ..p
        },
        spare: excess(total, capacity),
    }
}

// By costs and by weights.
fn nearer(p: Parts, w: Weighing, cap: u64, r: Ranges) -> Ranges
    requires { Fair p × (Among p r × Weighs p w) }
    ensures { Keeps p w.capacity cap r result }
{
    let a = near(p, r, cap);
    let b = near(w.up, a, w.most);
    near(w.down, b, w.spare)
}

// The least of the first amounts, v and one: these are the highest if the part falls.
fn short_low(falls: bool, low: u64, wide: u64, v: u64) -> u64
    requires { (v ≤ wide) × (low + wide < 2 ^ 64) }
    ensures { result ≡ short_low falls low wide v }
{
    if falls { low + (wide - v) } else { low }
}

// Of the amounts of part k the first and v more.
fn shortened(p: Parts, r: Ranges, k: usize, v: u64) -> Ranges
    requires { Fair p × (Among p r × ((k < 17) × (v ≤ num r.wide k))) }
    ensures { Shortens p k v r result }
{
    let mut s = r;
    s.low[k] = short_low(p.falls[k], r.low[k], r.wide[k], v);
    s.wide[k] = v;
    s
}

// With part k at the first amount that is left to it.
fn ahead(p: Parts, w: Weighing, cap: u64, r: Ranges, k: usize) -> Ranges
    requires fair { Fair p × (Weighs p w × ((1 ≤ cap) × (k < 16))) }
    requires heads { Heads p w.capacity (cap - 1) r k k }
    ensures { Heads p w.capacity (cap - 1) result (k + 1) (k + 1) }
{
    let n = nearer(p, w, cap, r);
    shortened(p, n, k, 0)
}

// The parts before `to` at the first amounts, one after the other.
fn head(p: Parts, w: Weighing, cap: u64, to: usize) -> Ranges
    requires { Fair p × (Weighs p w × ((1 ≤ cap) × (to ≤ 16))) }
    ensures { Heads p w.capacity (cap - 1) result to to }
{
    let mut r = whole_of(p);
    for k in 0..to {
        r = ahead(p, w, cap, r, k);
    }
    r
}

// And part `to` at a share of those that are left to it.
fn opening(p: Parts, w: Weighing, cap: u64, to: usize, share: u64) -> Ranges
    requires { Fair p × (Weighs p w × ((1 ≤ cap) × ((to < 16) × (1 ≤ share)))) }
    ensures { Opens p w.capacity (cap - 1) result to share }
{
    let f = head(p, w, cap, to);
    let g = nearer(p, w, cap, f);
    let s = shortened(p, g, to, g.wide[to] / share);
    nearer(p, w, cap, s)
}

// A run over these ranges. What it finds is the first of all fillings of that cost.
fn leap(p: Parts, w: Weighing, cap: u64, to: usize, share: u64, cells: &mut [u64]) -> Run
    requires fair { Fair p × (Weighs p w × ((1 ≤ cap) × ((cap < 2 ^ 63) × ((to < 16) × (1 ≤ share))))) }
    requires in_bounds { 65535 ≤ length cells.old }
    ensures { Leaps p w.capacity cap to share result }
{
    let h = opening(p, w, cap, to, share);
    if remaining(w.down, h, w.spare) == 0 {
        return nothing(h, cap, to, 0);
    }
    run_over(p, h, w.capacity, cap, to, cells)
}

// How many parts the next leap fixes where i are left: 12, 8, 4, then 3, 2, 1 and none.
fn leap_to(i: usize) -> usize
    requires { (1 ≤ i) × (i ≤ 7) }
    ensures { result ≡ leap_to i }
{
    if 4 < i { 4 * (i - 4) } else { i - 1 }
}

// The share of the part after them: few parts leave much to do.
fn leap_share(i: usize) -> u64
    ensures { result ≡ leap_share i }
{
    if 4 < i { 1 } else { 16 }
}

// The ranges of the first leap that finds a filling; all amounts if none does.
fn leaps(p: Parts, capacity: u64, cap: u64, cells: &mut [u64]) -> Run
    requires fair { Fair p × ((1 ≤ cap) × ((cap < 2 ^ 63) × (Keyable p cap × Bounds (items_in p) capacity (cap - 1)))) }
    requires in_bounds { 65535 ≤ length cells.old }
    ensures { Leapt p capacity cap result }
{
    let w = by_weight(p, capacity);
    let mut written: u64 = 0;
    for i in (1..8).rev() {
        let n = leap(p, w, cap, leap_to(i), leap_share(i), cells);
        written += n.written;
        if n.cost < cap {
            return Run { written, ..n };
        }
    }
    nothing(whole_of(p), cap, 0, written)
}

// ---- the first filling

// From what a run has found on, run after run: the first filling that costs less than cap, where none costs less than cap - 1.
fn onward(p: Parts, capacity: u64, cap: u64, s: Run, cells: &mut [u64]) -> First
    requires fair { Fair p × ((1 ≤ cap) × ((cap < 2 ^ 63) × (Keyable p cap × Bounds (items_in p) capacity (cap - 1)))) }
    requires sought { Sought p capacity (cap - 1) s.ranges s.to × ((s.written ≤ 7 * run_cells) × (65535 ≤ length cells.old)) }
    ensures { Goes p capacity cap s result }
{
    let mut r = s.ranges;
    let mut written = s.written;
    let mut from = s.to;
    while from < 16 {
        let n = run_over(p, r, capacity, cap, from, cells);
        written += n.written;
        if n.cost == cap {
            return First {
                amounts: None,
                written,
            };
        }
        r = n.ranges;
        from = n.to;
    }
    First {
        amounts: Some(r.low),
        written,
    }
}

// The first filling that costs less than cap, where none costs less than cap - 1: by the first part whose amount differs.
pub fn first_filling(p: Parts, capacity: u64, cap: u64, cells: &mut [u64]) -> First
    requires fair { Fair p × ((1 ≤ cap) × ((cap < 2 ^ 63) × (Keyable p cap × Bounds (items_in p) capacity (cap - 1)))) }
    requires in_bounds { 65535 ≤ length cells.old }
    ensures { FirstOf p capacity cap result }
{
    let s = leaps(p, capacity, cap, cells);
    onward(p, capacity, cap, s, cells)
}

// The least cost of filling the capacity, at most cap, and the first filling that has it.
pub fn least_filling(p: Parts, capacity: u64, cap: u64, cells: &mut [u64]) -> Filled
    requires fair { Fair p × ((cap < 2 ^ 63) × Keyable p cap) }
    requires in_bounds { 65535 ≤ length cells.old }
    ensures { LeastOf p capacity cap result }
{
    let n = run_over(p, whole_of(p), capacity, cap, 0, cells);
    if n.cost == cap {
        return Filled {
            least: cap,
            amounts: [0; 17],
            written: n.written,
        };
    }
    let f = onward(p, capacity, n.cost + 1, n, cells);
    Filled {
        least: n.cost,
        amounts: f.amounts.unwrap_or([0; 17]),
        written: f.written,
    }
}
