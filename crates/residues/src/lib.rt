// Fillings modulo a free part. Where a part costs nothing and there is enough of it, it takes whatever the others leave of the capacity in
// multiples of its weight: only what their weights are modulo that one matters. This is Gomory's group relaxation, exact here because the
// free part never runs out.
#![tactic(auto)]

ghost use Rattle.std.specs.Prelude.{◌≡◌, ◌+◌, ◌*◌, ◌^◌, ◌≤◌, ◌<◌, length};
ghost use Rattle.scales.specs.Filling.{sum, heft, items_of, Least};
ghost use Rattle.scales.specs.Lent.{Listed, total};
ghost use Rattle.scales.specs.Counts.{Takes};
ghost use Rattle.residues.specs.Folding.{turned, swapped, folded_weight, offset, folded_weight_at, swapped_at, folded_range_at};
ghost use Rattle.residues.specs.Folding.{folded_capacity, folded, AbsorbsBy, Absorbs};
ghost use Rattle.residues.specs.Asked.{num, Made, Fit, Tells, Chosen, TakesBy};

use scales::{Cost, heft_of, least_cost};
use std::array;

// ---- which part is free

// Where the other parts weigh less in all, the cells are few without folding.
const WORTH: u64 = 16384;

// Whether a part of weight m and range u absorbs the others, where all units weigh so much.
fn is_absorbing(m: u64, u: u64, t: u64, l: u64, whole: u64, capacity: u64) -> bool
    requires { (u < 2 ^ 43) × ((m * (u + 1) < 2 ^ 58) × (whole < 2 ^ 58)) }
    ensures { Tells (AbsorbsBy m u t l whole capacity) result }
{
    let all = m * u;
    let beyond = all + m;
    0 < m
        && t == 0
        && l == 0
        && all + WORTH <= whole
        && capacity < beyond
        && whole < capacity + beyond
}

// The first part from one on that absorbs the others; 17 if none does.
pub fn free_part(
    ws: [u64; 17],
    us: [u64; 17],
    ts: [u64; 17],
    ls: [u64; 17],
    from: usize,
    capacity: u64,
) -> usize
    requires { Fit ws us }
    ensures { Chosen (items_of ws us ts ls) from capacity result }
{
    let whole = heft_of(&ws, &us);
    for k in from..17 {
        if is_absorbing(ws[k], us[k], ts[k], ls[k], whole, capacity) {
            return k;
        }
    }
    17
}

// ---- one part folded

fn is_turned(m: u64, w: u64) -> bool
    requires { 1 ≤ m }
    ensures { result ≡ turned m w }
{
    let r = w % m;
    m - r < r
}

fn swapped_by(m: u64, w: u64, a: u64, b: u64) -> u64
    requires { 1 ≤ m }
    ensures { result ≡ swapped m w a b }
{
    if is_turned(m, w) { b } else { a }
}

fn folded_weight(m: u64, w: u64) -> u64
    requires { 1 ≤ m }
    ensures { result ≡ folded_weight m w }
{
    let r = w % m;
    swapped_by(m, w, r, m - r)
}

fn offset_of(m: u64, w: u64, u: u64) -> u64
    requires { (1 ≤ m) × (w * u < 2 ^ 64) }
    ensures { result ≡ offset m w u }
{
    if is_turned(m, w) { (m - w % m) * u } else { 0 }
}

fn weight_at(ws: [u64; 17], f: usize, k: usize) -> u64
    requires { (1 ≤ num ws f) × ((f < 17) × (k < 17)) }
    ensures { result ≡ folded_weight_at f (num ws) k }
{
    if k == f {
        ws[f]
    } else {
        folded_weight(ws[f], ws[k])
    }
}

// ---- all parts folded

fn folded_weights(ws: [u64; 17], f: usize) -> [u64; 17]
    requires { (1 ≤ num ws f) × (f < 17) }
    ensures { Made 17 (folded_weight_at f (num ws)) result }
{
    array::from_fn(|k| weight_at(ws, f, k))
}

fn folded_ranges(us: [u64; 17], f: usize, n: u64) -> [u64; 17]
    requires { f < 17 }
    ensures { Made 17 (folded_range_at f n (num us)) result }
{
    let mut to = us;
    to[f] = n;
    to
}

// The costs ts, but where a part is turned those of ls.
fn swapped_costs(ws: [u64; 17], f: usize, ts: [u64; 17], ls: [u64; 17]) -> [u64; 17]
    requires { (1 ≤ num ws f) × (f < 17) }
    ensures { Made 17 (swapped_at f (num ws) (num ts) (num ls)) result }
{
    array::from_fn(|k| swapped_by(ws[f], ws[k], ts[k], ls[k]))
}

fn folded_capacity(ws: [u64; 17], us: [u64; 17], f: usize, capacity: u64) -> u64
    requires { Fit ws us × ((1 ≤ num ws f) × ((f < 17) × (capacity < 2 ^ 58))) }
    ensures { result ≡ folded_capacity f (items_of ws us us us) capacity }
{
    let mut sum = capacity;
    for k in 0..17 {
        sum += offset_of(ws[f], ws[k], us[k]);
    }
    sum
}

// The least cost of filling the capacity, at most cap, where part f absorbs the others.
fn least_modulo(
    ws: [u64; 17],
    us: [u64; 17],
    ts: [u64; 17],
    ls: [u64; 17],
    f: usize,
    capacity: u64,
    cap: u64,
    cells: &mut [u64],
) -> Cost
    requires listed { Listed cap ws us ts ls × (Fit ws us × Absorbs (items_of ws us ts ls) f capacity) }
    requires ws_in_bounds { 4 * total ws < length cells.old }
    ensures least { Least cap (items_of ws us ts ls) capacity result.least }
    ensures takes { Takes cap (folded f capacity (items_of ws us ts ls)) (folded_capacity f (items_of ws us ts ls) capacity) result.written }
{
    let m = ws[f];
    let whole = folded_capacity(ws, us, f, capacity);
    let weights = folded_weights(ws, f);
    let ranges = folded_ranges(us, f, whole / m);
    let takens = swapped_costs(ws, f, ts, ls);
    let lefts = swapped_costs(ws, f, ls, ts);
    least_cost(&weights, &ranges, &takens, &lefts, whole, cap, cells)
}

// The least cost of filling the capacity, at most cap: modulo part f, if there is one.
pub fn least_beside(
    ws: [u64; 17],
    us: [u64; 17],
    ts: [u64; 17],
    ls: [u64; 17],
    f: usize,
    capacity: u64,
    cap: u64,
    cells: &mut [u64],
) -> Cost
    requires listed { Listed cap ws us ts ls × (Fit ws us × (f < 17 → Absorbs (items_of ws us ts ls) f capacity)) }
    requires ws_in_bounds { 4 * total ws < length cells.old }
    ensures least { Least cap (items_of ws us ts ls) capacity result.least }
    ensures takes_by { TakesBy cap (items_of ws us ts ls) capacity f result.written }
{
    if f < 17 {
        return least_modulo(ws, us, ts, ls, f, capacity, cap, cells);
    }
    least_cost(&ws, &us, &ts, &ls, capacity, cap, cells)
}
