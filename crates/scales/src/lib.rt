// Exact filling at least cost, by binary digits of the amounts, low scale first. At scale i a unit of an item stands for 2 ^ i; each range
// has a digit of 0, 1 or 2 units there. The cells hold the least cost of each load by the units so far. A scale drops a binary digit of the
// load, as it has to be that of the capacity, and with it a divisor that the weights of all units to come share.
#![tactic(auto)]

ghost use Rattle.std.specs.Prelude.{◌≡◌, cond, ltb, ℕ, suc, ◌+◌, ◌-◌, ◌*◌, ◌/◌, ◌^◌, ◌≤◌, ◌<◌, min, max, length, get_or};
ghost use Rattle.arith.specs.Gcd.{gcd_of};
ghost use Rattle.scales.specs.Digits.{rest, digit, rest_at, cost_at};
ghost use Rattle.scales.specs.Tables.{at, pass, passes, thin};
ghost use Rattle.scales.specs.Filling.{heft, start, least, items_of, Least};
ghost use Rattle.scales.specs.Lent.{Priced, Shown, Passed, Shows, Listed, total};
ghost use Rattle.scales.specs.Counts.{live_of, pass_cells, thin_of, cells_of, ScalesOf, ScalesOfAll, Takes};
ghost use Rattle.scales.specs.Filled.{stage_items, SharedOf, ItemFilled, AllFilled};

use arith::gcd;

// How many cells are live, how many were written, and what the units to come weigh.
#[derive(Clone, Copy)]
pub struct Live {
    pub n: usize,
    pub written: u64,
    pub heft: u64,
}

// A scale: its number, the divisor of the weights, the cap on costs, and what is left of the capacity.
#[derive(Clone, Copy)]
pub struct Stage {
    pub i: usize,
    pub divisor: u64,
    pub cap: u64,
    pub rest: u64,
}

// The least cost of a filling, and how many cells were written for it.
#[derive(Clone, Copy)]
pub struct Cost {
    pub least: u64,
    pub written: u64,
}

fn rest_of(u: u64) -> u64
    ensures { result ≡ rest u }
{
    u.saturating_sub(1) / 2
}

fn digit_of(u: u64) -> u64
    ensures { result ≡ digit u }
{
    u - 2 * rest_of(u)
}

// What is left of a range after i scales.
fn rest_at(u: u64, i: usize) -> u64
    ensures { result ≡ rest_at i u }
{
    let mut r = u;
    for _ in 0..i {
        r = rest_of(r);
    }
    r
}

// A cost at scale i, cut at cap so that it fits.
fn cost_at(c: u64, i: usize, cap: u64) -> u64
    requires { (c ≤ cap) × (cap < 2 ^ 63) }
    ensures { result ≡ cost_at cap i c }
{
    let mut r = c;
    for _ in 0..i {
        r = cap.min(2 * r);
    }
    r
}

// The cost of a load: cap where no cell is live.
fn look(cells: &[u64], n: usize, x: usize, cap: u64) -> u64
    requires { n ≤ length cells.now }
    ensures { result ≡ at cap n cells.now x }
{
    if x < n { cells[x] } else { cap }
}

// One cell of a pass.
fn passed(cells: &[u64], n: usize, w: usize, a: u64, b: u64, cap: u64, x: usize) -> u64
    requires priced { Priced cap a b }
    requires shown { Shown cap n cells.now }
    ensures { result ≡ pass cap w a b (at cap n cells.now) x }
{
    let left = look(cells, n, x, cap) + b;
    if w <= x {
        let taken = look(cells, n, x - w, cap) + a;
        cap.min(left.min(taken))
    } else {
        cap.min(left.min(cap))
    }
}

// The same of a load whose cell is live, with and without the unit. A cost of 0 spares the cap: no cell is above it.
fn passed_inside(cells: &[u64], n: usize, w: usize, a: u64, b: u64, cap: u64, x: usize) -> u64
    requires priced { Priced cap a b }
    requires shown { Shown cap n cells.now × ((w ≤ x) × (x < n)) }
    ensures { result ≡ pass cap w a b (at cap n cells.now) x }
{
    let left = cells[x];
    let taken = cells[x - w];
    if b == 0 {
        return left.min(taken + a);
    }
    if a == 0 {
        return (left + b).min(taken);
    }
    cap.min((left + b).min(taken + a))
}

// A pass over the loads from lo to below hi. From the highest load down, so that a load without the unit still has its old cost.
fn pass_edge(cells: &mut [u64], n: usize, w: usize, a: u64, b: u64, cap: u64, lo: usize, hi: usize)
    requires priced { Priced cap a b }
    requires shown { Shown cap n cells.old }
    requires lo_le_hi { (lo ≤ hi) × (hi ≤ length cells.old) }
    ensures { Passed cap n w a b lo hi cells.old cells.new }
{
    for x in (lo..hi).rev() {
        cells[x] = passed(cells, n, w, a, b, cap, x);
    }
}

// The same of loads that are live with and without the unit: most of them.
fn pass_inside(
    cells: &mut [u64],
    n: usize,
    w: usize,
    a: u64,
    b: u64,
    cap: u64,
    lo: usize,
    hi: usize,
)
    requires priced { Priced cap a b }
    requires shown { Shown cap n cells.old }
    requires lo_le_hi { (lo ≤ hi) × ((min w hi ≤ lo) × (hi ≤ n)) }
    ensures { Passed cap n w a b lo hi cells.old cells.new }
{
    for x in (lo..hi).rev() {
        cells[x] = passed_inside(cells, n, w, a, b, cap, x);
    }
}

// One more unit to take or leave.
fn pass_over(
    cells: &mut [u64],
    n: usize,
    w: usize,
    a: u64,
    b: u64,
    cap: u64,
    from: usize,
    to: usize,
)
    requires priced { Priced cap a b }
    requires shown { Shown cap n cells.old }
    requires from_le_n { (from ≤ n) × ((from ≤ to) × (to ≤ length cells.old)) }
    ensures { Passed cap n w a b from to cells.old cells.new }
{
    let high = n.min(to);
    let low = w.max(from).min(high);
    pass_edge(cells, n, w, a, b, cap, high, to);
    pass_inside(cells, n, w, a, b, cap, low, high);
    pass_edge(cells, n, w, a, b, cap, from, low);
}

// No load above the capacity is of use.
fn up_to(n: usize, rest: u64) -> usize
    requires { n ≤ 65536 }
    ensures { result ≡ min n (suc rest) }
{
    n.min(rest.saturating_add(1) as usize)
}

// Nor is one so low that all units to come cannot fill the capacity.
fn down_to(n: usize, rest: u64, heft: u64) -> usize
    requires { n ≤ 65536 }
    ensures { result ≡ min (rest - heft) n }
{
    n.min(rest.saturating_sub(heft) as usize)
}

// A pass for each unit of a digit.
fn pass_times(
    cells: &mut [u64],
    n: usize,
    d: u64,
    w: usize,
    a: u64,
    b: u64,
    cap: u64,
    rest: u64,
    heft: u64,
) -> Live
    requires priced { Priced cap a b }
    requires shown { Shown cap n cells.old }
    requires d_bound { (d ≤ 2) × ((d * w ≤ heft) × ((n + d * w ≤ length cells.old) × (n + d * w ≤ 65536))) }
    ensures n_value { (result.n ≡ live_of d w n rest) × ((result.written ≡ pass_cells d w n rest heft) × (result.heft ≡ heft - d * w)) }
    ensures shows { Shows cap (passes cap d w a b (at cap n cells.old)) rest result.heft result.n cells.old cells.new }
{
    let mut live = n;
    let mut left = heft;
    let mut written: u64 = 0;
    for _ in 0..d {
        left -= w as u64;
        let to = up_to(live + w, rest);
        let from = down_to(live, rest, left);
        pass_over(cells, live, w, a, b, cap, from, to);
        written += (to - from) as u64;
        live = to;
    }
    Live {
        n: live,
        written: written,
        heft: left,
    }
}

// Keeps every s-th load, from bit on. From the lowest load up: what is read has not been written.
fn thin_cells(cells: &mut [u64], n: usize, s: usize, bit: usize) -> usize
    requires { (n ≤ length cells.old) × ((bit < s) × (s ≤ 65536)) }
    ensures value { result ≡ thin_of n s bit }
    ensures cells_len_unchanged { (length cells.new ≡ length cells.old) ×
        ((cap : ℕ) → at cap result cells.new ≡ thin s bit (at cap n cells.old)) }
{
    let kept = (n + (s - 1 - bit)) / s;
    for x in 0..kept {
        cells[x] = cells[s * x + bit];
    }
    kept
}

// The units of item j at a scale.
fn fill_item<'a>(
    ws: &'a [u64],
    us: &'a [u64],
    ts: &'a [u64],
    ls: &'a [u64],
    j: usize,
    s: Stage,
    heft: u64,
    cells: &mut [u64],
    n: usize,
) -> Live
    requires listed { Listed s.cap ws.now us.now ts.now ls.now × (1 ≤ s.divisor) }
    requires j_in_bounds { j < length ws.now }
    requires shown { Shown s.cap n cells.old }
    requires divisor_bound { digit (rest_at s.i (get_or us.now j 0)) * (get_or ws.now j 0 / s.divisor) ≤ heft }
    requires j_in_bounds_2 { (n + 2 * get_or ws.now j 0 ≤ length cells.old) × (n + 2 * get_or ws.now j 0 ≤ 65536) }
    ensures { ItemFilled s j (stage_items s ws.now us.now ts.now ls.now) heft n
        cells.old cells.new result }
{
    let i = s.i;
    let cap = s.cap;
    let w = (ws[j] / s.divisor) as usize;
    let d = digit_of(rest_at(us[j], i));
    let a = cost_at(ts[j], i, cap);
    let b = cost_at(ls[j], i, cap);
    pass_times(cells, n, d, w, a, b, cap, s.rest, heft)
}

// The units of all items at a scale.
fn fill_all<'a>(
    ws: &'a [u64],
    us: &'a [u64],
    ts: &'a [u64],
    ls: &'a [u64],
    s: Stage,
    whole: u64,
    cells: &mut [u64],
    n: usize,
) -> Live
    requires listed { Listed s.cap ws.now us.now ts.now ls.now × (1 ≤ s.divisor) }
    requires shown { Shown s.cap n cells.old }
    requires whole_value { whole ≡ heft (stage_items s ws.now us.now ts.now ls.now) }
    requires ws_in_bounds { (n + 2 * total ws.now ≤ length cells.old) × (n + 2 * total ws.now ≤ 65536) }
    ensures { AllFilled s (stage_items s ws.now us.now ts.now ls.now) whole n
        cells.old cells.new result }
{
    let mut live = n;
    let mut left = whole;
    let mut written: u64 = 0;
    for j in 0..ws.len() {
        let f = fill_item(ws, us, ts, ls, j, s, left, cells, live);
        live = f.n;
        left = f.heft;
        written += f.written;
    }
    Live {
        n: live,
        written: written,
        heft: left,
    }
}

// A common divisor with one more weight, if anything of its range goes on.
fn joined(g: u64, w: u64, rest: u64) -> u64
    ensures { result ≡ cond (ltb 0 rest) (gcd_of g w) g }
{
    if 0 < rest { gcd(g, w) } else { g }
}

// The greatest divisor that the weights of what goes on after scale i share; 1 if nothing does.
fn shared_of<'a>(ws: &'a [u64], us: &'a [u64], i: usize, divisor: u64) -> u64
    requires { (length us.now ≡ length ws.now) × (1 ≤ divisor) }
    ensures { SharedOf i divisor ws.now us.now result }
{
    let mut g: u64 = 0;
    for j in 0..ws.len() {
        g = joined(g, ws[j] / divisor, rest_of(rest_at(us[j], i)));
    }
    g.max(1)
}

// What all units weigh.
pub fn heft_of<'a>(ws: &'a [u64], us: &'a [u64]) -> u64
    requires { (length us.now ≡ length ws.now) × (heft (items_of ws.now us.now us.now us.now) < 2 ^ 64) }
    ensures { result ≡ heft (items_of ws.now us.now us.now us.now) }
{
    let mut sum: u64 = 0;
    for j in 0..ws.len() {
        sum += ws[j] * us[j];
    }
    sum
}

// What the tables say of the capacity after so many scales. At the start of a scale at most two units of each item are loaded.
fn solve<'a>(
    ws: &'a [u64],
    us: &'a [u64],
    ts: &'a [u64],
    ls: &'a [u64],
    scales: usize,
    capacity: u64,
    cap: u64,
    cells: &mut [u64],
) -> Cost
    requires listed { Listed cap ws.now us.now ts.now ls.now × (scales ≤ 64) }
    requires ws_in_bounds { 4 * total ws.now < length cells.old }
    ensures least_value { result.least ≡ least cap scales (items_of ws.now us.now ts.now ls.now) (start cap) capacity }
    ensures written_value { result.written ≡ cells_of cap scales (items_of ws.now us.now ts.now ls.now) 1 capacity
        (heft (items_of ws.now us.now ts.now ls.now)) }
{
    cells[0] = 0;
    let mut n: usize = 1;
    let mut written: u64 = 0;
    let mut divisor: u64 = 1;
    let mut rest = capacity;
    let mut left = heft_of(ws, us);
    for i in 0..scales {
        let s = Stage {
            i: i,
            divisor: divisor,
            cap: cap,
            rest: rest,
        };
        let f = fill_all(ws, us, ts, ls, s, left, cells, n);
        let g = shared_of(ws, us, i, divisor);
        let stride = 2 * g;
        n = thin_cells(cells, f.n, stride as usize, (rest % stride) as usize);
        written += f.written + (n as u64);
        left = f.heft / stride;
        rest = rest / stride;
        divisor = divisor * g;
    }
    let x = rest as usize;
    Cost {
        least: look(cells, n, x, cap),
        written: written,
    }
}

// The scale from which on nothing is left of a range.
fn scales_of(u: u64) -> usize
    ensures { ScalesOf u result }
{
    let mut r = u;
    let mut k: usize = 0;
    while 0 < r {
        r = rest_of(r);
        k += 1;
    }
    k
}

// The scale from which on nothing is left of any range.
fn scales_of_all(us: &[u64]) -> usize
    ensures { ScalesOfAll us.now result }
{
    let mut most: usize = 0;
    for u in us {
        most = most.max(scales_of(*u));
    }
    most
}

// The least cost of filling the capacity, at most cap: by weights ws, ranges us, and costs ts of a unit that is taken and ls of one that
// is left. What the cells hold at first does not matter.
pub fn least_cost<'a>(
    ws: &'a [u64],
    us: &'a [u64],
    ts: &'a [u64],
    ls: &'a [u64],
    capacity: u64,
    cap: u64,
    cells: &mut [u64],
) -> Cost
    requires listed { Listed cap ws.now us.now ts.now ls.now }
    requires ws_in_bounds { 4 * total ws.now < length cells.old }
    ensures least { Least cap (items_of ws.now us.now ts.now ls.now) capacity result.least }
    ensures takes { Takes cap (items_of ws.now us.now ts.now ls.now) capacity result.written }
{
    let scales = scales_of_all(us);
    solve(ws, us, ts, ls, scales, capacity, cap, cells)
}
