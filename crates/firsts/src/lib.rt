// The optimal point that comes first: paper 02, "Always the same charge". An optimal place is known, and so is what an optimal point loses. The scales
// give the first point of each frame that loses as much; the fillings at their integer amounts are compared, and the first of them is the answer. Where
// the scales have found the value, and no continuous item can change, the place that they found is known to come first, and no frame is asked.
#![tactic(auto)]

ghost use Rattle.std.specs.Prelude.{◌≡◌, true, false, ℕ, ◌+◌, ◌*◌, ◌≤◌, ◌<◌, pos, ◌-ℤ◌, ◌*ℤ◌, length, ◌≤ℤ◌};
ghost use Rattle.arith.specs.Mixed.{Proper};
ghost use Rattle.arith.specs.Within.{Within};
ghost use Rattle.arith.proofs.Mixes.{over};
ghost use Rattle.greedy.specs.Fill.{at};
ghost use Rattle.greedy.specs.Sized.{SizedEnds, Sized, SizedFill};
ghost use Rattle.ceiling.specs.Frames.{Usable, Levelled};
ghost use Rattle.ceiling.specs.Sizes.{Spanned};
ghost use Rattle.setting.specs.Box.{Inside};
ghost use Rattle.setting.specs.Ready.{ReadySetting};
ghost use Rattle.firsts.specs.Order.{Comparable, Compares, SmallFraction};
ghost use Rattle.firsts.specs.Leading.{Tying, OptimalAt, OwnAmounts, Fills, IsWorth, Fair, IsLosing, LossOf, Led, Sooner, InsideBy, FirstBest};
ghost use Rattle.settling.specs.Settling.{FirstPlace};
ghost use Rattle.firsts.specs.Leading.{CutsSome, TryWrites, ConsiderWrites, FramesWrite};
ghost use Rattle.firsts.specs.Leading.{Still, Held, TellsStill, Known, PointWrites};

use arith::{Fraction, Mixed, magnitude};
use ceiling::{first_of_frame, is_usable, price_of, scale_of, top_of, wholes};
use foremost::tied;
use greedy::{Amounted, Columns, Ends, Fill, amounts, bound_of, fill_up};
use setting::{Setting, fixed};
use settling::by_level;

// The filling at a place: its point, and what it is worth.
#[derive(Clone, Copy)]
pub struct Filled {
    pub point: [Fraction; 16],
    pub value: Mixed,
}

// What optimal points lose at the price p / q: num / den, of top.
#[derive(Clone, Copy)]
pub struct Optimum {
    pub top: i64,
    pub p: u64,
    pub q: u64,
    pub num: u64,
    pub den: u64,
}

// The point that leads so far, and how many cells were written.
#[derive(Clone, Copy)]
pub struct Lead {
    pub point: [Fraction; 16],
    pub written: u64,
}

// ---- the order of points

// x's numerator, over the product of both divisors.
fn crossed(x: Fraction, y: Fraction) -> i64
    requires { SmallFraction x × SmallFraction y }
    ensures { result ≡ x.p *ℤ pos y.q }
{
    x.p * (y.q as i64)
}

// Whether x comes before y, by the first of n items whose amounts differ.
fn comes_before(x: [Fraction; 16], y: [Fraction; 16], n: usize) -> bool
    requires { (n ≤ 16) × (Comparable n x × Comparable n y) }
    ensures { Compares n x y result }
{
    for k in 0..n {
        let v = crossed(x[k], y[k]);
        let w = crossed(y[k], x[k]);
        if v < w {
            return true;
        }
        if w < v {
            return false;
        }
    }
    false
}

// ---- fillings

// The amounts of a filling over the items' own divisors: the whole items are those of the levels.
pub fn amounts_of(s: Setting, c: Columns, e: Ends, f: Fill) -> Amounted
    requires { ReadySetting s × (Sized c e × SizedFill c f) }
    ensures { OwnAmounts s c e f result.point }
{
    let level = s.level;
    let whole = wholes(level, s.levels);
    amounts(c, e, f, whole)
}

// The filling at the place x, in the order of filling of c.
fn filling_at(s: Setting, c: Columns, x: [i64; 16]) -> Filled
    requires { Tying s c × Inside s (at x) }
    ensures { Fills s c (at x) result }
{
    let e = fixed(s, x, s.levels);
    let f = fill_up(c, e);
    let v = bound_of(c, f);
    let y = amounts_of(s, c, e, f);
    let point = y.point;
    Filled {
        point: point,
        value: v,
    }
}

// The first of a point and of the filling at the integer amounts of xs, which are by item.
fn sooner(s: Setting, c: Columns, point: [Fraction; 16], xs: [i64; 16]) -> [Fraction; 16]
    requires { Tying s c × (Comparable c.count point × InsideBy s xs) }
    ensures { Sooner s c point xs result }
{
    let level = s.level;
    let y = by_level(xs, level, s.levels);
    let z = filling_at(s, c, y);
    let other = z.point;
    let n = c.count;
    if comes_before(other, point, n) {
        return other;
    }
    point
}

// ---- what is lost

// What a value loses of top at a price in parts of q, times its own parts.
fn lost(top: i64, q: u64, v: Mixed) -> u64
    requires { (q ≤ 1000) × (Within 100000000000000000 top × (Proper v × Fair top q v)) }
    ensures { (pos result ≡ top *ℤ pos v.parts -ℤ pos q *ℤ over v) × (result < 10000000 * v.parts) }
{
    let n = magnitude(top - (q as i64) * v.whole);
    n * v.parts - q * v.part
}

// What the best value loses at the critical item's price.
fn loss_of(s: Setting, c: Columns, v: Mixed) -> Optimum
    requires { Tying s c × IsWorth s c v }
    ensures { IsLosing s c result × LossOf v result }
{
    let price = price_of(s.cols, s.ends);
    let p = price.p;
    let q = price.q;
    let top = top_of(c, s.ends, p, q);
    let num = lost(top, q, v);
    Optimum {
        top: top,
        p: p,
        q: q,
        num: num,
        den: v.parts,
    }
}

// ---- frames

// With the first point of frame t that loses as much as the optimum, if the frame has one.
fn tried(
    b: Lead,
    s: Setting,
    c: Columns,
    whole: [bool; 16],
    l: Optimum,
    t: usize,
    cells: &mut [u64],
) -> Lead
    requires tying { Tying s c × (IsLosing s c l × (Levelled s.level s.levels whole × Led s c l t b)) }
    requires t_le_live { (t ≤ c.live) × ((t < c.live → Usable c s.ends whole t) × (65535 ≤ length cells.old)) }
    ensures led { Led s c l (t + 1) result }
    ensures try_writes { TryWrites c s.ends whole l t b.written result.written }
{
    let scale = scale_of(c, t);
    let m = scale * l.num;
    let d = l.den;
    if 0 < m % d {
        return b;
    }
    let seen = first_of_frame(c, s.ends, whole, l.p, l.q, t, l.top, m / d, cells);
    let written = b.written + seen.written;
    match seen.place {
        Some(xs) => Lead {
            point: sooner(s, c, b.point, xs),
            written,
        },
        None => Lead { written, ..b },
    }
}

// The same, where the frame can be needed.
fn considered(
    b: Lead,
    s: Setting,
    c: Columns,
    whole: [bool; 16],
    l: Optimum,
    t: usize,
    cells: &mut [u64],
) -> Lead
    requires tying { Tying s c × (IsLosing s c l × (Levelled s.level s.levels whole × Led s c l t b)) }
    requires t_lt_live { (t < c.live) × (65535 ≤ length cells.old) }
    ensures led { Led s c l (t + 1) result }
    ensures consider_writes { ConsiderWrites c s.ends whole l t b.written result.written }
{
    let ends = s.ends;
    if is_usable(c, ends, whole, t) {
        return tried(b, s, c, whole, l, t, cells);
    }
    b
}

// Whether some frame can be needed in which an item is cut.
fn cuts_some(s: Setting, c: Columns, whole: [bool; 16]) -> bool
    requires { Tying s c }
    ensures { CutsSome c s.ends whole result }
{
    for u in 0..c.live {
        if is_usable(c, s.ends, whole, u) {
            return true;
        }
    }
    false
}

fn lead_of(point: [Fraction; 16]) -> Lead
    ensures { result ≡ record { point = point; written = 0 } }
{
    Lead {
        point: point,
        written: 0,
    }
}

// The optimal point of the box that comes first, by its frames; x is an optimal place.
fn by_frames(s: Setting, x: [i64; 16], cells: &mut [u64]) -> Lead
    requires ready_setting { ReadySetting s × (Spanned s.cols s.ends × OptimalAt s (at x)) }
    requires in_bounds { 65535 ≤ length cells.old }
    ensures first_best { FirstBest s result }
    ensures frames_write { FramesWrite s (at x) result.written }
{
    let c = tied(s.cols);
    let z = filling_at(s, c, x);
    let l = loss_of(s, c, z.value);
    let level = s.level;
    let whole = wholes(level, s.levels);
    let point = z.point;
    let n = c.live;
    let mut b = lead_of(point);
    for t in 0..n {
        b = considered(b, s, c, whole, l, t, cells);
    }
    if cuts_some(s, c, whole) {
        return b;
    }
    tried(b, s, c, whole, l, n, cells)
}

// ---- a place that is known to come first

// Whether item k is continuous and can change.
fn is_loose(ends: Ends, whole: [bool; 16], k: usize) -> bool
    requires { SizedEnds ends × ((k < 16) × (at ends.lo k ≤ℤ at ends.hi k)) }
    ensures { (result ≡ false → Held ends whole k) × (result ≡ true → Held ends whole k → ⊥) }
{
    if whole[k] {
        return false;
    }
    ends.lo[k] < ends.hi[k]
}

// Whether no continuous item can change.
fn all_still(s: Setting) -> bool
    requires { ReadySetting s }
    ensures { TellsStill s result }
{
    let whole = wholes(s.level, s.levels);
    for j in 0..s.cols.count {
        if is_loose(s.ends, whole, j) {
            return false;
        }
    }
    true
}

// Whether a place has the first point: it is said to come first, and no continuous item can change.
fn is_known(s: Setting, first: bool) -> bool
    requires { ReadySetting s }
    ensures { (result ≡ true → Known s first) × (result ≡ false → Known s first → ⊥) }
{
    first && all_still(s)
}

// The point of the place x, which comes first where no continuous item can change.
fn by_place(s: Setting, x: [i64; 16]) -> Lead
    requires ready_setting { ReadySetting s × (Spanned s.cols s.ends × OptimalAt s (at x)) }
    requires still { Still s × FirstPlace s.cols s.ends s.level s.levels 1 (at x) }
    ensures { FirstBest s result × (result.written ≡ 0) }
{
    let c = tied(s.cols);
    let z = filling_at(s, c, x);
    let point = z.point;
    lead_of(point)
}

// The optimal point of the box that comes first; x is an optimal place. If first, it is known to come first where no continuous item can change: then
// its frame need not be asked again.
pub fn first_point(s: Setting, x: [i64; 16], first: bool, cells: &mut [u64]) -> Lead
    requires ready_setting { ReadySetting s × (Spanned s.cols s.ends × OptimalAt s (at x)) }
    requires first_place { (first ≡ true → FirstPlace s.cols s.ends s.level s.levels 1 (at x)) × (65535 ≤ length cells.old) }
    ensures first_best { FirstBest s result }
    ensures point_writes { PointWrites s (at x) first result.written }
{
    if is_known(s, first) {
        return by_place(s, x);
    }
    by_frames(s, x, cells)
}
