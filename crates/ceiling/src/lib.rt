// An exact bound of a box, by losses: how much less than the best that a price p / q for a unit of weight lets one hope for. Every way to
// take whole amounts is a way to fill the room with pieces, and costs what it loses; the scales find the least cost.
#![tactic(auto)]

ghost use Rattle.std.specs.Prelude.{◌≡◌, None, true, false, cond, ℕ, ◌+◌, ◌*◌, ◌≤◌, ◌<◌, pos, ◌+ℤ◌, ◌*ℤ◌, length, ◌≤ℤ◌};
ghost use Rattle.arith.specs.Mixed.{Proper};
ghost use Rattle.arith.specs.Within.{Within};
ghost use Rattle.fillings.specs.Ranges.{num};
ghost use Rattle.fillings.specs.Foremost.{least_cells};
ghost use Rattle.greedy.specs.Fill.{at, place, fill, stand};
ghost use Rattle.greedy.specs.Ordered.{Ordered};
ghost use Rattle.greedy.proofs.Relaxed.{InOrder};
ghost use Rattle.greedy.specs.Sized.{SizedColumns, SizedEnds, Sized};
ghost use Rattle.ceiling.specs.Loss.{score_by, score_of, good_end, good_of, top_of, Floor};
ghost use Rattle.ceiling.specs.Pieces.{foot_by, size_by, span_by, cost_by, heavy_by, taken_by, left_by, size_of, span_of, taken_of};
ghost use Rattle.ceiling.specs.Pieces.{left_of, falls_of, whole_by, whole_of, Listing, Blank, Flags, Pieces};
ghost use Rattle.ceiling.specs.Sizes.{Modest, Cut, Roomy, Narrow, Spanned};
ghost use Rattle.ceiling.specs.Frames.{cut_of, scale_of, frame_by, frame_end_by, Usable, Altered, FrameEnds, FrameFloor, Ranked, Ready, Counted, Levelled};
ghost use Rattle.ceiling.specs.Least.{HasRoom, Floored, Firsts, IsFrame, FrameFloored, Lowered, Considered, LeastLoss, Placed, FrameFirst};
ghost use Rattle.ceiling.specs.Bound.{Priced, PartLoss, KnownLoss, KnownBy, Bounded};

use arith::{Mixed, magnitude};
use fillings::{Filled, First, Parts, first_filling, least_filling};
use greedy::{Columns, Ends, begin, fill_up, heavy_end, light_end};

// What a unit of an item brings beyond the price of its weight.
fn score(p: u64, q: u64, a: i64, c: i64) -> i64
    requires { (p ≤ 10000) × ((q ≤ 1000) × (Within 1000 a × Within 10000 c)) }
    ensures { result ≡ score_by p q a c }
{
    (q as i64) * c - (p as i64) * a
}

// The end where an item weighs least.
fn foot(a: i64, l: i64, u: i64) -> i64
    ensures { result ≡ foot_by a l u }
{
    if a < 0 { u } else { l }
}

// Whether a score prefers the end where the item weighs most.
fn is_heavy(a: i64, r: i64) -> bool
    ensures { result ≡ heavy_by a r }
{
    if a < 0 { r <= 0 } else { 0 < r }
}

// What a piece weighs.
fn size(cut: bool, a: i64) -> u64
    requires { Within 1000 a }
    ensures { result ≡ size_by cut a }
{
    if cut { 1 } else { magnitude(a) }
}

// How many pieces there are.
fn span(cut: bool, scale: u64, l: i64, u: i64) -> u64
    requires { (scale ≤ 1000) × (Within 300000000 l × Within 300000000 u) }
    ensures { result ≡ span_by cut scale l u }
{
    let w = magnitude(u - l);
    if cut { scale * w } else { w }
}

// What a piece costs away from the good end.
fn cost(cut: bool, scale: u64, r: i64) -> u64
    requires { (scale ≤ 1000) × Within 20000000 r }
    ensures { result ≡ cost_by cut scale r }
{
    let m = magnitude(r);
    if cut { m } else { scale * m }
}

// The cost of a piece that is taken, or of one that is left.
fn cost_if(taken: bool, cut: bool, scale: u64, a: i64, r: i64) -> u64
    requires { (scale ≤ 1000) × Within 20000000 r }
    ensures { result ≡ cond taken (taken_by cut scale a r) (left_by cut scale a r) }
{
    if is_heavy(a, r) == taken {
        0
    } else {
        cost(cut, scale, r)
    }
}

// ---- item k's pieces: what one weighs, how many there are, the cost of one that is taken and of one that is left

fn size_at(cols: Columns, cut: usize, k: usize) -> u64
    requires { SizedColumns cols × (k < 16) }
    ensures { result ≡ size_of cols cut k }
{
    size(k == cut, cols.weight[k])
}

fn span_at(ends: Ends, scale: u64, cut: usize, k: usize) -> u64
    requires { SizedEnds ends × ((scale ≤ 1000) × (k < 16)) }
    ensures { result ≡ span_of ends scale cut k }
{
    span(k == cut, scale, ends.lo[k], ends.hi[k])
}

fn score_at(cols: Columns, p: u64, q: u64, k: usize) -> i64
    requires { SizedColumns cols × ((p ≤ 10000) × ((q ≤ 1000) × (k < 16))) }
    ensures { (result ≡ score_of p q cols k) × Within 20000000 result }
{
    score(p, q, cols.weight[k], cols.price[k])
}

fn cost_at(taken: bool, cols: Columns, p: u64, q: u64, scale: u64, cut: usize, k: usize) -> u64
    requires { SizedColumns cols × (Modest p q scale × (k < 16)) }
    ensures { result ≡ cond taken (taken_of p q cols scale cut k) (left_of p q cols scale cut k) }
{
    let r = score_at(cols, p, q, k);
    cost_if(taken, k == cut, scale, cols.weight[k], r)
}

// ---- all of them, with the slack in the last place

fn blank(last: u64) -> [u64; 17]
    ensures { Blank last result }
{
    let mut to = [0; 17];
    to[16] = last;
    to
}

fn falls_at(cols: Columns, k: usize) -> bool
    requires { SizedColumns cols × (k < 16) }
    ensures { result ≡ falls_of cols k }
{
    cols.weight[k] < 0
}

// All pieces, and the slack.
fn pieces_of(cols: Columns, ends: Ends, p: u64, q: u64, scale: u64, cut: usize, room: u64) -> Parts
    requires { Sized cols ends × Modest p q scale }
    ensures { Pieces p q cols ends scale cut room cols.count result }
{
    let mut parts = Parts {
        weight: blank(1),
        range: blank(room),
        taken: blank(scale * p),
        left: blank(0),
        falls: [false; 17],
    };
    for k in 0..cols.count {
        parts.weight[k] = size_at(cols, cut, k);
        parts.range[k] = span_at(ends, scale, cut, k);
        parts.taken[k] = cost_at(true, cols, p, q, scale, cut, k);
        parts.left[k] = cost_at(false, cols, p, q, scale, cut, k);
        parts.falls[k] = falls_at(cols, k);
    }
    parts
}

// The room that is left where every item weighs least, if any.
fn room_of(cols: Columns, ends: Ends) -> Option<u64>
    requires { Sized cols ends }
    ensures { HasRoom cols ends result }
{
    let f = begin(cols, ends);
    if f.room < 0 {
        return None;
    }
    Some(f.room as u64)
}

// At most what any point of the box loses, and at most cap; below cap the pieces of the first point that loses just that.
fn floor_of(
    cols: Columns,
    ends: Ends,
    p: u64,
    q: u64,
    scale: u64,
    cut: usize,
    cap: u64,
    cells: &mut [u64],
) -> Filled
    requires sized { Sized cols ends × (Modest p q scale × (Cut cols scale cut × InOrder cols ends)) }
    requires roomy { Roomy cap cells.old × Narrow ends scale cut cols.count }
    ensures { Floored p q cols ends scale cut cap result }
{
    match room_of(cols, ends) {
        Some(room) => {
            let ps = pieces_of(cols, ends, p, q, scale, cut, room);
            least_filling(ps, room, cap, cells)
        }
        None => unfilled(cap),
    }
}

fn unfilled(cap: u64) -> Filled
    ensures { (result.least ≡ cap) × (result.written ≡ 0) }
{
    Filled {
        least: cap,
        amounts: [0; 17],
        written: 0,
    }
}

fn nowhere() -> First
    ensures { (result.amounts ≡ None) × (result.written ≡ 0) }
{
    First {
        amounts: None,
        written: 0,
    }
}

// The pieces of the first point that loses r, where none loses less: by the first item whose amount differs.
fn first_of(
    cols: Columns,
    ends: Ends,
    p: u64,
    q: u64,
    scale: u64,
    cut: usize,
    r: u64,
    cells: &mut [u64],
) -> First
    requires sized { Sized cols ends × (Modest p q scale × (Cut cols scale cut × InOrder cols ends)) }
    requires narrow { Narrow ends scale cut cols.count × ((r < 10000000000) × Floor p q cols ends scale cut r) }
    requires in_bounds { 65535 ≤ length cells.old }
    ensures { Firsts p q cols ends scale cut r result }
{
    match room_of(cols, ends) {
        Some(room) => {
            let ps = pieces_of(cols, ends, p, q, scale, cut, room);
            first_filling(ps, room, r + 1, cells)
        }
        None => nowhere(),
    }
}

// ---- the top

// A sum that is being made.
#[derive(Clone, Copy)]
pub struct Total {
    pub sum: i64,
}

fn good_end(r: i64, l: i64, u: i64) -> i64
    ensures { result ≡ good_end r l u }
{
    if 0 < r { u } else { l }
}

fn good_at(cols: Columns, ends: Ends, p: u64, q: u64, k: usize) -> i64
    requires { Sized cols ends × ((p ≤ 10000) × ((q ≤ 1000) × (k < 16))) }
    ensures { result ≡ good_of p q cols ends k }
{
    good_end(score_at(cols, p, q, k), ends.lo[k], ends.hi[k])
}

// With r times x.
fn with_term(t: Total, r: i64, x: i64) -> Total
    requires { Within 100000000000000000 t.sum × (Within 20000000 r × Within 300000000 x) }
    ensures { result.sum ≡ t.sum +ℤ r *ℤ x }
{
    Total { sum: t.sum + r * x }
}

// What q times the value, and p times the room, come to at the good ends.
pub fn top_of(cols: Columns, ends: Ends, p: u64, q: u64) -> i64
    requires { Sized cols ends × ((p ≤ 10000) × (q ≤ 1000)) }
    ensures { (result ≡ top_of p q cols ends) × Within 100000000000000000 result }
{
    let mut t = Total {
        sum: (p as i64) * cols.capacity,
    };
    for k in 0..cols.count {
        t = with_term(t, score_at(cols, p, q, k), good_at(cols, ends, p, q, k));
    }
    t.sum
}

// ---- frames

// The item that frame t cuts; 16 if none is.
fn cut_of(cols: Columns, t: usize) -> usize
    requires { cols.live ≤ 16 }
    ensures { result ≡ cut_of cols t }
{
    if t < cols.live { cols.order[t] } else { 16 }
}

// Into how many pieces it cuts a unit.
pub fn scale_of(cols: Columns, t: usize) -> u64
    requires { SizedColumns cols }
    ensures { result ≡ scale_of cols t }
{
    if t < cols.live {
        magnitude(cols.size[t])
    } else {
        1
    }
}

// Where an item stands while the ranks below t are raised.
fn stand_at(cols: Columns, ends: Ends, t: usize, k: usize) -> i64
    requires { Sized cols ends × (k < 16) }
    ensures { result ≡ stand cols ends t k }
{
    let a = cols.weight[k];
    let l = ends.lo[k];
    let u = ends.hi[k];
    if cols.rank[k] < t {
        heavy_end(a, l, u)
    } else {
        light_end(a, cols.price[k], l, u)
    }
}

// A free item keeps its end, another one stands.
fn frame_end(whole: bool, cut: bool, end: i64, stands: i64) -> i64
    ensures { result ≡ frame_by whole cut end stands }
{
    if whole {
        return end;
    }
    if cut { end } else { stands }
}

fn frame_end_at(
    cols: Columns,
    ends: Ends,
    whole: [bool; 16],
    cut: usize,
    t: usize,
    xs: [i64; 16],
    k: usize,
) -> i64
    requires { Sized cols ends × (k < 16) }
    ensures { result ≡ frame_end_by cols ends whole cut t xs k }
{
    frame_end(whole[k], k == cut, xs[k], stand_at(cols, ends, t, k))
}

fn frame_ends(
    cols: Columns,
    ends: Ends,
    whole: [bool; 16],
    cut: usize,
    t: usize,
    xs: [i64; 16],
) -> [i64; 16]
    requires { Sized cols ends }
    ensures { Altered cols.count (frame_end_by cols ends whole cut t xs) xs result }
{
    let mut to = xs;
    for k in 0..cols.count {
        to[k] = frame_end_at(cols, ends, whole, cut, t, xs, k);
    }
    to
}

// The ends of frame t.
fn framed(cols: Columns, ends: Ends, whole: [bool; 16], cut: usize, t: usize) -> Ends
    requires { Sized cols ends × (InOrder cols ends × (cut ≡ cut_of cols t)) }
    ensures { FrameEnds cols ends whole t result }
{
    Ends {
        lo: frame_ends(cols, ends, whole, cut, t, ends.lo),
        hi: frame_ends(cols, ends, whole, cut, t, ends.hi),
    }
}

// A frame: the item cut, into how many pieces a unit, the ends, and what the frame itself loses.
#[derive(Clone, Copy)]
pub struct Frame {
    pub cut: usize,
    pub scale: u64,
    pub ends: Ends,
    pub less: u64,
}

// Frame t; top is that of the box.
fn frame_of(
    cols: Columns,
    ends: Ends,
    whole: [bool; 16],
    p: u64,
    q: u64,
    t: usize,
    top: i64,
) -> Frame
    requires { Ready cols ends p q × ((top ≡ top_of p q cols ends) × Within 100000000000000000 top) }
    ensures { IsFrame p q cols ends whole t result }
{
    let cut = cut_of(cols, t);
    let scale = scale_of(cols, t);
    let e = framed(cols, ends, whole, cut, t);
    let less = magnitude(top - top_of(cols, e, p, q));
    Frame {
        cut: cut,
        scale: scale,
        ends: e,
        less: less,
    }
}

// The amount that y units make, from the end where the item weighs least on.
fn made_of(a: i64, l: i64, u: i64, y: u64) -> i64
    requires { Within 300000000 l × (Within 300000000 u × (y ≤ 900000000)) }
    ensures { result ≡ whole_by a l u y }
{
    let n = y as i64;
    if a < 0 { u - n } else { l + n }
}

fn made_at(cols: Columns, ends: Ends, ys: [u64; 17], k: usize) -> i64
    requires { Sized cols ends × ((k < 16) × (num ys k ≤ 900000000)) }
    ensures { result ≡ whole_of cols ends (num ys) k }
{
    made_of(cols.weight[k], ends.lo[k], ends.hi[k], ys[k])
}

fn made(cols: Columns, ends: Ends, ys: [u64; 17]) -> [i64; 16]
    requires { Sized cols ends × ((k : ℕ) → k < 16 → num ys k ≤ 900000000) }
    ensures { Placed 16 (whole_of cols ends (num ys)) result }
{
    let mut to = [0; 16];
    for k in 0..16 {
        to[k] = made_at(cols, ends, ys, k);
    }
    to
}

// The least loss of a frame, and the amounts of a point that has it, but for the item cut; and how many cells were written.
#[derive(Clone, Copy)]
pub struct Lowest {
    pub least: u64,
    pub place: [i64; 16],
    pub written: u64,
}

fn capped(cap: u64, written: u64) -> Lowest
    ensures { (result.least ≡ cap) × (result.written ≡ written) }
{
    Lowest {
        least: cap,
        place: [0; 16],
        written: written,
    }
}

// At most what any point of frame t loses, and at most cap; below cap the first point that loses just that.
fn frame_floor(
    cols: Columns,
    ends: Ends,
    whole: [bool; 16],
    p: u64,
    q: u64,
    t: usize,
    top: i64,
    cap: u64,
    cells: &mut [u64],
) -> Lowest
    requires ready { Ready cols ends p q × ((top ≡ top_of p q cols ends) × (Within 100000000000000000 top × Spanned cols ends)) }
    requires roomy { Roomy cap cells.old }
    ensures { FrameFloored p q cols ends whole t cap result }
{
    let f = frame_of(cols, ends, whole, p, q, t, top);
    let scale = f.scale;
    let less = f.less;
    if cap / scale < less {
        return capped(cap, 0);
    }
    let off = scale * less;
    let left = cap - off;
    let e = f.ends;
    let c = floor_of(cols, e, p, q, scale, f.cut, left, cells);
    if c.least < left {
        return Lowest {
            least: off + c.least,
            place: made(cols, e, c.amounts),
            written: c.written,
        };
    }
    capped(cap, c.written)
}

// Whether frame t can be needed: the item of rank t is neither whole nor fixed.
pub fn is_usable(cols: Columns, ends: Ends, whole: [bool; 16], t: usize) -> bool
    requires { Sized cols ends × (Ranked cols × (InOrder cols ends × (t < cols.live))) }
    ensures { (result ≡ false → Usable cols ends whole t → ⊥) × (result ≡ true → Usable cols ends whole t) }
{
    let k = cols.order[t];
    if whole[k] {
        return false;
    }
    ends.lo[k] < ends.hi[k]
}

// ---- the least loss of a box

// num / den.
#[derive(Clone, Copy)]
pub struct Lost {
    pub num: u64,
    pub den: u64,
}

// A point of frame `at`, by its amounts but for the item cut.
#[derive(Clone, Copy)]
pub struct Shown {
    pub at: usize,
    pub place: [i64; 16],
}

// The least loss so far, and the point that has it, if one was found. Whether any frame was looked at, and how many cells were written.
#[derive(Clone, Copy)]
pub struct Least {
    pub lost: Lost,
    pub shown: Option<Shown>,
    pub any: bool,
    pub written: u64,
}

// The least of what is known and the losses of frame t.
fn lowered(
    best: Least,
    cols: Columns,
    ends: Ends,
    whole: [bool; 16],
    p: u64,
    q: u64,
    t: usize,
    top: i64,
    cells: &mut [u64],
) -> Least
    requires ready { Ready cols ends p q × ((top ≡ top_of p q cols ends) × (Within 100000000000000000 top × Spanned cols ends)) }
    requires counted { Counted best.lost.num best.lost.den × ((best.written ≤ 16 * least_cells) × (65535 ≤ length cells.old)) }
    ensures { Lowered p q cols ends whole t best result }
{
    let n = best.lost.num;
    let d = best.lost.den;
    let scale = scale_of(cols, t);
    let cap = (scale * n + (d - 1)) / d;
    let r = frame_floor(cols, ends, whole, p, q, t, top, cap, cells);
    let written = best.written + r.written;
    if r.least < cap {
        let lost = Lost {
            num: r.least,
            den: scale,
        };
        let place = r.place;
        let shown = Shown { at: t, place };
        return Least {
            lost,
            shown: Some(shown),
            any: true,
            written,
        };
    }
    Least {
        any: true,
        written,
        ..best
    }
}

// The same, where the frame can be needed.
fn considered(
    best: Least,
    cols: Columns,
    ends: Ends,
    whole: [bool; 16],
    p: u64,
    q: u64,
    t: usize,
    top: i64,
    cells: &mut [u64],
) -> Least
    requires ready { Ready cols ends p q × ((top ≡ top_of p q cols ends) × (Within 100000000000000000 top × (Spanned cols ends × (t < cols.live)))) }
    requires counted { Counted best.lost.num best.lost.den × ((best.written ≤ 16 * least_cells) × (65535 ≤ length cells.old)) }
    ensures { Considered p q cols ends whole t best result }
{
    if is_usable(cols, ends, whole, t) {
        return lowered(best, cols, ends, whole, p, q, t, top, cells);
    }
    best
}

// What is known, or the least that a feasible point of the box loses, if that is less: over all frames that can be needed. The last one, in which no
// item is cut, is needed where no other is.
fn least_loss(
    cols: Columns,
    ends: Ends,
    whole: [bool; 16],
    p: u64,
    q: u64,
    known: Lost,
    cells: &mut [u64],
) -> Least
    requires ready { Ready cols ends p q × Spanned cols ends }
    requires counted { Counted known.num known.den × ((65535 ≤ length cells.old) × Ordered cols) }
    ensures { LeastLoss p q cols ends whole known result }
{
    let top = top_of(cols, ends, p, q);
    let n = cols.live;
    let mut best = unlowered(known);
    for t in 0..n {
        best = considered(best, cols, ends, whole, p, q, t, top, cells);
    }
    if best.any {
        return best;
    }
    lowered(best, cols, ends, whole, p, q, n, top, cells)
}

fn unlowered(known: Lost) -> Least
    ensures { result ≡ record { lost = known; shown = None; any = false; written = 0 } }
{
    Least {
        lost: known,
        shown: None,
        any: false,
        written: 0,
    }
}

// ---- the bound of a box

// p for a weight of q.
#[derive(Clone, Copy)]
pub struct Price {
    pub p: u64,
    pub q: u64,
}

// The loss of a value, if exact; else one that no loss need be above.
#[derive(Clone, Copy)]
pub struct Known {
    pub lost: Lost,
    pub exact: bool,
}

// (top - lost) / q, by the price p / q: the loss of the point that is shown, or that of the value that was known.
#[derive(Clone, Copy)]
pub struct Limit {
    pub top: i64,
    pub p: u64,
    pub q: u64,
    pub lost: Lost,
    pub shown: Option<Shown>,
    pub written: u64,
}

// Some point of a box loses less than this at the critical item's price: see proofs/Shallow.
const DEEPEST: u64 = 10000000;

// The critical item's price for its weight; 0 / 1 if all items fit.
pub fn price_of(cols: Columns, ends: Ends) -> Price
    requires { Sized cols ends }
    ensures { Priced cols ends result }
{
    let u = fill_up(cols, ends).at;
    if u < cols.live {
        return Price {
            p: magnitude(cols.rate[u]),
            q: magnitude(cols.size[u]),
        };
    }
    Price { p: 0, q: 1 }
}

// Nothing is known.
fn deepest() -> Known
    ensures { (result.exact ≡ false) × (Counted result.lost.num result.lost.den × ((result.lost.num ≡ 10000000) × (result.lost.den ≡ 1))) }
{
    let lost = Lost {
        num: DEEPEST,
        den: 1,
    };
    Known {
        lost: lost,
        exact: false,
    }
}

// What a value loses of which the whole part loses n.
fn part_loss(n: u64, q: u64, part: u64, parts: u64) -> Known
    requires { (n ≤ 10000000) × ((q ≤ 1000) × ((part < parts) × (parts ≤ 1000))) }
    ensures { PartLoss n q part parts result }
{
    let a = n * parts;
    let b = q * part;
    if a < b {
        return deepest();
    }
    let lost = Lost {
        num: a - b,
        den: parts,
    };
    Known {
        lost: lost,
        exact: true,
    }
}

fn is_small(w: i64) -> bool
    ensures { result ≡ true → Within 100000000000000 w }
{
    -100000000000000 <= w && w <= 100000000000000
}

// What the value w + part / parts loses.
fn near_loss(top: i64, q: u64, w: i64, part: u64, parts: u64) -> Known
    requires { Within 100000000000000000 top × ((q ≤ 1000) × (Within 100000000000000 w × ((part < parts) × (parts ≤ 1000)))) }
    ensures { KnownLoss top q w part parts result }
{
    let n = top - (q as i64) * w;
    if n < 0 {
        return deepest();
    }
    let m = magnitude(n);
    if DEEPEST < m {
        return deepest();
    }
    part_loss(m, q, part, parts)
}

fn known_loss(top: i64, q: u64, known: bool, w: i64, part: u64, parts: u64) -> Known
    requires { Within 100000000000000000 top × ((q ≤ 1000) × (known ≡ true → (part < parts) × (parts ≤ 1000))) }
    ensures { KnownBy top q known w part parts result }
{
    if known {
        if is_small(w) {
            return near_loss(top, q, w, part, parts);
        }
    }
    deepest()
}

// No value of the box is above this, and it is one: the value that was known, or that of a best point of the box, in a frame. whole says which items
// take whole amounts; if known, value is that of a feasible point.
pub fn ceiling(
    cols: Columns,
    ends: Ends,
    whole: [bool; 16],
    known: bool,
    value: Mixed,
    cells: &mut [u64],
) -> Limit
    requires sized { Sized cols ends × (Ordered cols × (InOrder cols ends × ((pos 0 ≤ℤ (fill cols ends).room) × (known ≡ true → Proper value)))) }
    requires spanned { Spanned cols ends × (65535 ≤ length cells.old) }
    ensures { Bounded cols ends whole known value result }
{
    let c = price_of(cols, ends);
    let top = top_of(cols, ends, c.p, c.q);
    let k = known_loss(top, c.q, known, value.whole, value.part, value.parts);
    let b = least_loss(cols, ends, whole, c.p, c.q, k.lost, cells);
    Limit {
        top,
        p: c.p,
        q: c.q,
        lost: b.lost,
        shown: b.shown,
        written: b.written,
    }
}

// ---- the first point of a frame

// The amounts of a point of a frame, but for the item cut, if there is one; and how many cells were written.
#[derive(Clone, Copy)]
pub struct Seen {
    pub place: Option<[i64; 16]>,
    pub written: u64,
}

fn unseen(written: u64) -> Seen
    ensures { (result.place ≡ None) × (result.written ≡ written) }
{
    Seen {
        place: None,
        written,
    }
}

// The first point of frame t that loses r, where none loses less: by the first item whose amount differs. top is that of the box.
pub fn first_of_frame(
    cols: Columns,
    ends: Ends,
    whole: [bool; 16],
    p: u64,
    q: u64,
    t: usize,
    top: i64,
    r: u64,
    cells: &mut [u64],
) -> Seen
    requires ready { Ready cols ends p q × ((top ≡ top_of p q cols ends) × (Within 100000000000000000 top × Spanned cols ends)) }
    requires r_bound { (r < 10000000000) × (FrameFloor p q cols ends whole t r × (65535 ≤ length cells.old)) }
    ensures { FrameFirst p q cols ends whole t r result }
{
    let f = frame_of(cols, ends, whole, p, q, t, top);
    let scale = f.scale;
    let less = f.less;
    if r / scale < less {
        return unseen(0);
    }
    let off = scale * less;
    let e = f.ends;
    let s = first_of(cols, e, p, q, scale, f.cut, r - off, cells);
    match s.amounts {
        Some(ys) => Seen {
            place: Some(made(cols, e, ys)),
            written: s.written,
        },
        None => unseen(s.written),
    }
}

// ---- levels

// Which items are those of the first n levels.
pub fn wholes(level: [usize; 16], n: usize) -> [bool; 16]
    requires { (n ≤ 16) × ((d : ℕ) → d < n → place level d < 16) }
    ensures { Levelled level n result }
{
    let mut to = [false; 16];
    for d in 0..n {
        to[level[d]] = true;
    }
    to
}
