// The search for the best point that comes first (paper 02, "Always the same charge"), over places: a place is an amount for each level, a level is an
// integer item. A step looks at one place and sets aside a run of places from it on, with the lemma that allows it: see proofs/Settle. What a step gives
// depends on the place and the incumbent alone, so a search can be resumed from these (proofs/Resume); the state also says which levels are known to
// settle nothing, so that they are not looked at again.
#![tactic(auto)]

ghost use Rattle.std.specs.Prelude.{◌≡◌, ℕ, ◌≤◌, ◌<◌};
ghost use Rattle.arith.specs.Limits.{farthest};
ghost use Rattle.arith.specs.Within.{Within};
ghost use Rattle.greedy.specs.Fill.{at, place, fill};
ghost use Rattle.greedy.specs.Sized.{Sized};
ghost use Rattle.lattice.specs.Lattice.{Tame};
ghost use Rattle.setting.specs.Box.{InsideTo, Inside};
ghost use Rattle.lattice.specs.Lattice.{barren_by};
ghost use Rattle.search.specs.Tying.{ReadyTied, ReadySearch};
ghost use Rattle.search.specs.Ahead.{filled_by};
ghost use Rattle.search.specs.Search.{by_side, threshold_at, cut_by, Stays, Removable, Reflects, FirstPaired};
ghost use Rattle.search.specs.Searched.{Searches};
ghost use Rattle.search.specs.Steps.{Dived, SparseInRange, BoxInRange, Tries, Unpaired, Looks, Looked, nobody};
ghost use Rattle.search.specs.Steps.{LongPath, moved_at, fresh_by, counted_by, Stepped, Begun, Along, Resumed, Underway, RunsFor};

use ahead::{amounts_over, is_ahead, is_better, is_corner_sooner};
use arith::Mixed;
use greedy::{Columns, Ends, Fill, bound_of, fill_up, start_of};
use lattice::{Lattice, Slope, barren};
use places::{Settled, past};
use setting::{Pairs, Setting, fixed_in};

mod ahead; // ahead.rt: the order of points

// The best point so far: its place, its amounts by item over the divisor of its value, and the value.
#[derive(Clone, Copy)]
pub struct Incumbent {
    pub found: bool,
    pub place: [i64; 16],
    pub point: [i64; 16],
    pub value: Mixed,
}

// A place, and the starts of its levels along it.
#[derive(Clone, Copy)]
pub struct Path {
    pub place: [i64; 16],
    pub starts: [i64; 16],
}

// The incumbent after a trial, and whether that is a better one.
#[derive(Clone, Copy)]
pub struct Comparison {
    pub best: Incumbent,
    pub better: bool,
}

// What a look at a place settled, the incumbent after it, and whether that is a better one.
#[derive(Clone, Copy)]
pub struct Sighting {
    pub settled: Settled,
    pub best: Incumbent,
    pub better: bool,
}

// A search on its way: where it is, and how many steps it ended (as many as fit). The levels above `from` settle nothing.
#[derive(Clone, Copy)]
pub struct State {
    pub path: Path,
    pub best: Incumbent,
    pub steps: u64,
    pub from: usize,
    pub done: bool,
}

// The path with the levels from j on at their starts: in the box with the levels above fixed, each takes its start.
pub fn dive(s: Setting, p: Path, j: usize) -> Path
    requires { ReadyTied s × ((j ≤ s.levels) × InsideTo s j (at p.place)) }
    ensures { Dived s j p result }
{
    let mut x = p.place;
    let mut y = p.starts;
    let mut e = fixed_in(s.ends, s.level, x, j);
    for k in j..s.levels {
        let i = s.level[k];
        let v = start_of(
            &s.cols.weight,
            &s.cols.price,
            &s.cols.order,
            &s.cols.rank,
            &s.cols.size,
            &s.cols.rate,
            &e.lo,
            &e.hi,
            s.cols.live,
            s.cols.count,
            s.cols.capacity,
            i,
        );
        e.lo[i] = v;
        e.hi[i] = v;
        x[k] = v;
        y[k] = v;
    }
    Path {
        place: x,
        starts: y,
    }
}

// The value that a box of n items has to exceed, of the point y over d whose whole value is w: one less where the box's lower corner comes before y,
// and so a point worth as much may.
pub fn threshold<'a>(lo: &'a [i64; 16], y: &'a [i64; 16], n: usize, d: u64, w: i64) -> i64
    requires { (n ≤ 16) × ((d ≤ 1000) × (((k : ℕ) → Within farthest (at lo.now k)) × Within 201000000000000000 w)) }
    ensures { result ≡ threshold_at lo.now y.now n d w }
{
    if is_corner_sooner(lo, y, n, d) {
        w - 1
    } else {
        w
    }
}

// Whether no value above w is found on the lattice, by a filling that stops at an item of that weight and price: cut by lattice, see
// proofs/Cuts (sparse-most).
pub fn sparse(l: Lattice, f: Fill, size: i64, rate: i64, w: i64) -> bool
    requires { SparseInRange l f size rate w }
    ensures { result ≡ barren_by l (record { worth = f.worth; rate = rate; size = size }) f.room w }
{
    let p = Slope {
        worth: f.worth,
        rate: rate,
        size: size,
    };
    barren(l, p, f.room, w)
}

// Whether the box e holds nothing ahead of the incumbent: see proofs/Settle (cut-settles). The columns are large, and a struct is
// copied at a call: so the critical item is read here.
pub fn cut(c: Columns, l: Lattice, e: Ends, best: Incumbent) -> bool
    requires { BoxInRange c e best × Tame l }
    ensures { result ≡ cut_by c l e best }
{
    let f = fill_up(c, e);
    if f.room < 0 {
        return true;
    }
    if best.found {
        if is_ahead(c, e, f, best) {
            let b = best.value;
            let u = f.at;
            let n = c.live;
            if u < n {
                let s = c.size[u];
                let p = c.rate[u];
                let w = threshold(&e.lo, &best.point, c.count, b.parts, b.whole);
                return sparse(l, f, s, p, w);
            }
            return false;
        }
        return true;
    }
    false
}

// The filling of e, a place with all levels fixed at x, as an incumbent.
fn filled(c: Columns, e: Ends, f: Fill, x: [i64; 16]) -> Incumbent
    requires { Sized c e × (f ≡ fill c e) }
    ensures { result ≡ filled_by c e x }
{
    let v = bound_of(c, f);
    let y = amounts_over(c, e, f, v.parts);
    Incumbent {
        found: true,
        place: x,
        point: y,
        value: v,
    }
}

// The one that is ahead of the incumbent and the filling at the place x, whose levels are all fixed in e: see proofs/Settle (tried-settles).
pub fn tried(c: Columns, e: Ends, x: [i64; 16], best: Incumbent) -> Comparison
    requires { BoxInRange c e best }
    ensures { Tries c e x best result }
{
    let f = fill_up(c, e);
    if f.room < 0 {
        return Comparison {
            best: best,
            better: false,
        };
    }
    if is_better(c, e, f, best) {
        return Comparison {
            best: filled(c, e, f, x),
            better: true,
        };
    }
    Comparison {
        best: best,
        better: false,
    }
}

// Whether x less r lies within l and u.
pub fn within(x: i64, r: i64, l: i64, u: i64) -> bool
    requires { Within farthest x × Within 1000 r }
    ensures { Reflects (Stays x r l u) result }
{
    let y = x - r;
    if y < l {
        return false;
    }
    !(u < y)
}

// Whether steps of r and t, if r is not 0, can be taken away from x and y within their ends.
pub fn removable(r: i64, t: i64, x: i64, y: i64, l: i64, u: i64, m: i64, w: i64) -> bool
    requires { Within 1000 r × (Within 1000 t × (Within farthest x × Within farthest y)) }
    ensures { Reflects (Removable r t x y l u m w) result }
{
    if r == 0 {
        return false;
    }
    if within(x, r, l, u) {
        return within(y, t, m, w);
    }
    false
}

// The first level whose item makes a domination pair with one above that discards x, where none above `from` does: cut by a pair, see
// proofs/Settle (pair_settles). Structs are copied at a call, and these two are large: loops over both levels need them once for each look.
pub fn first_paired(s: Setting, p: Pairs, x: [i64; 16], from: usize) -> usize
    requires { Unpaired s p x from }
    ensures { FirstPaired s p (at x) result }
{
    for d in from..s.levels {
        for j in 0..d {
            let k = 16 * s.level[d] + s.level[j];
            let r = p.first[k] as i64;
            let t = p.second[k] as i64;
            if removable(r, t, x[d], x[j], s.low[d], s.high[d], s.low[j], s.high[j]) {
                return d;
            }
        }
    }
    s.levels
}

// The first of two amounts if x is below v, else the second.
pub fn by_side(x: i64, v: i64, first: i64, second: i64) -> i64
    ensures { result ≡ by_side x v first second }
{
    if x < v { first } else { second }
}

// A look at a place: the first level whose run can be set aside, or that a pair discards; else the place is tried. Levels above `from`
// are known to settle nothing.
pub fn look(s: Setting, p: Pairs, t: Path, best: Incumbent, from: usize) -> Sighting
    requires { Looks s p t best from }
    ensures { Looked s p t best result }
{
    let n = s.levels;
    let x = t.place;
    let v = t.starts;
    let m = first_paired(s, p, x, from);
    let mut e = fixed_in(s.ends, s.level, x, from);
    for d in from..n {
        let a = x[d];
        let b = v[d];
        let i = s.level[d];
        let l = by_side(a, b, s.low[d], a);
        let h = by_side(a, b, a, s.high[d]);
        e.lo[i] = l;
        e.hi[i] = h;
        if cut(s.cols, s.lattice[d], e, best) {
            return Sighting {
                settled: Settled::Run(d),
                best: best,
                better: false,
            };
        }
        if d == m {
            return Sighting {
                settled: Settled::Prefix(d + 1),
                best: best,
                better: false,
            };
        }
        e.lo[i] = a;
        e.hi[i] = a;
    }
    let r = tried(s.cols, e, x, best);
    let b = r.best;
    Sighting {
        settled: Settled::Prefix(n),
        best: b,
        better: r.better,
    }
}

// No place yet.
pub fn no_incumbent() -> Incumbent
    ensures { result ≡ nobody }
{
    Incumbent {
        found: false,
        place: [0; 16],
        point: [0; 16],
        value: Mixed {
            whole: 0,
            part: 0,
            parts: 1,
        },
    }
}

// One more, as long as it fits.
pub fn counted(n: u64) -> u64
    ensures { result ≡ counted_by n }
{
    if n < 18446744073709551615 { n + 1 } else { n }
}

// The path with the amount v at level j.
pub fn move_to(t: Path, j: usize, v: i64) -> Path
    requires { j < 16 }
    ensures { (result ≡ moved_at t j v) × LongPath t }
{
    let mut x = t.place;
    x[j] = v;
    let y = t.starts;
    Path {
        place: x,
        starts: y,
    }
}

// The first level that may settle something after a move at level j: all above have their amounts and starts, and so their runs. A better
// incumbent may cut any of these.
pub fn fresh(better: bool, j: usize) -> usize
    ensures { result ≡ fresh_by better j }
{
    if better { 0 } else { j }
}

// One step: a look at the place, and the first place after what it settled.
pub fn step(s: Setting, p: Pairs, q: State) -> State
    requires { Looks s p q.path q.best q.from }
    ensures { Stepped s p q result }
{
    let t = q.path;
    let a = q.best;
    let l = look(s, p, t, a, q.from);
    let w = l.settled;
    let b = l.best;
    let better = l.better;
    let n = counted(q.steps);
    let x = t.place;
    let y = t.starts;
    let lo = s.low;
    let hi = s.high;
    match past(w, x, lo, hi, y) {
        Some((j, v)) => {
            let u = move_to(t, j, v);
            let from = fresh(better, j);
            if j + 1 < s.levels {
                return State {
                    path: dive(s, u, j + 1),
                    best: b,
                    steps: n,
                    from: from,
                    done: false,
                };
            }
            State {
                path: u,
                best: b,
                steps: n,
                from: from,
                done: false,
            }
        }
        None => State {
            path: t,
            best: b,
            steps: n,
            from: 0,
            done: true,
        },
    }
}

// The search at its first place: every level at its start.
pub fn start(s: Setting) -> State
    requires { ReadyTied s }
    ensures { Begun s result }
{
    let zero = Path {
        place: [0; 16],
        starts: [0; 16],
    };
    State {
        path: dive(s, zero, 0),
        best: no_incumbent(),
        steps: 0,
        from: 0,
        done: false,
    }
}

// The path at the place x: each level's start along it.
pub fn along(s: Setting, x: [i64; 16]) -> Path
    requires { ReadyTied s × Inside s (at x) }
    ensures { Along s x result }
{
    let mut y: [i64; 16] = [0; 16];
    let mut e = s.ends;
    for k in 0..s.levels {
        let i = s.level[k];
        let v = start_of(
            &s.cols.weight,
            &s.cols.price,
            &s.cols.order,
            &s.cols.rank,
            &s.cols.size,
            &s.cols.rate,
            &e.lo,
            &e.hi,
            s.cols.live,
            s.cols.count,
            s.cols.capacity,
            i,
        );
        e.lo[i] = x[k];
        e.hi[i] = x[k];
        y[k] = v;
    }
    Path {
        place: x,
        starts: y,
    }
}

// The search at a place x with the incumbent `held`: so it is resumed from these alone, see proofs/Resume (resumed-once).
pub fn resumed(s: Setting, x: [i64; 16], held: Incumbent) -> State
    requires { ReadyTied s × Inside s (at x) }
    ensures { Resumed s x held result }
{
    State {
        path: along(s, x),
        best: held,
        steps: 0,
        from: 0,
        done: false,
    }
}

// The search from q on: to its end, or for n steps.
pub fn run_for(s: Setting, p: Pairs, q: State, n: u64) -> State
    requires { Underway s p q }
    ensures { RunsFor s p q n result }
{
    let mut t = q;
    for _k in 0..n {
        if t.done {
            return t;
        }
        t = step(s, p, t);
    }
    t
}

// The search from its first place on, for at most so many steps. At its end: the best point of the box that comes first, or that there is none. Before
// that the incumbent is the one that is ahead of all tried.
pub fn run(s: Setting, p: Pairs, most: u64) -> State
    requires { ReadySearch s p }
    ensures { Searches s p most result }
{
    let q = start(s);
    run_for(s, p, q, most)
}
