// Which of two points is ahead: the one that is worth more, and of two worth as much the one that comes first (paper 02, "Always the same charge"). The
// filling of a box is ahead of every other point of its relaxation: foremost, proofs/Filling (fill-first).
ghost use Rattle.std.specs.Prelude.{◌≡◌, true, cond, ℕ, ◌≤◌, ltb, pos, ◌+ℤ◌, ◌*ℤ◌};
ghost use Rattle.arith.specs.Limits.{farthest, most_room};
ghost use Rattle.arith.specs.Within.{Within};
ghost use Rattle.greedy.specs.Amounts.{Countable};
ghost use Rattle.greedy.specs.Fill.{at, lightest, heaviest, taken_by, numerator};
ghost use Rattle.greedy.specs.Sized.{Sized, SizedFill};
ghost use Rattle.search.specs.Ahead.{sooner, corner_sooner, ahead_by, point_of, Comparable};

use super::Incumbent;
use arith::less;
use greedy::{Columns, Ends, Fill, bound_of, standing, taking};

// The amount over q of the item of rank v, of n live ones, in the filling f.
fn amount_over(a: i64, p: i64, l: i64, h: i64, v: usize, f: Fill, n: usize, q: u64) -> i64
    requires { Within farthest l × (Within farthest h × (Within most_room f.room × (q ≤ 1000))) }
    ensures { result ≡ cond (ltb v f.at) (heaviest a l h) (lightest a p l h) *ℤ pos q +ℤ taken_by a f.room v f.at n }
{
    let u = f.at;
    let room = f.room;
    let x = standing(a, p, l, h, v < u);
    let t = taking(a, room, v, u, n);
    x * (q as i64) + t
}

// The amounts of a filling over q, by item.
pub fn amounts_over(c: Columns, e: Ends, f: Fill, q: u64) -> [i64; 16]
    requires { Countable c e f q 0 }
    ensures { result ≡ point_of c e f q }
{
    let mut to: [i64; 16] = [0; 16];
    for k in 0..c.count {
        to[k] = amount_over(
            c.weight[k],
            c.price[k],
            e.lo[k],
            e.hi[k],
            c.rank[k],
            f,
            c.live,
            q,
        );
    }
    to
}

// Whether a filling over q comes before the point y over d, by the first of n items whose amounts differ.
pub fn is_sooner(c: Columns, e: Ends, f: Fill, n: usize, q: u64, y: [i64; 16], d: u64) -> bool
    requires { Countable c e f q 0 × ((n ≤ 16) × ((d ≤ 1000) × ((k : ℕ) → Within 20300000000000 (at y k)))) }
    ensures { result ≡ sooner n 0 (λ k. numerator c e f q k *ℤ pos d) (λ k. at y k *ℤ pos q) }
{
    for k in 0..n {
        let x = amount_over(
            c.weight[k],
            c.price[k],
            e.lo[k],
            e.hi[k],
            c.rank[k],
            f,
            c.live,
            q,
        );
        let left = x * (d as i64);
        let right = y[k] * (q as i64);
        if left < right {
            return true;
        }
        if right < left {
            return false;
        }
    }
    false
}

// Whether the lower corner of a box of n items comes before the point y over d. If not, no point of the box does.
pub fn is_corner_sooner<'a>(lo: &'a [i64; 16], y: &'a [i64; 16], n: usize, d: u64) -> bool
    requires { (n ≤ 16) × ((d ≤ 1000) × ((k : ℕ) → Within farthest (at lo.now k))) }
    ensures { result ≡ corner_sooner lo.now y.now n d }
{
    for k in 0..n {
        let left = lo[k] * (d as i64);
        let right = y[k];
        if left < right {
            return true;
        }
        if right < left {
            return false;
        }
    }
    false
}

// Whether the filling f of the box e is ahead of the incumbent.
pub fn is_ahead(c: Columns, e: Ends, f: Fill, best: Incumbent) -> bool
    requires { Sized c e × (SizedFill c f × Comparable best) }
    ensures { result ≡ ahead_by c e f best }
{
    let v = bound_of(c, f);
    let b = best.value;
    if less(b, v) {
        return true;
    }
    if less(v, b) {
        return false;
    }
    is_sooner(c, e, f, c.count, v.parts, best.point, b.parts)
}

// Whether it is, or there is no incumbent.
pub fn is_better(c: Columns, e: Ends, f: Fill, best: Incumbent) -> bool
    requires { Sized c e × (SizedFill c f × (best.found ≡ true → Comparable best)) }
    ensures { result ≡ cond best.found (ahead_by c e f best) true }
{
    if best.found {
        return is_ahead(c, e, f, best);
    }
    true
}
