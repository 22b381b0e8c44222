// What is left of a search that has not ended: an optimal place of its box, in bounded time. Paper 01, "The problem": a best point is owed for every
// problem that has one, however long a search would take. The place is the incumbent's if no loss is less than its own, else the first point of the
// frame that loses least.
#![tactic(auto)]

ghost use Rattle.std.specs.Prelude.{◌≡◌, true, false, ℕ, ◌≤◌, ◌<◌, eqb, length};
ghost use Rattle.greedy.specs.Fill.{at, place};
ghost use Rattle.ceiling.specs.Least.{Placed};
ghost use Rattle.settling.specs.Settling.{Boxes, Tried, SettleWrites, Settles};

use arith::Mixed;
use ceiling::{ceiling, wholes};
use greedy::{Columns, Ends, fill_up};

// An optimal place by level, if anything in the box is feasible; whether it is known to come first where no continuous item can change; and how many
// cells were written.
#[derive(Clone, Copy)]
pub struct Settled {
    pub place: Option<[i64; 16]>,
    pub first: bool,
    pub written: u64,
}

// Whether frame t is the last one, in which no item is cut.
fn is_last(cols: Columns, t: usize) -> bool
    ensures { result ≡ eqb t cols.live }
{
    t == cols.live
}

// The amounts of the first n levels.
pub fn by_level(xs: [i64; 16], level: [usize; 16], n: usize) -> [i64; 16]
    requires { (n ≤ 16) × ((d : ℕ) → d < n → place level d < 16) }
    ensures { Placed n (λ d. at xs (place level d)) result }
{
    let mut to = [0; 16];
    for d in 0..n {
        to[d] = xs[level[d]];
    }
    to
}

// An optimal place of the box. The first `levels` items of `level` are the integer ones; if known, `x` is a feasible place and `value` what its
// filling is worth.
pub fn settle(
    cols: Columns,
    ends: Ends,
    level: [usize; 16],
    levels: usize,
    known: bool,
    x: [i64; 16],
    value: Mixed,
    cells: &mut [u64],
) -> Settled
    requires boxes { Boxes cols ends level levels × (known ≡ true → Tried cols ends level levels (at x) value) }
    requires in_bounds { 65535 ≤ length cells.old }
    ensures settles { Settles cols ends level levels result }
    ensures settle_writes { SettleWrites cols ends level levels known value result.first result.written }
{
    let f = fill_up(cols, ends);
    if f.room < 0 {
        return Settled {
            place: None,
            first: false,
            written: 0,
        };
    }
    let whole = wholes(level, levels);
    let b = ceiling(cols, ends, whole, known, value, cells);
    match b.shown {
        Some(best) => {
            let y = by_level(best.place, level, levels);
            let last = is_last(cols, best.at);
            Settled {
                place: Some(y),
                first: last,
                written: b.written,
            }
        }
        None => Settled {
            place: Some(x),
            first: false,
            written: b.written,
        },
    }
}
