// What preparation hands over and a search relies on: columns, box, levels, lattices, and the domination pairs. The box can be asked for with some
// of its levels fixed.
#![tactic(auto)]

ghost use Rattle.std.specs.Prelude.{◌≡◌, ℕ, ◌≤◌, ◌<◌};
ghost use Rattle.greedy.specs.Fill.{at, place};
ghost use Rattle.setting.specs.Box.{fixed_in, fixed_by};
ghost use Rattle.setting.specs.Ready.{ReadySetting};

use greedy::{Columns, Ends};
use lattice::Lattice;

// What does not change during a search: the columns, the box by item, and by level the item, its ends, and the lattice of what the
// items from that level on change, where no continuous item is free.
#[derive(Clone, Copy)]
pub struct Setting {
    pub cols: Columns,
    pub ends: Ends,
    pub level: [usize; 16],
    pub low: [i64; 16],
    pub high: [i64; 16],
    pub lattice: [Lattice; 16],
    pub levels: usize,
}

// The domination pairs (01: least pairs) of all pairs of items, at 16 i + j: the steps of i and of j; 0 where there is none. The numbers
// are short because a struct is copied at a call.
#[derive(Clone, Copy)]
pub struct Pairs {
    pub first: [i16; 256],
    pub second: [i16; 256],
}

// The box e with the items of the first d levels fixed at x.
pub fn fixed_in(e: Ends, level: [usize; 16], x: [i64; 16], d: usize) -> Ends
    requires { (d ≤ 16) × ((k : ℕ) → k < d → place level k < 16) }
    ensures { result ≡ fixed_in e level (at x) d }
{
    let mut to = e;
    for k in 0..d {
        let i = level[k];
        to.lo[i] = x[k];
        to.hi[i] = x[k];
    }
    to
}

// The search's box with the first d levels fixed at x.
pub fn fixed(s: Setting, x: [i64; 16], d: usize) -> Ends
    requires { ReadySetting s × (d ≤ s.levels) }
    ensures { result ≡ fixed_by s (at x) d }
{
    fixed_in(s.ends, s.level, x, d)
}
