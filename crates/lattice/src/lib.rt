// The lattice of integer items: whole amounts change weight and worth only by whole multiples of theirs, so between two values of a
// run there may be none. A run whose relaxation promises more than the incumbent may then still be barren.
#![tactic(auto)]

ghost use Rattle.std.specs.Prelude.{◌≡◌};
ghost use Rattle.arith.specs.Limits.{most_room};
ghost use Rattle.arith.specs.Within.{Within};
ghost use Rattle.lattice.specs.Lattice.{Tame, Steep, Judges, Snaps, Falls, Starts, height_of, highest_of, judged, lower, first_rung, Descends, barren_by};

use arith::floor_div;
pub use building::{lattices, unknown_lattices};

mod building; // building.rt: the lattices of the levels of a search

// How many changes of weight a descent looks at: more would cost more than they save.
const TRIES: usize = 100;

// The changes of weight and worth that are whole multiples of (stride, slant) and (0, gap), added up. Stride 0: nothing is known.
#[derive(Clone, Copy)]
pub struct Lattice {
    pub stride: i64,
    pub slant: i64,
    pub gap: i64,
}

// A change of weight and of worth.
#[derive(Clone, Copy)]
pub struct Change {
    pub weight: i64,
    pub worth: i64,
}

// What a change of weight can be worth at most, above a worth: the critical item's price for its weight.
#[derive(Clone, Copy)]
pub struct Slope {
    pub worth: i64,
    pub rate: i64,
    pub size: i64,
}

// The most that a change of weight is worth.
fn height(f: Slope, w: i64) -> i64
    requires { Falls f w }
    ensures { result ≡ height_of f w }
{
    let s = f.size;
    floor_div(f.rate * w, s)
}

// The highest worth on the lattice, from base on in steps of the gap, that is at most h.
fn highest(l: Lattice, base: i64, h: i64) -> i64
    requires { Snaps l base h }
    ensures { result ≡ highest_of l base h }
{
    let g = l.gap;
    base + g * floor_div(h - base, g)
}

// What this change of weight says of the descent: Some(true) where no worth here or below is above b, Some(false) where one here is; None where none
// here is, and one below may be.
fn judge(l: Lattice, f: Slope, r: Change, b: i64) -> Option<bool>
    requires { Judges l f r }
    ensures { result ≡ judged l f b r }
{
    let w = f.worth;
    let h = height(f, r.weight);
    if b < w + h {
        let v = highest(l, r.worth, h);
        if b < w + v {
            return Some(false);
        }
        return None;
    }
    Some(true)
}

// One stride less.
fn less_stride(l: Lattice, r: Change) -> Change
    requires { Descends l r }
    ensures { result ≡ lower l r }
{
    Change {
        weight: r.weight - l.stride,
        worth: r.worth - l.slant,
    }
}

// The greatest change of weight that the room allows, and a worth on the lattice there.
fn first_rung(l: Lattice, room: i64) -> Change
    requires { Starts l room }
    ensures { result ≡ first_rung l room }
{
    let a = l.stride;
    let g = l.gap;
    let s = floor_div(room, a);
    let t = s - g * floor_div(s, g);
    Change {
        weight: a * s,
        worth: l.slant * t,
    }
}

// Whether nothing on the lattice within the room and the slope is above b. At most so many changes of weight are looked at.
pub fn barren(l: Lattice, f: Slope, room: i64, b: i64) -> bool
    requires { Tame l × (Steep f × Within most_room room) }
    ensures { result ≡ barren_by l f room b }
{
    if 0 < l.stride {
        let mut r = first_rung(l, room);
        for _k in 0..TRIES {
            if let Some(settled) = judge(l, f, r, b) {
                return settled;
            }
            r = less_stride(l, r);
        }
    }
    false
}
