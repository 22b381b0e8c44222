// The lattices of the levels of a search, by guess and check: Euclid's algorithm guesses, and only a lattice that is found to hold
// every item from its level on is used. So that a guess is right needs no proof, and it may be cut where it grows too large.
ghost use Rattle.std.specs.Prelude.{◌≡◌, ◌-◌, pos, replicate, ◌<ℤ◌};
ghost use Rattle.arith.specs.Within.{Within};
ghost use Rattle.lattice.specs.Lattice.{Tame, unknown};
ghost use Rattle.lattice.specs.Building.{Rests, rest_of, tamed, Upright, upright_by, Reduces, reduced_by, Guess, first_change, joined_by, common_gap};
ghost use Rattle.lattice.specs.Building.{widened_by, no_changes, closed_by, Holds, holds_by, entry, Items, held_from, checked_by, Latticed};

use super::{Change, Lattice};
use arith::{floor_div, gcd, magnitude};

// The farthest from 0 that a slant or a gap may be.
const FAR: i64 = 100000000;

// What is left of n after whole multiples of m.
fn rest(n: i64, m: i64) -> i64
    requires { Rests n m }
    ensures { result ≡ rest_of n m }
{
    n - m * floor_div(n, m)
}

// ---- the guess

// The worth z up to gaps g. Without gaps, 0 if it is too far: the guess then fails its check.
fn tame(z: i64, g: i64) -> i64
    requires { Within 200000000000 z × Within 100000000 g }
    ensures { result ≡ tamed z g }
{
    if 0 < g {
        return rest(z, g);
    }
    if FAR < z {
        return 0;
    }
    if z < -FAR {
        return 0;
    }
    z
}

// The change (a, c) or its opposite, whichever weighs 0 or more.
fn upright(a: i64, c: i64) -> Change
    requires { Within 1000 a × Within 10000 c }
    ensures { result ≡ upright_by a c }
{
    if a < 0 {
        return Change {
            weight: 0 - a,
            worth: 0 - c,
        };
    }
    Change {
        weight: a,
        worth: c,
    }
}

// One step of Euclid's algorithm: u less v as often as its weight allows, up to gaps g.
fn reduced(u: Change, v: Change, g: i64) -> Change
    requires { Reduces u v g }
    ensures { result ≡ reduced_by u v g }
{
    let x = u.weight;
    let a = v.weight;
    let z = u.worth - v.worth * floor_div(x, a);
    Change {
        weight: rest(x, a),
        worth: tame(z, g),
    }
}

// One stride.
fn first_change(l: Lattice) -> Change
    requires { Guess l }
    ensures { result ≡ first_change l }
{
    Change {
        weight: l.stride,
        worth: l.slant,
    }
}

// The stride and the slant that l has together with the change v. The gap is what a change is worth that then weighs nothing, of
// either sign and up to gaps of l.
fn joined(l: Lattice, v: Change) -> Lattice
    requires { Guess l × Upright v }
    ensures { result ≡ joined_by l v }
{
    let g = l.gap;
    let mut x = first_change(l);
    let mut y = v;
    while 0 < y.weight {
        let r = reduced(x, y, g);
        x = y;
        y = r;
    }
    Lattice {
        stride: x.weight,
        slant: x.worth,
        gap: y.worth,
    }
}

// The greatest common divisor of two gaps.
fn common_gap(g: i64, h: i64) -> i64
    requires { Within 100000000 g × Within 100000000 h }
    ensures { result ≡ common_gap g h }
{
    gcd(magnitude(g), magnitude(h)) as i64
}

// A lattice that has the change (a, c) too.
fn widen(l: Lattice, a: i64, c: i64) -> Lattice
    requires { Guess l × (Within 1000 a × Within 10000 c) }
    ensures { result ≡ widened_by l a c }
{
    let v = upright(a, c);
    let j = joined(l, v);
    let g = common_gap(l.gap, j.gap);
    Lattice {
        stride: j.stride,
        slant: tame(j.slant, g),
        gap: g,
    }
}

// The lattice of no changes.
fn no_changes() -> Lattice
    ensures { result ≡ no_changes }
{
    Lattice {
        stride: 0,
        slant: 0,
        gap: 0,
    }
}

// Gap 0, only whole strides, as the widest gap: that allows hardly more, and the descent can divide by it.
fn closed(l: Lattice) -> Lattice
    requires { Guess l }
    ensures { result ≡ closed_by l }
{
    if 0 < l.gap {
        return l;
    }
    Lattice {
        stride: l.stride,
        slant: l.slant,
        gap: FAR,
    }
}

// ---- the check

// Whether the change (a, c) is on the lattice.
fn holds(l: Lattice, a: i64, c: i64) -> bool
    requires { Holds l a c }
    ensures { result ≡ holds_by l a c }
{
    let k = l.stride;
    if 0 < rest(a, k) {
        return false;
    }
    let z = c - l.slant * floor_div(a, k);
    !(0 < rest(z, l.gap))
}

// Whether the items from d to n - 1 are on the lattice.
fn held_from(l: Lattice, weight: [i64; 16], price: [i64; 16], d: usize, n: usize) -> bool
    requires { Tame l × ((pos 0 <ℤ l.stride) × Items (entry weight) (entry price) n) }
    ensures { result ≡ held_from l (entry weight) (entry price) d (n - d) }
{
    for j in d..n {
        if !holds(l, weight[j], price[j]) {
            return false;
        }
    }
    true
}

fn unknown_lattice() -> Lattice
    ensures { result ≡ unknown }
{
    Lattice {
        stride: 0,
        slant: 0,
        gap: 1,
    }
}

// The guess, if the items from d on are on it.
fn checked(l: Lattice, weight: [i64; 16], price: [i64; 16], d: usize, n: usize) -> Lattice
    requires { Guess l × Items (entry weight) (entry price) n }
    ensures { result ≡ checked_by (entry weight) (entry price) n d l }
{
    let r = closed(l);
    if 0 < r.stride {
        if held_from(r, weight, price, d, n) {
            return r;
        }
        return unknown_lattice();
    }
    unknown_lattice()
}

// ---- all levels

// Nothing is known of any level.
pub fn unknown_lattices() -> [Lattice; 16]
    ensures { result ≡ replicate 16 unknown }
{
    let l = unknown_lattice();
    [l; 16]
}

// By level, a lattice of the items from it on.
pub fn lattices(weight: [i64; 16], price: [i64; 16], n: usize) -> [Lattice; 16]
    requires { Items (entry weight) (entry price) n }
    ensures { Latticed (entry weight) (entry price) n result }
{
    let mut to = unknown_lattices();
    let mut l = no_changes();
    for d in (0..n).rev() {
        l = widen(l, weight[d], price[d]);
        to[d] = checked(l, weight, price, d, n);
    }
    to
}
