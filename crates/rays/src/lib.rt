// The scan for a ray: steps on one or two items that no bound stops, that weigh nothing or less and are worth something.
// With one, a feasible problem is unbounded (paper 01); without, absent bounds may be closed (knapsack's reach).
// proofs/Corner is about the point that a planner applies the answer to, the light corner, and about infeasible problems.
#![tactic(auto)]

ghost use Rattle.std.specs.Prelude.{◌≡◌, ◌*◌, ◌<◌, Some};
ghost use Rattle.arith.specs.Within.{Within};
ghost use Rattle.knapsack.specs.Ranges.{InRange};
ghost use Rattle.knapsack.proofs.Reach.{turn};
ghost use Rattle.rays.specs.Directions.{way_of, stop, direction_of, DirectionInRange, gains, gain, pays, first_of, partner_at, ray_from, ray_of};
ghost use Rattle.rays.specs.Directions.{Directs, still, move, steps_by};
ghost use Rattle.rays.specs.Rays.{RayFound};

use knapsack::{Item, Problem, is_absent};

// An item's amount going one way: whether no bound stops it, and what a unit weighs and is worth.
#[derive(Clone, Copy)]
struct Direction {
    free: bool,
    weight: i64,
    price: i64,
}

// A ray by its directions. Direction u is item u / 2, upwards if u is even: an item with no bound at all has both.
#[derive(Clone, Copy)]
enum Ray {
    Single(usize),
    Pair(usize, usize),
}

// The bound that an item meets in direction u.
fn stop_of(i: Item, u: usize) -> Option<i64>
    ensures { result ≡ stop (way_of u) i }
{
    if u % 2 == 0 { i.upper } else { i.lower }
}

// A figure x of the item as one of direction u, and x units in direction u as a change of the item's amount.
fn turned(u: usize, x: i64) -> i64
    requires { Within 10000 x }
    ensures { result ≡ turn (way_of u) x }
{
    if u % 2 == 0 { x } else { 0 - x }
}

// Direction u of the problem, for u below twice the count.
fn direction_at(p: Problem, u: usize) -> Direction
    requires { InRange p × (u < 2 * p.count) }
    ensures { result ≡ direction_of p u }
{
    let k = u / 2;
    let i = p.items[k];
    let b = stop_of(i, u);
    Direction {
        free: is_absent(b),
        weight: turned(u, i.weight),
        price: turned(u, i.price),
    }
}

// Whether no bound stops d and it is worth something.
fn does_gain(d: Direction) -> bool
    ensures { result ≡ gains d }
{
    if d.free { 0 < d.price } else { false }
}

// What d and e are worth together, each by the other's weight, so that they weigh nothing.
fn gain_of(d: Direction, e: Direction) -> i64
    requires { DirectionInRange d × DirectionInRange e }
    ensures { result ≡ gain d e }
{
    d.price * (0 - e.weight) + e.price * d.weight
}

// Whether e takes the weight of d away for less than d is worth.
fn does_pay(d: Direction, e: Direction) -> bool
    requires { DirectionInRange d × DirectionInRange e }
    ensures { result ≡ pays d e }
{
    if e.free {
        if e.weight < 0 {
            return 0 < gain_of(d, e);
        }
    }
    false
}

// The pair of u, whose figures are d, and w, if w pays for u.
fn partner_at(p: Problem, u: usize, d: Direction, w: usize) -> Option<Ray>
    requires { InRange p × (DirectionInRange d × (w < 2 * p.count)) }
    ensures { result ≡ partner_at p u d w }
{
    let e = direction_at(p, w);
    if does_pay(d, e) {
        Some(Ray::Pair(u, w))
    } else {
        None
    }
}

// The pair of u, whose figures are d, and the first direction that pays for it.
fn partner(p: Problem, u: usize, d: Direction) -> Option<Ray>
    requires { InRange p × DirectionInRange d }
    ensures { result ≡ first_of p (partner_at p u d) }
{
    for w in 0..2 * p.count {
        if let Some(r) = partner_at(p, u, d, w) {
            return Some(r);
        }
    }
    None
}

// The ray that begins with u, which has to gain: alone if it is not heavy, else with a partner. See proofs/Steps
// (one-escapes, two-escapes), and proofs/Scan (no-ray) on why these are all.
fn ray_from(p: Problem, u: usize) -> Option<Ray>
    requires { InRange p × (u < 2 * p.count) }
    ensures { result ≡ ray_from p u }
{
    let d = direction_at(p, u);
    if does_gain(d) {
        if 0 < d.weight {
            return partner(p, u, d);
        }
        return Some(Ray::Single(u));
    }
    None
}

fn first_ray(p: Problem) -> Option<Ray>
    requires { InRange p }
    ensures { result ≡ ray_of p }
{
    for u in 0..2 * p.count {
        if let Some(r) = ray_from(p, u) {
            return Some(r);
        }
    }
    None
}

// The steps with n steps in direction u.
fn moved(steps: [i64; 16], u: usize, n: i64) -> [i64; 16]
    requires { (u < 32) × Within 10000 n }
    ensures { result ≡ move steps u n }
{
    let mut l = steps;
    l[u / 2] = turned(u, n);
    l
}

fn no_steps() -> [i64; 16]
    ensures { result ≡ still }
{
    [0; 16]
}

// Each of the two goes by the other's weight, so that together they weigh nothing.
fn pair_steps(p: Problem, u: usize, w: usize) -> [i64; 16]
    requires { InRange p × ((u < 2 * p.count) × (w < 2 * p.count)) }
    ensures { result ≡ steps_by p (Some (Ray.Pair u w)) }
{
    let d = direction_at(p, u);
    let e = direction_at(p, w);
    let still = no_steps();
    let l = moved(still, u, 0 - e.weight);
    moved(l, w, d.weight)
}

fn steps_of(p: Problem, r: Ray) -> [i64; 16]
    requires { InRange p × Directs p r }
    ensures { result ≡ steps_by p (Some r) }
{
    match r {
        Ray::Single(u) => moved(no_steps(), u, 1),
        Ray::Pair(u, w) => pair_steps(p, u, w),
    }
}

// The steps of the problem's ray, one for each item; none where it has no ray.
pub fn find_ray(p: Problem) -> Option<[i64; 16]>
    requires { InRange p }
    ensures { RayFound p result }
{
    let r = first_ray(p)?;
    Some(steps_of(p, r))
}
