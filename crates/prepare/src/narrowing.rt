// A nearer box. Without a ray, amounts beyond a reach that comes from the problem's own figures are pointless (knapsack, proofs/Reach),
// so that a search need not go as far as the ends that stand for absent bounds in general.
ghost use Rattle.std.specs.Prelude.{◌≡◌, ℕ, ◌*◌, ◌≤◌, ◌<◌, nat_abs};
ghost use Rattle.arith.specs.Limits.{farthest};
ghost use Rattle.arith.specs.Within.{Within};
ghost use Rattle.greedy.specs.Fill.{at, place};
ghost use Rattle.knapsack.specs.Ranges.{ItemInRange, BoundInRange, InRange};
ghost use Rattle.setting.specs.Ready.{ReadySetting};
ghost use Rattle.prepare.specs.Narrowing.{bound_size, open_weight, grown_by, most_of, lead_by, burden_of, reach_of, span_by, clamp_to, Narrowed};
ghost use Rattle.prepare.specs.Narrowing.{Small};

use super::{Most, Reach};
use arith::magnitude;
use greedy::Ends;
use knapsack::{Item, Problem, is_open};
use setting::Setting;

// How large a bound is; an absent one is none.
fn bound_size(b: Option<i64>) -> u64
    requires { BoundInRange b }
    ensures { result ≡ bound_size b }
{
    match b {
        None => 0,
        Some(v) => magnitude(v),
    }
}

// The weight of an item that lacks a bound.
fn open_weight(i: Item) -> u64
    requires { ItemInRange i }
    ensures { result ≡ open_weight i }
{
    if is_open(i) { magnitude(i.weight) } else { 0 }
}

// With one item more.
fn grown(m: Most, i: Item) -> Most
    requires { ItemInRange i }
    ensures { result ≡ grown_by m i }
{
    Most {
        weight: m.weight.max(open_weight(i)),
        bound: m.bound.max(bound_size(i.lower)).max(bound_size(i.upper)),
    }
}

fn most_of(p: Problem) -> Most
    requires { InRange p }
    ensures { result ≡ most_of p p.count }
{
    let mut m = Most {
        weight: 0,
        bound: 0,
    };
    for k in 0..p.count {
        m = grown(m, p.items[k]);
    }
    m
}

// How far an item leads: to its bounds, and a farther if it lacks one.
fn lead_of(i: Item, a: u64) -> u64
    requires { ItemInRange i × (a ≤ 1000) }
    ensures { result ≡ lead_by a i }
{
    let b = bound_size(i.lower).max(bound_size(i.upper));
    if is_open(i) { b + a } else { b }
}

// What an item weighs as far as it leads.
fn burden_of(i: Item, a: u64) -> u64
    requires { ItemInRange i × (a ≤ 1000) }
    ensures { (result ≡ nat_abs i.weight * lead_by a i) × (result ≤ 11000000) }
{
    magnitude(i.weight) * lead_of(i, a)
}

fn burden(p: Problem, a: u64) -> u64
    requires { InRange p × (a ≤ 1000) }
    ensures { result ≡ burden_of p a p.count }
{
    let mut t: u64 = 0;
    for k in 0..p.count {
        t += burden_of(p.items[k], a);
    }
    t
}

// How far a search has to go.
pub fn reach_of(p: Problem) -> Reach
    requires { InRange p }
    ensures { result ≡ reach_of p }
{
    let m = most_of(p);
    Reach {
        weight: magnitude(p.capacity) + burden(p, m.weight) + m.weight,
        amount: m.bound + m.weight,
    }
}

// How far an item of weight a has to go.
fn span_of(r: Reach, a: i64) -> u64
    requires { Small r × Within 1000 a }
    ensures { (result ≡ span_by r a) × (result ≤ farthest) }
{
    r.amount + r.weight / magnitude(a).max(1) + 1
}

// An end of an item of weight a, within its span.
fn end_within(x: i64, r: Reach, a: i64) -> i64
    requires { Small r × Within 1000 a }
    ensures { result ≡ clamp_to (span_by r a) x }
{
    let u = span_of(r, a) as i64;
    x.clamp(-u, u)
}

fn clamped(xs: [i64; 16], weight: [i64; 16], r: Reach) -> [i64; 16]
    requires { Small r × ((k : ℕ) → Within 1000 (at weight k)) }
    ensures { (k : ℕ) → k < 16 → at result k ≡ clamp_to (span_by r (at weight k)) (at xs k) }
{
    let mut to = xs;
    for k in 0..16 {
        to[k] = end_within(xs[k], r, weight[k]);
    }
    to
}

// By level, what stands by item.
fn by_level(xs: [i64; 16], level: [usize; 16], n: usize) -> [i64; 16]
    requires { (n ≤ 16) × ((d : ℕ) → d < n → place level d < 16) }
    ensures { (d : ℕ) → d < n → at result d ≡ at xs (place level d) }
{
    let mut to = [0; 16];
    for d in 0..n {
        to[d] = xs[level[d]];
    }
    to
}

// The setting with no end beyond its item's span.
pub fn narrowed(s: Setting, r: Reach) -> Setting
    requires { ReadySetting s × Small r }
    ensures { Narrowed s r result }
{
    let lo = clamped(s.ends.lo, s.cols.weight, r);
    let hi = clamped(s.ends.hi, s.cols.weight, r);
    Setting {
        ends: Ends { lo, hi },
        low: by_level(lo, s.level, s.levels),
        high: by_level(hi, s.level, s.levels),
        ..s
    }
}
