// Places of a search and the moves between them. A place is an amount for each level; docs/ARCHITECTURE.md says in which order they come.
#![tactic(auto)]

ghost use Rattle.std.specs.Prelude.{◌≡◌, ◌≤◌, ◌<◌};
ghost use Rattle.places.specs.Moves.{at, next_value, next_segment, carry, carry_segment, SettledIn, past_of};

// The amount after x at a level whose amounts lo .. hi are visited from s on: up to hi, then down from below s.
pub fn next_value(lo: i64, hi: i64, s: i64, x: i64) -> Option<i64>
    ensures { result ≡ next_value lo hi s x }
{
    if x < s {
        if lo < x {
            return Some(x - 1);
        }
        return None;
    }
    if x < hi {
        return Some(x + 1);
    }
    if lo < s {
        return Some(s - 1);
    }
    None
}

// The first amount after what is left of the segment of x: of the run up from s, or of the run down.
pub fn next_segment(lo: i64, s: i64, x: i64) -> Option<i64>
    ensures { result ≡ next_segment lo s x }
{
    if x < s {
        return None;
    }
    if lo < s {
        return Some(s - 1);
    }
    None
}

// Where a move goes: the level that moves and its new amount; none where the search ends. Past every place that has the first n amounts of x; s holds the
// starts along x.
pub fn past_prefix(
    x: [i64; 16],
    n: usize,
    lo: [i64; 16],
    hi: [i64; 16],
    s: [i64; 16],
) -> Option<(usize, i64)>
    requires { n ≤ 16 }
    ensures { result ≡ carry (at lo) (at hi) (at s) (at x) n }
{
    for j in (0..n).rev() {
        if let Some(v) = next_value(lo[j], hi[j], s[j], x[j]) {
            return Some((j, v));
        }
    }
    None
}

// Past the run of level d: every place that has the first d amounts of x, and at level d one of what is left of its segment.
pub fn past_run(
    x: [i64; 16],
    d: usize,
    lo: [i64; 16],
    hi: [i64; 16],
    s: [i64; 16],
) -> Option<(usize, i64)>
    requires { d < 16 }
    ensures { result ≡ carry_segment (at lo) (at hi) (at s) (at x) d }
{
    match next_segment(lo[d], s[d], x[d]) {
        Some(v) => Some((d, v)),
        None => past_prefix(x, d, lo, hi, s),
    }
}

// What a look at a place found settled: what is left of the segment of a level, or every place with the first amounts (all of them: the place itself).
#[derive(Clone, Copy)]
pub enum Settled {
    Run(usize),
    Prefix(usize),
}

pub fn past(
    w: Settled,
    x: [i64; 16],
    lo: [i64; 16],
    hi: [i64; 16],
    s: [i64; 16],
) -> Option<(usize, i64)>
    requires { SettledIn 16 w }
    ensures { result ≡ past_of w (at lo) (at hi) (at s) (at x) }
{
    match w {
        Settled::Run(d) => past_run(x, d, lo, hi, s),
        Settled::Prefix(n) => past_prefix(x, n, lo, hi, s),
    }
}
