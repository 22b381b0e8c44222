// The pairs of a problem that may discard points, as a search reads them: a table for each of the two steps, zero where there is no pair.
// Paper 01, "Least pair": "All 16 by 16 replies may be tabled before a search."
ghost use Rattle.std.specs.Prelude.{None, ◌≡◌, ℕ, ◌<◌, get_or};
ghost use Rattle.knapsack.specs.Ranges.{InRange};
ghost use Rattle.prepare.specs.Pairs.{Short, no_steps, Spread, PairsOf};

use domination::pair_table;
use knapsack::Problem;
use setting::Pairs;

// The tables before they are filled.
fn no_steps() -> Pairs
    ensures { result ≡ no_steps }
{
    Pairs {
        first: [0; 256],
        second: [0; 256],
    }
}

fn spread(t: [Option<(i64, i64)>; 256]) -> Pairs
    requires { (k : ℕ) → k < 256 → Short (get_or t k None) }
    ensures { Spread t 256 result }
{
    let mut r = no_steps();
    for k in 0..256 {
        let (first, second) = t[k].unwrap_or((0, 0));
        r.first[k] = first as i16;
        r.second[k] = second as i16;
    }
    r
}

// The least pairs of a problem but those with an item that a need names, true of every columns that hold its weights and prices.
pub fn pairs_of(p: Problem, named: [bool; 16]) -> Pairs
    requires { InRange p }
    ensures { PairsOf p named result }
{
    spread(pair_table(p, named))
}
