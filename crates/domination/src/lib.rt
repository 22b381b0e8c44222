// Domination pairs: the least steps of two integer items that leave the weight no lower and the value lower, so that a point from
// which they can be taken away is not optimal (proofs/Discards); and the table of the pairs of all items of a problem.
// Paper 01: "Least pair"; the field's name is the minimal cost-domination pair (document 000, theorem 3.2: proofs/Minimal).
#![tactic(auto)]

ghost use Rattle.std.specs.Prelude.{None, ◌≡◌, cond, ℕ, ◌+◌, ◌*◌, ◌<◌, get_or, replicate};
ghost use Rattle.model.specs.Records.{ItemFigures, FiguresInRange, Numbers};
ghost use Rattle.domination.specs.Pairs.{refuse_pair, paired, numbered, least_pair, or_missing, barred, placed, tabled};
ghost use Rattle.domination.specs.Told.{Told};

use knapsack::{Item, Problem, Refusal};
use model::naming::are_wrong;
use model::refusals::Reason;
use model::{Model, Sense, check_model, plain_of};
use pairing::{is_eligible, pair_of};

mod pairing; // pairing.rt: the least pair of two items
mod trade; // trade.rt: the least steps without sign

fn refused(reason: Reason) -> Result<Option<(i64, i64)>, Refusal>
    ensures { result ≡ refuse_pair reason }
{
    Err(reason.refusal())
}

// The reply for two items of an accepted problem.
#[tactic(auto, unfolding(crate::specs::Pairs::paired))]
fn pair_items(x: Item, y: Item) -> Result<Option<(i64, i64)>, Refusal>
    requires { ItemFigures x × ItemFigures y }
    ensures { result ≡ paired x y }
{
    if is_eligible(x) && is_eligible(y) {
        return Ok(pair_of(x, y));
    }
    refused(Reason::PairItems)
}

// The reply for two item numbers of an accepted problem.
#[tactic(auto, unfolding(crate::specs::Pairs::numbered))]
fn pair_numbered(p: Problem, i: usize, j: usize) -> Result<Option<(i64, i64)>, Refusal>
    requires { FiguresInRange p }
    ensures { result ≡ numbered p i j }
{
    if are_wrong(p.count, i, j) {
        return refused(Reason::PairNumbers);
    }
    pair_items(p.items[i - 1], p.items[j - 1])
}

// 01's least pair of the items i and j, numbered from 1, in a sense: none, or the steps r of the first and s of the second. The one
// reply by definition, and what it says, by its case.
pub fn least_pair(m: Model, sense: Sense, i: usize, j: usize) -> Result<Option<(i64, i64)>, Refusal>
    ensures value { result ≡ least_pair sense m i j }
    ensures told { Told sense m i j result }
{
    check_model(m)?;
    pair_numbered(plain_of(m, sense), i, j)
}

// The table before it is filled.
fn no_pairs() -> [Option<(i64, i64)>; 256]
    ensures { result ≡ replicate 256 None }
{
    [None; 256]
}

// A pair that is refused is none in the table.
fn or_missing(q: Result<Option<(i64, i64)>, Refusal>) -> Option<(i64, i64)>
    ensures { result ≡ or_missing q }
{
    match q {
        Err(_) => None,
        Ok(s) => s,
    }
}

// Whether a need names one of the items at places i and j.
fn is_barred(named: [bool; 16], i: usize, j: usize) -> bool
    requires { (i < 16) × (j < 16) }
    ensures { result ≡ barred named i j }
{
    named[i] || named[j]
}

// The table's entry for the items x and y of n, numbered i and j: none if a need names one of the two, for then a point may need what the steps take
// away.
fn entry_of(x: Item, y: Item, n: usize, i: usize, j: usize, named: bool) -> Option<(i64, i64)>
    requires { Numbers n i j → ItemFigures x × ItemFigures y }
    ensures { result ≡ cond named None (or_missing (placed n x y i j)) }
{
    if named || are_wrong(n, i, j) {
        return None;
    }
    or_missing(pair_items(x, y))
}

// The pairs of all places i and j, from 0, that may discard points where needs name the items `named`: entry 16 i + j. Filled once, before a search: it
// serves the solver and is no public entry, so it takes the plain problem and asks for its ranges. A struct is copied at a call: so the items are read here.
pub fn pair_table(p: Problem, named: [bool; 16]) -> [Option<(i64, i64)>; 256]
    requires { FiguresInRange p }
    ensures { (i j : ℕ) → i < 16 → j < 16 → get_or result (16 * i + j) None ≡ tabled p named i j }
{
    let mut t = no_pairs();
    for k in 0..256 {
        let i = k / 16;
        let j = k % 16;
        t[k] = entry_of(
            p.items[i],
            p.items[j],
            p.count,
            i + 1,
            j + 1,
            is_barred(named, i, j),
        );
    }
    t
}
