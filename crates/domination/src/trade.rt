// Trades without signs: the least steps of two items, found by counting up.
ghost use Rattle.std.specs.Prelude.{◌≡◌, ◌≤◌};
ghost use Rattle.model.specs.Records.{ItemFigures};
ghost use Rattle.domination.specs.Trades.{Sizes, partner, serves, least_give};
ghost use Rattle.domination.specs.Pairs.{Traded, size_of, less_efficient, trade_of};

use arith::magnitude;
use knapsack::Item;

// Weight and price without sign.
#[derive(Clone, Copy)]
pub struct Size {
    pub weight: u64,
    pub price: u64,
}

// The least steps without sign: of the less efficient item, and of the other.
#[derive(Clone, Copy)]
pub struct Trade {
    pub give: u64,
    pub take: u64,
}

// The least number of units, d each, that is dearer than r units, c each.
fn partner_of(c: u64, d: u64, r: u64) -> u64
    requires { (c ≤ 10000) × ((1 ≤ d) × (r ≤ 1000)) }
    ensures { result ≡ partner c d r }
{
    c * r / d + 1
}

// Whether r units of the first item can be given for dearer units of the second that are no heavier.
fn does_serve(a: u64, b: u64, c: u64, d: u64, r: u64) -> bool
    requires { Sizes a b c d × (r ≤ 1000) }
    ensures { result ≡ serves a b c d r }
{
    b * partner_of(c, d, r) <= a * r
}

// The least number of units that serves. b does (see proofs/Trades, last-serves), so that it need not be asked: 999 turns at most.
fn least_give(a: u64, b: u64, c: u64, d: u64) -> u64
    requires { Sizes a b c d }
    ensures { result ≡ least_give a b c d }
{
    for r in 1..b {
        if does_serve(a, b, c, d, r) {
            return r;
        }
    }
    b
}

fn size_of(x: Item) -> Size
    requires { ItemFigures x }
    ensures { result ≡ size_of x }
{
    Size {
        weight: magnitude(x.weight),
        price: magnitude(x.price),
    }
}

// Whether x is worth less than y per unit of weight: the ratios compared by products.
pub fn is_less_efficient(x: Item, y: Item) -> bool
    requires { ItemFigures x × ItemFigures y }
    ensures { result ≡ less_efficient x y }
{
    let s = size_of(x);
    let t = size_of(y);
    s.price * t.weight < s.weight * t.price
}

pub fn trade_of(x: Item, y: Item) -> Trade
    requires { Traded x y }
    ensures { result ≡ trade_of x y }
{
    let s = size_of(x);
    let t = size_of(y);
    let give = least_give(s.weight, t.weight, s.price, t.price);
    Trade {
        give,
        take: partner_of(s.price, t.price, give),
    }
}
