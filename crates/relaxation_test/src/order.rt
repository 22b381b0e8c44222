// The list afterwards: whether its items stand in the order of paper 01, and the number that each of them had.
ghost use Rattle.std.specs.Prelude.{◌≤◌, ◌<◌, IfSome};

use model::ModelItem;
use trials::exact::{Ratio, is_less, times};
use trials::print::{print, print_field};

// ---- the order

// Price per unit of weight, for a weight other than 0.
fn worth_of(x: ModelItem) -> Ratio {
    if x.high < 0 {
        return Ratio {
            p: times(x.price, -1),
            q: times(x.high, -1),
        };
    }
    Ratio {
        p: x.price,
        q: x.high,
    }
}

// Whether x, at place i, comes before y, at place j: falling ratios, equals by number, weight 0 last by number.
fn comes_first(x: ModelItem, i: usize, y: ModelItem, j: usize) -> bool {
    if x.high == 0 && y.high == 0 {
        return i < j;
    }
    if x.high == 0 || y.high == 0 {
        return y.high == 0;
    }
    let r = worth_of(x);
    let s = worth_of(y);
    if is_less(r, s) {
        return false;
    }
    is_less(s, r) || i < j
}

// How many of the first n items come before x, which is at place i.
fn rank_of(list: [ModelItem; 18], n: usize, x: ModelItem, i: usize) -> usize
    requires { n ≤ 18 }
{
    (0..n).filter(|k| comes_first(list[*k], *k, x, i)).count()
}

fn stands_at(list: [ModelItem; 18], place: usize, x: ModelItem) -> bool {
    list.get(place) == Some(&x)
}

// The list with low and high weights exchanged: the order is told by the high ones.
pub fn turned(list: [ModelItem; 18]) -> [ModelItem; 18] {
    list.map(|x| ModelItem {
        low: x.high,
        high: x.low,
        ..x
    })
}

// Whether each of the first n items stands now where its rank puts it, and the others where they stood.
pub fn is_ordered(list: [ModelItem; 18], now: [ModelItem; 18], n: usize) -> bool
    requires { n ≤ 18 }
{
    let stands = (0..n).all(|k| stands_at(now, rank_of(list, n, list[k], k), list[k]));
    stands && list[n..] == now[n..]
}

// ---- the numbers, printed

// The first item of the list that is the given one and has not been found before.
fn place_of(list: [ModelItem; 18], found: [bool; 18], x: ModelItem) -> Option<usize>
    ensures { IfSome result (λ k. k < 18) }
{
    (0..18).find(|k| !found[*k] && x == list[*k])
}

// The number that each item had, in the order in which the list stands.
pub fn print_order(list: [ModelItem; 18], now: [ModelItem; 18], n: usize)
    requires { n ≤ 18 }
{
    print(b"; order");
    let mut found = [false; 18];
    for x in &now[..n] {
        match place_of(list, found, *x) {
            Some(k) => {
                print_field(k as u64 + 1);
                found[k] = true;
            }
            None => print(b" ?"),
        }
    }
    if !is_ordered(list, now, n) {
        print(b", wrong");
    }
}

pub fn print_untouched(list: [ModelItem; 18], now: [ModelItem; 18]) {
    if list == now {
        print(b"; list untouched");
    } else {
        print(b"; list changed");
    }
}
