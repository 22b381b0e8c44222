// Lines of needs (paper 02, request 7), and what they are refused for: a record's are tried by check_model, a sheet's by the reader.
ghost use Rattle.std.specs.Prelude.{◌≡◌, ◌≤◌, ◌<◌};
ghost use Rattle.model.specs.Needs.{no_need, no_needs};
ghost use Rattle.model.specs.Records.{
  item_at,
  wrong_number,
  wrong_numbers,
  names_item,
  out_of_order,
  bad_line,
  is_continuous,
  below_zero,
  unfit,
  unfit_line,
  line_before,
};

use crate::{Model, ModelItem, Need, Needs};
use knapsack::Mark;

// An unused line.
pub fn no_need() -> Need
    ensures { result ≡ no_need }
{
    Need { item: 0, cover: 0 }
}

pub fn no_needs() -> Needs
    ensures { result ≡ no_needs }
{
    Needs {
        lines: [no_need(); 16],
        count: 0,
    }
}

// Whether an item number is outside 1 to n.
pub fn is_wrong(n: usize, k: usize) -> bool
    ensures { result ≡ wrong_number n k }
{
    k == 0 || n < k
}

// Whether one of two item numbers is outside 1 to n, or both are one (01's refusal 9, and of needs 5).
pub fn are_wrong(n: usize, i: usize, j: usize) -> bool
    ensures { result ≡ wrong_numbers n i j }
{
    is_wrong(n, i) || is_wrong(n, j) || i == j
}

// Whether a need names item k.
pub fn does_name(x: Need, k: usize) -> bool
    ensures { result ≡ names_item x k }
{
    x.item == k || x.cover == k
}

// Whether a line does not rise above the one before, by item and then by cover.
fn is_out_of_order(before: Need, need: Need) -> bool
    ensures { result ≡ out_of_order before need }
{
    need.item < before.item || need.item == before.item && need.cover <= before.cover
}

// Refusal 5 of a line over n items.
#[tactic(auto, unfolding(crate::specs::Records::bad_line))]
pub fn is_bad_line(n: usize, before: Need, need: Need) -> bool
    ensures { result ≡ bad_line n before need }
{
    are_wrong(n, need.item, need.cover) || is_out_of_order(before, need)
}

fn is_continuous(mark: Mark) -> bool
    ensures { result ≡ is_continuous mark }
{
    matches!(mark, Mark::Continuous)
}

// Whether a lower bound allows amounts below 0.
pub fn is_below_zero(b: Option<i64>) -> bool
    ensures { result ≡ below_zero b }
{
    match b {
        None => true,
        Some(v) => v < 0,
    }
}

// Whether no need may name an item.
#[tactic(auto, unfolding(crate::specs::Records::unfit))]
pub fn is_unfit(i: ModelItem) -> bool
    ensures { result ≡ unfit i }
{
    is_continuous(i.mark) || is_below_zero(i.lower) || i.upper.is_none()
}

// Refusal 14 of a line.
pub fn names_unfit(m: Model, need: Need) -> bool
    requires { ((1 ≤ need.item) × (need.item ≤ 16)) × ((1 ≤ need.cover) × (need.cover ≤ 16)) }
    ensures { result ≡ unfit_line (item_at m) need }
{
    is_unfit(m.items[need.item - 1]) || is_unfit(m.items[need.cover - 1])
}

// The line before line j, from 0; before the first it is as an unused one, above which every good line is.
pub fn line_before(ns: Needs, j: usize) -> Need
    requires { j < 16 }
    ensures { result ≡ line_before ns j }
{
    if j == 0 {
        return no_need();
    }
    ns.lines[j - 1]
}
