// The lines of a sheet (paper 01, "The sheet", "Refused, by place"): places and numbers in the sheet's bytes, the form of a line, and
// then what its values must be. A line's answer is a Read: its values and the place behind it, or the reason why it is refused.
#![tactic(auto)]

pub mod scan; // places, words, line ends; the part that holds a line
pub mod number; // numbers of any length
mod block; // eight bytes at a time
mod fault; // the fault of a field

ghost use Rattle.std.specs.Prelude.{◌≡◌, ◌≤◌, pos, ◌≤ℤ◌};
ghost use Rattle.lines.specs.Numbers.{Narrow, field_at};
ghost use Rattle.lines.specs.Lines.{heading_line, numbers_line, figures_line, mark_at, item_line, prices, count_at, ordered, item_of, item_read};
ghost use Rattle.lines.specs.Lines.{figured, bound_field, bound_read, need_read};

use crate::fault::fault_at;
use crate::number::{Range, closed_number};
use crate::scan::{after_byte, after_word};
use knapsack::Mark;
use model::refusals::Reason;
use model::{ModelItem, Need};

// What was read and the place behind it, or the reason why it is refused.
pub type Read<T> = Result<(T, usize), Reason>;

// Word, blank, count, end. Another word is 12.
fn heading_line(s: &[u8], at: usize, word: &[u8], range: Range) -> Read<Option<i64>>
    requires { Narrow range }
    ensures { result ≡ heading_line word.now range s.now at }
{
    let Some(blank) = after_word(s, at, word) else {
        return Err(fault_at(s, at, Reason::HeadingWord));
    };
    let Some(next) = after_byte(s, blank, b' ') else {
        return Err(fault_at(s, blank, Reason::HeadingWord));
    };
    closed_number(s, next, range, b'\n')
}

// Number, blank, number, end.
fn numbers_line(
    s: &[u8],
    at: usize,
    first: Range,
    second: Range,
) -> Read<(Option<i64>, Option<i64>)>
    requires { Narrow first × Narrow second }
    ensures { result ≡ numbers_line first second s.now at }
{
    let (x, next) = closed_number(s, at, first, b' ')?;
    let (y, end) = closed_number(s, next, second, b'\n')?;
    Ok(((x, y), end))
}

// Mark and blank, and the place behind them.
fn mark_field(s: &[u8], at: usize) -> Option<(Mark, usize)>
    ensures { result ≡ mark_at s.now at }
{
    if let Some(next) = after_word(s, at, b"W ") {
        return Some((Mark::Integer, next));
    }
    let next = after_word(s, at, b"L ")?;
    Some((Mark::Continuous, next))
}

// Low weight, high weight, price.
fn figures_line(s: &[u8], at: usize) -> Read<(Option<i64>, Option<i64>, Option<i64>)>
    ensures { result ≡ figures_line s.now at }
{
    let weights = Range {
        lo: -1000,
        hi: 1000,
    };
    let prices = Range {
        lo: -10_000,
        hi: 10_000,
    };
    let (low, next) = closed_number(s, at, weights, b' ')?;
    let ((high, price), end) = numbers_line(s, next, weights, prices)?;
    Ok(((low, high, price), end))
}

// Mark, low weight, high weight, price. A wrong mark is 2.
fn item_form(s: &[u8], at: usize) -> Read<(Mark, Option<i64>, Option<i64>, Option<i64>)>
    ensures { result ≡ item_line s.now at }
{
    let Some((mark, next)) = mark_field(s, at) else {
        return Err(Reason::Form);
    };
    let ((low, high, price), end) = figures_line(s, next)?;
    Ok(((mark, low, high, price), end))
}

// The count of a heading: the fault of its form, 3 outside the range.
pub fn heading(s: &[u8], at: usize, word: &[u8], range: Range) -> Read<usize>
    requires { Narrow range × (pos 0 ≤ℤ range.lo) }
    ensures { result ≡ count_at word.now range s.now at }
{
    let (count, next) = heading_line(s, at, word, range)?;
    let Some(n) = count else {
        return Err(Reason::Count);
    };
    Ok((n as usize, next))
}

// The low weight must not be above the high one.
fn ordered(item: ModelItem, next: usize) -> Read<ModelItem>
    ensures { result ≡ ordered item next }
{
    if model::is_reversed(item) {
        return Err(Reason::WeightRange);
    }
    Ok((item, next))
}

// An item: the fault of the line's form, 4 for its weights and then its price, 19 for their order.
pub fn item_at(s: &[u8], at: usize) -> Read<ModelItem>
    ensures { result ≡ item_read s.now at }
{
    let ((mark, low, high, price), next) = item_form(s, at)?;
    let (Some(low), Some(high), Some(price)) = (low, high, price) else {
        return Err(Reason::Figure);
    };
    let item = ModelItem {
        mark,
        low,
        high,
        price,
        lower: None,
        upper: None,
    };
    ordered(item, next)
}

// A bound that is a number.
fn number_bound(s: &[u8], at: usize) -> Read<Option<Option<i64>>>
    ensures { result ≡ figured (field_at 10 prices s.now at) }
{
    let bounds = Range {
        lo: -10_000,
        hi: 10_000,
    };
    let (value, next) = closed_number(s, at, bounds, b'\n')?;
    let Some(v) = value else {
        return Ok((None, next));
    };
    Ok((Some(Some(v)), next))
}

// A number or `none`, and the line's end: the bound, if it lies in the range. Anything else is 13.
fn bound_field(s: &[u8], at: usize) -> Read<Option<Option<i64>>>
    ensures { result ≡ bound_field s.now at }
{
    let Some(behind) = after_word(s, at, b"none") else {
        return number_bound(s, at);
    };
    let Some(next) = after_byte(s, behind, b'\n') else {
        return Err(fault_at(s, behind, Reason::Number));
    };
    Ok((Some(None), next))
}

// The bound of item k: the fault of the line's form, 5 for another item number, 4 for the bound.
pub fn bound_at(s: &[u8], at: usize, k: usize) -> Read<Option<i64>>
    requires { k ≤ 16 }
    ensures { result ≡ bound_read k s.now at }
{
    let due = k as i64;
    let (number, next) = closed_number(s, at, Range { lo: due, hi: due }, b' ')?;
    let (bound, end) = bound_field(s, next)?;
    match (number, bound) {
        (None, _) => Err(Reason::ItemNumber),
        (Some(_), None) => Err(Reason::Figure),
        (Some(_), Some(b)) => Ok((b, end)),
    }
}

// A need over n items: the fault of the line's form, 5 for its item numbers or its place behind the line before.
pub fn need_at(s: &[u8], at: usize, n: usize, before: Need) -> Read<Need>
    requires { n ≤ 16 }
    ensures { result ≡ need_read n before s.now at }
{
    let most = n as i64;
    let ((item, cover), next) = numbers_line(
        s,
        at,
        Range { lo: 1, hi: most },
        Range { lo: 1, hi: most },
    )?;
    let (Some(k), Some(m)) = (item, cover) else {
        return Err(Reason::ItemNumber);
    };
    let need = Need {
        item: k as usize,
        cover: m as usize,
    };
    if model::naming::is_bad_line(n, before, need) {
        return Err(Reason::ItemNumber);
    }
    Ok((need, next))
}
