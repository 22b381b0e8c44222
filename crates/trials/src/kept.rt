// Whether a point that is tried keeps the needs of its problem (paper 02, request 7): where there is any of an item, there is at least 1 of its cover.
ghost use Rattle.std.specs.Prelude.{◌≤◌};

use crate::enumerate::{Choices, choices_of};
use crate::exact::{as_signed, plus, times};
use model::{Model, Need};

// The amount that a digit stands for.
pub fn chosen(c: Choices, digit: u64) -> i64 {
    plus(c.first, times(c.step, as_signed(digit)))
}

fn digit_of(c: Choices, rest: u64) -> u64 {
    if c.number == 0 { 0 } else { rest % c.number }
}

fn rest_of(c: Choices, rest: u64) -> u64 {
    if c.number == 0 { rest } else { rest / c.number }
}

// The amount of an item, by its number from 1: a digit of the point's number.
fn amount_of(p: &Model, filler: usize, n: usize, number: u64, item: usize) -> i64
    requires { n ≤ 16 }
{
    let mut rest = number;
    for k in 0..n {
        let c = choices_of(p.items[k], k == filler);
        if k + 1 == item {
            return chosen(c, digit_of(c, rest));
        }
        rest = rest_of(c, rest);
    }
    0
}

fn keeps_need(p: &Model, filler: usize, n: usize, number: u64, need: Need) -> bool
    requires { n ≤ 16 }
{
    let any = amount_of(p, filler, n, number, need.item);
    let covered = amount_of(p, filler, n, number, need.cover);
    any <= 0 || 1 <= covered
}

// Whether the point of a number keeps all needs. No filler is named in one.
pub fn keeps(p: &Model, filler: usize, n: usize, number: u64) -> bool
    requires { n ≤ 16 }
{
    for need in p.needs.lines.iter().take(p.needs.count) {
        if !keeps_need(p, filler, n, number, *need) {
            return false;
        }
    }
    true
}
