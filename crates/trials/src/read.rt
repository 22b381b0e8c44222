// Numbers, items and needs that a program of the gate reads from its input. An item is `W a c lower upper`, with `L` for a continuous one and
// `..` for an absent bound. Needs are their count, the number of lines given, and each line as `k m`.
ghost use Rattle.std.specs.Prelude.{◌≤◌};

use knapsack::Mark;
use model::naming::no_needs;
use model::{ModelItem, Need, Needs, no_item};

// A number read: with its sign, without, and the place behind it.
#[derive(Clone, Copy)]
pub struct Number {
    pub value: i64,
    pub size: u64,
    pub at: usize,
}

#[derive(Clone, Copy)]
pub struct OneBound {
    pub bound: Option<i64>,
    pub at: usize,
}

#[derive(Clone, Copy)]
pub struct OneItem {
    pub item: ModelItem,
    pub at: usize,
}

#[derive(Clone, Copy)]
pub struct Items {
    pub list: [ModelItem; 16],
    pub at: usize,
}

#[derive(Clone, Copy)]
pub struct OneNeed {
    pub need: Need,
    pub at: usize,
}

#[derive(Clone, Copy)]
pub struct NeedLines {
    pub list: [Need; 16],
    pub at: usize,
}

#[derive(Clone, Copy)]
pub struct AllNeeds {
    pub needs: Needs,
    pub at: usize,
}

fn byte_at(s: &[u8], at: usize) -> u8 {
    if at < s.len() { s[at] } else { 0 }
}

// The place behind one byte.
fn past(s: &[u8], at: usize) -> usize {
    if at < s.len() { at + 1 } else { at }
}

// Blanks, line ends and `/` part the fields.
pub fn is_gap(b: u8) -> bool {
    matches!(b, b'\n' | b' ' | b'/')
}

pub fn skip(s: &[u8], from: usize) -> usize {
    for at in from..s.len() {
        if !is_gap(s[at]) {
            return at;
        }
    }
    from.max(s.len())
}

// 10 · n and a digit more, modulo 2^64.
fn shifted(n: u64, digit: u8) -> u64 {
    n.wrapping_mul(10)
        .wrapping_add(u64::from(digit).wrapping_sub(48))
}

// The number of size n with a sign, or the number of 64 bits nearest to it.
fn signed(negative: bool, n: u64) -> i64 {
    if n < 9223372036854775808 {
        let z = n as i64;
        return if negative { 0 - z } else { z };
    }
    if negative {
        -9223372036854775808
    } else {
        9223372036854775807
    }
}

fn read_digits(s: &[u8], from: usize, negative: bool) -> Number {
    let mut size: u64 = 0;
    let mut at = from;
    for k in from..s.len() {
        if !s[k].is_ascii_digit() {
            break;
        }
        size = shifted(size, s[k]);
        at = k + 1;
    }
    Number {
        value: signed(negative, size),
        size,
        at,
    }
}

pub fn read_number(s: &[u8], from: usize) -> Number {
    let at = skip(s, from);
    if byte_at(s, at) == 45 {
        read_digits(s, past(s, at), true)
    } else {
        read_digits(s, at, false)
    }
}

fn mark_of(b: u8) -> Mark {
    if b == 87 {
        Mark::Integer
    } else {
        Mark::Continuous
    }
}

fn read_bound(s: &[u8], from: usize) -> OneBound {
    let at = skip(s, from);
    if byte_at(s, at) == 46 {
        return OneBound {
            bound: None,
            at: past(s, past(s, at)),
        };
    }
    let v = read_number(s, at);
    OneBound {
        bound: Some(v.value),
        at: v.at,
    }
}

fn read_item(s: &[u8], from: usize) -> OneItem {
    let at = skip(s, from);
    let weight = read_number(s, past(s, at));
    let price = read_number(s, weight.at);
    let lower = read_bound(s, price.at);
    let upper = read_bound(s, lower.at);
    OneItem {
        item: ModelItem {
            mark: mark_of(byte_at(s, at)),
            low: weight.value,
            high: weight.value,
            price: price.value,
            lower: lower.bound,
            upper: upper.bound,
        },
        at: upper.at,
    }
}

fn blank_items() -> [ModelItem; 16] {
    [no_item(); 16]
}

// There are 16 places.
pub fn places(given: u64) -> usize
    ensures { result ≤ 16 }
{
    if given < 16 { given as usize } else { 16 }
}

pub fn read_items(s: &[u8], from: usize, given: u64) -> Items {
    let mut list = blank_items();
    let mut at = from;
    for x in &mut list[..places(given)] {
        let r = read_item(s, at);
        *x = r.item;
        at = r.at;
    }
    Items { list: list, at: at }
}

fn read_need(s: &[u8], from: usize) -> OneNeed {
    let item = read_number(s, from);
    let cover = read_number(s, item.at);
    OneNeed {
        need: Need {
            item: item.size as usize,
            cover: cover.size as usize,
        },
        at: cover.at,
    }
}

fn no_lines() -> [Need; 16] {
    no_needs().lines
}

fn read_need_lines(s: &[u8], from: usize, given: u64) -> NeedLines {
    let mut list = no_lines();
    let mut at = from;
    for need in &mut list[..places(given)] {
        let r = read_need(s, at);
        *need = r.need;
        at = r.at;
    }
    NeedLines { list: list, at: at }
}

pub fn read_needs(s: &[u8], from: usize) -> AllNeeds {
    let count = read_number(s, from);
    let given = read_number(s, count.at);
    let r = read_need_lines(s, given.at, given.size);
    let lines = r.list;
    AllNeeds {
        needs: Needs {
            lines,
            count: count.size as usize,
        },
        at: r.at,
    }
}
