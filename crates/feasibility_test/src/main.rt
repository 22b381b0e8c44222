// Reads cases from standard input and prints the point check's reply to each: `refused N L`, `yes P Q` or `no K`, after the case's name.
// A case: name, capacity, count, number of items given, each as `W a c lower upper` (`..` is an absent bound), count of the
// amounts, number of amounts given, each as p/q, count of the needs, number of lines given, each as `k m`. The given ones fill the first places; a
// count may be another number.
#![tactic(auto)]

use arith::Fraction;
use feasibility::{Candidate, Finding, check_point};
use knapsack::Refusal;
use model::Sense;
use model::setters::with_needs;
use trials::make::record_of;
use trials::print::{print, print_field, print_signed_field};
use trials::read::{is_gap, places, read_items, read_needs, read_number, skip};

// Standard input, as the kit's io names a stream by its number.
const STDIN_FILENO: i32 = 0;

#[derive(Clone, Copy)]
struct Amounts {
    list: [Fraction; 16],
    at: usize,
}

#[derive(Clone, Copy)]
struct OneAmount {
    amount: Fraction,
    at: usize,
}

fn print_reply(r: Result<Finding, Refusal>) {
    match r {
        Err(f) => {
            print(b" refused");
            print_field(f.number);
            print_field(f.line);
        }
        Ok(Finding::Feasible(v)) => {
            print(b" yes");
            print_signed_field(v.p);
            print_field(v.q);
        }
        Ok(Finding::Violates(k)) => {
            print(b" no");
            print_field(k as u64);
        }
    }
    print(b"\n");
}

// Prints the word that starts at a place; the place behind it.
fn print_word(s: &[u8], from: usize) -> usize {
    for at in from..s.len() {
        if is_gap(s[at]) {
            return at;
        }
        print(&[s[at]]);
    }
    from.max(s.len())
}

fn read_amount(s: &[u8], from: usize) -> OneAmount {
    let p = read_number(s, from);
    let q = read_number(s, p.at);
    OneAmount {
        amount: Fraction {
            p: p.value,
            q: q.size,
        },
        at: q.at,
    }
}

fn read_amounts(s: &[u8], from: usize, given: u64) -> Amounts {
    let mut list = [Fraction { p: 0, q: 0 }; 16];
    let mut at = from;
    for x in &mut list[..places(given)] {
        let r = read_amount(s, at);
        *x = r.amount;
        at = r.at;
    }
    Amounts { list: list, at: at }
}

// One case from its name on; the place behind it.
fn one_case(s: &[u8], from: usize) -> usize {
    let capacity = read_number(s, print_word(s, from));
    let count = read_number(s, capacity.at);
    let given = read_number(s, count.at);
    let i = read_items(s, given.at, given.size);
    let amount_count = read_number(s, i.at);
    let amounts_given = read_number(s, amount_count.at);
    let x = read_amounts(s, amounts_given.at, amounts_given.size);
    let n = read_needs(s, x.at);
    let p = record_of(capacity.value, count.size as usize, i.list);
    let amounts = x.list;
    let count = amount_count.size as usize;
    let c = Candidate { amounts, count };
    print_reply(check_point(with_needs(p, n.needs), Sense::Sure, c));
    skip(s, n.at)
}

fn all_cases(s: &[u8]) {
    let mut at = skip(s, 0);
    while at < s.len() {
        let next = one_case(s, at);
        if next <= at {
            return;
        }
        at = next;
    }
}

fn main() {
    let mut buffer = io::large_buffer();
    let n = io::read_full(STDIN_FILENO, &mut buffer);
    all_cases(&buffer[..n]);
}
