// Prints the least pairs of the problems on standard input, by the entry and by the table. A problem is `lines count capacity`, then so many
// items `W a c lower upper` (`..` is an absent bound), then the count of its needs, the number of lines given, and each as `k m`. Its replies are a
// matrix of the item numbers 0 to lines + 1, each `none`, `r,s` or `!` and the refusal's number; behind a bar stand the table's entries of the lines'
// items, `none` where a need names one of the two.
#![tactic(auto)]

ghost use Rattle.std.specs.Prelude.{◌≤◌, ◌<◌};

use domination::{least_pair, pair_table};
use knapsack::Refusal;
use model::setters::with_needs;
use model::{Model, Sense, check_model, plain_of};
use trials::make::record_of;
use trials::print::{print, print_number, print_signed};
use trials::read::{places, read_items, read_needs, read_number, skip};

// Standard input, as the kit's io names a stream by its number.
const STDIN_FILENO: i32 = 0;

#[derive(Clone, Copy)]
struct ProblemRead {
    problem: Model,
    lines: usize,
    at: usize,
}

fn read_problem(s: &[u8], from: usize) -> ProblemRead
    ensures { result.lines ≤ 16 }
{
    let given = read_number(s, from);
    let count = read_number(s, given.at);
    let capacity = read_number(s, count.at);
    let i = read_items(s, capacity.at, given.size);
    let a = read_needs(s, i.at);
    let p = record_of(capacity.value, count.size as usize, i.list);
    ProblemRead {
        problem: with_needs(p, a.needs),
        lines: places(given.size),
        at: a.at,
    }
}

fn print_pair(q: Option<(i64, i64)>) {
    match q {
        None => print(b"none"),
        Some((r, s)) => {
            print_signed(r);
            print(b",");
            print_signed(s);
        }
    }
}

fn print_reply(q: Result<Option<(i64, i64)>, Refusal>) {
    match q {
        Err(f) => {
            print(b"!");
            print_number(f.number);
        }
        Ok(s) => print_pair(s),
    }
}

fn print_replies(p: Model, i: usize, lines: usize)
    requires { lines ≤ 16 }
{
    for j in 0..lines + 2 {
        print_reply(least_pair(p, Sense::Sure, i, j));
        print(b" ");
    }
}

// With the item number k.
fn with_named(named: [bool; 16], k: usize) -> [bool; 16] {
    let mut r = named;
    if 0 < k && k <= 16 {
        r[k - 1] = true;
    }
    r
}

// The items that the needs of a record name.
fn named_by(m: Model) -> [bool; 16] {
    let mut named = [false; 16];
    for n in m.needs.lines.iter().take(m.needs.count) {
        named = with_named(with_named(named, n.item), n.cover);
    }
    named
}

// The table of a record; no pairs where it is refused.
fn table_of(p: Model) -> [Option<(i64, i64)>; 256] {
    match check_model(p) {
        Ok(()) => pair_table(plain_of(p, Sense::Sure), named_by(p)),
        Err(_) => [None; 256],
    }
}

fn print_entries(t: [Option<(i64, i64)>; 256], i: usize, lines: usize)
    requires { (i < 16) × (lines ≤ 16) }
{
    for q in &t[16 * i..16 * i + lines] {
        print(b" ");
        print_pair(*q);
    }
}

fn print_problem(p: Model, lines: usize)
    requires { lines ≤ 16 }
{
    let t = table_of(p);
    for i in 0..lines + 2 {
        print_replies(p, i, lines);
        print(b"|");
        if 0 < i && i <= lines {
            print_entries(t, i - 1, lines);
        }
        print(b"\n");
    }
    print(b"\n");
}

fn main() {
    let mut buffer = io::buffer();
    let n = io::read_full(STDIN_FILENO, &mut buffer);
    let s = &buffer[..n];
    let mut at = skip(s, 0);
    for _ in 0..100 {
        if at >= s.len() {
            return;
        }
        let r = read_problem(s, at);
        print_problem(r.problem, r.lines);
        at = skip(s, r.at);
    }
}
