// Prints hand-made answers of each kind, and lists some of them in buffers that are a byte too short, just long enough, and longer.
#![tactic(auto)]

ghost use Rattle.std.specs.Prelude.{◌≤◌, ◌<◌};

use arith::Fraction;
use knapsack::{Answer, Kind, Refusal};
use listing::list_reply;
use model::Answers;
use trials::print::{print, print_field};

// Every amount 0, and nothing moves.
fn answer(kind: Kind, p: i64, q: u64) -> Answer {
    let origin = Fraction { p: 0, q: 1 };
    Answer {
        kind,
        point: [origin; 16],
        steps: [0; 16],
        value: Fraction { p, q },
    }
}

fn with_item(a: Answer, k: usize, p: i64, q: u64, s: i64) -> Answer
    requires { k < 16 }
{
    let mut b = a;
    b.point[k] = Fraction { p, q };
    b.steps[k] = s;
    b
}

// The numbers that are likeliest to go wrong.
const FIGURES: [i64; 16] = [
    0,
    7,
    -7,
    10,
    -10,
    99,
    100,
    -101,
    1000000000,
    -999999999,
    123456789012345678,
    1000000000000000000,
    9223372036854775807,
    -9223372036854775807,
    -9223372036854775808,
    -1,
];

// Sixteen items, with these numbers.
fn sixteen(kind: Kind) -> Answer {
    let mut a = answer(kind, -9223372036854775808, 18446744073709551615);
    for k in 0..16 {
        a = with_item(
            a,
            k,
            FIGURES[k],
            k as u64 * 1000000000000000000 + 1,
            FIGURES[15 - k],
        );
    }
    a
}

// The same answer in both senses.
fn both(a: Answer) -> Answers {
    Answers {
        sure: a,
        possible: a,
    }
}

fn show(a: Answer, n: usize) {
    show_both(both(a), n);
}

fn show_both(a: Answers, n: usize) {
    let t = listing::text_of(a, n);
    print(&t.bytes[..t.len]);
}

fn show_reply(l: Result<usize, Refusal>) {
    match l {
        Ok(n) => {
            print(b"written");
            print_field(n as u64);
        }
        Err(f) => {
            print(b"not written:");
            print_field(f.number);
            print_field(f.line);
        }
    }
    print(b"\n");
}

// What is told, and the whole buffer afterwards, of which the first bytes were lent.
fn list(a: Answer, n: usize, size: usize)
    requires { size ≤ 80 }
{
    let mut buffer = [b'#'; 80];
    show_reply(list_reply(both(a), n, &mut buffer[..size]));
    print(&buffer);
    print(b"\n");
}

// The answer that paper 01 works out: sheet A.
fn worked() -> Answer {
    let a = answer(Kind::Optimal, 82, 3);
    let b = with_item(a, 0, 2, 1, 0);
    with_item(b, 1, 2, 3, 0)
}

// Sheet G from the origin.
fn ray() -> Answer {
    let a = answer(Kind::Unbounded, 0, 1);
    let b = with_item(a, 0, 0, 1, 3);
    with_item(b, 1, 0, 1, 2)
}

fn refused(number: u64, line: u64) -> Answer {
    answer(Kind::Refused(Refusal { number, line }), 0, 0)
}

fn show_all() {
    show(worked(), 2);
    show(ray(), 2);
    show(answer(Kind::Infeasible, 0, 1), 5);
    show(refused(2, 1), 0);
    show(refused(18446744073709551615, 18446744073709551615), 0);
    show(answer(Kind::Optimal, -30, 1), 0);
    show(sixteen(Kind::Optimal), 16);
    show(sixteen(Kind::Unbounded), 17);
    show(sixteen(Kind::Infeasible), 16);
}

// The sure answer first, then the possible one; one refusal is printed once.
fn show_senses() {
    let none = answer(Kind::Infeasible, 0, 1);
    show_both(
        Answers {
            sure: none,
            possible: worked(),
        },
        2,
    );
    show_both(
        Answers {
            sure: none,
            possible: ray(),
        },
        2,
    );
    show_both(
        Answers {
            sure: worked(),
            possible: ray(),
        },
        2,
    );
    show_both(
        Answers {
            sure: answer(Kind::Optimal, 10, 1),
            possible: worked(),
        },
        2,
    );
    show(refused(20, 5), 2);
}

fn list_all() {
    list(worked(), 2, 43);
    list(worked(), 2, 44);
    list(worked(), 2, 80);
    list(ray(), 2, 51);
    list(ray(), 2, 52);
    list(answer(Kind::Infeasible, 0, 1), 5, 0);
    list(answer(Kind::Infeasible, 0, 1), 5, 21);
    list(answer(Kind::Infeasible, 0, 1), 5, 22);
    list(refused(5, 12), 3, 0);
    list(refused(5, 12), 3, 80);
    list(sixteen(Kind::Optimal), 16, 80);
}

fn main() {
    show_all();
    show_senses();
    list_all();
}
