// Printing: numbers, items as (mark,weight,price,lower,upper) with low:high for a range of weights and `..` for an absent bound, and an answer's kind in paper 01's words.
use arith::Fraction;
use knapsack::{Answer, Kind, Mark};
use model::{Model, ModelItem};

// Standard output, as the kit's io names a stream by its number.
const STDOUT_FILENO: i32 = 1;

pub fn print(text: &[u8]) {
    io::write_all(STDOUT_FILENO, text);
}

pub fn print_number(n: u64) {
    io::print_decimal(STDOUT_FILENO, n);
}

// |z|, also of the least number.
pub fn size_of(z: i64) -> u64 {
    z.unsigned_abs()
}

pub fn print_signed(z: i64) {
    if z < 0 {
        print(b"-");
    }
    print_number(size_of(z));
}

// Behind a blank.
pub fn print_field(n: u64) {
    print(b" ");
    print_number(n);
}

// Behind a blank.
pub fn print_signed_field(z: i64) {
    print(b" ");
    print_signed(z);
}

pub fn print_yes(b: bool) {
    if b {
        print(b"yes");
    } else {
        print(b"no");
    }
}

fn print_mark(m: Mark) {
    match m {
        Mark::Integer => print(b"W"),
        Mark::Continuous => print(b"L"),
    }
}

fn print_bound(b: Option<i64>) {
    print(b",");
    match b {
        None => print(b".."),
        Some(v) => print_signed(v),
    }
}

// One weight, or the two ends of its range.
fn print_weight(low: i64, high: i64) {
    if low != high {
        print_signed(low);
        print(b":");
    }
    print_signed(high);
}

pub fn print_item(x: ModelItem) {
    print(b" (");
    print_mark(x.mark);
    print(b",");
    print_weight(x.low, x.high);
    print(b",");
    print_signed(x.price);
    print_bound(x.lower);
    print_bound(x.upper);
    print(b")");
}

// The capacity and the items.
pub fn print_problem(p: Model) {
    print_signed(p.capacity);
    print(b";");
    for x in p.items.iter().take(p.count) {
        print_item(*x);
    }
}

// The kind, with the value of a best answer.
pub fn print_kind(a: Answer) {
    match a.kind {
        Kind::Optimal => {
            print(b"best ");
            print_signed(a.value.p);
            print(b" ");
            print_number(a.value.q);
        }
        Kind::Infeasible => print(b"infeasible"),
        Kind::Unbounded => print(b"unbounded"),
        Kind::Refused(f) => {
            print(b"refused ");
            print_number(f.number);
            print(b" ");
            print_number(f.line);
        }
    }
}

fn print_amount(v: Fraction) {
    print_signed_field(v.p);
    print_field(v.q);
}

// The amounts of the first three items.
pub fn print_three(a: Answer) {
    for v in &a.point[..3] {
        print_amount(*v);
    }
}
