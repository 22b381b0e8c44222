// Sums and products of numbers within 10^9, with no need to know that they are. Where one is beyond that it is handed on as it is, so
// that what is once so far off stays so.
use arith::Fraction;
use model::beyond;

pub fn plus(a: i64, b: i64) -> i64 {
    if beyond(a, 1000000000) {
        return a;
    }
    if beyond(b, 1000000000) {
        return b;
    }
    a + b
}

pub fn times(a: i64, b: i64) -> i64 {
    if beyond(a, 1000000000) {
        return a;
    }
    if beyond(b, 1000000000) {
        return b;
    }
    a * b
}

pub fn is_far(a: i64) -> bool {
    beyond(a, 1000000000)
}

// The number itself, if it is small.
pub fn as_signed(n: u64) -> i64 {
    if n > 1000000000 {
        return 0;
    }
    n as i64
}

// p / q, for a divisor above 0.
#[derive(Clone, Copy)]
pub struct Ratio {
    pub p: i64,
    pub q: i64,
}

pub fn ratio_of(v: Fraction) -> Ratio {
    Ratio {
        p: v.p,
        q: as_signed(v.q),
    }
}

pub fn is_less(a: Ratio, b: Ratio) -> bool {
    times(a.p, b.q) < times(b.p, a.q)
}
