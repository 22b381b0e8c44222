// The order of fractions, and of points, as answers hold them: numerators and divisors of any size, so no product is made that could overflow.
// Paper 02, "Always the same charge": which of two points comes first.
#![tactic(auto)]

ghost use Rattle.std.specs.Prelude.{◌≡◌, ◌*◌, ◌≤◌, ltb};
ghost use Rattle.comparing.specs.Comparing.{less_fraction, Divided, Compares};

use arith::Fraction;

// Whether n / d is below m / e, by Euclid: where the whole parts are equal, what is left is compared upside down.
fn below(n: u64, d: u64, m: u64, e: u64) -> bool
    requires { (1 ≤ d) × (1 ≤ e) }
    ensures { result ≡ ltb (n * e) (m * d) }
{
    let a = n / d;
    let b = m / e;
    if a < b {
        return true;
    }
    if b < a {
        return false;
    }
    let i = n % d;
    let j = m % e;
    if j == 0 {
        return false;
    }
    if i == 0 {
        return true;
    }
    below(e, j, d, i)
}

// Whether x is below y.
pub fn less_fraction(x: Fraction, y: Fraction) -> bool
    requires { (1 ≤ x.q) × (1 ≤ y.q) }
    ensures { result ≡ less_fraction x y }
{
    let m = x.p.unsigned_abs();
    let n = y.p.unsigned_abs();
    if x.p < 0 {
        if y.p < 0 { below(n, y.q, m, x.q) } else { true }
    } else {
        if y.p < 0 {
            false
        } else {
            below(m, x.q, n, y.q)
        }
    }
}

// Whether x comes before y, by the first of n items whose amounts differ.
pub fn comes_before(x: [Fraction; 16], y: [Fraction; 16], n: usize) -> bool
    requires { (n ≤ 16) × (Divided n x × Divided n y) }
    ensures { Compares n x y result }
{
    for k in 0..n {
        if less_fraction(x[k], y[k]) {
            return true;
        }
        if less_fraction(y[k], x[k]) {
            return false;
        }
    }
    false
}
