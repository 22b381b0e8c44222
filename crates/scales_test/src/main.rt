// Tries the least cost on 300 drawn problems of three items. The expected lines were found by going through all amounts, in Python:
// the draws are those of `next`, ws, us, ts, ls and the capacity in this order, and the cap is 600 in every other problem.
#![tactic(auto)]

ghost use Rattle.std.specs.Prelude.{◌≤◌, ◌<◌, length};
ghost use Rattle.scales_test.specs.Draws.{Drawn};

// Standard output, as the kit's io names a stream by its number.
const STDOUT_FILENO: i32 = 1;

#[derive(Clone, Copy)]
pub struct Three {
    pub list: [u64; 3],
    pub seed: u64,
}

fn next(s: u64) -> u64
    requires { s < 2147483648 }
    ensures { result < 2147483648 }
{
    (s * 1103515245 + 12345) % 2147483648
}

// Three numbers below b.
fn draw(s: u64, b: u64) -> Three
    requires { (s < 2147483648) × (0 < b) }
    ensures drawn { Drawn b result.list }
    ensures seed_bound { result.seed < 2147483648 }
{
    let mut list = [0u64; 3];
    let mut seed = s;
    for j in 0..3 {
        seed = next(seed);
        list[j] = seed / 65536 % b;
    }
    Three { list, seed }
}

// A number below 10,000,000, by seven digits and a line end.
fn print(n: u64) {
    let mut b = [10u8; 8];
    let mut r = n;
    for at in (0..7).rev() {
        b[at] = b'0' + (r % 10) as u8;
        r /= 10;
    }
    io::write_all(STDOUT_FILENO, &b);
}

// A cap that some costs meet, or none does.
fn cap_of(k: usize) -> u64
    ensures { (600 ≤ result) × (result ≤ 1000000) }
{
    if k % 2 == 0 { 1000000 } else { 600 }
}

fn solved(w: Three, u: Three, t: Three, l: Three, capacity: u64, cap: u64, cells: &mut [u64]) -> u64
    requires drawn { (Drawn 10 w.list × Drawn 16 u.list) × (Drawn 50 t.list × Drawn 50 l.list) }
    requires le_cap { (600 ≤ cap) × (cap ≤ 1000000) }
    requires in_bounds { 128 ≤ length cells.old }
{
    scales::least_cost(&w.list, &u.list, &t.list, &l.list, capacity, cap, cells).least
}

fn main() {
    let mut cells = [0u64; 128];
    let mut s: u64 = 1;
    for k in 0..300 {
        let w = draw(s, 10);
        let u = draw(w.seed, 16);
        let t = draw(u.seed, 50);
        let l = draw(t.seed, 50);
        s = next(l.seed);
        let cap = cap_of(k);
        print(solved(w, u, t, l, s / 65536 % 120, cap, &mut cells));
    }
}
