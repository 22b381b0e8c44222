// Prints the relaxation of paper 01's sheets, of some made for the purpose, of records that are refused and of some drawn ones, and
// counts what it comes to on thousands of drawn ones, all through the public entry over a lent list.
#![tactic(auto)]

mod lending; // the call
mod order; // the list afterwards
mod sheets; // sheets and their records
mod line; // a sheet and its reply, printed
mod counted; // drawn sheets, held to enumeration and counted

ghost use Rattle.std.specs.Prelude.{◌≤◌};

use crate::lending::relaxed;
use crate::line::print_line;
use crate::sheets::{Sheet, drawn_sheet, large, one, three, two, with_items, with_need};
use trials::draw::{Spans, small};
use trials::make::{free, from_zero, held, loose, to_zero};
use trials::print::print;

fn show(name: u8, s: Sheet) {
    print(&[name, b' ']);
    print_line(s, relaxed(s));
}

// ---- chosen sheets

fn paper_sheets() {
    show(b'A', two(20, held(9, 13, 0, 2), loose(held(3, 2, 0, 5))));
    show(b'B', two(20, held(9, 13, 0, 2), loose(held(1, 1, 0, 5))));
    show(
        b'C',
        two(-20, held(-9, -13, 0, 3), loose(held(-1, -2, 0, 5))),
    );
    show(
        b'D',
        two(-14, held(-9, -13, 0, 1), loose(held(-1, -2, 0, 5))),
    );
    show(
        b'E',
        two(-15, held(-9, -13, 0, 1), loose(held(-1, -2, 0, 5))),
    );
    show(b'F', two(10, held(3, 5, 0, 10), held(4, 6, 0, 10)));
    show(b'G', two(0, from_zero(2, 3), from_zero(-3, -4)));
    show(b'H', two(0, from_zero(2, 3), from_zero(-3, -5)));
    show(b'I', two(0, from_zero(2, 3), from_zero(-2, -3)));
    show(b'J', one(-7, free(3, 1)));
    show(b'K', one(-7, loose(free(3, 1))));
}

// An item without bounds moves both ways.
fn free_items() {
    show(b'a', two(0, free(1, 1), from_zero(1, 2)));
    show(b'b', two(0, free(1, 2), from_zero(1, 1)));
    show(b'c', two(0, free(1, 1), free(2, 3)));
    show(b'd', two(0, free(1, 1), free(2, 2)));
    show(b'e', one(100000000, free(-1, -10000)));
    show(b'f', one(-100000000, free(1, 10000)));
}

// Last by number, wherever they stand and whatever they are worth.
fn weightless_items() {
    show(
        b'g',
        three(5, held(0, 9, -2, 2), held(3, -1, -2, 2), held(0, -9, -2, 2)),
    );
    show(
        b'h',
        three(5, held(0, 2, 0, 1), from_zero(0, -1), to_zero(0, 1)),
    );
    show(b'i', two(-1, held(0, 4, 0, 1), to_zero(0, 1)));
    show(b'j', two(5, held(1, 1, 0, 1), from_zero(0, 1)));
    show(b'k', two(5, held(1, 1, 0, 1), to_zero(0, -1)));
}

// The same ratio at both signs and sizes; ratios that differ by little; both signs of weight and of price.
fn near_ratios() {
    show(
        b'l',
        three(7, held(-3, -6, -2, 2), held(2, 4, -1, 3), held(1, 2, 0, 9)),
    );
    show(
        b'm',
        three(
            9,
            held(999, 9990, 0, 1),
            held(1000, 10000, 0, 1),
            held(-1000, -10000, 0, 1),
        ),
    );
    show(
        b'n',
        three(
            999,
            held(999, 9989, 0, 1),
            held(1000, 9999, 0, 1),
            held(998, 9979, 0, 1),
        ),
    );
    show(
        b'o',
        three(
            0,
            held(2, -3, -5, 5),
            held(-2, 3, -5, 5),
            held(-2, -3, -5, 5),
        ),
    );
    show(
        b'p',
        three(
            0,
            loose(held(5, 1, 0, 9)),
            held(5, 1, 0, 9),
            loose(held(5, 1, 0, 9)),
        ),
    );
}

// Nothing to choose, nothing feasible by little, and the ends of the ranges.
fn tight_sheets() {
    show(b'q', two(8, held(3, 5, 2, 2), held(1, 1, 2, 2)));
    show(b'r', two(7, held(3, 5, 2, 2), held(1, 1, 2, 2)));
    show(b's', one(10000000, held(1000, 10000, -10000, 10000)));
    show(b't', one(-10000000, held(1000, 10000, -10000, 10000)));
    show(b'u', one(-10000001, held(1000, 10000, -10000, 10000)));
    show(
        b'v',
        two(
            100000000,
            held(-1000, 10000, -10000, 10000),
            from_zero(999, -10000),
        ),
    );
}

// A lower bound above its upper: infeasible, also beside a ray, and the list is put in order.
fn crossing_bounds() {
    show(b'w', two(0, held(1, 1, 0, 1), held(1, 2, 1, 0)));
    show(b'x', one(0, held(1, 1, 10000, -10000)));
    show(
        b'y',
        three(0, from_zero(-3, -4), from_zero(2, 3), held(1, 2, 1, 0)),
    );
    show(b'z', two(5, from_zero(0, 1), loose(held(0, 2, 1, 0))));
}

// ---- needs

// The items that a need names stay whole: of a charge of item 1, of what its cover costs, and of one item that is not named.
fn needing_items() {
    let x = held(3, 5, 0, 10);
    let y = held(4, 6, 0, 10);
    show(
        b'1',
        with_need(three(12, x, y, held(1, -100, 0, 1)), 1, 1, 3),
    );
    show(b'2', with_need(three(10, x, y, held(1, -1, 0, 1)), 1, 1, 3));
    show(b'3', with_need(three(11, x, y, held(1, 0, 0, 1)), 1, 1, 3));
    show(b'4', with_need(three(11, x, y, held(1, 0, 0, 1)), 1, 2, 1));
    show(b'5', with_need(two(11, x, y), 1, 1, 2));
}

// Infeasible by a need alone, and a ray beside one.
fn needing_kinds() {
    let x = held(3, 5, 1, 10);
    show(b'6', with_need(two(11, x, held(1, 1, 0, 0)), 1, 1, 2));
    show(
        b'7',
        with_need(
            three(0, held(1, 1, 0, 1), held(-1, -1, 0, 1), free(0, 1)),
            1,
            1,
            2,
        ),
    );
    show(
        b'8',
        with_need(
            three(5, held(1, 1, 1, 1), held(1, 1, 0, 0), free(0, 1)),
            1,
            1,
            2,
        ),
    );
}

fn bad_needs() {
    let x = held(3, 5, 0, 10);
    show(b'!', with_need(two(11, x, x), 17, 1, 2));
    show(b'!', with_need(two(11, x, x), 1, 1, 3));
    show(b'!', with_need(two(11, x, x), 1, 2, 2));
    show(b'!', with_need(two(11, x, loose(x)), 1, 1, 2));
    show(b'!', with_need(two(11, x, from_zero(3, 5)), 1, 1, 2));
    show(b'!', with_need(with_need(two(11, x, x), 1, 2, 1), 2, 1, 2));
}

// ---- records that are refused

fn bad_figures() {
    show(b'!', one(100000001, held(1, 1, 0, 1)));
    show(b'!', one(-100000001, held(1, 1, 0, 1)));
    show(b'!', one(-9223372036854775808, held(1, 1, 0, 1)));
    show(b'!', two(0, held(1, 1, 0, 1), held(1001, 1, 0, 1)));
    show(b'!', two(0, held(-1001, 1, 0, 1), held(1, 2, 0, 1)));
    show(b'!', two(0, held(1, 10001, 0, 1), held(1, 2, 0, 1)));
    show(b'!', two(0, held(1, -10001, 0, 1), held(1, 2, 0, 1)));
    show(b'!', one(0, held(1, 1, -10001, 1)));
    show(b'!', one(0, held(1, 1, 0, 10001)));
    show(
        b'!',
        one(0, held(9223372036854775807, -9223372036854775808, 0, 1)),
    );
}

// Bounds that cross as well.
fn refused_before() {
    show(b'!', two(0, held(1, 1, 1, 0), held(1001, 2, 0, 1)));
    let x = held(1, 1, 1, 0);
    show(b'!', with_items(0, 0, x, x, x));
}

// ---- drawn sheets

// So many sheets of count items each.
fn drawn_sheets(seed: u64, sheets: usize, count: usize, z: Spans)
    requires { count ≤ 18 }
{
    let mut state = seed;
    for _ in 0..sheets {
        let d = drawn_sheet(state, count, z);
        show(b'-', d.sheet);
        state = d.state;
    }
}

// Too many items.
fn long_sheets() {
    drawn_sheets(21, 2, 17, small(1, 2));
    drawn_sheets(22, 2, 18, small(1, 2));
}

// As many items as there may be.
fn full_sheets() {
    drawn_sheets(23, 5, 16, small(1, 2));
    drawn_sheets(24, 5, 16, large(9, 5, 0));
    drawn_sheets(25, 5, 16, large(10000, 500, 1));
}

// Figures up to the ends of their ranges, and absent bounds.
fn large_sheets() {
    drawn_sheets(26, 5, 1, large(10000, 500, 1));
    drawn_sheets(27, 5, 2, large(10000, 500, 1));
    drawn_sheets(28, 5, 3, large(10000, 500, 1));
    drawn_sheets(29, 5, 5, large(10000, 500, 1));
}

fn main() {
    paper_sheets();
    free_items();
    weightless_items();
    near_ratios();
    tight_sheets();
    crossing_bounds();
    needing_items();
    needing_kinds();
    bad_needs();
    bad_figures();
    refused_before();
    long_sheets();
    full_sheets();
    large_sheets();
    counted::count_sheets();
}
