// Prints, for the sheets of paper 01 with an absent bound, some made for the purpose and many drawn ones, the steps of the ray
// that the scan finds, or `none`. An item is (weight, price, lower, upper); marks play no part.
#![tactic(auto)]

ghost use Rattle.std.specs.Prelude.{◌≤◌};
ghost use Rattle.model.specs.Records.{FiguresInRange};

use knapsack::Problem;
use model::{Model, ModelItem, Sense};
use trials::draw::{below, figure, mended_price, next};
use trials::make::{first_of, free, from_zero, held, item, loose, one, to_zero, two};
use trials::print::{print, print_signed_field};

fn print_steps(steps: [i64; 16], n: usize)
    requires { n ≤ 16 }
{
    for z in &steps[..n] {
        print_signed_field(*z);
    }
}

fn print_reply(r: Option<[i64; 16]>, n: usize)
    requires { n ≤ 16 }
{
    match r {
        Some(steps) => print_steps(steps, n),
        None => print(b" none"),
    }
}

// Nothing is looked for where bounds cross.
fn scanned(p: Problem)
    requires { FiguresInRange p }
{
    if model::some_crosses(p) {
        print(b" crossed");
    } else {
        print_reply(rays::find_ray(p), p.count);
    }
}

fn print_ray(p: Model) {
    match model::check_model(p) {
        Ok(()) => scanned(model::plain_of(p, Sense::Sure)),
        Err(_) => print(b" refused"),
    }
}

fn show(name: u8, p: Model) {
    let label = [name];
    print(&label);
    print_ray(p);
    print(b"\n");
}

// ---- sheets

fn paper_sheets() {
    show(b'F', two(10, held(3, 5, 0, 9), held(4, 6, 0, 9)));
    show(b'G', two(0, from_zero(2, 3), from_zero(-3, -4)));
    show(b'H', two(0, from_zero(2, 3), from_zero(-3, -5)));
    show(b'I', two(0, from_zero(2, 3), from_zero(-2, -3)));
    show(b'J', one(-7, free(3, 1)));
    show(b'K', one(-7, loose(free(3, 1))));
}

// Up, down, held, and the wrong way.
fn weightless_items() {
    show(b'a', one(5, from_zero(0, 1)));
    show(b'b', one(5, to_zero(0, -1)));
    show(b'c', one(5, held(0, 1, 0, 9)));
    show(b'd', one(5, from_zero(0, -1)));
}

// Light and worth more, worth nothing, light downwards, and behind an item that is held.
fn light_items() {
    show(b'f', one(5, from_zero(-1, 1)));
    show(b'g', one(5, from_zero(-1, 0)));
    show(b'h', one(5, to_zero(2, -1)));
    show(b'i', two(5, held(1, 1, 0, 9), from_zero(-1, 1)));
    show(b'i', two(5, held(1, 1, 9, 0), from_zero(-1, 1)));
}

// With no bound: no ray, up, down.
fn free_items() {
    show(b'j', one(5, free(1, 1)));
    show(b'k', one(5, free(-1, 1)));
    show(b'l', one(5, free(1, -1)));
}

// An item with no bound goes down for one that goes up; worse ratios; both free; equal ratios.
fn free_pairs() {
    show(b'm', two(0, free(1, 1), from_zero(1, 2)));
    show(b'n', two(0, free(1, 2), from_zero(1, 1)));
    show(b'o', two(0, free(1, 1), free(2, 3)));
    show(b'p', two(0, free(1, 1), free(2, 2)));
}

// One down and one up, both down, a partner worth nothing, one that is held, the longest steps, and a weight out of range.
fn other_pairs() {
    show(b'q', two(0, to_zero(3, 2), from_zero(2, 3)));
    show(b'r', two(0, to_zero(-3, -4), to_zero(2, 2)));
    show(b's', two(0, from_zero(7, 1), from_zero(-5, 0)));
    show(b't', two(0, from_zero(7, 1), held(-5, 0, 0, 9)));
    show(
        b'u',
        two(0, from_zero(999, 10000), from_zero(-1000, -10000)),
    );
    show(
        b'v',
        two(0, from_zero(1001, 10000), from_zero(-1000, -10000)),
    );
}

// ---- drawn sheets: the origin is feasible, so unbounded is what has a ray

#[derive(Clone, Copy)]
struct Draw {
    item: ModelItem,
    state: u64,
}

fn bound(state: u64, at: i64) -> Option<i64> {
    if below(state, 1) == 0 { None } else { Some(at) }
}

fn draw_item(state: u64) -> Draw {
    let a = next(state);
    let c = next(a);
    let l = next(c);
    let u = next(l);
    let lower = bound(l, -2);
    let upper = bound(u, 3);
    let weight = figure(a, 6);
    let price = mended_price(weight, figure(c, 6));
    let x = item(weight, price, lower, upper);
    Draw { item: x, state: u }
}

fn drawn_sheets(count: usize, sheets: usize)
    requires { sheets ≤ 1000 }
{
    let mut state: u64 = 1;
    for _ in 0..sheets {
        let x = draw_item(state);
        let y = draw_item(x.state);
        let z = draw_item(y.state);
        state = z.state;
        show(b'-', first_of(4, count, x.item, y.item, z.item));
    }
}

fn main() {
    paper_sheets();
    weightless_items();
    light_items();
    free_items();
    free_pairs();
    other_pairs();
    drawn_sheets(2, 100);
    drawn_sheets(3, 100);
}
