// A test load from a seed number (paper 02, request 8, 9 for its blank items, and 11 for its weights): the same problems at every site.
// A 64-bit state is added to for each draw; the draw is a scrambled copy of it. draw_problem draws one problem in sheet order and gives
// the state from which the next one is drawn. Every problem so made is admissible: proofs/Drawn (drawn-admissible).
#![tactic(auto)]

ghost use Rattle.std.specs.Prelude.{◌≡◌, ◌<◌, ◌≤◌, pos, ◌≤ℤ◌};
ghost use Rattle.arith.specs.Within.{Within};
ghost use Rattle.drawing.specs.Drawing.{
  next_state,
  draw_at,
  span,
  picked,
  choice_at,
  around_at,
  limit_at,
  count_at,
  mark_at,
  weight_at,
  price_at,
  value_at,
  drawn_bound,
  drawn_figures,
  mended,
  drawn_item,
  drawn_side,
  drawn_line,
  with_line,
  drawn_section,
  headed_by,
  drawn_heading,
  drawn_problem,
};

use knapsack::Mark;
use model::{Model, ModelItem, Side, setters};

// A bound, and the state after its draws.
#[derive(Clone, Copy)]
struct DrawnBound {
    bound: Option<i64>,
    state: u64,
}

// An item, and the state after its draws.
#[derive(Clone, Copy)]
struct DrawnItem {
    item: ModelItem,
    state: u64,
}

// A problem, and the state after its draws.
#[derive(Clone, Copy)]
pub struct DrawnProblem {
    pub problem: Model,
    pub state: u64,
}

// The sections of a sheet that have a line for each item.
#[derive(Clone, Copy)]
enum Section {
    Items,
    Lower,
    Upper,
}

// ---- a draw

// The state of the next draw.
#[tactic(auto, unfolding(crate::specs::Drawing::next_state))]
fn next_state(state: u64) -> u64
    ensures { result ≡ next_state state }
{
    std::num::wrapping_add_u64(state, 0x9E37_79B9_7F4A_7C15)
}

// The draw at a state, which stays as it is.
#[tactic(auto, unfolding(crate::specs::Drawing::draw_at))]
fn draw(state: u64) -> u64
    ensures { result ≡ draw_at state }
{
    let a = state ^ (state << 13);
    let b = a ^ (a >> 7);
    b ^ (b << 17)
}

// How many numbers lie from lo to hi.
fn width(lo: i64, hi: i64) -> u64
    requires { (lo ≤ℤ hi) × (Within 1000000000 lo × Within 1000000000 hi) }
    ensures { result ≡ span lo hi }
{
    (hi - lo + 1) as u64
}

// The number from lo to hi that the draw t picks.
fn pick(t: u64, lo: i64, hi: i64) -> i64
    requires { (lo ≤ℤ hi) × (Within 1000000000 lo × Within 1000000000 hi) }
    ensures { result ≡ picked t lo hi }
{
    let n = width(lo, hi);
    lo + (t % n) as i64
}

// ---- a figure at a state

// From lo to hi, none below 0.
fn choice(state: u64, lo: i64, hi: i64) -> usize
    requires { (pos 0 ≤ℤ lo) × ((lo ≤ℤ hi) × (Within 1000000000 lo × Within 1000000000 hi)) }
    ensures { result ≡ choice_at state lo hi }
{
    pick(draw(state), lo, hi) as usize
}

// From -m to m.
fn around(state: u64, m: i64) -> i64
    requires { (pos 0 ≤ℤ m) × Within 1000000000 m }
    ensures { result ≡ around_at state m }
{
    pick(draw(state), 0 - m, m)
}

fn draw_limit(state: u64) -> i64
    ensures { result ≡ limit_at state }
{
    around(state, 100_000_000)
}

fn draw_count(state: u64) -> usize
    ensures { result ≡ count_at state }
{
    choice(state, 1, 16)
}

fn draw_mark(state: u64) -> Mark
    ensures { result ≡ mark_at state }
{
    if choice(state, 0, 1) == 0 {
        Mark::Integer
    } else {
        Mark::Continuous
    }
}

fn draw_weight(state: u64) -> i64
    ensures { result ≡ weight_at state }
{
    around(state, 1000)
}

fn draw_price(state: u64) -> i64
    ensures { result ≡ price_at state }
{
    around(state, 10_000)
}

fn draw_value(state: u64) -> i64
    ensures { result ≡ value_at state }
{
    around(state, 10_000)
}

// ---- a bound, an item

#[tactic(auto, unfolding(crate::specs::Drawing::drawn_bound))]
fn draw_bound(state: u64) -> DrawnBound
    ensures { result ≡ drawn_bound state }
{
    let first = next_state(state);
    if choice(first, 0, 3) == 3 {
        return DrawnBound {
            bound: None,
            state: first,
        };
    }
    let second = next_state(first);
    DrawnBound {
        bound: Some(draw_value(second)),
        state: second,
    }
}

// Mark, weight and price as they are drawn; the weight is known: low and high are equal (request 11).
#[tactic(auto, unfolding(crate::specs::Drawing::drawn_figures))]
fn draw_figures(state: u64) -> DrawnItem
    ensures { result ≡ drawn_figures state }
{
    let a = next_state(state);
    let b = next_state(a);
    let c = next_state(b);
    let mark = draw_mark(a);
    let weight = draw_weight(b);
    let item = ModelItem {
        mark,
        low: weight,
        high: weight,
        price: draw_price(c),
        lower: None,
        upper: None,
    };
    DrawnItem { item, state: c }
}

// A price drawn as 0 beside weight 0 becomes 1, so that no item is blank.
#[tactic(auto, unfolding(crate::specs::Drawing::mended))]
fn mend(item: ModelItem) -> ModelItem
    ensures { result ≡ mended item }
{
    if model::is_blank(item) {
        ModelItem { price: 1, ..item }
    } else {
        item
    }
}

// An item without bounds as yet.
#[tactic(auto, unfolding(crate::specs::Drawing::drawn_item))]
fn draw_item(state: u64) -> DrawnItem
    ensures { result ≡ drawn_item state }
{
    let d = draw_figures(state);
    DrawnItem {
        item: mend(d.item),
        state: d.state,
    }
}

// An item with a bound drawn on one side.
fn draw_side(side: Side, item: ModelItem, state: u64) -> DrawnItem
    ensures { result ≡ drawn_side side (drawn_bound state) item }
{
    let d = draw_bound(state);
    DrawnItem {
        item: setters::with_side(item, side, d.bound),
        state: d.state,
    }
}

// ---- a section, a problem

// What a section draws for an item.
#[tactic(auto, unfolding(crate::specs::Drawing::drawn_line))]
fn draw_line(section: Section, item: ModelItem, state: u64) -> DrawnItem
    ensures { result ≡ drawn_line section item state }
{
    match section {
        Section::Items => draw_item(state),
        Section::Lower => draw_side(Side::Lower, item, state),
        Section::Upper => draw_side(Side::Upper, item, state),
    }
}

// The line of the item at place k.
#[tactic(auto, unfolding(crate::specs::Drawing::with_line))]
fn with_line(section: Section, d: DrawnProblem, k: usize) -> DrawnProblem
    requires { k < 16 }
    ensures { result ≡ with_line section d k }
{
    let x = draw_line(section, d.problem.items[k], d.state);
    DrawnProblem {
        problem: setters::with_item(d.problem, k, x.item),
        state: x.state,
    }
}

fn draw_section(section: Section, d: DrawnProblem) -> DrawnProblem
    requires { d.problem.count ≤ 16 }
    ensures { result ≡ drawn_section section d }
{
    let mut r = d;
    for k in 0..d.problem.count {
        r = with_line(section, r, k);
    }
    r
}

// A record of its limit and count: no needs, and blank items as yet.
fn headed(limit: i64, count: usize) -> Model
    ensures { result ≡ headed_by limit count }
{
    let limited = setters::with_capacity(setters::empty_model(), limit);
    setters::with_count(limited, count)
}

#[tactic(auto, unfolding(crate::specs::Drawing::drawn_heading))]
fn draw_heading(state: u64) -> DrawnProblem
    ensures { result ≡ drawn_heading state }
{
    let a = next_state(state);
    let b = next_state(a);
    let problem = headed(draw_limit(a), draw_count(b));
    DrawnProblem { problem, state: b }
}

// The problem after a state, and the state after it; the load of a seed starts at the seed.
pub fn draw_problem(state: u64) -> DrawnProblem
    ensures { result ≡ drawn_problem state }
{
    let heading = draw_heading(state);
    let items = draw_section(Section::Items, heading);
    let lower = draw_section(Section::Lower, items);
    draw_section(Section::Upper, lower)
}
