// The relaxation's public entry (paper 01, "Relaxation"): a capacity, a lent list of items, which is left in order, and terms: the needs, whose items
// keep their marks (paper 02, request 7), and the sense, whose weight decides and orders (request 11).
// One thin function over a core: the list is copied into a record, the core answers it and puts its items in order, and the items are
// stored back.
#![tactic(auto)]

ghost use Rattle.std.specs.Prelude.{◌≡◌, ◌≤◌, ◌<◌, []};
ghost use Rattle.model.specs.Needs.{loosened};
ghost use Rattle.model.specs.Records.{plain_of, Admissible, FiguresInRange};
ghost use Rattle.relaxation.specs.Lent.{loaded, with_next, arranged_in, loose, Loosened, AnswersRelaxed, Settles, Relaxes};

use knapsack::{Answer, Item, Kind, Mark, Problem, with_item};
use model::{Model, ModelItem, Needs, Sense, check_model, plain_of, setters};
use ordering::rank;
use planner::{named_of, solve_needs};
use solver::{STEPS, no_point};

// What is asked besides a capacity and a list.
#[derive(Clone, Copy)]
pub struct Terms {
    pub needs: Needs,
    pub sense: Sense,
}

// What the core is asked: a record, and the sense in which it is relaxed.
#[derive(Clone, Copy)]
pub struct Query {
    pub model: Model,
    pub sense: Sense,
}

// What the core gives: the answer, and the record whose items are stored back.
#[derive(Clone, Copy)]
pub struct Outcome {
    pub answer: Answer,
    pub model: Model,
}

// A record with no items loaded yet.
fn opened(capacity: i64, count: usize, terms: Terms) -> Query
    ensures { result ≡ loaded capacity count terms [] }
{
    let m = setters::with_capacity(setters::empty_model(), capacity);
    let n = setters::with_count(m, count);
    Query {
        model: setters::with_needs(n, terms.needs),
        sense: terms.sense,
    }
}

// One item more is loaded.
fn with_next(q: Query, i: usize, x: ModelItem) -> Query
    requires { i < 16 }
    ensures { result ≡ with_next q i x }
{
    Query {
        model: setters::with_item(q.model, i, x),
        ..q
    }
}

// An item that is not kept becomes continuous.
fn loose_mark(kept: bool, m: Mark) -> Mark
    ensures { result ≡ loosened kept m }
{
    if kept { m } else { Mark::Continuous }
}

fn loose_item(kept: bool, x: Item) -> Item
    ensures { result ≡ loose kept x }
{
    Item {
        mark: loose_mark(kept, x.mark),
        ..x
    }
}

// The problem with its items continuous, but for those that are named.
fn loosen(p: Problem, named: [bool; 16]) -> Problem
    requires { p.count ≤ 16 }
    ensures { Loosened p named p.count result }
{
    let mut q = p;
    for k in 0..p.count {
        q = with_item(q, k, loose_item(named[k], p.items[k]));
    }
    q
}

// The answer of the relaxation of a record that is accepted. Its named items are whole, so that it is solved by cases as the record is.
fn relaxed_answer(m: Model, sense: Sense) -> Answer
    requires { Admissible m }
    ensures { AnswersRelaxed sense m result }
{
    let q = loosen(plain_of(m, sense), named_of(m.needs));
    solve_needs(q, m.needs, STEPS).answer
}

// The record with its items in order.
fn arranged(m: Model, sense: Sense) -> Model
    requires { FiguresInRange (plain_of sense m) }
    ensures { result ≡ arranged_in sense m }
{
    let ranking = rank(plain_of(m, sense));
    let mut q = m;
    for u in 0..m.count {
        q = setters::with_item(q, u, m.items[ranking.at[u]]);
    }
    q
}

// The core: the record check, then the relaxation, and the items in order.
fn core(q: Query) -> Outcome
    ensures { Settles q result }
{
    let m = q.model;
    match check_model(m) {
        Ok(()) => Outcome {
            answer: relaxed_answer(m, q.sense),
            model: arranged(m, q.sense),
        },
        Err(f) => Outcome {
            answer: no_point(Kind::Refused(f)),
            model: m,
        },
    }
}

// The relaxation of the problem that a capacity, a list of items and terms make; the list is left in order where the problem is accepted.
pub fn relax_with(capacity: i64, items: &mut [ModelItem], terms: Terms) -> Answer
    ensures { Relaxes capacity terms items.old items.new result }
{
    // no more items than a record has places
    let n = items.len().min(16);
    let mut q = opened(capacity, items.len(), terms);
    for i in 0..n {
        q = with_next(q, i, items[i]);
    }
    let o = core(q);
    for i in 0..n {
        items[i] = o.model.items[i];
    }
    o.answer
}
