// Drawn sheets, counted. The answer is held to plain enumeration of the record with its items continuous (trials::outcome says when
// the two agree); the list afterwards to the order of paper 01; and the answer to the planner's for the marked record, which is of the
// same kind and, where best, worth no more. So is the sheet with ranges drawn for its weights, in both senses. A sheet on which one of these fails is printed.
ghost use Rattle.std.specs.Prelude.{◌≤◌};

use crate::lending::{Lent, relaxed};
use crate::line::print_line;
use crate::order::{is_ordered, turned};
use crate::sheets::{
    DrawnSheet, Sheet, drawn_sheet, large, loosened, ranged, record_of, with_drawn_lines,
};
use knapsack::{Answer, Kind};
use model::Sense;
use planner::plan;
use trials::draw::{Spans, next, small};
use trials::exact::{is_less, ratio_of};
use trials::outcome::{Outcome, outcome_of};
use trials::print::{print, print_kind, size_of};
use trials::ranges::at_ends;
use trials::tally::{Tally, no_answers, print_tally, tallied};

// Where there is a best point, some best point has all amounts but one at a bound, or at 0 where both are absent. With small figures
// the bounds are within ±3, and that one amount is within 12 + 4 · 4 · 3, the capacity and four items' weight.
const REACH: i64 = 60;

// ---- one sheet

// Whether the relaxation's answer can stand beside the planner's.
fn is_above(a: Answer, planned: Answer) -> bool {
    let is_worth_less = is_less(ratio_of(a.value), ratio_of(planned.value));
    a.kind == planned.kind && (a.kind != Kind::Optimal || !is_worth_less)
}

fn print_wrong(s: Sheet, r: Lent, planned: Answer) {
    print(b"disagreement, planned ");
    print_kind(planned);
    print(b": ");
    print_line(s, r);
}

// ---- ranges

fn orders(s: Sheet, r: Lent, n: usize, low: bool) -> bool
    requires { n ≤ 15 }
{
    if low {
        return is_ordered(turned(s.items), turned(r.items), n);
    }
    is_ordered(s.items, r.items, n)
}

// The sheet with ranges, relaxed in a sense, held to the record whose weights are known, each at that end, and the list to their order.
fn holds_at(s: Sheet, n: usize, ends: u64) -> bool
    requires { n ≤ 15 }
{
    let r = relaxed(s);
    let o = outcome_of(
        loosened(at_ends(record_of(s), ends)),
        r.answer,
        n,
        REACH,
        true,
    );
    o.agrees && orders(s, r, n, ends == 0)
}

fn senses_hold(s: Sheet, n: usize) -> bool
    requires { n ≤ 15 }
{
    let state = next(size_of(s.capacity));
    let sure = ranged(s, state, Sense::Sure);
    let possible = ranged(s, state, Sense::Possible);
    holds_at(sure, n, 65535) && holds_at(possible, n, 0)
}

fn tried(t: Tally, s: Sheet, n: usize) -> Tally
    requires { n ≤ 15 }
{
    let p = record_of(s);
    let planned = plan(p, Sense::Sure);
    let r = relaxed(s);
    let a = r.answer;
    let o = outcome_of(loosened(p), a, n, REACH, true);
    let agrees = o.agrees
        && is_ordered(s.items, r.items, n)
        && is_above(a, planned)
        && senses_hold(s, n);
    if !agrees {
        print_wrong(s, r, planned);
    }
    tallied(t, a.kind, Outcome { agrees, met: o.met })
}

// ---- many

// The next sheet; with needs where among is above 0.
fn next_sheet(state: u64, n: usize, among: u64, z: Spans) -> DrawnSheet
    requires { n ≤ 15 }
{
    let d = drawn_sheet(state, n, z);
    if among == 0 {
        return d;
    }
    with_drawn_lines(d, among)
}

// What so many sheets of n items each come to.
fn tally_of(seed: u64, sheets: u64, n: usize, among: u64, z: Spans) -> Tally
    requires { n ≤ 15 }
{
    let mut t = no_answers();
    let mut state = seed;
    for _ in 0..sheets {
        let d = next_sheet(state, n, among, z);
        t = tried(t, d.sheet, n);
        state = d.state;
    }
    t
}

fn counted(name: &[u8], seed: u64, sheets: u64, n: usize, z: Spans)
    requires { n ≤ 15 }
{
    let t = tally_of(seed, sheets, n, 0, z);
    print_tally(name, seed, sheets, n, t);
}

// With needs: of among + 1 pairs of items about one.
fn counted_needs(name: &[u8], seed: u64, n: usize, among: u64, z: Spans)
    requires { n ≤ 15 }
{
    let t = tally_of(seed, 1000, n, among, z);
    print_tally(name, seed, 1000, n, t);
}

fn bounded_sheets() {
    counted(b"bounded", 61, 2000, 1, small(0, 2));
    counted(b"bounded", 62, 2000, 2, small(0, 2));
    counted(b"bounded", 63, 2000, 3, small(0, 2));
    counted(b"bounded", 64, 2000, 4, small(0, 2));
    counted(b"bounded", 65, 2000, 5, small(0, 2));
}

// The bounds are so small that the enumeration stays exact.
fn large_sheets() {
    counted(b"large", 66, 2000, 2, large(9, 1, 0));
    counted(b"large", 67, 2000, 3, large(9, 1, 0));
    counted(b"large", 68, 2000, 4, large(9, 1, 0));
    counted(b"large", 69, 2000, 5, large(9, 1, 0));
}

fn open_sheets() {
    counted(b"open", 71, 2000, 1, small(1, 2));
    counted(b"open", 72, 2000, 2, small(2, 2));
    counted(b"open", 73, 2000, 3, small(1, 2));
    counted(b"open", 74, 2000, 4, small(1, 2));
    counted(b"open", 75, 2000, 5, small(1, 2));
}

fn needing_sheets() {
    counted_needs(b"needs", 81, 2, 1, small(0, 2));
    counted_needs(b"needs", 82, 3, 2, small(0, 2));
    counted_needs(b"needs", 83, 4, 5, small(0, 2));
    counted_needs(b"needs", 84, 5, 9, small(0, 2));
    counted_needs(b"needs, open", 85, 3, 3, small(1, 2));
    counted_needs(b"needs, open", 86, 4, 5, small(1, 2));
}

pub fn count_sheets() {
    bounded_sheets();
    large_sheets();
    open_sheets();
    needing_sheets();
}
