// Converts sheets with blank items (paper 02, request 9) and holds each reply to what is found plainly, item by item (blanks.rt):
//   same       no item is blank: the sheet comes back byte by byte
//   converted  the blank items can go: the reader accepts the new sheet, it has none of them, and the planner's answer to it has the kind and the value that
//              plain enumeration gives the old record, blank items and needs included (meaning.rt)
//   refused    15 at the line of the first item that hinders, or at line 4 where nothing would remain; also where the buffer has no room
// A byte of the buffer behind what is written stays, and all of them under a refusal; a sheet without its last byte is refused as the reader does.
// `disagreements` counts the sheets for which one of these fails; they are printed.
#![tactic(auto)]

mod blanks; // blank items, and what hinders
mod meaning; // kind and value by enumeration
mod sheets; // sheets with blank items, and the converter's replies

ghost use Rattle.std.specs.Prelude.{◌≤◌};

use crate::blanks::{Fate, Reason, blanks_among, fate_of, moves_need, with_drawn_blanks};
use crate::meaning::outcome_beside;
use crate::sheets::{Kept, ROOM, Sheet, converted, fits, is_refused, is_same, length_of, sheet_of};
use knapsack::{Kind, Refusal};
use model::{Model, Need, Sense, setters};
use planner::plan_within;
use sheet::Reading;
use solver::STEPS;
use trials::bytes::first;
use trials::count::{one_more, print_count};
use trials::draw::{DrawnProblem, Spans, drawn_problem};
use trials::make;
use trials::needs::with_drawn_needs;
use trials::print::{print, print_field, print_kind};

// Whether a sheet's reply is as it has to be, and the kind of the planner's answer to what was written, if there is one.
#[derive(Clone, Copy)]
struct Trial {
    agrees: bool,
    met: bool,
    kind: Option<Kind>,
}

// ---- one sheet

fn no_answer(agrees: bool) -> Trial {
    Trial {
        agrees,
        met: false,
        kind: None,
    }
}

fn reading_of(k: Kept) -> Reading {
    sheet::read(first(&k.bytes, length_of(k.told)))
}

// Whether o has the items of m that are not blank, by their number.
fn has_gone(m: Model, n: usize, o: Model) -> bool
    requires { n ≤ 15 }
{
    let rest = o.count;
    rest <= 16 && rest + blanks_among(m, n) == n && blanks_among(o, rest) == 0
}

// The planner's answer to the record o, beside the points of m.
fn answered(m: Model, n: usize, o: Model, sure: bool) -> Trial
    requires { n ≤ 15 }
{
    let a = plan_within(o, Sense::Sure, STEPS);
    let b = outcome_beside(m, n, a, sure);
    Trial {
        agrees: b.agrees && has_gone(m, n, o),
        met: b.met,
        kind: Some(a.kind),
    }
}

fn converted_trial(m: Model, n: usize, s: Sheet, k: Kept, sure: bool) -> Trial
    requires { n ≤ 15 }
{
    if !fits(s, k) {
        return no_answer(false);
    }
    let r = reading_of(k);
    match r.verdict {
        Err(_) => no_answer(false),
        Ok(()) => answered(m, n, r.model, sure),
    }
}

// The line of an item, by its number.
fn line_of(item: usize) -> u64 {
    if 16 < item { 0 } else { item as u64 + 3 }
}

// Refusal 15, also where there is no room at all.
fn is_hindered(s: Sheet, k: Kept, item: usize) -> bool {
    let line = line_of(item);
    is_refused(k, 15, line) && is_refused(converted(s, s.len, 0), 15, line)
}

// Five headings, the limit, three lines for each item and one for each need.
fn last_line(m: Model, n: usize) -> u64
    requires { n ≤ 15 }
{
    let t = m.needs.count;
    if 16 < t {
        return 0;
    }
    (3 * n + t + 6) as u64
}

// Without its last byte a sheet has a malformed last line, whatever its items.
fn is_cut(m: Model, n: usize, s: Sheet) -> bool
    requires { n ≤ 15 }
{
    s.len != 0 && is_refused(converted(s, s.len - 1, ROOM), 2, last_line(m, n))
}

fn reply_trial(m: Model, n: usize, s: Sheet, f: Fate, sure: bool) -> Trial
    requires { n ≤ 15 }
{
    let k = converted(s, s.len, ROOM);
    match f.reason {
        Reason::NoBlank => no_answer(is_same(s, k) && fits(s, k)),
        Reason::Harmless => converted_trial(m, n, s, k, sure),
        Reason::NothingLeft | Reason::Crossing | Reason::Named => {
            no_answer(is_hindered(s, k, f.item))
        }
    }
}

fn trial_of(m: Model, n: usize, s: Sheet, f: Fate, sure: bool) -> Trial
    requires { n ≤ 15 }
{
    let t = reply_trial(m, n, s, f, sure);
    Trial {
        agrees: t.agrees && is_cut(m, n, s),
        met: t.met,
        kind: t.kind,
    }
}

// ---- printing

fn put_on_one_line(out: &mut [u8]) {
    for b in out {
        if *b == b'\n' {
            *b = b'/';
        }
    }
}

// The first n bytes, with `/` for a line's end.
fn print_bytes(bytes: [u8; ROOM], n: usize) {
    let mut out = bytes;
    put_on_one_line(&mut out);
    print(first(&out, n));
}

fn print_refusal(f: Refusal) {
    print(b"refused");
    print_field(f.number);
    print_field(f.line);
}

// What the converter replies, and what the planner answers to it.
fn print_reply(k: Kept) {
    match k.told {
        Err(f) => print_refusal(f),
        Ok(n) => {
            print_bytes(k.bytes, n);
            print(b": ");
            print_kind(plan_within(reading_of(k).model, Sense::Sure, STEPS));
        }
    }
}

fn print_converted(s: Sheet, n: usize) {
    print_bytes(s.bytes, n);
    print(b" -> ");
    print_reply(converted(s, n, ROOM));
    print(b"\n");
}

// ---- chosen sheets

fn show(m: Model) {
    let s = sheet_of(m);
    print_converted(s, s.len);
}

// Without its last byte.
fn show_cut(m: Model) {
    let s = sheet_of(m);
    let n = s.len;
    if 0 < n {
        print_converted(s, n - 1);
    }
}

fn needing(m: Model, item: usize, cover: usize) -> Model {
    let need = Need {
        item: item,
        cover: cover,
    };
    setters::with_need_count(setters::with_need(m, 0, need), 1)
}

// A need's number moves down; an item that stays has bounds that cross; a ray beside a blank item; weight or price alone makes no item blank.
fn show_converted() {
    let open = make::loose(make::item(0, 0, None, Some(7)));
    show(needing(
        make::first_of(20, 3, make::held(9, 13, 0, 2), open, make::held(3, 2, 0, 5)),
        3,
        1,
    ));
    show(make::two(4, make::free(0, 0), make::held(1, 1, 1, 0)));
    show(make::two(4, make::from_zero(-1, 1), make::held(0, 0, -2, 2)));
    show(make::two(4, make::held(0, 1, 0, 1), make::held(1, 0, 0, 1)));
}

// Bounds that cross, behind a harmless blank item, and the same sheet cut; a cover; an item that needs one; nothing would remain.
fn show_refused() {
    let x = make::held(1, 1, 0, 3);
    let blank = make::held(0, 0, 0, 1);
    let crossing = make::held(0, 0, 2, 1);
    show(make::first_of(4, 3, blank, x, crossing));
    show_cut(make::first_of(4, 3, blank, x, crossing));
    show(needing(make::first_of(4, 3, blank, blank, x), 3, 2));
    show(needing(make::first_of(4, 3, x, blank, crossing), 2, 1));
    show(make::two(4, blank, crossing));
}

// ---- drawn sheets

// How many sheets came back the same, were converted, by the kind of the answer, or were refused, by the reason; `moved` counts those converted in which a
// need's number moves, `behind` the hindering items with a blank item before them that does not hinder.
#[derive(Clone, Copy)]
struct Counts {
    same: u64,
    converted: u64,
    moved: u64,
    best: u64,
    met: u64,
    infeasible: u64,
    unbounded: u64,
    empty: u64,
    crossing: u64,
    named: u64,
    behind: u64,
    wrong: u64,
}

fn no_sheets() -> Counts {
    Counts {
        same: 0,
        converted: 0,
        moved: 0,
        best: 0,
        met: 0,
        infeasible: 0,
        unbounded: 0,
        empty: 0,
        crossing: 0,
        named: 0,
        behind: 0,
        wrong: 0,
    }
}

fn counted(c: Counts, r: Reason, moves: bool, behind: bool, t: Trial) -> Counts {
    let converted = matches!(r, Reason::Harmless);
    Counts {
        same: one_more(c.same, matches!(r, Reason::NoBlank)),
        converted: one_more(c.converted, converted),
        moved: one_more(c.moved, converted && moves),
        best: one_more(c.best, matches!(t.kind, Some(Kind::Optimal))),
        met: one_more(c.met, t.met),
        infeasible: one_more(c.infeasible, matches!(t.kind, Some(Kind::Infeasible))),
        unbounded: one_more(c.unbounded, matches!(t.kind, Some(Kind::Unbounded))),
        empty: one_more(c.empty, matches!(r, Reason::NothingLeft)),
        crossing: one_more(c.crossing, matches!(r, Reason::Crossing)),
        named: one_more(c.named, matches!(r, Reason::Named)),
        behind: one_more(c.behind, behind),
        wrong: one_more(c.wrong, !t.agrees),
    }
}

// Whether a blank item stands before the one that hinders.
fn is_behind(m: Model, f: Fate) -> bool {
    0 < f.item && f.item <= 16 && 0 < blanks_among(m, f.item - 1)
}

fn tried(c: Counts, m: Model, n: usize, sure: bool) -> Counts
    requires { n ≤ 15 }
{
    let f = fate_of(m, n);
    let s = sheet_of(m);
    let t = trial_of(m, n, s, f, sure);
    if !t.agrees {
        print(b"disagreement: ");
        print_converted(s, s.len);
    }
    counted(c, f.reason, moves_need(m, n), is_behind(m, f), t)
}

// Of so many pairs of items, and one more, about one is a need; no pair where the number is 0.
fn drawn(state: u64, n: usize, among: u64, z: Spans) -> DrawnProblem {
    let d = drawn_problem(state, n, z);
    if among == 0 {
        return with_drawn_blanks(d.problem, d.state);
    }
    let e = with_drawn_needs(d.problem, d.state, among);
    with_drawn_blanks(e.problem, e.state)
}

fn counts_of(seed: u64, sheets: u64, n: usize, among: u64, z: Spans) -> Counts
    requires { n ≤ 15 }
{
    let sure = z.absent == 0;
    let mut c = no_sheets();
    let mut state = seed;
    for _ in 0..sheets {
        let d = drawn(state, n, among, z);
        c = tried(c, d.problem, n, sure);
        state = d.state;
    }
    c
}

fn print_counts(c: Counts) {
    print_count(b": same ", c.same);
    print_count(b", converted ", c.converted);
    print_count(b" (needs moved ", c.moved);
    print_count(b"; best ", c.best);
    print_count(b", met ", c.met);
    print_count(b", infeasible ", c.infeasible);
    print_count(b", unbounded ", c.unbounded);
    print_count(b"), refused: nothing left ", c.empty);
    print_count(b", crossing ", c.crossing);
    print_count(b", named ", c.named);
    print_count(b" (behind a harmless one ", c.behind);
    print_count(b"); disagreements ", c.wrong);
    print(b"\n");
}

fn print_drawn(name: &[u8], seed: u64, n: usize, among: u64, z: Spans)
    requires { n ≤ 15 }
{
    let c = counts_of(seed, 1000, n, among, z);
    print(name);
    print_count(b", seed ", seed);
    print_count(b", sheets ", 1000);
    print_count(b", items ", n as u64);
    print_counts(c);
}

fn small(absent: u64, loose: u64, crossing: u64) -> Spans {
    Spans {
        weight: 4,
        price: 4,
        bound: 2,
        capacity: 9,
        unit: 1,
        absent: absent,
        loose: loose,
        crossing: crossing,
    }
}

fn main() {
    show_converted();
    show_refused();
    print_drawn(b"plain", 1, 2, 0, small(0, 1, 1));
    print_drawn(b"plain", 2, 4, 0, small(0, 2, 1));
    print_drawn(b"crossing", 3, 3, 0, small(0, 1, 4));
    print_drawn(b"crossing", 4, 5, 9, small(0, 1, 3));
    print_drawn(b"needs", 5, 2, 1, small(0, 0, 1));
    print_drawn(b"needs", 6, 3, 5, small(0, 1, 0));
    print_drawn(b"needs", 7, 4, 9, small(0, 1, 1));
    print_drawn(b"needs", 8, 5, 15, small(0, 2, 1));
    print_drawn(b"open", 9, 2, 0, small(2, 1, 1));
    print_drawn(b"open", 10, 3, 9, small(1, 2, 1));
    print_drawn(b"open", 11, 4, 11, small(1, 1, 1));
}
