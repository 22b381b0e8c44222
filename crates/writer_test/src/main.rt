// Tries the writer: write, read, write. What was written is read again as the same problem, and what was read is written as the same bytes;
// a buffer of just the sheet's length is enough, a byte less is refusal 11 and changes nothing, and behind a sheet the bytes stay.
//   drawn      records from the seeds that are printed, with the needs and the ranges of weights drawn for them, and rubbish beyond both counts
//   longest    the longest sheet there is
//   refused    records out of range, also where the buffer is short
// `disagreements` counts the records for which one of these fails.
#![tactic(auto)]

use knapsack::{Mark, Refusal};
use model::naming::no_need;
use model::{Model, ModelItem, Need, setters};
use trials::count::{one_more, print_count};
use trials::draw::{DrawnProblem, Spans, drawn_problem, small};
use trials::make;
use trials::needs::{with_all_needs, with_drawn_needs};
use trials::print::{print, print_field};
use trials::ranges::with_drawn_ranges;

// A buffer of '#', of which the first bytes were lent, and what was told.
#[derive(Clone, Copy)]
struct Kept {
    bytes: [u8; 1500],
    told: Result<usize, Refusal>,
}

fn written(m: Model, size: usize) -> Kept {
    let mut bytes = [b'#'; 1500];
    let told = writer::write_sheet(m, &mut bytes[..size.min(1500)]);
    Kept { bytes, told }
}

// ---- comparing

// From a place on nothing was written.
fn untouched(k: Kept, from: usize) -> bool {
    k.bytes.iter().skip(from).all(|b| *b == b'#')
}

fn is_written(k: Kept, n: usize) -> bool {
    k.told == Ok(n)
}

fn is_refused(k: Kept, number: u64) -> bool {
    k.told == Err(Refusal { number, line: 0 })
}

fn length_of(k: Kept) -> usize {
    k.told.unwrap_or(0)
}

// The record as the reader leaves it: blank items and unused lines beyond its counts.
fn as_read(m: Model) -> Model {
    let mut o = m;
    o.items[m.count.min(16)..].fill(model::no_item());
    o.needs.lines[m.needs.count.min(16)..].fill(no_need());
    o
}

// ---- write, read, write

// What was written is read as the same problem, and what was read is written as the same bytes.
fn comes_back(m: Model, k: Kept) -> bool {
    let r = sheet::read(&k.bytes[..length_of(k).min(1500)]);
    let o = r.model;
    r.verdict.is_ok() && o == as_read(m) && k.bytes == written(o, 1500).bytes
}

// Buffers of just the sheet's length, and of a byte less.
fn fits(m: Model, k: Kept) -> bool {
    let n = length_of(k);
    if n == 0 {
        return false;
    }
    let exact = written(m, n);
    let short = written(m, n - 1);
    is_written(exact, n) && k.bytes == exact.bytes && is_refused(short, 11) && untouched(short, 0)
}

fn holds(m: Model) -> bool {
    let k = written(m, 1500);
    untouched(k, length_of(k)) && comes_back(m, k) && fits(m, k)
}

// ---- drawn records

// So many lines and a record's, of counts that stay far below 2^64.
fn more_needs(n: u64, m: Model) -> u64 {
    let t = m.needs.count;
    if t <= 16 && n < 100000000 {
        n + t as u64
    } else {
        n
    }
}

// Out of range, with bounds that cross: no entry looks at it beyond the count.
fn rubbish() -> ModelItem {
    make::held(5000, -70000, 1, -1)
}

// The last place is rubbish where it is no item, and the last line of needs where it is none.
fn with_rubbish(m: Model) -> Model {
    let n = if m.count < 16 {
        setters::with_item(m, 15, rubbish())
    } else {
        m
    };
    if n.needs.count < 16 {
        return setters::with_need(n, 15, Need { item: 99, cover: 0 });
    }
    n
}

// With ranges for about half of the items.
fn drawn(state: u64, n: usize, among: u64, s: Spans) -> DrawnProblem {
    let d = drawn_problem(state, n, s);
    let e = with_drawn_needs(d.problem, d.state, among);
    let r = with_drawn_ranges(e.problem, e.state, 1, s.weight);
    DrawnProblem {
        problem: r.problem,
        state: e.state,
    }
}

fn print_drawn(seed: u64, problems: u64, n: usize, among: u64, s: Spans) {
    let mut state = seed;
    let mut needs: u64 = 0;
    let mut wrong: u64 = 0;
    for _ in 0..problems {
        let d = drawn(state, n, among, s);
        let m = d.problem;
        state = d.state;
        needs = more_needs(needs, m);
        wrong = one_more(wrong, !holds(with_rubbish(m)));
    }
    print_count(b"drawn, seed ", seed);
    print_count(b", problems ", problems);
    print_count(b", items ", n as u64);
    print_count(b", needs ", needs);
    print_count(b"; disagreements ", wrong);
    print(b"\n");
}

// Figures over the whole of their ranges.
fn wide(absent: u64) -> Spans {
    Spans {
        weight: 1000,
        price: 10000,
        bound: 10000,
        capacity: 10000,
        unit: 10000,
        absent,
        loose: 2,
        crossing: 1,
    }
}

// ---- chosen records

fn print_told(k: Kept) {
    match k.told {
        Ok(n) => {
            print(b" written");
            print_field(n as u64);
        }
        Err(f) => {
            print(b" refused");
            print_field(f.number);
            print_field(f.line);
        }
    }
}

fn show(name: &[u8], m: Model) {
    print(name);
    print(b":");
    let k = written(m, 1500);
    print_told(k);
    if holds(m) {
        print(b", comes back");
    }
    print(b"; in no bytes:");
    print_told(written(m, 0));
    print(b"\n");
}

// The longest lines of items; five of them may be named, and 16 lines of needs take five.
fn longest_items() -> [ModelItem; 16] {
    let x = make::held(-1000, -10000, -10000, -10000);
    let named = make::held(-1000, -10000, 10000, -10000);
    let mut items = [x; 16];
    items[11..].fill(named);
    items
}

// Two items of which the first may be named, and a need.
fn needy(y: ModelItem, item: usize, cover: usize) -> Model {
    let m = make::two(0, make::held(1, 1, 0, 1), y);
    make::needing(m, 0, item, cover)
}

fn show_chosen() {
    let x = make::held(-1000, -10000, -10000, -10000);
    let longest = make::record_of(-100000000, 16, longest_items());
    show(b"longest", with_all_needs(longest, 11));
    let free = make::free(0, 1);
    show(b"no bounds", make::record_of(0, 1, [free; 16]));
    show(b"refused, count 0", make::record_of(0, 0, [x; 16]));
    show(b"refused, count 17", make::record_of(0, 17, [x; 16]));
    show(b"refused, capacity", make::record_of(100000001, 1, [x; 16]));
    show(b"refused, figures", make::one(0, rubbish()));
    show(b"refused, blank", make::one(0, make::free(0, 0)));
    show(b"bounds that cross", make::one(0, make::held(1, 1, 1, 0)));
}

fn ranged(low: i64, high: i64, price: i64, lower: Option<i64>) -> ModelItem {
    ModelItem {
        mark: Mark::Integer,
        low,
        high,
        price,
        lower,
        upper: Some(3),
    }
}

fn show_range(name: &[u8], low: i64, high: i64, price: i64, lower: Option<i64>) {
    show(name, make::one(0, ranged(low, high, price, lower)));
}

fn show_ranges() {
    show_range(b"a range", -1000, 1000, 1, Some(0));
    show_range(b"a range from 0, price 0", 0, 1, 0, Some(0));
    show_range(b"refused, low above high", 1, -1, 1, Some(0));
    show_range(b"refused, low above high and price 0", 1, 0, 0, Some(0));
    show_range(b"refused, low out of range", -1001, 0, 1, Some(0));
    show_range(b"refused, high out of range", 0, 1001, 1, Some(0));
    show_range(b"refused, a range from below 0", 0, 1, 1, Some(-1));
    show_range(b"refused, a range with no lower bound", 0, 1, 1, None);
    let blank = make::free(0, 0);
    let odd = ranged(1, 0, 1, Some(0));
    show(
        b"refused, low above high behind a blank item",
        make::two(0, blank, odd),
    );
    show(
        b"refused, a blank item behind a range from below 0",
        make::two(0, ranged(0, 1, 1, Some(-1)), blank),
    );
    show(
        b"refused, needs before a range from below 0",
        needy(ranged(0, 1, 1, None), 1, 2),
    );
    show(
        b"refused, a range from below 0 behind needs",
        with_last(needy(make::held(2, 2, 0, 3), 2, 1)),
    );
}

// A third item, with a range and no lower bound.
fn with_last(m: Model) -> Model {
    setters::with_item(setters::with_count(m, 3), 2, ranged(0, 1, 1, None))
}

fn show_needs() {
    let y = make::held(2, 2, 0, 3);
    show(b"a need", needy(y, 2, 1));
    show(
        b"refused, 17 needs",
        setters::with_need_count(needy(y, 2, 1), 17),
    );
    show(b"refused, an item that needs itself", needy(y, 2, 2));
    show(b"refused, no such cover", needy(y, 2, 3));
    show(
        b"refused, a continuous item needs",
        needy(make::loose(y), 2, 1),
    );
    show(
        b"refused, a cover from below 0",
        needy(make::held(2, 2, -1, 3), 1, 2),
    );
}

fn main() {
    print_drawn(1, 200, 1, 0, small(1, 2));
    print_drawn(2, 200, 3, 2, small(2, 2));
    print_drawn(3, 200, 5, 3, wide(0));
    print_drawn(4, 200, 11, 9, wide(2));
    print_drawn(5, 200, 16, 30, wide(1));
    print_drawn(6, 100, 16, 5, wide(0));
    show_chosen();
    show_needs();
    show_ranges();
}
