// What `watch` prints (paper 02, request 13): the falls of a record or a sheet as text, by value or in a lent buffer. Lines `k d`, by smallest fall,
// `none` last, equals by item number; a reply that is no best point is printed alone, as `charge` prints one. It is the sure reply, also where the
// possible one shows a best point.
// The order is that of the relaxation: a fall d stands for an item of weight 1 and price -d, none for one of weight 0, which come last.
#![tactic(auto)]

ghost use Rattle.std.specs.Prelude.{◌≡◌, ◌+◌, ◌*◌, ◌≤◌, ◌<◌, get_or, length};
ghost use Rattle.ordering.specs.Ranking.{Places, Sorted};
ghost use Rattle.ranging.specs.Ranging.{FallsOf};
ghost use Rattle.text.specs.Buffer.{Put, Shows, told, filled, noted};
ghost use Rattle.listing.specs.Printing.{unless_refused};
ghost use Rattle.sheet.specs.Reading.{read_sheet};
ghost use Rattle.watching.specs.Watching.{
  fall_item,
  watch_order,
  FallItems,
  SmallFalls,
  fall_line,
  fall_lines,
  watched,
  ReadFalls,
  Watches,
  WatchLists,
};

use knapsack::{Item, Kind, Mark, Problem, Refusal, blank_item, with_item};
use listing::text_one;
use model::Model;
use ordering::{Ranking, rank};
use planner::is_optimal;
use ranging::{Falls, no_falls, price_falls};
use sheet::{Reading, read};
use solver::no_point;
use text::{Text, hand_over, put_natural, put_word};

// ---- the order

fn fall_item(d: u64) -> Item
    requires { d ≤ 20000 }
    ensures { result ≡ fall_item d }
{
    if d == 0 {
        return blank_item();
    }
    let n = d as i64;
    Item {
        mark: Mark::Integer,
        weight: 1,
        price: 0 - n,
        lower: None,
        upper: None,
    }
}

fn blank_items() -> [Item; 16]
    ensures { length result ≡ 16 }
{
    let x = blank_item();
    [x; 16]
}

fn fall_items(of: [u64; 16], n: usize) -> Problem
    requires { (n ≤ 16) × SmallFalls of }
    ensures { FallItems of n n result }
{
    let mut p = Problem {
        items: blank_items(),
        count: n,
        capacity: 0,
    };
    for k in 0..n {
        p = with_item(p, k, fall_item(of[k]));
    }
    p
}

// The places of n items by their falls.
fn fall_order(of: [u64; 16], n: usize) -> Ranking
    requires { (n ≤ 16) × SmallFalls of }
    ensures { Sorted (λ k. fall_item (get_or of k 0)) n result.at }
{
    rank(fall_items(of, n))
}

// ---- the text

fn put_fall(out: &mut [u8], at: usize, k: usize, d: u64) -> usize
    requires { (at + 42 ≤ length out.old) × (k < 16) }
    ensures { Put 42 at (fall_line k d) out.old out.new result }
{
    let number = k as u64 + 1;
    let next = put_natural(out, at, number, b' ');
    if d == 0 {
        put_word(out, next, b"none\n")
    } else {
        put_natural(out, next, d, b'\n')
    }
}

fn put_falls(out: &mut [u8], of: [u64; 16], at: [usize; 16], n: usize) -> usize
    requires { (n ≤ 16) × ((42 * n ≤ length out.old) × Places at) }
    ensures { Put (42 * n) 0 (fall_lines (λ k. get_or of k 0) (λ u. get_or at u 0) n) out.old out.new result }
{
    let mut next = 0;
    for u in 0..n {
        let k = at[u];
        next = put_fall(out, next, k, of[k]);
    }
    next
}

fn fall_lines(of: [u64; 16], n: usize) -> Text
    requires { (n ≤ 16) × SmallFalls of }
    ensures { Shows (fall_lines (λ k. get_or of k 0) (watch_order (λ k. get_or of k 0) n) n) result }
{
    let order = fall_order(of, n);
    let mut bytes = text::space();
    let len = put_falls(&mut bytes, of, order.at, n);
    Text { bytes, len }
}

// The text of falls about n items.
fn falls_text(w: Falls, n: usize) -> Text
    requires { SmallFalls w.of }
    ensures { Shows (watched n w) result }
{
    if is_optimal(w.answer) {
        fall_lines(w.of, n.min(16))
    } else {
        text_one(w.answer, n)
    }
}

// The same at the start of a lent buffer, whatever the answer's kind.
fn list_text(w: Falls, n: usize, out: &mut [u8]) -> Result<usize, Refusal>
    requires { SmallFalls w.of }
    ensures value { result ≡ told (watched n w) out.old }
    ensures out_after { out.new ≡ filled (watched n w) out.old }
{
    let t = falls_text(w, n);
    hand_over(&t.bytes[..t.len], out)
}

// A refusal is told itself and writes nothing.
fn list_watched(w: Falls, n: usize, out: &mut [u8]) -> Result<usize, Refusal>
    requires { SmallFalls w.of }
    ensures value { result ≡ unless_refused w.answer.kind noted (told (watched n w) out.old) }
    ensures out_after { out.new ≡ unless_refused w.answer.kind (λ f. out.old) (filled (watched n w) out.old) }
{
    if let Kind::Refused(f) = w.answer.kind {
        return Err(f);
    }
    list_text(w, n, out)
}

// ---- from end to end

// The falls of what was read.
fn falls_read(r: Reading) -> Falls
    ensures { ReadFalls r result × SmallFalls result.of }
{
    let v = r.verdict;
    let m = r.model;
    match v {
        Ok(()) => price_falls(m),
        Err(f) => no_falls(no_point(Kind::Refused(f))),
    }
}

// What is printed for a sheet.
pub fn watch_text(sheet: &[u8]) -> Text
    ensures { Watches sheet.now result }
{
    let r = read(sheet);
    let w = falls_read(r);
    let m = r.model;
    falls_text(w, m.count)
}

// The text of the falls of a record in a lent buffer: its refusal, or refusal 11 if the buffer is too short, and no byte changes; else the text at the
// start of the buffer, and the bytes behind it stay.
pub fn list_falls(m: Model, out: &mut [u8]) -> Result<usize, Refusal>
    ensures { WatchLists (FallsOf m) m.count out.old out.new result }
{
    let w = price_falls(m);
    list_watched(w, m.count, out)
}

// The same for a sheet: its own refusal, with its line, comes first.
pub fn list_sheet_falls(sheet: &[u8], out: &mut [u8]) -> Result<usize, Refusal>
    ensures { WatchLists (ReadFalls (read_sheet sheet.now)) (read_sheet sheet.now).model.count out.old out.new result }
{
    let r = read(sheet);
    let w = falls_read(r);
    let m = r.model;
    list_watched(w, m.count, out)
}
