// Blank items, of weight 0, low and high, and price 0, left out of a record (paper 02, request 9): drop_blanks moves the later items down and gives the needs their
// new numbers, hindrance finds the item that stands against it. The kind of reply and the best value stay: proofs/Dropped (dropped-gives).
#![tactic(auto)]

ghost use Rattle.std.specs.Prelude.{◌≡◌, cond, suc, ◌-◌, ◌≤◌, ◌<◌};
ghost use Rattle.model.specs.declared.Blanks.TheVariants as blanks;
ghost use Rattle.model.specs.Records.{is_blank, need_at, Numbers, AdmissibleBy};
ghost use Rattle.dropping.specs.Kept.{rank};
ghost use Rattle.dropping.specs.Dropping.{kept, renumbered, dropped_to, dropped, appended_unless_blank};
ghost use Rattle.dropping.specs.Dropping.{named_in, hinders, first_hindered, hindrance};

use model::{Model, ModelItem, Need, Needs, do_bounds_cross, is_blank, naming, setters};

// ---- the items

// The record with no items and no needs.
fn none_of(m: Model) -> Model
    ensures { result ≡ dropped_to m 0 0 }
{
    setters::with_capacity(setters::empty_model(), m.capacity)
}

fn append_unless_blank(q: Model, x: ModelItem) -> Model
    requires { q.count < 16 }
    ensures { result ≡ appended_unless_blank q x }
{
    if is_blank(x) {
        q
    } else {
        setters::append(q, x)
    }
}

// The items that are not blank, moved down, and no needs as yet.
fn kept_items(m: Model) -> Model
    requires { m.count ≤ 16 }
    ensures { result ≡ dropped_to m m.count 0 }
{
    let mut q = none_of(m);
    for k in 0..m.count {
        q = append_unless_blank(q, m.items[k]);
    }
    q
}

// ---- the needs

fn count_unless_blank(n: usize, x: ModelItem) -> usize
    requires { n < 16 }
    ensures { result ≡ cond (is_blank x) n (suc n) }
{
    if is_blank(x) { n } else { n + 1 }
}

// How many of the items before place k are kept: where the item there goes.
fn rank_of(m: Model, k: usize) -> usize
    requires { k ≤ 16 }
    ensures { result ≡ rank (kept m) k }
{
    let mut n = 0;
    for i in 0..k {
        n = count_unless_blank(n, m.items[i]);
    }
    n
}

// The new number of item k.
fn renumber(m: Model, k: usize) -> usize
    requires { (1 ≤ k) × (k ≤ 16) }
    ensures { result ≡ suc (rank (kept m) (k - 1)) }
{
    rank_of(m, k - 1) + 1
}

// A need by the new numbers.
fn renumber_need(m: Model, need: Need) -> Need
    requires { Numbers 16 need.item need.cover }
    ensures { result ≡ renumbered (kept m) need }
{
    Need {
        item: renumber(m, need.item),
        cover: renumber(m, need.cover),
    }
}

// The record with its blank items left out, and blank places and unused lines behind the others.
pub fn drop_blanks(m: Model) -> Model
    requires { AdmissibleBy blanks.Kept m }
    ensures { result ≡ dropped m }
{
    let mut q = kept_items(m);
    for j in 0..m.needs.count {
        q = setters::with_need(q, j, renumber_need(m, m.needs.lines[j]));
    }
    setters::with_need_count(q, m.needs.count)
}

// ---- what stands against it

// Whether a line of needs names item k.
fn is_named(ns: Needs, k: usize) -> bool
    requires { ns.count ≤ 16 }
    ensures { result ≡ named_in ns.count (need_at ns) k }
{
    for j in 0..ns.count {
        if naming::does_name(ns.lines[j], k) {
            return true;
        }
    }
    false
}

// Whether the item at place k is blank and cannot be left out: its bounds cross, or a need names it.
fn is_hindered(m: Model, k: usize) -> bool
    requires { (k < 16) × (m.needs.count ≤ 16) }
    ensures { result ≡ hinders m k }
{
    let x = m.items[k];
    is_blank(x) && (do_bounds_cross(x) || is_named(m.needs, k + 1))
}

fn first_hindered(m: Model) -> usize
    requires { (m.count ≤ 16) × (m.needs.count ≤ 16) }
    ensures { result ≡ first_hindered m }
{
    for k in 0..m.count {
        if is_hindered(m, k) {
            return k;
        }
    }
    m.count
}

// The place of the item that stands against leaving out the blank ones: the first if nothing would remain, else the first blank one that cannot be left
// out; the count if there is none.
pub fn hindrance(m: Model) -> usize
    requires { (m.count ≤ 16) × (m.needs.count ≤ 16) }
    ensures { result ≡ hindrance m }
{
    if rank_of(m, m.count) == 0 {
        0
    } else {
        first_hindered(m)
    }
}
