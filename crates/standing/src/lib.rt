// A standing plan (paper 02, request 10): a problem and its replies, kept while pieces come and go. An item can be added at the end, be removed, or get
// another upper bound. A change is tried, then the changed problem is solved afresh; a refused change hands the plan back as it came.
#![tactic(auto)]

ghost use Rattle.std.specs.Prelude.{◌≡◌, cond, ◌≤◌, ◌<◌};
ghost use Rattle.model.specs.Records.{names_item, or_else, verdict};
ghost use Rattle.model.specs.Setters.{appended, appended_need};
ghost use Rattle.standing.specs.Changes.{
  Adding,
  Removing,
  Bounding,
  lowered,
  lowered_need,
  removed_to,
  removed,
  full_verdict,
  missing_verdict,
  only_verdict,
};
ghost use Rattle.standing.specs.Plans.{Holds, Opens, Tries, Changes};

use knapsack::Refusal;
use model::refusals::Reason;
use model::{Answers, Model, ModelItem, Need, Side, check_model, naming, setters};
use senses::plan_both;

// A problem and the replies to it, in both senses.
#[derive(Clone, Copy, PartialEq, Eq)]
pub struct Plan {
    pub model: Model,
    pub answers: Answers,
}

// What a change is told, and the plan after it.
#[derive(Clone, Copy)]
pub struct Changed {
    pub verdict: Result<(), Refusal>,
    pub plan: Plan,
}

// ---- without an item

// The new number of item j when item k goes.
fn lower(k: usize, j: usize) -> usize
    ensures { result ≡ lowered k j }
{
    if k < j { j - 1 } else { j }
}

fn lower_need(k: usize, x: Need) -> Need
    ensures { result ≡ lowered_need k x }
{
    Need {
        item: lower(k, x.item),
        cover: lower(k, x.cover),
    }
}

// The record with no items and no needs.
fn none_of(m: Model, k: usize) -> Model
    ensures { result ≡ removed_to m k 0 0 }
{
    setters::with_capacity(setters::empty_model(), m.capacity)
}

fn append_unless(q: Model, x: ModelItem, left: bool) -> Model
    requires { q.count < 16 }
    ensures { result ≡ cond left q (appended q x) }
{
    if left { q } else { setters::append(q, x) }
}

// The items but item k, the later ones moved down, and no needs as yet.
fn other_items(m: Model, k: usize) -> Model
    requires { m.count ≤ 16 }
    ensures { result ≡ removed_to m k m.count 0 }
{
    let mut q = none_of(m, k);
    for j in 0..m.count {
        q = append_unless(q, m.items[j], j + 1 == k);
    }
    q
}

// A need by the new numbers, unless it names item k.
fn append_other_need(q: Model, k: usize, x: Need) -> Model
    requires { q.needs.count < 16 }
    ensures { result ≡ cond (names_item x k) q (appended_need q (lowered_need k x)) }
{
    if naming::does_name(x, k) {
        q
    } else {
        setters::append_need(q, lower_need(k, x))
    }
}

// The record without item k; needs that name it go, the others get the new numbers.
fn without_item(m: Model, k: usize) -> Model
    requires { (m.count ≤ 16) × (m.needs.count ≤ 16) }
    ensures { result ≡ removed m k }
{
    let mut q = other_items(m, k);
    for j in 0..m.needs.count {
        q = append_other_need(q, k, m.needs.lines[j]);
    }
    q
}

// ---- what stands against a change

// 16: there is no room for an item more.
fn check_room(m: Model) -> Result<(), Refusal>
    ensures { result ≡ or_else (verdict m) (full_verdict m) }
{
    check_model(m)?;
    Reason::FullRecord.refuse_if(15 < m.count)
}

// 17: no item has that number.
fn check_number(m: Model, k: usize) -> Result<(), Refusal>
    ensures { result ≡ or_else (verdict m) (missing_verdict m k) }
{
    check_model(m)?;
    Reason::MissingItem.refuse_if(naming::is_wrong(m.count, k))
}

// 17, then 18: it is the only one.
fn check_removal(m: Model, k: usize) -> Result<(), Refusal>
    ensures { result ≡ or_else (or_else (verdict m) (missing_verdict m k)) (only_verdict m) }
{
    check_number(m, k)?;
    Reason::OnlyItem.refuse_if(m.count == 1)
}

// ---- plans

fn fresh(m: Model) -> Plan
    ensures { Holds m result }
{
    Plan {
        model: m,
        answers: plan_both(m),
    }
}

// The plan of the changed problem; or, if that is refused as a record, the plan as it came.
fn tried(p: Plan, m: Model) -> Changed
    ensures { Tries p m result }
{
    let verdict = check_model(m);
    let plan = fresh(m);
    match verdict {
        Ok(()) => Changed { verdict, plan },
        Err(_) => Changed { verdict, plan: p },
    }
}

// The first plan of a problem. A refused record is held with its refusal, and every change of it is refused.
pub fn open(m: Model) -> Changed
    ensures { Opens m result }
{
    Changed {
        verdict: check_model(m),
        plan: fresh(m),
    }
}

// With the item x at the end; 16.
pub fn add_item(p: Plan, x: ModelItem) -> Changed
    ensures { Changes (Adding x) p result }
{
    let m = p.model;
    let verdict = check_room(m);
    match verdict {
        Ok(()) => tried(p, setters::append(m, x)),
        Err(_) => Changed { verdict, plan: p },
    }
}

// Without item k, from 1: later numbers move down, and needs naming it go; 17, 18.
pub fn remove_item(p: Plan, k: usize) -> Changed
    ensures { Changes (Removing k) p result }
{
    let m = p.model;
    let verdict = check_removal(m, k);
    match verdict {
        Ok(()) => tried(p, without_item(m, k)),
        Err(_) => Changed { verdict, plan: p },
    }
}

// With another upper bound of item k, from 1; 17.
pub fn set_upper(p: Plan, k: usize, u: Option<i64>) -> Changed
    ensures { Changes (Bounding k u) p result }
{
    let m = p.model;
    let verdict = check_number(m, k);
    match verdict {
        Ok(()) => tried(p, setters::with_bound(m, Side::Upper, k - 1, u)),
        Err(_) => Changed { verdict, plan: p },
    }
}
