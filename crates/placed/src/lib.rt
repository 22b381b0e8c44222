// The answer of a prepared problem with the optimal point that comes first: paper 02, "Always the same charge". It is owed where every item has a
// lower bound; else the point of the answer stays.
#![tactic(auto)]

ghost use Rattle.std.specs.Prelude.{◌≡◌, true, ◌≤◌};
ghost use Rattle.ceiling.specs.Sizes.{Spanned};
ghost use Rattle.firsts.specs.Leading.{OptimalAt, FirstBest, PointWrites};
ghost use Rattle.greedy.specs.Fill.{at};
ghost use Rattle.setting.specs.Ready.{ReadySetting};
ghost use Rattle.settling.specs.Settling.{FirstPlace};
ghost use Rattle.placed.specs.Placed.{HasLower, Showable, FirstShown};

use arith::Fraction;
use firsts::{Lead, first_point};
use knapsack::{Answer, Problem, is_absent};
use setting::Setting;

// Whether every item has a lower bound.
pub fn all_lower(p: Problem) -> bool
    requires { p.count ≤ 16 }
    ensures { HasLower p result }
{
    for k in 0..p.count {
        if is_absent(p.items[k].lower) {
            return false;
        }
    }
    true
}

// The first point of a box. The scales' cells are lent from here, so that only an answer that needs them pays for them.
fn first_lead(s: Setting, x: [i64; 16], first: bool) -> Lead
    requires ready_setting { ReadySetting s × (Spanned s.cols s.ends × OptimalAt s (at x)) }
    requires first_place { first ≡ true → FirstPlace s.cols s.ends s.level s.levels 1 (at x) }
    ensures first_best { FirstBest s result }
    ensures point_writes { PointWrites s (at x) first result.written }
{
    let mut cells = [0u64; 65535];
    first_point(s, x, first, &mut cells)
}

// An answer, and how many cells the scales wrote for it.
#[derive(Clone, Copy)]
pub struct Placed {
    pub answer: Answer,
    pub cells: u64,
}

fn with_point(a: Answer, point: [Fraction; 16]) -> Answer
    ensures { result ≡ record { kind = a.kind; point = point; steps = a.steps; value = a.value } }
{
    Answer { point, ..a }
}

fn placed_at(a: Answer, cells: u64) -> Placed
    ensures { result ≡ record { answer = a; cells = cells } }
{
    Placed { answer: a, cells }
}

// The optimal answer a with the point that comes first; x is an optimal place of the box, and if first, known to come first where no continuous item can
// change.
pub fn shown_first(p: Problem, s: Setting, x: [i64; 16], first: bool, a: Answer) -> Placed
    requires showable { Showable p s (at x) a }
    requires first_place { first ≡ true → FirstPlace s.cols s.ends s.level s.levels 1 (at x) }
    ensures { FirstShown p first result }
{
    if all_lower(p) {
        let l = first_lead(s, x, first);
        return placed_at(with_point(a, l.point), l.written);
    }
    placed_at(a, 0)
}
