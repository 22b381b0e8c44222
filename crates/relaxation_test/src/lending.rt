// The public entry over a lent list, called with the first items of a local array.
ghost use Rattle.relaxation_test.specs.Lends.{Lends};

use crate::sheets::Sheet;
use knapsack::Answer;
use model::ModelItem;
use relaxation::relax_with;

// What a call leaves: its answer, and the list as it stands afterwards.
#[derive(Clone, Copy)]
pub struct Lent {
    pub answer: Answer,
    pub items: [ModelItem; 18],
}

pub fn relaxed(s: Sheet) -> Lent
    ensures { Lends s result }
{
    let mut items = s.items;
    let answer = relax_with(s.capacity, &mut items[..s.count], s.terms);
    Lent { answer, items }
}
