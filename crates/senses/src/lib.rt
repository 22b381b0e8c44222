// The planner in both senses (paper 02, request 11): the sure answer and the possible one.
#![tactic(auto)]

ghost use Rattle.model.specs.declared.Sense.TheVariants.{Sure, Possible};
ghost use Rattle.model.specs.Promises.{Planned};
ghost use Rattle.senses.specs.Both.{PlannedBoth};

use knapsack::Answer;
use model::{Answers, Model, Sense, some_range};
use planner::plan;

// The answer in the possible sense. Where every weight is one figure the two senses are one problem, which is not solved twice.
fn possible_beside(m: Model, sure: Answer) -> Answer
    requires { Planned Sure m sure }
    ensures { Planned Possible m result }
{
    if some_range(m) {
        return plan(m, Sense::Possible);
    }
    sure
}

// The planner's answers to a record, in both senses.
pub fn plan_both(m: Model) -> Answers
    ensures { PlannedBoth m result }
{
    let sure = plan(m, Sense::Sure);
    let possible = possible_beside(m, sure);
    Answers { sure, possible }
}
