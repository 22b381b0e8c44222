// Plans paper 01's rows and prints the replies; lists some in buffers that are a byte too short, just long enough, and longer; and
// plans thousands of drawn small problems, each of which is also tried by plain enumeration (trials::outcome says when the two agree).
// A problem on which they disagree is printed. Some are planned with no step of the search or one, so that the scales answer.
#![tactic(auto)]

mod rows; // paper 01's rows
mod ranged; // weights known within ranges
mod texts; // the text entry

ghost use Rattle.std.specs.Prelude.{◌≤◌};

use knapsack::Answer;
use model::{Model, Sense};
use planner::plan_within;
use solver::STEPS;
use trials::draw::{Spans, drawn_problem, small};
use trials::outcome::outcome_of;
use trials::print::{print, print_kind, print_problem};
use trials::tally::{Tally, no_answers, print_tally, tallied};

const REACH: i64 = 20;

fn print_wrong(p: Model, a: Answer) {
    print(b"disagreement: ");
    print_problem(p);
    print(b": ");
    print_kind(a);
    print(b"\n");
}

// One problem more. Where bounds are absent, the best points of some are beyond the reach.
fn tried(t: Tally, p: Model, n: usize, open: bool, most: u64) -> Tally
    requires { n ≤ 15 }
{
    let a = plan_within(p, Sense::Sure, most);
    let o = outcome_of(p, a, n, REACH, !open);
    if !o.agrees {
        print_wrong(p, a);
    }
    tallied(t, a.kind, o)
}

// What so many problems of n items each come to, in so many steps at most.
fn tally_of(seed: u64, problems: u64, n: usize, z: Spans, most: u64) -> Tally
    requires { n ≤ 15 }
{
    let open = z.absent > 0;
    let mut t = no_answers();
    let mut state = seed;
    for _ in 0..problems {
        let d = drawn_problem(state, n, z);
        t = tried(t, d.problem, n, open, most);
        state = d.state;
    }
    t
}

fn drawn_within(name: &[u8], most: u64, seed: u64, problems: u64, n: usize, z: Spans)
    requires { n ≤ 15 }
{
    let t = tally_of(seed, problems, n, z, most);
    print_tally(name, seed, problems, n, t);
}

fn drawn(name: &[u8], seed: u64, problems: u64, n: usize, z: Spans)
    requires { n ≤ 15 }
{
    drawn_within(name, STEPS, seed, problems, n, z);
}

fn integer_problems() {
    drawn(b"integer", 1, 500, 1, small(0, 0));
    drawn(b"integer", 2, 2000, 2, small(0, 0));
    drawn(b"integer", 3, 2000, 3, small(0, 0));
    drawn(b"integer", 4, 1000, 4, small(0, 0));
}

fn mixed_problems() {
    drawn(b"mixed", 11, 500, 1, small(0, 2));
    drawn(b"mixed", 12, 2000, 2, small(0, 2));
    drawn(b"mixed", 13, 2000, 3, small(0, 2));
    drawn(b"mixed", 14, 1000, 4, small(0, 2));
    drawn(b"continuous", 15, 1000, 4, small(0, 4));
}

fn open_problems() {
    drawn(b"integer, open", 21, 500, 1, small(1, 0));
    drawn(b"integer, open", 22, 2000, 2, small(2, 0));
    drawn(b"integer, open", 23, 2000, 3, small(1, 0));
    drawn(b"integer, open", 26, 1000, 4, small(1, 0));
    drawn(b"mixed, open", 24, 2000, 2, small(1, 2));
    drawn(b"mixed, open", 25, 2000, 3, small(1, 2));
    drawn(b"mixed, open", 27, 2000, 4, small(1, 2));
}

// No search: the scales have no incumbent.
fn without_steps() {
    drawn_within(b"no steps, integer", 0, 31, 1000, 2, small(0, 0));
    drawn_within(b"no steps, integer", 0, 32, 1000, 4, small(0, 0));
    drawn_within(b"no steps, mixed", 0, 33, 1000, 3, small(0, 2));
    drawn_within(b"no steps, mixed", 0, 34, 1000, 4, small(0, 2));
    drawn_within(b"no steps, integer, open", 0, 35, 1000, 3, small(1, 0));
    drawn_within(b"no steps, mixed, open", 0, 36, 1000, 3, small(1, 2));
}

// One step: the first place is the incumbent, if it fits.
fn with_one_step() {
    drawn_within(b"one step, integer", 1, 41, 1000, 3, small(0, 0));
    drawn_within(b"one step, integer", 1, 42, 1000, 4, small(0, 0));
    drawn_within(b"one step, mixed", 1, 43, 1000, 4, small(0, 2));
    drawn_within(b"one step, integer, open", 1, 44, 1000, 4, small(1, 0));
    drawn_within(b"one step, mixed, open", 1, 45, 1000, 4, small(1, 2));
}

fn main() {
    rows::show_rows();
    texts::show_texts();
    integer_problems();
    mixed_problems();
    open_problems();
    without_steps();
    with_one_step();
    ranged::show_senses();
}
