// The first sheet of the test load for three seeds that draw weight 0 and price 0 for item 1 (paper 02, request 9): its price is 1, and what is
// drawn behind it is what it was. The stored output was computed by a program that shares no code.
#![tactic(auto)]

use trials::bytes::first;
use trials::print::print;
use writer::write_sheet;

fn print_first(seed: u64) {
    let d = drawing::draw_problem(seed);
    let mut out = text::space();
    if let Ok(n) = write_sheet(d.problem, &mut out) {
        print(first(&out, n));
    }
}

fn main() {
    print_first(127353461);
    print_first(137727648);
    print_first(152332389);
}
