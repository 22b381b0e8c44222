// Tries the point check, the least pair and the part of a sheet that holds a line on drawn inputs, each against plain computing here:
//   points     refusals 7 and 8, yes with the value or no with the item, against sums over one divisor
//   pairs      refusals 9 and 10, the steps or none, against all steps within ±REACH
//   lines      refusals 1 and 2 or the line's bytes, against a count of the bytes 10
// All is drawn from the seeds that are printed. `disagreements` counts the replies that differ, and each is printed before the counts.
#![tactic(auto)]

mod points; // the point check
mod pairs; // the least pair
mod line_parts; // the part that holds a line

fn main() {
    points::show_points();
    pairs::show_pairs();
    line_parts::show_lines();
}
