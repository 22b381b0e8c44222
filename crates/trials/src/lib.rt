// What the programs of the gate share that try many problems. Nothing of it is part of the planner, and the planner's crates take no
// part in it: an answer is judged by the point check and by plain sums.
#![tactic(auto)]

pub mod bytes; // the first of a text's bytes
pub mod count; // counts, and how they are printed
pub mod draw; // problems from a seed
pub mod enumerate; // the best value of a small problem, by trying every point
pub mod exact; // sums and products that are exact, or far off
pub mod holds; // whether a point or a ray is one
pub mod kept; // whether a point keeps the needs
pub mod make; // items and problems made by hand
pub mod needs; // needs from a seed
pub mod outcome; // an answer beside plain enumeration
pub mod points; // the points of a problem beside the one that an answer shows
pub mod print; // numbers, items, problems and kinds in paper 01's words
pub mod ranges; // weights known within ranges, from a seed
pub mod read; // numbers, items and needs from a program's input
pub mod tally; // what answers come to, counted
