// Counts, and how they are printed.
use crate::print::{print, print_number};

// One more, of counts that stay far below 2^64.
pub fn one_more(n: u64, counted: bool) -> u64 {
    if counted && n < 100000000 { n + 1 } else { n }
}

pub fn print_count(name: &[u8], n: u64) {
    print(name);
    print_number(n);
}
