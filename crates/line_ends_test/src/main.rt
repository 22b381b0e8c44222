// The first byte 10 from a place on: texts of letters with one byte 10, one other byte at every place before and behind it, and every place
// to look from. 17 bytes are two blocks of eight and a tail.
#![tactic(auto)]

ghost use Rattle.std.specs.Prelude.{◌≤◌, ◌<◌};

use lines::scan::first_line_end;
use trials::count::{one_more, print_count};
use trials::print::print;

// The most bytes of a text; the places beyond its end that are tried too are up to FROM, and the last place of all.
const MOST: usize = 17;

const FROM: usize = 20;

const LAST: usize = 18_446_744_073_709_551_615;

// Found, not found, and replied to otherwise than here.
#[derive(Clone, Copy)]
struct Tally {
    found: u64,
    none: u64,
    wrong: u64,
}

// From the end down, so that the last one met is the first.
fn plain_end(s: &[u8], from: usize) -> Option<usize> {
    let mut first = None;
    for k in (from..s.len()).rev() {
        if s[k] == 10 {
            first = Some(k);
        }
    }
    first
}

fn print_wrong(s: &[u8], from: usize) {
    print_count(b"disagreement: from ", from as u64);
    print(b" in:\n");
    print(s);
    print(b"\n");
}

fn tried(t: Tally, s: &[u8], from: usize) -> Tally {
    let e = first_line_end(s, from);
    let right = e == plain_end(s, from);
    if !right {
        print_wrong(s, from);
    }
    Tally {
        found: one_more(t.found, e.is_some()),
        none: one_more(t.none, e.is_none()),
        wrong: one_more(t.wrong, !right),
    }
}

fn with_places(start: Tally, s: &[u8]) -> Tally {
    let mut t = start;
    for from in 0..FROM {
        t = tried(t, s, from);
    }
    t
}

fn text_with(end: usize, other: usize, b: u8) -> [u8; 17]
    requires { (end < 17) × (other < 17) }
{
    let mut bytes = [b'a'; 17];
    bytes[end] = 10;
    bytes[other] = b;
    bytes
}

fn with_text(t: Tally, bytes: [u8; 17], size: usize) -> Tally
    requires { size ≤ 17 }
{
    let known = tried(t, &bytes[..size], LAST);
    with_places(known, &bytes[..size])
}

fn with_others(start: Tally, size: usize, end: usize, b: u8) -> Tally
    requires { (size ≤ 17) × (end < 17) }
{
    let mut t = start;
    for other in 0..MOST {
        t = with_text(t, text_with(end, other, b), size);
    }
    t
}

fn with_ends(start: Tally, size: usize, b: u8) -> Tally
    requires { size ≤ 17 }
{
    let mut t = start;
    for end in 0..MOST {
        t = with_others(t, size, end, b);
    }
    t
}

fn with_sizes(start: Tally, b: u8) -> Tally {
    let mut t = start;
    for size in 0..=MOST {
        t = with_ends(t, size, b);
    }
    t
}

fn all_tried() -> Tally {
    let mut t = Tally {
        found: 0,
        none: 0,
        wrong: 0,
    };
    for b in 0..=255 {
        t = with_sizes(t, b);
    }
    t
}

fn main() {
    let t = all_tried();
    print_count(b"line ends: found ", t.found);
    print_count(b", none ", t.none);
    print_count(b"; disagreements ", t.wrong);
    print(b"\n");
}
