// The part that holds a line, on drawn bytes: letters and bytes 10, at most 12 of them, and every line number up to two too many.
ghost use Rattle.std.specs.Prelude.{◌≤◌};

use knapsack::Refusal;
use lines::scan::{check_line, line_part};
use trials::count::{one_more, print_count};
use trials::draw::{below, next};
use trials::print::print;

// ---- what is drawn

#[derive(Clone, Copy)]
struct DrawnText {
    bytes: [u8; 12],
    state: u64,
}

fn drawn_byte(state: u64) -> u8 {
    match below(state, 3) {
        0 => b'a',
        1 => b'b',
        2 => b' ',
        _ => b'\n',
    }
}

fn drawn_text(state: u64) -> DrawnText {
    let mut bytes = [0u8; 12];
    let mut now = state;
    for b in &mut bytes {
        now = next(now);
        *b = drawn_byte(now);
    }
    DrawnText {
        bytes: bytes,
        state: now,
    }
}

// ---- a plain scan

fn line_ends(s: &[u8]) -> u64 {
    let mut n: u64 = 0;
    for b in s {
        n = one_more(n, *b == b'\n');
    }
    n
}

fn byte_at(s: &[u8], at: usize) -> u8 {
    if at < s.len() { s[at] } else { b'\n' }
}

// The line of the next byte, how many bytes of the line asked for are behind, and whether the part has them.
#[derive(Clone, Copy)]
struct Walk {
    line: u64,
    met: u64,
    same: bool,
}

fn walked(w: Walk, b: u8, line: u64, part: &[u8]) -> Walk {
    let inside = w.line == line && b != b'\n';
    let same = !inside || byte_at(part, w.met as usize) == b;
    Walk {
        line: one_more(w.line, b == b'\n'),
        met: one_more(w.met, inside),
        same: w.same && same,
    }
}

// Whether the part is the line with a number, which the text closes.
fn is_line(s: &[u8], line: u64, part: &[u8]) -> bool {
    let mut w = Walk {
        line: 1,
        met: 0,
        same: true,
    };
    for b in s {
        w = walked(w, *b, line, part);
    }
    w.same && w.met == part.len() as u64
}

// ---- the replies against it

fn is_refused(v: Result<(), Refusal>, number: u64, line: u64) -> bool {
    matches!(v, Err(f) if f.number == number && f.line == line)
}

fn is_accepted(v: Result<(), Refusal>) -> bool {
    matches!(v, Ok(()))
}

fn agrees(s: &[u8], ends: u64, line: u64, v: Result<(), Refusal>, part: &[u8]) -> bool {
    if line == 0 {
        return is_refused(v, 1, 0) && part.len() == 0;
    }
    if ends < line {
        return is_refused(v, 2, line) && part.len() == 0;
    }
    is_accepted(v) && is_line(s, line, part)
}

// ---- counts

// Refused, given, and replied to otherwise than here.
#[derive(Clone, Copy)]
struct Tally {
    none: u64,
    lines: u64,
    wrong: u64,
}

fn print_wrong(s: &[u8], line: u64) {
    print_count(b"disagreement: line ", line);
    print(b" of:\n");
    print(s);
    print(b"\n");
}

fn tried(t: Tally, s: &[u8], ends: u64, line: u64) -> Tally {
    let v = check_line(s, line);
    let right = agrees(s, ends, line, v, line_part(s, line));
    if !right {
        print_wrong(s, line);
    }
    let given = is_accepted(v);
    Tally {
        none: one_more(t.none, !given),
        lines: one_more(t.lines, given),
        wrong: one_more(t.wrong, !right),
    }
}

// The line numbers from 0 to two more than the text closes.
fn with_lines(start: Tally, s: &[u8], ends: u64) -> Tally {
    let mut t = start;
    for line in 0..15 {
        if line <= one_more(one_more(ends, true), true) {
            t = tried(t, s, ends, line);
        }
    }
    t
}

fn with_text(t: Tally, bytes: [u8; 12], size: usize) -> Tally
    requires { size ≤ 12 }
{
    let ends = line_ends(&bytes[..size]);
    with_lines(t, &bytes[..size], ends)
}

fn tally_of(seed: u64, texts: u64) -> Tally {
    let mut t = Tally {
        none: 0,
        lines: 0,
        wrong: 0,
    };
    let mut state = seed;
    for _ in 0..texts {
        let d = drawn_text(state);
        let size = below(next(d.state), 12);
        t = with_text(t, d.bytes, size as usize);
        state = next(d.state);
    }
    t
}

pub fn show_lines() {
    let t = tally_of(51, 4000);
    print_count(b"lines, seed ", 51);
    print_count(b", texts ", 4000);
    print_count(b": refused ", t.none);
    print_count(b", given ", t.lines);
    print_count(b"; disagreements ", t.wrong);
    print(b"\n");
}
