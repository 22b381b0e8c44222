// A written sheet, edited. An edit names a part of the sheet, says what of it goes, and in quotes which bytes stand there instead:
//   item 2 "X 1 2"           the line, without its byte 10
//   item 2 field 3 "10001"   a field of it
//   item 2 on "W 9"          the line and all behind it
//   item 2 before "\0a"      nothing
// The parts are `limit heading`, `limit 1`, `items heading`, `item 2`, `lower heading`, `lower 1`, `upper heading`, `upper 1`, `needs heading`,
// `needs 1` and `sheet end`; a number counts the section's lines. A row has its edits in the order of the sheet. `\0a` is the byte with these two
// hexadecimal digits, `\*90:0a` has it 90 times.
ghost use Rattle.std.specs.Prelude.{◌≤◌};

use lines::scan::{after_word, line_at};
use trials::read::{places, read_number, skip};

// The bytes of the sheet that go: from a place up to another.
#[derive(Clone, Copy)]
struct Span {
    from: usize,
    to: usize,
}

// A byte so many times, and the place behind it in the row.
#[derive(Clone, Copy)]
struct Run {
    byte: u8,
    times: u64,
    next: usize,
}

// The edited sheet up to len, the sheet as it was up to done, the row up to at; the line of the last edit.
#[derive(Clone, Copy)]
pub struct Progress {
    pub len: usize,
    pub done: usize,
    pub at: usize,
    pub line: u64,
}

// ---- places

pub fn byte_at(s: &[u8], at: usize) -> u8 {
    if at < s.len() { s[at] } else { 0 }
}

// The place behind one byte.
pub fn past(s: &[u8], at: usize) -> usize {
    if at < s.len() { at + 1 } else { at }
}

// The next place that holds a byte, or the end.
pub fn find(s: &[u8], from: usize, b: u8) -> usize {
    for at in from..s.len() {
        if s[at] == b {
            return at;
        }
    }
    from.max(s.len())
}

// The place of the n-th line, or the n-th field, from a place on: each ends with the byte b.
fn nth(s: &[u8], from: usize, b: u8, n: u64) -> usize {
    let mut at = from;
    for _ in 1..n {
        at = past(s, find(s, at, b));
    }
    at
}

// ---- parts

fn begins(row: &[u8], at: usize, word: &[u8]) -> bool {
    after_word(row, at, word).is_some()
}

// How many sections stand before the one that is named; the sheet's end is behind them all.
fn sections_before(row: &[u8], name: usize) -> u64 {
    if begins(row, name, b"limit") {
        return 0;
    }
    if begins(row, name, b"item") {
        return 1;
    }
    if begins(row, name, b"lower") {
        return 2;
    }
    if begins(row, name, b"upper") {
        return 3;
    }
    if begins(row, name, b"needs") {
        return 4;
    }
    5
}

// The place behind the section that begins at a place: a heading, and as many lines as it says.
fn next_section(sheet: &[u8], at: usize) -> usize {
    let count = read_number(sheet, find(sheet, at, b' '));
    nth(sheet, at, b'\n', places(count.size) as u64 + 2)
}

fn section_start(sheet: &[u8], before: u64) -> usize {
    let mut at: usize = 0;
    for _ in 0..before {
        at = next_section(sheet, at);
    }
    at
}

// Where a part's line begins: the heading where the second word is no number.
fn part_at(row: &[u8], name: usize, sheet: &[u8]) -> usize {
    let number = read_number(row, find(row, name, b' '));
    let start = section_start(sheet, sections_before(row, name));
    nth(sheet, start, b'\n', places(number.size) as u64 + 1)
}

fn field(sheet: &[u8], line: usize, n: u64) -> Span {
    let from = nth(sheet, line, b' ', n);
    let to = find(sheet, from, b' ').min(find(sheet, from, b'\n'));
    Span { from, to }
}

// What goes of a line, by the word at a place of the row.
fn span_gone(row: &[u8], word: usize, sheet: &[u8], line: usize) -> Span {
    let end = find(sheet, line, b'\n');
    match byte_at(row, word) {
        b'f' => {
            let n = read_number(row, find(row, word, b' '));
            field(sheet, line, n.size)
        }
        b'o' => Span {
            from: line,
            to: sheet.len(),
        },
        b'b' => Span {
            from: line,
            to: line,
        },
        _ => Span {
            from: line,
            to: end,
        },
    }
}

// ---- bytes

// What does not fit is left out.
fn put(out: &mut [u8], at: usize, b: u8) -> usize {
    if at < out.len() {
        out[at] = b;
        return at + 1;
    }
    at
}

fn put_run(out: &mut [u8], len: usize, b: u8, times: u64) -> usize {
    let mut at = len;
    for _ in 0..times {
        at = put(out, at, b);
    }
    at
}

// The bytes of s from a place up to another.
fn put_part(out: &mut [u8], len: usize, s: &[u8], from: usize, to: usize) -> usize {
    let mut at = len;
    for i in from..to {
        at = put(out, at, byte_at(s, i));
    }
    at
}

fn hexadecimal(digit: u8) -> u8
    ensures { result ≤ 15 }
{
    match digit {
        b'0'..=b'9' => digit - b'0',
        b'a'..=b'f' => digit - b'a' + 10,
        _ => 0,
    }
}

// So many times the byte whose two digits stand at a place.
fn spelled(row: &[u8], at: usize, times: u64) -> Run {
    let second = past(row, at);
    let high = hexadecimal(byte_at(row, at));
    let low = hexadecimal(byte_at(row, second));
    Run {
        byte: 16 * high + low,
        times,
        next: past(row, second),
    }
}

// Behind a backslash.
fn escaped(row: &[u8], at: usize) -> Run {
    if byte_at(row, at) == b'*' {
        let n = read_number(row, past(row, at));
        return spelled(row, past(row, n.at), n.size);
    }
    spelled(row, at, 1)
}

fn run_at(row: &[u8], at: usize) -> Run {
    let b = byte_at(row, at);
    if b == b'\\' {
        return escaped(row, past(row, at));
    }
    Run {
        byte: b,
        times: 1,
        next: past(row, at),
    }
}

// The bytes of the row from a place up to the next quote.
fn put_quoted(out: &mut [u8], len: usize, row: &[u8], from: usize) -> usize {
    let mut at = len;
    let mut i = from;
    while i < row.len() {
        if row[i] == b'"' {
            return at;
        }
        let r = run_at(row, i);
        at = put_run(out, at, r.byte, r.times);
        let next = r.next;
        if next <= i {
            return at;
        }
        i = next;
    }
    at
}

// ---- edits

// The edit that the row has next.
fn edit(row: &[u8], sheet: &[u8], out: &mut [u8], e: Progress) -> Progress {
    let name = skip(row, e.at);
    let line = part_at(row, name, sheet);
    let second = skip(row, find(row, name, b' '));
    let gone = span_gone(row, skip(row, find(row, second, b' ')), sheet, line);
    let bytes = past(row, find(row, name, b'"'));
    let kept = put_part(out, e.len, sheet, e.done, gone.from);
    Progress {
        len: put_quoted(out, kept, row, bytes),
        done: gone.to,
        at: past(row, find(row, bytes, b'"')),
        line: line_at(sheet, line),
    }
}

fn row_ends(row: &[u8], at: usize) -> bool {
    row.len() <= at || byte_at(row, at) == b'\n'
}

fn all_edits(row: &[u8], sheet: &[u8], out: &mut [u8], from: Progress) -> Progress {
    let mut e = from;
    for _ in 0..row.len() {
        if row_ends(row, e.at) {
            return e;
        }
        e = edit(row, sheet, out, e);
    }
    e
}

// The edits that a row has from a place on; the rest of the sheet stays.
pub fn edited(row: &[u8], at: usize, sheet: &[u8], out: &mut [u8]) -> Progress {
    let start = Progress {
        len: 0,
        done: 0,
        at,
        line: 0,
    };
    let e = all_edits(row, sheet, out, start);
    let n = sheet.len();
    Progress {
        len: put_part(out, e.len, sheet, e.done, n),
        done: n,
        at: e.at,
        line: e.line,
    }
}
