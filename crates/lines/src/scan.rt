// Places in a text, and its lines: paper 01, "The sheet", the part that holds a line.
ghost use Rattle.std.specs.Prelude.{◌≡◌, drop};
ghost use Rattle.lines.specs.Places.{after_byte, after_word, first_end, line_at, closed_line, asked_line, line_part, check_line};

use crate::block::{block_at, first_hit, hits_of};
use knapsack::Refusal;
use model::refusals::Reason;

// The most bytes that a sheet may have.
pub const LONGEST: usize = 4096;

// The first byte 10 from a place on, a byte at a time: for the last bytes, which fill no block.
fn line_end_in_tail(s: &[u8], from: usize) -> Option<usize>
    ensures { result ≡ first_end from (drop from s.now) }
{
    for at in from..s.len() {
        if s[at] == b'\n' {
            return Some(at);
        }
    }
    None
}

// The first byte 10 from a place on. Up to the last seven bytes it goes a block at a time; the test by a difference cannot overflow.
pub fn first_line_end(s: &[u8], from: usize) -> Option<usize>
    ensures { result ≡ first_end from (drop from s.now) }
{
    if s.len() < from {
        return None;
    }
    let mut at = from;
    while 8 <= s.len() - at {
        let m = hits_of(block_at(s, at));
        if m != 0 {
            return Some(at + first_hit(m));
        }
        at += 8;
    }
    line_end_in_tail(s, at)
}

// The place behind a byte, if it stands at the place.
pub fn after_byte(s: &[u8], at: usize, b: u8) -> Option<usize>
    ensures { result ≡ after_byte s.now at b }
{
    if at < s.len() && s[at] == b {
        Some(at + 1)
    } else {
        None
    }
}

// The place behind a word, if it stands at the place.
pub fn after_word(s: &[u8], from: usize, w: &[u8]) -> Option<usize>
    ensures { result ≡ after_word s.now from w.now }
{
    let mut at = from;
    for i in 0..w.len() {
        at = after_byte(s, at, w[i])?;
    }
    Some(at)
}

// The number of the line that holds a place.
pub fn line_at(s: &[u8], at: usize) -> u64
    ensures { result ≡ line_at s.now at }
{
    let mut line: u64 = 1;
    let mut from: usize = 0;
    while let Some(e) = first_line_end(s, from) {
        if at <= e {
            return line;
        }
        line += 1;
        from = e + 1;
    }
    line
}

// The line behind n line ends, if the text closes it: its bytes stand from the first place up to the second, where its byte 10 is.
fn closed_line(s: &[u8], n: u64) -> Option<(usize, usize)>
    ensures { result ≡ closed_line n s.now 0 }
{
    let mut from: usize = 0;
    for _ in 0..n {
        from = first_line_end(s, from)? + 1;
    }
    let end = first_line_end(s, from)?;
    Some((from, end))
}

// Where the line with a number stands, or why there is none: no line is asked for of a sheet that is too long, and there is no line 0.
fn asked_line(s: &[u8], line: u64) -> Result<(usize, usize), Refusal>
    ensures { result ≡ asked_line s.now line }
{
    if LONGEST < s.len() || line == 0 {
        return Err(Refusal {
            number: Reason::Overlong.number(),
            line: 0,
        });
    }
    let Some(part) = closed_line(s, line - 1) else {
        return Err(Refusal {
            number: Reason::Form.number(),
            line,
        });
    };
    Ok(part)
}

// A line of the sheet without its byte 10; empty where check_line refuses.
pub fn line_part(s: &[u8], line: u64) -> &[u8]
    ensures { result.now ≡ line_part s.now line }
{
    match asked_line(s, line) {
        Ok((a, e)) => &s[a..e],
        Err(_) => &s[0..0],
    }
}

// Whether line_part gives a line of the sheet.
pub fn check_line(s: &[u8], line: u64) -> Result<(), Refusal>
    ensures { result ≡ check_line s.now line }
{
    asked_line(s, line)?;
    Ok(())
}
