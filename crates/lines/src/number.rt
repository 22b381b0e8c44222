// Numbers as a sheet writes them: `0`, or an optional minus, a digit 1 to 9 and further digits, of any length.
ghost use Rattle.std.specs.Prelude.{◌≡◌, ◌+◌, ◌*◌, ◌-◌, ◌≤◌, min};
ghost use Rattle.lines.specs.Places.{byte_at};
ghost use Rattle.lines.specs.Numbers.{Narrow, is_leading, RunFrom, signed_of, unsigned_at, number_at, ranged, in_range, field_at};

use crate::Read;
use crate::fault::fault_at;
use crate::scan::after_byte;
use model::refusals::Reason;

// Where the value of a run of digits stops: beyond every range that a sheet knows (Narrow), so that no digit is lost that counts.
const BEYOND: u64 = 1_000_000_000;

// The numbers from lo to hi.
#[derive(Clone, Copy)]
pub struct Range {
    pub lo: i64,
    pub hi: i64,
}

// A run of digits: what it writes, BEYOND where that is more, and the place behind it.
#[derive(Clone, Copy)]
pub struct Run {
    pub value: u64,
    pub next: usize,
}

// One digit more.
fn push(value: u64, digit: u8) -> u64
    requires { (value ≤ 1000000000) × (48 ≤ digit) }
    ensures { result ≡ min (10 * value + (digit - 48)) 1000000000 }
{
    (10 * value + (digit - 48) as u64).min(BEYOND)
}

// The digits from a place on, as far as they go.
fn digits_from(s: &[u8], from: usize) -> Run
    ensures { RunFrom s.now from result }
{
    let mut value: u64 = 0;
    let mut next = from;
    while next < s.len() && s[next].is_ascii_digit() {
        value = push(value, s[next]);
        next += 1;
    }
    Run { value, next }
}

// A number, if it lies in the range.
fn by_range(z: i64, range: Range) -> Option<i64>
    ensures { result ≡ ranged range z }
{
    if z < range.lo || range.hi < z {
        None
    } else {
        Some(z)
    }
}

fn signed(negative: bool, n: u64) -> i64
    requires { n ≤ 1000000000 }
    ensures { result ≡ signed_of negative n }
{
    if negative { 0 - (n as i64) } else { n as i64 }
}

// Whether a digit 1 to 9 stands at a place.
fn leads(s: &[u8], at: usize) -> bool
    ensures { result ≡ is_leading (byte_at s.now at) }
{
    at < s.len() && 49 <= s[at] && s[at] <= 57
}

// The number behind its sign, if one begins there: the number, if it lies in the range, and the place behind it.
fn unsigned(s: &[u8], at: usize, negative: bool, range: Range) -> Option<(Option<i64>, usize)>
    requires { Narrow range }
    ensures { result ≡ in_range range (unsigned_at negative s.now at) }
{
    if !leads(s, at) {
        return None;
    }
    let d = digits_from(s, at);
    let z = signed(negative, d.value);
    Some((by_range(z, range), d.next))
}

// The number at a place, `0` or signed.
fn number(s: &[u8], at: usize, range: Range) -> Option<(Option<i64>, usize)>
    requires { Narrow range }
    ensures { result ≡ in_range range (number_at s.now at) }
{
    if let Some(next) = after_byte(s, at, b'0') {
        return Some((by_range(0, range), next));
    }
    if let Some(next) = after_byte(s, at, b'-') {
        return unsigned(s, next, true, range);
    }
    unsigned(s, at, false, range)
}

// A number and the byte that closes it: 13 for other bytes, 2 for none and for another end.
pub fn closed_number(s: &[u8], at: usize, range: Range, close: u8) -> Read<Option<i64>>
    requires { Narrow range }
    ensures { result ≡ field_at close range s.now at }
{
    let Some((value, next)) = number(s, at, range) else {
        return Err(fault_at(s, at, Reason::Number));
    };
    let Some(end) = after_byte(s, next, close) else {
        return Err(fault_at(s, next, Reason::Number));
    };
    Ok((value, end))
}
