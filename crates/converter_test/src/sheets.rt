// Sheets with blank items, and the converter's replies to them. The writer refuses such a record, so it is given the record with price 1 in the place of
// each price 0 of a blank item; on the sheet that byte, the last of the item's line, is changed back.
ghost use Rattle.std.specs.Prelude.{◌≡◌, ◌≤◌, length};

use crate::blanks::{is_blank, with_weightless};
use converter::convert;
use knapsack::Refusal;
use model::Model;
use trials::bytes::first;
use trials::count::one_more;
use writer::write_sheet;

// Room for the sheets that are tried.
pub const ROOM: usize = 512;

// A sheet by value, and '#' behind it.
#[derive(Clone, Copy)]
pub struct Sheet {
    pub bytes: [u8; ROOM],
    pub len: usize,
}

// A buffer of '#', of which the first bytes were lent, and what was told.
#[derive(Clone, Copy)]
pub struct Kept {
    pub bytes: [u8; ROOM],
    pub told: Result<usize, Refusal>,
}

fn hashes() -> [u8; ROOM]
    ensures { length result ≡ 512 }
{
    [b'#'; ROOM]
}

// ---- a sheet

fn with_prices(m: Model) -> Model {
    let mut p = m;
    for k in 0..16 {
        if is_blank(m.items[k]) {
            p = with_weightless(p, k, 1);
        }
    }
    p
}

// Whether a line is that of a blank item.
fn is_blank_line(m: Model, line: u64) -> bool {
    if line < 4 || 19 < line {
        return false;
    }
    let k = line as usize - 4;
    k < m.count && is_blank(m.items[k])
}

// The byte before a place becomes 0, if it is to.
fn put_zero_before(out: &mut [u8], at: usize, due: bool) {
    if due && 0 < at && at <= out.len() {
        out[at - 1] = b'0';
    }
}

fn put_blank_prices(out: &mut [u8], m: Model) {
    let mut line: u64 = 1;
    for i in 0..out.len() {
        let ends = out[i] == b'\n';
        put_zero_before(out, i, ends && is_blank_line(m, line));
        line = one_more(line, ends);
    }
}

pub fn length_of(told: Result<usize, Refusal>) -> usize {
    told.unwrap_or(0)
}

pub fn sheet_of(m: Model) -> Sheet {
    let mut bytes = hashes();
    let told = write_sheet(with_prices(m), &mut bytes);
    put_blank_prices(&mut bytes, m);
    Sheet {
        bytes: bytes,
        len: length_of(told),
    }
}

// ---- the converter's reply

fn convert_in_part(s: &[u8], out: &mut [u8], size: usize) -> Result<usize, Refusal> {
    if out.len() < size {
        return convert(s, out);
    }
    convert(s, &mut out[..size])
}

// The first n bytes of a sheet, converted into so many bytes.
pub fn converted(s: Sheet, n: usize, size: usize) -> Kept {
    let mut bytes = hashes();
    let told = convert_in_part(first(&s.bytes, n), &mut bytes, size);
    Kept { bytes, told }
}

// ---- comparing

// From a place on nothing was written.
fn untouched(k: Kept, from: usize) -> bool {
    k.bytes.iter().skip(from).all(|b| *b == b'#')
}

fn is_written(k: Kept, n: usize) -> bool {
    k.told == Ok(n)
}

// Refused so, and nothing is written.
pub fn is_refused(k: Kept, number: u64, line: u64) -> bool {
    k.told == Err(Refusal { number, line }) && untouched(k, 0)
}

// The sheet itself stands there, byte by byte, and '#' behind it.
pub fn is_same(s: Sheet, k: Kept) -> bool {
    is_written(k, s.len) && s.bytes == k.bytes
}

// A sheet that is written into a buffer of all bytes leaves those behind it; just its length is enough, and a byte less is refusal 11.
pub fn fits(s: Sheet, k: Kept) -> bool {
    let n = length_of(k.told);
    if n == 0 {
        return false;
    }
    let exact = converted(s, s.len, n);
    let short = converted(s, s.len, n - 1);
    untouched(k, n) && is_written(exact, n) && k.bytes == exact.bytes && is_refused(short, 11, 0)
}
