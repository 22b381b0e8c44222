// The writer: the sheet of a record, in a lent buffer. Paper 02, request 1; the layout is the reader's (crate sheet, specs/Printing).
// Reading what was written gives the record again, and writing what was read the very bytes: proofs/Roundtrip.
// A section is a function; each writes at a place and replies with the place behind what it wrote, as crate text does.
#![tactic(auto)]

ghost use Rattle.std.specs.Prelude.{◌≡◌, false, [], ◌∷◌, ◌+◌, ◌≤◌, ◌<◌, length};
ghost use Rattle.std.specs.Prelude.{Ok};
ghost use Rattle.model.specs.Records.{item_at, need_at, bad_bound, bad_figure, verdict};
ghost use Rattle.text.specs.Layout.{field};
ghost use Rattle.text.specs.Buffer.{Put, Shows, told, filled, noted};
ghost use Rattle.lines.specs.Layout.{heading_text, mark_byte, item_text, bound_word, bounding, bound_text, need_text};
ghost use Rattle.sheet.specs.Sections.{lines_text, section_text};
ghost use Rattle.sheet.specs.Reading.{limit, items, word_of, limit_form, item_form, read_sheet};
ghost use Rattle.sheet.specs.Printing.{up_to, side_of, bounding_at, side_text, needs_text, printing};
ghost use Rattle.writer.specs.Writing.{on_accepted};

use knapsack::{Mark, Refusal};
use model::{Model, ModelItem, Need, Side, check_model};
use sheet::read;
use text::{Text, hand_over, put_byte, put_integer, put_natural, put_word};

// ---- lines

fn put_heading(out: &mut [u8], at: usize, w: &[u8], n: usize) -> usize
    requires { (at + 27 ≤ length out.old) × (length w.now ≤ 5) }
    ensures { Put 27 at (heading_text w.now n) out.old out.new result }
{
    let blank = put_word(out, at, w);
    let number = put_byte(out, blank, b' ');
    put_natural(out, number, n as u64, b'\n')
}

fn mark_byte(m: Mark) -> u8
    ensures { result ≡ mark_byte m }
{
    match m {
        Mark::Integer => b'W',
        Mark::Continuous => b'L',
    }
}

fn put_item(out: &mut [u8], at: usize, i: ModelItem) -> usize
    requires { (at + 68 ≤ length out.old) × (bad_figure i ≡ false) }
    ensures { Put 35 at (item_text i) out.old out.new result }
{
    let blank = put_byte(out, at, mark_byte(i.mark));
    let low = put_byte(out, blank, b' ');
    let high = put_integer(out, low, i.low, b' ');
    let price = put_integer(out, high, i.high, b' ');
    put_integer(out, price, i.price, b'\n')
}

// A bound and the line's end.
fn put_bound_word(out: &mut [u8], at: usize, b: Option<i64>) -> usize
    requires { at + 22 ≤ length out.old }
    ensures { Put 22 at (field (bound_word b) 10) out.old out.new result }
{
    match b {
        None => {
            let end = put_word(out, at, b"none");
            put_byte(out, end, b'\n')
        }
        Some(v) => put_integer(out, at, v, b'\n'),
    }
}

fn put_bound(out: &mut [u8], at: usize, k: usize, b: Option<i64>) -> usize
    requires { (at + 43 ≤ length out.old) × ((k ≤ 16) × (bad_bound b ≡ false)) }
    ensures { Put 22 at (bound_text (bounding k b)) out.old out.new result }
{
    let bound = put_natural(out, at, k as u64, b' ');
    put_bound_word(out, bound, b)
}

fn put_need(out: &mut [u8], at: usize, need: Need) -> usize
    requires { (at + 42 ≤ length out.old) × ((need.item ≤ 16) × (need.cover ≤ 16)) }
    ensures { Put 6 at (need_text need) out.old out.new result }
{
    let next = put_natural(out, at, need.item as u64, b' ');
    put_natural(out, next, need.cover as u64, b'\n')
}

// ---- sections

fn put_limit(out: &mut [u8], b: i64) -> usize
    requires { 49 ≤ length out.old }
    ensures { Put 49 0 (section_text limit_form limit (b ∷ [])) out.old out.new result }
{
    let next = put_heading(out, 0, b"limit", 1);
    put_integer(out, next, b, b'\n')
}

fn put_item_lines(out: &mut [u8], at: usize, m: Model) -> usize
    requires { (at + 593 ≤ length out.old) × (verdict m ≡ Ok tt) }
    ensures { Put 560 at (lines_text item_text (up_to m.count (item_at m))) out.old out.new result }
{
    let mut next = at;
    for k in 0..m.count {
        next = put_item(out, next, m.items[k]);
    }
    next
}

fn put_items(out: &mut [u8], at: usize, m: Model) -> usize
    requires { (at + 620 ≤ length out.old) × (verdict m ≡ Ok tt) }
    ensures { Put 587 at (section_text item_form items (up_to m.count (item_at m))) out.old out.new result }
{
    let next = put_heading(out, at, b"items", m.count);
    put_item_lines(out, next, m)
}

fn bound_of(i: ModelItem, side: Side) -> Option<i64>
    ensures { result ≡ side_of side i }
{
    match side {
        Side::Lower => i.lower,
        Side::Upper => i.upper,
    }
}

fn put_side_heading(out: &mut [u8], at: usize, side: Side, n: usize) -> usize
    requires { at + 27 ≤ length out.old }
    ensures { Put 27 at (heading_text (word_of side) n) out.old out.new result }
{
    match side {
        Side::Lower => put_heading(out, at, b"lower", n),
        Side::Upper => put_heading(out, at, b"upper", n),
    }
}

fn put_bound_lines(out: &mut [u8], at: usize, side: Side, m: Model) -> usize
    requires { (at + 373 ≤ length out.old) × (verdict m ≡ Ok tt) }
    ensures { Put 352 at (lines_text bound_text (up_to m.count (bounding_at side m))) out.old out.new result }
{
    let mut next = at;
    for k in 0..m.count {
        next = put_bound(out, next, k + 1, bound_of(m.items[k], side));
    }
    next
}

fn put_side(out: &mut [u8], at: usize, side: Side, m: Model) -> usize
    requires { (at + 400 ≤ length out.old) × (verdict m ≡ Ok tt) }
    ensures { Put 379 at (side_text side m) out.old out.new result }
{
    let next = put_side_heading(out, at, side, m.count);
    put_bound_lines(out, next, side, m)
}

fn put_need_lines(out: &mut [u8], at: usize, m: Model) -> usize
    requires { (at + 132 ≤ length out.old) × (verdict m ≡ Ok tt) }
    ensures { Put 96 at (lines_text need_text (up_to m.needs.count (need_at m.needs))) out.old out.new result }
{
    let mut next = at;
    for k in 0..m.needs.count {
        next = put_need(out, next, m.needs.lines[k]);
    }
    next
}

fn put_needs(out: &mut [u8], at: usize, m: Model) -> usize
    requires { (at + 159 ≤ length out.old) × (verdict m ≡ Ok tt) }
    ensures { Put 123 at (needs_text m) out.old out.new result }
{
    let next = put_heading(out, at, b"needs", m.needs.count);
    put_need_lines(out, next, m)
}

// ---- the sheet

fn put_sheet(out: &mut [u8], m: Model) -> usize
    requires { (1600 ≤ length out.old) × (verdict m ≡ Ok tt) }
    ensures { Put 1517 0 (printing m) out.old out.new result }
{
    let items = put_limit(out, m.capacity);
    let lower = put_items(out, items, m);
    let upper = put_side(out, lower, Side::Lower, m);
    let needs = put_side(out, upper, Side::Upper, m);
    put_needs(out, needs, m)
}

// The sheet of an accepted record, by value.
pub fn sheet_text(m: Model) -> Text
    requires { verdict m ≡ Ok tt }
    ensures { Shows (printing m) result }
{
    let mut bytes = text::space();
    let len = put_sheet(&mut bytes, m);
    Text { bytes, len }
}

fn write_accepted(m: Model, out: &mut [u8]) -> Result<usize, Refusal>
    requires { verdict m ≡ Ok tt }
    ensures value { result ≡ told (printing m) out.old }
    ensures out_after { out.new ≡ filled (printing m) out.old }
{
    let t = sheet_text(m);
    hand_over(&t.bytes[..t.len], out)
}

// The sheet of a record at the start of a lent buffer; the bytes behind it stay. A record's own refusal, and then refusal 11 for a
// buffer that is shorter than the sheet, change no byte.
pub fn write_sheet(m: Model, out: &mut [u8]) -> Result<usize, Refusal>
    ensures value { result ≡ on_accepted (verdict m) noted (told (printing m) out.old) }
    ensures out_after { out.new ≡ on_accepted (verdict m) (λ f. out.old) (filled (printing m) out.old) }
{
    if let Err(f) = check_model(m) {
        return Err(f);
    }
    write_accepted(m, out)
}

// A sheet is read, and what was read is written. An accepted sheet comes back byte by byte.
pub fn rewrite_sheet(s: &[u8], out: &mut [u8]) -> Result<usize, Refusal>
    ensures value { result ≡ on_accepted (read_sheet s.now).verdict noted (told s.now out.old) }
    ensures out_after { out.new ≡ on_accepted (read_sheet s.now).verdict (λ f. out.old) (filled s.now out.old) }
{
    let r = read(s);
    if let Err(f) = r.verdict {
        return Err(f);
    }
    write_sheet(r.model, out)
}
