// The sheet of paper 01: the reader ("The sheet", "Refused, by place"), and the part of a sheet that holds a line.
// read gives every sheet its record or its numbered refusal, read_by keeps blank items where it is told to; line_part and
// check_line give a line for the display.
// A line is read in two steps, its form and then its values (crate lines); a section is a heading and a loop over its lines (specs/Sections).
#![tactic(auto)]

ghost use Rattle.std.specs.Prelude.{◌≡◌, suc, ◌+◌, ◌≤◌, ◌<◌, Ok};
ghost use Rattle.model.specs.Records.{empty_model};
ghost use Rattle.model.specs.Records.{item_at, barred, Numbers};
ghost use Rattle.model.specs.Setters.{with_item, with_need};
ghost use Rattle.lines.specs.Numbers.{only};
ghost use Rattle.lines.specs.Lines.{count_at};
ghost use Rattle.sheet.specs.Sections.{goes_on, stopped_by, refused_at, taken, step_of, lines_of};
ghost use Rattle.sheet.specs.Reading.{word_of, limit_form, item_gives, item_form_by, bound_form, limit_section, items_section, bounds_section, end_of_sheet};
ghost use Rattle.sheet.specs.Reading.{need_gives, need_form, needs_section};
ghost use Rattle.sheet.specs.Reading.{first_ranged, ranges_of, head_of, whole_of, read_sheet_by, read_sheet};

use knapsack::Refusal;
use lines::Read;
use lines::number::Range;
pub use lines::scan::{check_line, first_line_end, line_part};
use model::refusals::Reason;
use model::{Blanks, Model, ModelItem, Need, Side, naming, setters};

// What a sheet gives: its record, or a refusal beside the empty record.
#[derive(Clone, Copy)]
pub struct Reading {
    pub verdict: Result<(), Refusal>,
    pub model: Model,
}

// A sheet read up to the place at. item is the number of the item that the section's last line was about, 0 at its start.
#[derive(Clone, Copy)]
pub struct Progress {
    pub verdict: Result<(), Refusal>,
    pub model: Model,
    pub at: usize,
    pub item: usize,
}

// Nothing is refused as yet.
fn goes_on(model: Model, at: usize, item: usize) -> Progress
    ensures { result ≡ goes_on model at item }
{
    Progress {
        verdict: Ok(()),
        model,
        at,
        item,
    }
}

// The end of a reading: a refusal has the empty record.
fn stopped(refusal: Refusal) -> Progress
    ensures { result ≡ stopped_by refusal }
{
    Progress {
        verdict: Err(refusal),
        model: setters::empty_model(),
        at: 0,
        item: 0,
    }
}

// A refusal, told at the line that holds a place. Inlined: where it is called, the result that its caller gives back is zeroed first, on good lines too.
#[inline(always)]
fn refused(s: &[u8], reason: Reason, at: usize) -> Progress
    ensures { result ≡ refused_at s.now reason at }
{
    let line = lines::scan::line_at(s, at);
    stopped(Refusal {
        number: reason.number(),
        line,
    })
}

// ---- limit 1, and a line with b

fn limit_line(s: &[u8], at: usize) -> Progress
    ensures { result ≡ step_of limit_form s.now (goes_on empty_model at 0) }
{
    let limits = Range {
        lo: -100_000_000,
        hi: 100_000_000,
    };
    match lines::number::closed_number(s, at, limits, b'\n') {
        Err(reason) => refused(s, reason, at),
        Ok((None, _)) => refused(s, Reason::Figure, at),
        Ok((Some(b), next)) => goes_on(setters::with_capacity(setters::empty_model(), b), next, 0),
    }
}

fn limit_section(s: &[u8]) -> Progress
    ensures { result ≡ limit_section s.now }
{
    match lines::heading(s, 0, b"limit", Range { lo: 1, hi: 1 }) {
        Err(reason) => refused(s, reason, 0),
        Ok((_, next)) => limit_line(s, next),
    }
}

// ---- items n, and n lines

// The next item.
fn item_taken(p: Progress, item: ModelItem, next: usize) -> Progress
    requires { p.item < 16 }
    ensures { result ≡ goes_on (with_item p.model p.item item) next (suc p.item) }
{
    goes_on(setters::with_item(p.model, p.item, item), next, p.item + 1)
}

// Whether an item is blank, where blank items are refused.
fn is_barred(item: ModelItem, blanks: Blanks) -> bool
    ensures { result ≡ barred blanks item }
{
    match blanks {
        Blanks::Refused => model::is_blank(item),
        Blanks::Kept => false,
    }
}

// An item whose figures are good: 15, or it is taken in.
fn item_judged(s: &[u8], blanks: Blanks, p: Progress, item: ModelItem, next: usize) -> Progress
    requires { p.item < 16 }
    ensures { result ≡ taken (item_form_by blanks) s.now p (item_gives blanks (Ok (item, next))) }
{
    if is_barred(item, blanks) {
        return refused(s, Reason::BlankItem, p.at);
    }
    item_taken(p, item, next)
}

// One line of an item; after a refusal nothing is read.
fn item_step(s: &[u8], blanks: Blanks, p: Progress) -> Progress
    requires { p.item < 16 }
    ensures { result ≡ step_of (item_form_by blanks) s.now p }
{
    let Ok(()) = p.verdict else {
        return p;
    };
    match lines::item_at(s, p.at) {
        Err(reason) => refused(s, reason, p.at),
        Ok((item, next)) => item_judged(s, blanks, p, item, next),
    }
}

fn item_lines(s: &[u8], blanks: Blanks, n: usize, p: Progress) -> Progress
    requires { p.item + n ≤ 16 }
    ensures { result ≡ lines_of (item_form_by blanks) n s.now p }
{
    let mut r = p;
    for _ in 0..n {
        r = item_step(s, blanks, r);
    }
    r
}

fn items_section(s: &[u8], blanks: Blanks, p: Progress) -> Progress
    ensures { result ≡ items_section blanks s.now p }
{
    let Ok(()) = p.verdict else {
        return p;
    };
    match lines::heading(s, p.at, b"items", Range { lo: 1, hi: 16 }) {
        Err(reason) => refused(s, reason, p.at),
        Ok((n, next)) => item_lines(
            s,
            blanks,
            n,
            goes_on(setters::with_count(p.model, n), next, 0),
        ),
    }
}

// ---- lower n and upper n, and n lines

// The lines, from the record m at the place `from`. A record is large, and copied at a call: so the items are set here.
fn bound_lines(s: &[u8], side: Side, n: usize, m: Model, from: usize) -> Progress
    requires { n ≤ 16 }
    ensures { result ≡ lines_of (bound_form side) n s.now (goes_on m from 0) }
{
    let mut to = m;
    let mut at = from;
    for k in 0..n {
        match lines::bound_at(s, at, k + 1) {
            Err(reason) => {
                return refused(s, reason, at);
            }
            Ok((b, next)) => {
                to.items[k] = setters::with_side(to.items[k], side, b);
                at = next;
            }
        }
    }
    goes_on(to, at, n)
}

// The heading of a section of bounds, over n items.
fn bounds_heading(s: &[u8], side: Side, at: usize, n: usize) -> Read<usize>
    requires { n ≤ 16 }
    ensures { result ≡ count_at (word_of side) (only n) s.now at }
{
    let due = n as i64;
    let range = Range { lo: due, hi: due };
    match side {
        Side::Lower => lines::heading(s, at, b"lower", range),
        Side::Upper => lines::heading(s, at, b"upper", range),
    }
}

fn bounds_section(s: &[u8], side: Side, p: Progress) -> Progress
    requires { p.model.count ≤ 16 }
    ensures { result ≡ bounds_section s.now side p }
{
    let Ok(()) = p.verdict else {
        return p;
    };
    match bounds_heading(s, side, p.at, p.model.count) {
        Err(reason) => refused(s, reason, p.at),
        Ok((n, next)) => bound_lines(s, side, n, p.model, next),
    }
}

// ---- needs t, and t lines

// The next line.
fn need_taken(p: Progress, need: Need, next: usize) -> Progress
    requires { p.item < 16 }
    ensures { result ≡ goes_on (with_need p.model p.item need) next (suc p.item) }
{
    goes_on(setters::with_need(p.model, p.item, need), next, p.item + 1)
}

// A line whose numbers are good: 14, or it is taken in.
fn need_judged(s: &[u8], p: Progress, need: Need, next: usize) -> Progress
    requires { (p.item < 16) × Numbers 16 need.item need.cover }
    ensures { result ≡ taken need_form s.now p (need_gives (item_at p.model) (Ok (need, next))) }
{
    if naming::names_unfit(p.model, need) {
        return refused(s, Reason::NamedItem, p.at);
    }
    need_taken(p, need, next)
}

// One line of needs.
fn need_step(s: &[u8], p: Progress) -> Progress
    requires { (p.item < 16) × (p.model.count ≤ 16) }
    ensures { result ≡ step_of need_form s.now p }
{
    let Ok(()) = p.verdict else {
        return p;
    };
    let before = naming::line_before(p.model.needs, p.item);
    match lines::need_at(s, p.at, p.model.count, before) {
        Err(fault) => refused(s, fault, p.at),
        Ok((need, next)) => need_judged(s, p, need, next),
    }
}

fn need_lines(s: &[u8], n: usize, p: Progress) -> Progress
    requires { (p.item + n ≤ 16) × (p.model.count ≤ 16) }
    ensures { result ≡ lines_of need_form n s.now p }
{
    let mut r = p;
    for _ in 0..n {
        r = need_step(s, r);
    }
    r
}

fn needs_section(s: &[u8], p: Progress) -> Progress
    requires { p.model.count ≤ 16 }
    ensures { result ≡ needs_section s.now p }
{
    let Ok(()) = p.verdict else {
        return p;
    };
    match lines::heading(s, p.at, b"needs", Range { lo: 0, hi: 16 }) {
        Err(reason) => refused(s, reason, p.at),
        Ok((n, next)) => need_lines(s, n, goes_on(setters::with_need_count(p.model, n), next, 0)),
    }
}

// ---- behind the last section

fn end_of_sheet(s: &[u8], p: Progress) -> Progress
    ensures { result ≡ end_of_sheet s.now p }
{
    let Ok(()) = p.verdict else {
        return p;
    };
    if p.at < s.len() {
        refused(s, Reason::Form, p.at)
    } else {
        p
    }
}

// ---- behind the sheet: weights that are a range

// The number of the first item whose weight is a range and whose amount may be below 0, or 0.
fn first_ranged(m: Model) -> usize
    requires { m.count ≤ 16 }
    ensures { result ≡ first_ranged m.count (item_at m) }
{
    for k in 0..m.count {
        if model::is_ranged_below(m.items[k]) {
            return k + 1;
        }
    }
    0
}

// 20 at the item's line: those of the limit and the heading of the items stand before the items' lines.
fn ranges_of_sheet(p: Progress) -> Progress
    requires { p.model.count ≤ 16 }
    ensures { result ≡ ranges_of p }
{
    let Ok(()) = p.verdict else {
        return p;
    };
    let k = first_ranged(p.model);
    if k == 0 {
        return p;
    }
    stopped(Refusal {
        number: Reason::RangedItem.number(),
        line: (k + 3) as u64,
    })
}

// ---- the sheet

// Limit and items.
fn head(s: &[u8], blanks: Blanks) -> Progress
    ensures { result ≡ head_of blanks s.now }
{
    items_section(s, blanks, limit_section(s))
}

fn whole(s: &[u8], blanks: Blanks) -> Progress
    ensures { result ≡ whole_of blanks s.now }
{
    let h = head(s, blanks);
    let lower = bounds_section(s, Side::Lower, h);
    let upper = bounds_section(s, Side::Upper, lower);
    let needs = needs_section(s, upper);
    let end = end_of_sheet(s, needs);
    ranges_of_sheet(end)
}

// Every sheet gets its record or its refusal. Blank items are refused or kept.
pub fn read_by(sheet: &[u8], blanks: Blanks) -> Reading
    ensures { result ≡ read_sheet_by blanks sheet.now }
{
    if lines::scan::LONGEST < sheet.len() {
        return Reading {
            verdict: Err(Refusal {
                number: Reason::Overlong.number(),
                line: 0,
            }),
            model: setters::empty_model(),
        };
    }
    let p = whole(sheet, blanks);
    Reading {
        verdict: p.verdict,
        model: p.model,
    }
}

pub fn read(sheet: &[u8]) -> Reading
    ensures { result ≡ read_sheet sheet.now }
{
    read_by(sheet, Blanks::Refused)
}
