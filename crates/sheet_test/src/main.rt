// Writes records as sheets, edits what was written, and prints what the reader gives for each, and the part that holds one of its lines.
// A row of the input is a record, `record b n / W a c lower upper / ..` and its needs, if any, or a sheet of the record above it: the number of the line
// to show, and edits (edits.rt) that name parts of the sheet, so that the rows know nothing of the layout around them. Without a number the line
// of the last edit is shown. The writer has to give the very bytes of each sheet that is accepted.
// Good sheets, every refusal at every place, two faults on one line, long numbers, bytes that are no text, 4,096 and 4,097 bytes.
#![tactic(auto)]

mod edits; // a written sheet, edited

use crate::edits::{byte_at, edited, find, past};
use knapsack::Refusal;
use model::setters::with_needs;
use model::{Need, Needs};
use trials::bytes::first;
use trials::count::one_more;
use trials::make::record_of;
use trials::print::{print, print_field, print_number, print_problem};
use trials::read::{Number, places, read_items, read_needs, read_number};

// Standard input, as the kit's io names a stream by its number.
const STDIN_FILENO: i32 = 0;

fn print_refusal(refusal: Refusal) {
    print(b" refused");
    print_field(refusal.number);
    print_field(refusal.line);
}

// Whether the writer gives the very bytes for what was read.
fn comes_back(sheet: &[u8]) -> bool {
    let mut buffer = io::large_buffer();
    let told = writer::rewrite_sheet(sheet, &mut buffer);
    told == Ok(sheet.len()) && buffer.starts_with(sheet)
}

fn print_need(need: Need) {
    print(b" need");
    print_field(need.item as u64);
    print_field(need.cover as u64);
}

fn print_needs(ns: Needs) {
    for need in ns.lines.iter().take(ns.count) {
        print_need(*need);
    }
}

fn print_reading(sheet: &[u8]) {
    let r = sheet::read(sheet);
    let model = r.model;
    match r.verdict {
        Ok(()) => {
            print(b" accepted ");
            print_problem(model);
            print_needs(model.needs);
            if !comes_back(sheet) {
                print(b" and is not written so");
            }
        }
        Err(refusal) => print_refusal(refusal),
    }
    print(b"\n");
}

fn print_line(sheet: &[u8], line: u64) {
    print(b"  line");
    print_field(line);
    match sheet::check_line(sheet, line) {
        Ok(()) => {}
        Err(refusal) => print_refusal(refusal),
    }
    print(b": ");
    print(sheet::line_part(sheet, line));
    print(b"\n");
}

fn report(k: u64, sheet: &[u8], line: u64) {
    print_number(k);
    print_reading(sheet);
    print_line(sheet, line);
}

// Writes the record of the row at a place.
fn written(s: &[u8], at: usize, out: &mut [u8]) -> usize {
    let row = first(s, find(s, at, b'\n'));
    let capacity = read_number(row, find(row, at, b' '));
    let count = read_number(row, capacity.at);
    let items = read_items(row, count.at, count.size);
    let needs = read_needs(row, items.at);
    let plain = record_of(capacity.value, places(count.size), items.list);
    match writer::write_sheet(with_needs(plain, needs.needs), out) {
        Ok(n) => n,
        Err(_) => 0,
    }
}

fn line_shown(at: usize, given: Number, last: u64) -> u64 {
    if given.at == at { last } else { given.size }
}

// A row at a place, with edits of a sheet.
fn report_edited(k: u64, s: &[u8], at: usize, sheet: &[u8]) {
    let mut out = io::large_buffer();
    let given = read_number(s, at);
    let e = edited(s, given.at, sheet, &mut out);
    report(k, first(&out, e.len), line_shown(at, given, e.line));
}

fn sheet_row(k: u64, s: &[u8], at: usize, record: usize) {
    let mut buffer = io::large_buffer();
    let n = written(s, record, &mut buffer);
    report_edited(k, s, at, first(&buffer, n));
}

// The rows up to a place: the number of the next sheet, and the place of the last record.
#[derive(Clone, Copy)]
struct Rows {
    k: u64,
    at: usize,
    record: usize,
}

fn one_row(s: &[u8], r: Rows) -> Rows {
    let next = past(s, find(s, r.at, b'\n'));
    if byte_at(s, r.at) == b'r' {
        return Rows {
            k: r.k,
            at: next,
            record: r.at,
        };
    }
    sheet_row(r.k, s, r.at, r.record);
    Rows {
        k: one_more(r.k, true),
        at: next,
        record: r.record,
    }
}

fn all_rows(s: &[u8]) {
    let mut r = Rows {
        k: 1,
        at: 0,
        record: 0,
    };
    for _ in 0..s.len() {
        if s.len() <= r.at {
            return;
        }
        r = one_row(s, r);
    }
}

fn main() {
    let mut buffer = io::large_buffer();
    let n = io::read_full(STDIN_FILENO, &mut buffer);
    all_rows(&buffer[..n]);
}
