// Paper 01's table, "Sheets and what they give": A to K and the pairs L and M from records, and A, N and O from sheets. Then, behind
// a +, records, a pair and sheets whose bounds cross.
use domination::least_pair;
use listing::text_of;
use model::{Model, Sense};
use replies::reply_to;
use senses::plan_both;
use trials::make::{first_of, free, from_zero, held, loose, one, two};
use trials::print::{print, print_number, print_signed};

fn print_name(name: u8) {
    print(&[name, b'\n']);
}

// The reply to a record, as `charge` prints it.
fn show(name: u8, p: Model) {
    print_name(name);
    let t = text_of(plan_both(p), p.count);
    print(&t.bytes[..t.len]);
}

fn show_sheet(name: u8, sheet: &[u8]) {
    print_name(name);
    let t = reply_to(sheet);
    print(&t.bytes[..t.len]);
}

fn print_pair(q: Option<(i64, i64)>) {
    match q {
        None => print(b"none"),
        Some((r, s)) => {
            print_signed(r);
            print(b" ");
            print_signed(s);
        }
    }
}

fn show_pair(name: u8, p: Model) {
    print_name(name);
    match least_pair(p, Sense::Sure, 1, 2) {
        Err(f) => {
            print(b"refused ");
            print_number(f.number);
        }
        Ok(s) => print_pair(s),
    }
    print(b"\n");
}

pub fn sheet_a() -> Model {
    two(20, held(9, 13, 0, 2), loose(held(3, 2, 0, 5)))
}

pub fn sheet_e() -> Model {
    two(-15, held(-9, -13, 0, 1), loose(held(-1, -2, 0, 5)))
}

pub fn sheet_g() -> Model {
    two(0, from_zero(2, 3), from_zero(-3, -4))
}

fn bounded_rows() {
    show(b'A', sheet_a());
    show(b'B', two(20, held(9, 13, 0, 2), loose(held(1, 1, 0, 5))));
    show(
        b'C',
        two(-20, held(-9, -13, 0, 3), loose(held(-1, -2, 0, 5))),
    );
    show(
        b'D',
        two(-14, held(-9, -13, 0, 1), loose(held(-1, -2, 0, 5))),
    );
    show(b'E', sheet_e());
    show(b'F', two(10, held(3, 5, 0, 10), held(4, 6, 0, 10)));
}

fn open_rows() {
    show(b'G', sheet_g());
    show(b'H', two(0, from_zero(2, 3), from_zero(-3, -5)));
    show(b'I', two(0, from_zero(2, 3), from_zero(-2, -3)));
    show(b'J', one(-7, free(3, 1)));
    show(b'K', one(-7, loose(free(3, 1))));
}

fn pair_rows() {
    show_pair(b'L', two(10, held(3, 5, 0, 10), held(4, 6, 0, 10)));
    show_pair(b'M', two(10, held(3, 5, 0, 3), held(4, 6, 0, 10)));
}

fn sheet_rows() {
    show_sheet(
        b'A',
        b"limit 1\n20\nitems 2\nW 9 9 13\nL 3 3 2\nlower 2\n1 0\n2 0\nupper 2\n1 2\n2 5\nneeds 0\n",
    );
    show_sheet(b'N', b"");
    show_sheet(b'O', b"limit 1\n0\nitems 17\n");
}

// Infeasible, also beside a ray; no pair, but refusal 10 comes first; read as they stand, but a fault of form is told.
fn crossing_rows() {
    let x = held(4, 6, 10, 0);
    show(b'+', two(10, held(3, 5, 0, 10), x));
    show(b'+', first_of(0, 3, from_zero(2, 3), from_zero(-3, -4), x));
    show(b'+', two(0, loose(x), from_zero(-1, 1)));
    show_pair(b'+', two(10, held(3, 5, 0, 10), x));
    show_pair(b'+', two(10, loose(held(3, 5, 0, 10)), x));
    show_sheet(
        b'+',
        b"limit 1\n20\nitems 1\nW 9 9 13\nlower 1\n1 3\nupper 1\n1 2\nneeds 0\n",
    );
    show_sheet(
        b'+',
        b"limit 1\n20\nitems 1\nW 9 9 13\nlower 1\n1 3\nupper 1\n1 2\nneeds 0\n1",
    );
}

pub fn show_rows() {
    bounded_rows();
    open_rows();
    pair_rows();
    sheet_rows();
    crossing_rows();
}
