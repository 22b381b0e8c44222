// A line for a sheet: its capacity, its items as (mark,weight,price,lower,upper) with `..` for an absent bound, its needs, the reply in paper
// 01's words, and the numbers of the items in the order in which the list stands afterwards.
// `point yes`: the point check allows the point, at the value told. `ray yes`: it allows the start, and the steps are a ray.
use crate::lending::Lent;
use crate::order::{print_order, print_untouched};
use crate::sheets::{Sheet, loosened, record_of};
use knapsack::{Answer, Kind};
use model::Need;
use trials::holds::{point_holds, ray_holds};
use trials::print::{print, print_field, print_item, print_kind, print_signed, print_yes};

fn print_sheet(s: Sheet) {
    print_signed(s.capacity);
    print(b";");
    for x in &s.items[..s.count] {
        print_item(*x);
    }
}

fn print_need(need: Need) {
    print(b" needs");
    print_field(need.item as u64);
    print_field(need.cover as u64);
}

fn print_needs(s: Sheet) {
    let needs = s.terms.needs;
    for need in needs.lines.iter().take(needs.count) {
        print_need(*need);
    }
}

fn print_check(s: Sheet, a: Answer) {
    let p = loosened(record_of(s));
    match a.kind {
        Kind::Optimal => {
            print(b"; point ");
            print_yes(point_holds(p, a));
        }
        Kind::Unbounded => {
            print(b"; ray ");
            print_yes(ray_holds(p, a));
        }
        Kind::Infeasible | Kind::Refused(_) => {}
    }
}

fn print_reply(s: Sheet, r: Lent) {
    let a = r.answer;
    print_kind(a);
    if matches!(a.kind, Kind::Refused(_)) {
        print_untouched(s.items, r.items);
    } else {
        print_order(s.items, r.items, s.count);
    }
    print_check(s, a);
}

pub fn print_line(s: Sheet, r: Lent) {
    print_sheet(s);
    print_needs(s);
    print(b": ");
    print_reply(s, r);
    print(b"\n");
}
