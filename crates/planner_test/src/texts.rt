// The text entry with buffers a byte too short, just long enough, and longer: what is told, and the whole buffer afterwards.
ghost use Rattle.std.specs.Prelude.{◌≤◌};

use crate::rows::{sheet_a, sheet_e, sheet_g};
use knapsack::Refusal;
use model::Model;
use replies::list;
use trials::make::{held, one};
use trials::print::{print, print_number};

fn print_told(l: Result<usize, Refusal>) {
    match l {
        Ok(n) => {
            print(b"written ");
            print_number(n as u64);
        }
        Err(f) => {
            print(b"refused ");
            print_number(f.number);
            print(b" ");
            print_number(f.line);
        }
    }
    print(b"\n");
}

// The first bytes of the buffer are lent.
fn show_text(p: Model, size: usize)
    requires { size ≤ 80 }
{
    let mut buffer = [b'#'; 80];
    print_told(list(p, &mut buffer[..size]));
    print(&buffer);
    print(b"\n");
}

pub fn show_texts() {
    show_text(sheet_a(), 43);
    show_text(sheet_a(), 44);
    show_text(sheet_a(), 80);
    show_text(sheet_e(), 21);
    show_text(sheet_e(), 22);
    show_text(sheet_e(), 80);
    show_text(sheet_g(), 67);
    show_text(sheet_g(), 68);
    show_text(sheet_g(), 80);
    let p = one(0, held(1001, 1, 0, 1));
    show_text(p, 0);
    show_text(p, 80);
}
