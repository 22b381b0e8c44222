// The test load (paper 02, request 8): prints the thousand sheets for seed 1, nothing between them. Each is the writer's sheet of the problem
// drawn after the state that the one before it left.
#![tactic(auto)]

ghost use Rattle.std.specs.Prelude.{◌≡◌, ◌≤◌, length, take};
ghost use Rattle.text.specs.Buffer.{Shows};
ghost use Rattle.sheet.specs.Printing.{printing};
ghost use Rattle.drawing.specs.Drawing.{drawn_problem};

use std::io::{Eprint, Error, Write};
use streams::{SPACE, write_reply};
use text::Text;

// A sheet, and the state after its draws.
#[derive(Clone, Copy)]
struct DrawnSheet {
    sheet: Text,
    state: u64,
}

// The sheet of the problem after a state.
fn draw_sheet(state: u64) -> DrawnSheet
    ensures shows { Shows (printing (drawn_problem state).problem) result.sheet }
    ensures state_value { result.state ≡ (drawn_problem state).state }
{
    let d = drawing::draw_problem(state);
    DrawnSheet {
        sheet: writer::sheet_text(d.problem),
        state: d.state,
    }
}

// Whether all of it was written.
fn print_sheet<W: Write>(output: &mut W, t: Text, why: &mut Option<Error>) -> bool
    requires { (t.len ≤ length t.bytes) × (t.len ≡ length (take t.len t.bytes)) }
{
    let p = write_reply(output, &t.bytes[..t.len], SPACE, why);
    p.at == t.len
}

// One line on standard error: why the output failed, if that is known. A line that cannot be printed is let go.
fn tell_unwritten<E: Eprint>(rt: &E, why: Option<Error>) {
    let told = match why {
        Some(e) => eprintln!(rt; "load: standard output: {e}"),
        None => eprintln!(rt; "load: standard output"),
    };
    let _ = told;
}

// The first sheets for a seed. A failed write ends them, and is told by one line on standard error.
fn print_load<W: Write, E: Eprint>(rt: &E, output: &mut W, seed: u64, sheets: u64) {
    let mut state = seed;
    let mut why = None;
    for _ in 0..sheets {
        let d = draw_sheet(state);
        if !print_sheet(output, d.sheet, &mut why) {
            tell_unwritten(rt, why);
            return;
        }
        state = d.state;
    }
}

fn main(rt: HostRuntime) {
    let mut output = rt.stdout();
    print_load(&rt, &mut output, 1, 1000);
}
