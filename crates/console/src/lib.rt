// Standard input and output around a reply: what the programs `charge`, `convert` and `watch` do. Paper 01, "What `charge` prints", and paper 02, requests 9
// and 13.
// They differ in the reply alone; a further program is a variant here and a line in each `match`.
#![tactic(auto)]

ghost use Rattle.std.specs.Prelude.{◌≡◌, ◌≤◌, length, take};
ghost use Rattle.streams.specs.Carrying.{Carried};
ghost use Rattle.console.specs.Running.{ReplyOf, Ran};

use converter::convert_text;
use replies::reply_to;
use std::io::{Eprint, Error, Read, Write};
use streams::{Progress, SPACE, begun, is_whole, read_sheet, space, write_reply};
use text::Text;
use watching::watch_text;

#[derive(Clone, Copy)]
pub enum Program {
    Charge,
    Convert,
    Watch,
}

// What a run has read, and what it has printed of its reply.
#[derive(Clone, Copy)]
pub struct Passage {
    pub sheet: [u8; SPACE],
    pub read: Progress,
    pub text: Text,
    pub wrote: Progress,
}

fn reply_of(program: Program, sheet: &[u8]) -> Text
    ensures { ReplyOf program sheet.now result }
{
    match program {
        Program::Charge => reply_to(sheet),
        Program::Convert => convert_text(sheet),
        Program::Watch => watch_text(sheet),
    }
}

fn name_of(program: Program) -> &'static str {
    match program {
        Program::Charge => "charge",
        Program::Convert => "convert",
        Program::Watch => "watch",
    }
}

// One line on standard error: the program, its stream, and why if that is known. A line that cannot be printed is let go.
fn tell<E: Eprint>(rt: &E, program: Program, stream: &str, why: Option<Error>) {
    let name = name_of(program);
    let told = match why {
        Some(e) => eprintln!(rt; "{name}: {stream}: {e}"),
        None => eprintln!(rt; "{name}: {stream}"),
    };
    let _ = told;
}

fn write_text<W: Write, E: Eprint>(
    rt: &E,
    output: &mut W,
    program: Program,
    t: Text,
    most: usize,
) -> Progress
    requires { (t.len ≤ length t.bytes) × (t.len ≡ length (take t.len t.bytes)) }
    ensures { Carried t.len result }
{
    let bytes = t.bytes;
    let len = t.len;
    let mut why = None;
    let p = write_reply(output, &bytes[..len], most, &mut why);
    if p.at < len {
        tell(rt, program, "standard output", why);
    }
    p
}

fn no_text() -> Text {
    let bytes = text::space();
    Text { bytes, len: 0 }
}

// Reads a sheet from `input` and writes the program's reply to `output`. After a failed read there is no reply; that, and a
// failed write, is told by one line on standard error. No call moves more bytes than `most`.
pub fn run_by<R: Read, W: Write, E: Eprint>(
    rt: &E,
    input: &mut R,
    output: &mut W,
    program: Program,
    most: usize,
) -> Passage
    ensures { Ran program result }
{
    let mut sheet = space();
    let mut why = None;
    let read = read_sheet(input, &mut sheet, most, &mut why);
    let n = read.at;
    if is_whole(read, sheet.len()) {
        let text = reply_of(program, &sheet[..n]);
        let wrote = write_text(rt, output, program, text, most);
        return Passage {
            sheet,
            read,
            text,
            wrote,
        };
    }
    tell(rt, program, "standard input", why);
    let text = no_text();
    let wrote = begun();
    Passage {
        sheet,
        read,
        text,
        wrote,
    }
}

// From standard input to standard output.
pub fn run(rt: &HostRuntime, program: Program) {
    let mut input = rt.stdin();
    let mut output = rt.stdout();
    run_by(rt, &mut input, &mut output, program, SPACE);
}
