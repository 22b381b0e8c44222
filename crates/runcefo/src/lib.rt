// Entries for other programs, on bytes and numbers: a sheet's verdict, its reply in a lent buffer, and how much work it is.
// `runcefo_c` hands them to C and Rust. Paper 01, "The sheet" and "What `charge` prints". Nothing is asked of a caller.
#![tactic(auto)]

ghost use Rattle.std.specs.Prelude.{◌≡◌};
ghost use Rattle.converter.specs.Converting.{conversion, cleared};
ghost use Rattle.std.specs.Prelude.{Ok};
ghost use Rattle.listing.specs.Printing.{room};
ghost use Rattle.model.specs.Records.{Admissible};
ghost use Rattle.sheet.specs.Reading.{read_sheet};
ghost use Rattle.model.specs.Records.{some_range};
ghost use Rattle.runcefo.specs.Entries.{told_number, told_line, length_of, listed_verdict, Plans, Solves, Besides, Steps, Cells, saved, left};

use converter::convert;
use knapsack::Refusal;
use model::{Model, Sense, plain_of, some_range};
use planner::solve_needs;
use replies::list_sheet;
use sheet::{Reading, read};
use solver::{STEPS, Solved};
use text::ROOM;
use writer::rewrite_sheet;

// 01's number of a refusal, 0 where there is none.
fn told_number(v: Result<(), Refusal>) -> u64
    ensures { result ≡ told_number v }
{
    match v {
        Ok(()) => 0,
        Err(f) => f.number,
    }
}

// The line of a refusal, 0 where there is none.
fn told_line(v: Result<(), Refusal>) -> u64
    ensures { result ≡ told_line v }
{
    match v {
        Ok(()) => 0,
        Err(f) => f.line,
    }
}

// How long the text is that was handed over, 0 where none was.
fn length_of(w: Result<usize, Refusal>) -> usize
    ensures { result ≡ length_of w }
{
    match w {
        Ok(n) => n,
        Err(_) => 0,
    }
}

// What is told of a text, as a verdict: a text that was handed over is accepted.
fn listed_verdict(w: Result<usize, Refusal>) -> Result<(), Refusal>
    ensures { result ≡ listed_verdict w }
{
    match w {
        Ok(_) => Ok(()),
        Err(f) => Err(f),
    }
}

// The steps of the searches, and the cells that the scales write.
#[derive(Clone, Copy)]
pub struct Work {
    pub steps: u64,
    pub cells: u64,
}

// The answer in a sense, with its work.
fn solved_in(m: Model, sense: Sense) -> Solved
    requires { Admissible m }
    ensures { Solves sense m result }
{
    let ns = m.needs;
    solve_needs(plain_of(m, sense), ns, STEPS)
}

// The work for the possible reply: where every weight is one figure it is the sure one, and none is done.
fn work_besides(m: Model) -> Work
    requires { Admissible m }
    ensures { Besides (λ s. s.steps) m (some_range m) result.steps × Besides (λ s. s.cells) m (some_range m) result.cells }
{
    if some_range(m) {
        let b = solved_in(m, Sense::Possible);
        return Work {
            steps: b.steps,
            cells: b.cells,
        };
    }
    Work { steps: 0, cells: 0 }
}

// The work for what was read, for both replies.
fn work_of(r: Reading) -> Work
    requires { r.verdict ≡ Ok tt → Admissible r.model }
    ensures { Steps r result.steps × Cells r result.cells }
{
    let v = r.verdict;
    let m = r.model;
    match v {
        Ok(()) => {
            let a = solved_in(m, Sense::Sure);
            let b = work_besides(m);
            Work {
                steps: a.steps + b.steps,
                cells: a.cells + b.cells,
            }
        }
        Err(_) => Work { steps: 0, cells: 0 },
    }
}

fn work_for(sheet: &[u8]) -> Work
    ensures { Steps (read_sheet sheet.now) result.steps × Cells (read_sheet sheet.now) result.cells }
{
    let r = read(sheet);
    work_of(r)
}

// How many bytes hold every reply (proofs/Replies, room-holds).
pub fn charge_room() -> usize
    ensures { result ≡ room }
{
    ROOM
}

// A sheet's verdict: 0, or the number of its refusal; line gets the refusal's line, or 0.
pub fn charge_read(sheet: &[u8], line: &mut u64) -> u64
    ensures value { result ≡ told_number (read_sheet sheet.now).verdict }
    ensures line_after { line.new ≡ told_line (read_sheet sheet.now).verdict }
{
    let r = read(sheet);
    let v = r.verdict;
    *line = told_line(v);
    told_number(v)
}

// A sheet is read, and the sheet of what was read put at the start of a lent buffer, as long as it was: 0. A refusal's number, with its line,
// and no byte changes, where it is refused or, refusal 11, the buffer is shorter.
pub fn charge_write(sheet: &[u8], out: &mut [u8], line: &mut u64) -> u64
    ensures value { result ≡ told_number (saved sheet.now out.old) }
    ensures line_after { line.new ≡ told_line (saved sheet.now out.old) }
    ensures out_after { out.new ≡ left sheet.now out.old }
{
    let w = rewrite_sheet(sheet, out);
    let v = listed_verdict(w);
    *line = told_line(v);
    told_number(v)
}

// A stored sheet without its blank items (paper 02, request 9), at the start of a lent buffer: 0, and written gets its length. A refusal's number, with
// its line and length 0, and no byte changes, where the sheet is refused but for its blank items, these cannot go, or the buffer is shorter.
pub fn charge_convert(sheet: &[u8], out: &mut [u8], written: &mut usize, line: &mut u64) -> u64
    ensures value { result ≡ told_number (listed_verdict (conversion sheet.now out.old)) }
    ensures line_after { line.new ≡ told_line (listed_verdict (conversion sheet.now out.old)) }
    ensures written_after { written.new ≡ length_of (conversion sheet.now out.old) }
    ensures out_after { out.new ≡ cleared sheet.now out.old }
{
    let w = convert(sheet, out);
    let v = listed_verdict(w);
    *written = length_of(w);
    *line = told_line(v);
    told_number(v)
}

// What `charge` prints for an accepted sheet, at the start of a lent buffer: 0, and written gets its length. A refusal's number, with its line
// and length 0, and no byte changes, where the sheet is refused or, refusal 11, the buffer is shorter than the text.
pub fn charge_plan(sheet: &[u8], out: &mut [u8], written: &mut usize, line: &mut u64) -> u64
    ensures { Plans sheet.now out.old out.new written.new line.new result }
{
    let w = list_sheet(sheet, out);
    let v = listed_verdict(w);
    *written = length_of(w);
    *line = told_line(v);
    told_number(v)
}

// The steps of the searches for a sheet; none where it is refused, or where no search is needed.
pub fn charge_steps(sheet: &[u8]) -> u64
    ensures { Steps (read_sheet sheet.now) result }
{
    let w = work_for(sheet);
    w.steps
}

// The cells that the scales write for a sheet; none where every search ends and no first point is owed.
pub fn charge_cells(sheet: &[u8]) -> u64
    ensures { Cells (read_sheet sheet.now) result }
{
    let w = work_for(sheet);
    w.cells
}
