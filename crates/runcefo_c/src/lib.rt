// The entries of `runcefo` for programs in C and Rust, as include/runcefo.h declares them: each calls the entry of its name, and promises what that
// promises. Nothing is asked of a caller but that each pointer has as many bytes behind it as the length beside it says.
#![tactic(auto)]

ghost use Rattle.std.specs.Prelude.{◌≡◌};
ghost use Rattle.converter.specs.Converting.{conversion, cleared};
ghost use Rattle.listing.specs.Printing.{room};
ghost use Rattle.sheet.specs.Reading.{read_sheet};
ghost use Rattle.runcefo.specs.Entries.{told_number, told_line, length_of, listed_verdict, Plans, Steps, Cells, saved, left};

// How many bytes hold every reply (proofs/Replies, room-holds).
#[unsafe(no_mangle)]
pub extern "C" fn charge_room() -> usize
    ensures { result ≡ room }
{
    runcefo::charge_room()
}

// A sheet's verdict: 0, or the number of its refusal; line gets the refusal's line, or 0.
#[unsafe(no_mangle)]
pub extern "C" fn charge_read(sheet: &[u8], line: &mut u64) -> u64
    ensures value { result ≡ told_number (read_sheet sheet.now).verdict }
    ensures line_after { line.new ≡ told_line (read_sheet sheet.now).verdict }
{
    runcefo::charge_read(sheet, line)
}

// A sheet is read, and the sheet of what was read put at the start of a lent buffer, as long as it was: 0. A refusal's number, with its line,
// and no byte changes, where it is refused or, refusal 11, the buffer is shorter.
#[unsafe(no_mangle)]
pub extern "C" fn charge_write(sheet: &[u8], out: &mut [u8], line: &mut u64) -> u64
    ensures value { result ≡ told_number (saved sheet.now out.old) }
    ensures line_after { line.new ≡ told_line (saved sheet.now out.old) }
    ensures out_after { out.new ≡ left sheet.now out.old }
{
    runcefo::charge_write(sheet, out, line)
}

// A stored sheet without its blank items, at the start of a lent buffer: 0, and written gets its length. A refusal's number, with
// its line and length 0, and no byte changes, where the sheet is refused but for its blank items, these cannot go, or the buffer is shorter.
#[unsafe(no_mangle)]
pub extern "C" fn charge_convert(
    sheet: &[u8],
    out: &mut [u8],
    written: &mut usize,
    line: &mut u64,
) -> u64
    ensures value { result ≡ told_number (listed_verdict (conversion sheet.now out.old)) }
    ensures line_after { line.new ≡ told_line (listed_verdict (conversion sheet.now out.old)) }
    ensures written_after { written.new ≡ length_of (conversion sheet.now out.old) }
    ensures out_after { out.new ≡ cleared sheet.now out.old }
{
    runcefo::charge_convert(sheet, out, written, line)
}

// What `charge` prints for an accepted sheet, at the start of a lent buffer: 0, and written gets its length. A refusal's number, with its line
// and length 0, and no byte changes, where the sheet is refused or, refusal 11, the buffer is shorter than the text.
#[unsafe(no_mangle)]
pub extern "C" fn charge_plan(
    sheet: &[u8],
    out: &mut [u8],
    written: &mut usize,
    line: &mut u64,
) -> u64
    ensures { Plans sheet.now out.old out.new written.new line.new result }
{
    runcefo::charge_plan(sheet, out, written, line)
}

// The steps of the searches for a sheet; none where it is refused, or where no search is needed.
#[unsafe(no_mangle)]
pub extern "C" fn charge_steps(sheet: &[u8]) -> u64
    ensures { Steps (read_sheet sheet.now) result }
{
    runcefo::charge_steps(sheet)
}

// The cells that the scales write for a sheet; none where every search ends and no first point is owed.
#[unsafe(no_mangle)]
pub extern "C" fn charge_cells(sheet: &[u8]) -> u64
    ensures { Cells (read_sheet sheet.now) result }
{
    runcefo::charge_cells(sheet)
}
