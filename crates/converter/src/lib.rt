// The converter of stored sheets (paper 02, request 9): a sheet is read with its blank items, and written without them.
// The reader's refusals come first, then 15 where the blank items cannot go, then 11. What the meaning gives stays: proofs/Converted.
#![tactic(auto)]

ghost use Rattle.std.specs.Prelude.{◌≡◌, ◌≤◌};
ghost use Rattle.std.specs.Prelude.{Ok};
ghost use Rattle.model.specs.declared.Blanks.TheVariants as blanks;
ghost use Rattle.model.specs.Records.{verdict_by};
ghost use Rattle.text.specs.Buffer.{Shows};
ghost use Rattle.listing.specs.Printing.{refused_line};
ghost use Rattle.writer.specs.Writing.{on_accepted};
ghost use Rattle.converter.specs.Converting.{hindered, convertible, converted, conversion, cleared, Dropped, Unblanked};

use dropping::{drop_blanks, hindrance};
use knapsack::Refusal;
use listing::refusal_text;
use model::refusals::Reason;
use model::{Blanks, Model};
use sheet::{Reading, read_by};
use text::Text;
use writer::{sheet_text, write_sheet};

// Refusal 15, told at the line of the item that stands against it.
fn check_blanks(m: Model) -> Result<(), Refusal>
    requires { (m.count ≤ 16) × (m.needs.count ≤ 16) }
    ensures { result ≡ hindered m }
{
    let k = hindrance(m);
    if k < m.count {
        return Err(Refusal {
            number: Reason::BlankItem.number(),
            line: k as u64 + 4,
        });
    }
    Ok(())
}

// The record without its blank items, if they can go.
fn without_blanks(m: Model) -> Reading
    requires { verdict_by blanks.Kept m ≡ Ok tt }
    ensures { Dropped m result }
{
    if let Err(f) = check_blanks(m) {
        return Reading {
            verdict: Err(f),
            model: m,
        };
    }
    Reading {
        verdict: Ok(()),
        model: drop_blanks(m),
    }
}

// The record of a sheet without its blank items, or why there is none.
fn unblanked(s: &[u8]) -> Reading
    ensures { Unblanked s.now result }
{
    let r = read_by(s, Blanks::Kept);
    match r.verdict {
        Err(_) => r,
        Ok(()) => without_blanks(r.model),
    }
}

// The sheet without its blank items at the start of a lent buffer; the bytes behind it stay. A refusal changes no byte.
pub fn convert(s: &[u8], out: &mut [u8]) -> Result<usize, Refusal>
    ensures value { result ≡ conversion s.now out.old }
    ensures out_after { out.new ≡ cleared s.now out.old }
{
    let r = unblanked(s);
    r.verdict?;
    write_sheet(r.model, out)
}

// What the program prints: the same by value, with the line of a refusal in its place.
pub fn convert_text(s: &[u8]) -> Text
    ensures { Shows (on_accepted (convertible s.now) refused_line (converted s.now)) result }
{
    let r = unblanked(s);
    match r.verdict {
        Err(f) => refusal_text(f),
        Ok(()) => sheet_text(r.model),
    }
}
