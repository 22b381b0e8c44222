// From end to end: what is printed for a sheet, and the text of the reply to a record or a sheet in a lent buffer. Paper 01, "What `charge`
// prints" and the text among the parts that stand in public; paper 02, request 11: the sure reply, then the possible one.
#![tactic(auto)]

ghost use Rattle.std.specs.Prelude.{◌≡◌};
ghost use Rattle.senses.specs.Both.{PlannedBoth};
ghost use Rattle.replies.specs.Replies.{both_refused, Answered, Replies, Lists, SheetLists};

use knapsack::{Kind, Refusal};
use listing::{list_reply, text_of};
use model::{Answers, Model};
use senses::plan_both;
use sheet::{Reading, read};
use solver::no_point;
use text::Text;

fn both_refused(f: Refusal) -> Answers
    ensures { result ≡ both_refused f }
{
    Answers {
        sure: no_point(Kind::Refused(f)),
        possible: no_point(Kind::Refused(f)),
    }
}

// The answers to what was read.
fn answered(r: Reading) -> Answers
    ensures { Answered r result }
{
    match r.verdict {
        Ok(()) => plan_both(r.model),
        Err(f) => both_refused(f),
    }
}

// What is printed for a sheet.
pub fn reply_to(sheet: &[u8]) -> Text
    ensures { Replies sheet.now result }
{
    let r = read(sheet);
    text_of(answered(r), r.model.count)
}

// The text of the reply to a record in a lent buffer: its refusal, or refusal 11 if the buffer is too short, and no byte changes; else
// the text at the start of the buffer, and the bytes behind it stay.
pub fn list(m: Model, out: &mut [u8]) -> Result<usize, Refusal>
    ensures { Lists (PlannedBoth m) m.count out.old out.new result }
{
    let a = plan_both(m);
    list_reply(a, m.count, out)
}

// The same for a sheet: its own refusal, with its line, comes first.
pub fn list_sheet(sheet: &[u8], out: &mut [u8]) -> Result<usize, Refusal>
    ensures { SheetLists sheet.now out.old out.new result }
{
    let r = read(sheet);
    list_reply(answered(r), r.model.count, out)
}
