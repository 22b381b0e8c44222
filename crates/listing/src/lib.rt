// The text of the two answers to a problem, as the program `charge` prints it: the sure one, then the possible one, a refusal once. Paper 01: "Text",
// "What `charge` prints", and refusal 11; paper 02, request 11.
// It comes by value (text_of), or at the start of a lent buffer (list_reply), of which no byte changes where it is too short or the answer a refusal.
// text_one is the text of one answer alone.
#![tactic(auto)]

ghost use Rattle.std.specs.Prelude.{◌≡◌, ◌+◌, ◌*◌, ◌≤◌, ◌<◌, length};
ghost use Rattle.text.specs.Buffer.{Put, Shows, told, filled, noted};
ghost use Rattle.listing.specs.Printing.{refused_line, best_line, item_line, item_lines, printed, is_refused, printed_both, unless_refused};

use arith::Fraction;
use knapsack::{Answer, Kind, Refusal};
use model::Answers;
use text::{Text, hand_over, put_integer, put_natural, put_word};

// The line of the item at a place: `k p q`, and behind it the step where steps are shown.
fn put_item(out: &mut [u8], at: usize, steps: bool, k: usize, x: Fraction, s: i64) -> usize
    requires { (at + 86 ≤ length out.old) × (k < 16) }
    ensures { Put 86 at (item_line steps k x s) out.old out.new result }
{
    let amount = put_natural(out, at, k as u64 + 1, b' ');
    let divisor = put_integer(out, amount, x.p, b' ');
    if steps {
        let step = put_natural(out, divisor, x.q, b' ');
        put_integer(out, step, s, b'\n')
    } else {
        put_natural(out, divisor, x.q, b'\n')
    }
}

fn put_items(out: &mut [u8], at: usize, steps: bool, a: Answer, n: usize) -> usize
    requires { (n ≤ 16) × (at + 86 * n ≤ length out.old) }
    ensures { Put (86 * n) at (item_lines steps a n) out.old out.new result }
{
    let mut next = at;
    for k in 0..n {
        next = put_item(out, next, steps, k, a.point[k], a.steps[k]);
    }
    next
}

fn put_best(out: &mut [u8], at: usize, value: Fraction) -> usize
    requires { at + 48 ≤ length out.old }
    ensures { Put 48 at (best_line value) out.old out.new result }
{
    let amount = put_word(out, at, b"best ");
    let divisor = put_integer(out, amount, value.p, b' ');
    put_natural(out, divisor, value.q, b'\n')
}

fn put_refused(out: &mut [u8], at: usize, f: Refusal) -> usize
    requires { at + 50 ≤ length out.old }
    ensures { Put 50 at (refused_line f) out.old out.new result }
{
    let first = put_word(out, at, b"refused ");
    let second = put_natural(out, first, f.number, b' ');
    put_natural(out, second, f.line, b'\n')
}

fn put_answer(out: &mut [u8], at: usize, a: Answer, n: usize) -> usize
    requires { at + 1440 ≤ length out.old }
    ensures { Put 1440 at (printed n a) out.old out.new result }
{
    // no more items than an answer has places
    let m = n.min(16);
    match a.kind {
        Kind::Optimal => {
            let next = put_best(out, at, a.value);
            put_items(out, next, false, a, m)
        }
        Kind::Infeasible => put_word(out, at, b"infeasible\n"),
        Kind::Unbounded => {
            let next = put_word(out, at, b"unbounded\n");
            put_items(out, next, true, a, m)
        }
        Kind::Refused(f) => put_refused(out, at, f),
    }
}

// The line of a refusal by itself.
pub fn refusal_text(f: Refusal) -> Text
    ensures { Shows (refused_line f) result }
{
    let mut bytes = text::space();
    let len = put_refused(&mut bytes, 0, f);
    Text { bytes, len }
}

fn is_refused(a: Answer) -> bool
    ensures { result ≡ is_refused a.kind }
{
    matches!(a.kind, Kind::Refused(_))
}

// A refusal is told once.
fn put_answers(out: &mut [u8], s: Answers, n: usize) -> usize
    requires { 2880 ≤ length out.old }
    ensures { Put 2880 0 (printed_both n s) out.old out.new result }
{
    let next = put_answer(out, 0, s.sure, n);
    if is_refused(s.sure) {
        return next;
    }
    put_answer(out, next, s.possible, n)
}

// The text of the answers about n items.
pub fn text_of(s: Answers, n: usize) -> Text
    ensures { Shows (printed_both n s) result }
{
    let mut bytes = text::space();
    let len = put_answers(&mut bytes, s, n);
    Text { bytes, len }
}

// The text of one answer alone.
pub fn text_one(a: Answer, n: usize) -> Text
    ensures { Shows (printed n a) result }
{
    let mut bytes = text::space();
    let len = put_answer(&mut bytes, 0, a, n);
    Text { bytes, len }
}

// The text of the answers about n items at the start of a lent buffer, whatever their kinds.
fn list_answers(s: Answers, n: usize, out: &mut [u8]) -> Result<usize, Refusal>
    ensures value { result ≡ told (printed_both n s) out.old }
    ensures out_after { out.new ≡ filled (printed_both n s) out.old }
{
    let t = text_of(s, n);
    hand_over(&t.bytes[..t.len], out)
}

// The text of the answers about n items in a lent buffer. A refusal is told itself: it writes nothing.
pub fn list_reply(s: Answers, n: usize, out: &mut [u8]) -> Result<usize, Refusal>
    ensures value { result ≡ unless_refused s.sure.kind noted (told (printed_both n s) out.old) }
    ensures out_after { out.new ≡ unless_refused s.sure.kind (λ f. out.old) (filled (printed_both n s) out.old) }
{
    if let Kind::Refused(f) = s.sure.kind {
        return Err(f);
    }
    list_answers(s, n, out)
}
