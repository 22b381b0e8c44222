// Text: numbers in base ten, and texts in a buffer, by value or lent. Paper 01, "Text", and refusal 11.
// A put_* function writes at a place of a buffer and replies with the place behind what it wrote; hand_over fills a lent buffer or leaves it.
#![tactic(auto)]

ghost use Rattle.std.specs.Prelude.{◌≡◌, [], ◌∷◌, ◌++◌, ◌+◌, ◌≤◌, length};
ghost use Rattle.text.specs.Decimal.{decimal, integer};
ghost use Rattle.text.specs.Buffer.{Put, Spelled, told, filled};

use knapsack::Refusal;
use model::refusals::Reason;

// Room for the longest text that is written: two replies, each with a heading of at most 50 bytes and 16 lines of at most 86.
pub const ROOM: usize = 2880;

// A text by value: the first len bytes.
#[derive(Clone, Copy)]
pub struct Text {
    pub bytes: [u8; ROOM],
    pub len: usize,
}

// The digits of a number: the places of bytes from first on.
#[derive(Clone, Copy)]
pub struct Digits {
    pub bytes: [u8; 20],
    pub first: usize,
}

pub fn put_byte(out: &mut [u8], at: usize, b: u8) -> usize
    requires { at + 1 ≤ length out.old }
    ensures { Put 1 at (b ∷ []) out.old out.new result }
{
    out[at] = b;
    at + 1
}

pub fn put_word(out: &mut [u8], at: usize, w: &[u8]) -> usize
    requires { at + length w.now ≤ length out.old }
    ensures { Put (length w.now) at w.now out.old out.new result }
{
    let next = at + w.len();
    out[at..next].copy_from_slice(w);
    next
}

// From the last digit to the first.
pub fn digits_of(n: u64) -> Digits
    ensures { Spelled n result }
{
    let mut bytes = [48u8; 20];
    bytes[19] = 48 + (n % 10) as u8;
    let mut first: usize = 19;
    let mut rest = n / 10;
    while 0 < rest {
        first -= 1;
        bytes[first] = 48 + (rest % 10) as u8;
        rest /= 10;
    }
    Digits { bytes, first }
}

// A number and the byte behind it.
pub fn put_natural(out: &mut [u8], at: usize, n: u64, end: u8) -> usize
    requires { at + 21 ≤ length out.old }
    ensures { Put 21 at (decimal n ++ (end ∷ [])) out.old out.new result }
{
    let d = digits_of(n);
    let next = put_word(out, at, &d.bytes[d.first..]);
    put_byte(out, next, end)
}

pub fn put_integer(out: &mut [u8], at: usize, z: i64, end: u8) -> usize
    requires { at + 22 ≤ length out.old }
    ensures { Put 22 at (integer z ++ (end ∷ [])) out.old out.new result }
{
    let n = z.unsigned_abs();
    if z < 0 {
        let next = put_byte(out, at, b'-');
        put_natural(out, next, n, end)
    } else {
        put_natural(out, at, n, end)
    }
}

// The bytes before there is a text.
pub fn space() -> [u8; ROOM]
    ensures { length result ≡ 2880 }
{
    [0; ROOM]
}

// A text at the start of a lent buffer; the bytes behind it stay. Refusal 11, and no byte changes, where the buffer is shorter.
pub fn hand_over(text: &[u8], out: &mut [u8]) -> Result<usize, Refusal>
    ensures value { result ≡ told text.now out.old }
    ensures out_after { out.new ≡ filled text.now out.old }
{
    if out.len() < text.len() {
        return Err(Refusal {
            number: Reason::ShortBuffer.number(),
            line: 0,
        });
    }
    put_word(out, 0, text);
    Ok(text.len())
}
