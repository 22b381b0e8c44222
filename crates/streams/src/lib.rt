// A sheet from standard input, and a text to standard output: what the programs share. A read that fails is told apart from the end of the
// sheet, for a part of a sheet gets no reply; and a sheet that comes in pieces, as through a pipe, is read on to its end (specs/Carrying).
#![tactic(auto)]

ghost use Rattle.std.specs.Prelude.{◌+◌, ◌≤◌, ◌<◌, ◌≡◌, true, false, length, IfOk};
ghost use Rattle.io.specs.Counts.{IsPrefixLen};
ghost use Rattle.streams.specs.Carrying.{begun, goes_on, is_whole, closed, Turn, Carried};

use std::io::{Error, ErrorKind, Read, Result, Write};

// A call that a signal interrupts moves nothing. Proved loops end, so interruptions are counted; no run meets so many.
const PATIENCE: u64 = 1000000;

// How far a buffer has been read or written, whether more may come, whether no call has failed, and how many interruptions may still come.
#[derive(Clone, Copy)]
pub struct Progress {
    pub at: usize,
    pub more: bool,
    pub good: bool,
    pub left: u64,
}

// One byte more than the longest sheet: enough to tell that a sheet is longer.
pub const SPACE: usize = 4097;

pub fn space() -> [u8; SPACE]
    ensures { 4097 ≡ length result }
{
    [0; SPACE]
}

pub fn begun() -> Progress
    ensures { result ≡ begun }
{
    Progress {
        at: 0,
        more: true,
        good: true,
        left: PATIENCE,
    }
}

// Whether a further call is made for a buffer of that length.
fn goes_on(p: Progress, len: usize) -> bool
    ensures { result ≡ goes_on p len }
{
    p.more && p.at < len && 0 < p.left
}

// The sheet has been read to its end, or so far that it is too long.
pub fn is_whole(p: Progress, len: usize) -> bool
    ensures { result ≡ is_whole p len }
{
    p.good && (!p.more || p.at == len)
}

fn closed(p: Progress, good: bool) -> Progress
    ensures { result ≡ closed p good }
{
    Progress {
        at: p.at,
        more: false,
        good,
        left: p.left,
    }
}

// The call has failed. Why is kept, for whoever tells it.
fn unmoved(p: Progress, e: Error, len: usize, why: &mut Option<Error>) -> Progress
    requires { 0 < p.left }
    ensures { Turn len p result }
{
    *why = Some(e);
    if e.kind() == ErrorKind::Interrupted {
        return Progress {
            at: p.at,
            more: true,
            good: true,
            left: p.left - 1,
        };
    }
    closed(p, false)
}

// The progress after a call that moved n bytes: none at the end.
fn moved(p: Progress, n: usize, len: usize) -> Progress
    requires { p.at + n ≤ len }
    ensures { Turn len p result }
{
    if n == 0 {
        return closed(p, true);
    }
    Progress {
        at: p.at + n,
        more: true,
        good: true,
        left: p.left,
    }
}

// The progress after a call that answered got.
fn turned(p: Progress, got: Result<usize>, len: usize, why: &mut Option<Error>) -> Progress
    requires room { IfOk got (λ n. p.at + n ≤ len) }
    requires left { 0 < p.left }
    ensures { Turn len p result }
{
    match got {
        Ok(n) => moved(p, n, len),
        Err(e) => unmoved(p, e, len, why),
    }
}

// Where a call ends that begins at a place and moves no more than it is allowed.
fn end_of(at: usize, most: usize, len: usize) -> usize
    requires { at ≤ len }
    ensures { (at ≤ result) × (result ≤ len) }
{
    at + most.min(len - at)
}

// One read at the place that was come to, of so many bytes at most.
fn read_on<R: Read>(
    input: &mut R,
    buf: &mut [u8],
    p: Progress,
    most: usize,
    why: &mut Option<Error>,
) -> Progress
    requires { (p.at ≤ length buf.old) × (0 < p.left) }
    ensures { Turn (length buf.old) p result }
{
    let len = buf.len();
    let end = end_of(p.at, most, len);
    let got = input.read(&mut buf[p.at..end]);
    turned(p, got, len, why)
}

// One write from the place that was come to.
fn write_on<W: Write>(
    output: &mut W,
    buf: &[u8],
    p: Progress,
    most: usize,
    why: &mut Option<Error>,
) -> Progress
    requires { (p.at ≤ length buf.now) × (0 < p.left) }
    ensures { Turn (length buf.now) p result }
{
    let len = buf.len();
    let end = end_of(p.at, most, len);
    let got = output.write(&buf[p.at..end]);
    turned(p, got, len, why)
}

// Reads until the buffer is full, the input ends or a read fails; no read is of more bytes than `most`. The last failure is left in `why`.
pub fn read_sheet<R: Read>(
    input: &mut R,
    buf: &mut [u8],
    most: usize,
    why: &mut Option<Error>,
) -> Progress
    ensures { Carried (length buf.new) result × IsPrefixLen result.at buf.new }
{
    let mut p = begun();
    while goes_on(p, buf.len()) {
        p = read_on(input, buf, p, most, why);
    }
    p
}

// Writes until all is written, or a write fails or moves nothing; no write is of more bytes than `most`. The last failure is left in `why`.
pub fn write_reply<W: Write>(
    output: &mut W,
    buf: &[u8],
    most: usize,
    why: &mut Option<Error>,
) -> Progress
    ensures { Carried (length buf.now) result }
{
    let mut p = begun();
    while goes_on(p, buf.len()) {
        p = write_on(output, buf, p, most, why);
    }
    p
}
