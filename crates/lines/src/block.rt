// Eight bytes of a text as one number, a block, and the bytes 10 among them.
ghost use Rattle.std.specs.Prelude.{◌≡◌, ◌+◌, ◌*◌, ◌/◌, ◌^◌, ◌≤◌, ◌<◌, length, take, drop};
ghost use Rattle.std.specs.Int.Count.{count_trailing_zeros};
ghost use Rattle.lines.specs.Blocks.{block_of, hits_in};

// 10 in each byte.
const TENS: u64 = 0x0A0A_0A0A_0A0A_0A0A;

// Every bit but the highest of each byte.
const LOWS: u64 = 0x7F7F_7F7F_7F7F_7F7F;

// Every bit.
const ALL: u64 = 0xFFFF_FFFF_FFFF_FFFF;

// A number with one byte more below it.
fn with_byte(high: u64, low: u8) -> u64
    requires { high < 2 ^ 56 }
    ensures { result ≡ high * 256 + low }
{
    high * 256 + (low as u64)
}

// The block at a place, its first byte the lowest. The compiler makes one load of the loop.
pub(crate) fn block_at(s: &[u8], at: usize) -> u64
    requires { at + 8 ≤ length s.now }
    ensures { result ≡ block_of (take 8 (drop at s.now)) }
{
    let mut w: u64 = 0;
    for i in (0..8).rev() {
        w = with_byte(w, s[at + i]);
    }
    w
}

// The high bit of each byte 10, and no other bit. x has a byte 0 where w has 10. The sum sets the high bit of a byte whose low bits are
// not all 0, and carries into no other byte, since 127 + 127 < 256; the high bit of x itself is the rest of the test.
pub(crate) fn hits_of(w: u64) -> u64
    ensures { result ≡ hits_in 8 w }
{
    let x = w ^ TENS;
    let t = (x & LOWS) + LOWS;
    (t | x | LOWS) ^ ALL
}

// A count as a place.
fn wide(n: u32) -> usize
    ensures { result ≡ n }
{
    n as usize
}

// Which byte the lowest hit is in; 8 where there is no hit.
pub(crate) fn first_hit(m: u64) -> usize
    ensures { result ≡ count_trailing_zeros 64 m / 8 }
{
    wide(u64::trailing_zeros(m) / 8)
}
