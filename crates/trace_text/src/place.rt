//! Bytes at a place of a buffer that has room. Each call tells where the next ones go.

ghost use Rattle.std.specs.Prelude.{◌≡◌, ◌+◌, ◌/◌, ◌%◌, ◌<◌, ◌≤◌, [], ◌∷◌, length, take};
ghost use Rattle.trace_text.specs.Joined.{before_item};
ghost use Rattle.trace_text.specs.Placed.{Placed};

use std::simd::Simd;

/// The two digits of each number below a hundred.
static PAIRS: [u8; 200] = *b"\
    0001020304050607080910111213141516171819\
    2021222324252627282930313233343536373839\
    4041424344454647484950515253545556575859\
    6061626364656667686970717273747576777879\
    8081828384858687888990919293949596979899";

/// Puts a byte.
#[inline(always)]
pub(crate) fn place_byte(bytes: &mut [u8], at: usize, byte: u8) -> usize
    requires { at < length bytes.old }
    ensures placed { Placed bytes.old bytes.new at (byte ∷ []) result }
    ensures end { result ≡ at + 1 }
{
    bytes[at] = byte;
    at + 1
}

/// Puts two digits.
#[inline(always)]
pub(crate) fn place_pair(bytes: &mut [u8], at: usize, pair: u32) -> usize
    requires few { pair < 100 }
    requires room { at + 2 ≤ length bytes.old }
    ensures placed { Placed bytes.old bytes.new at ((48 + pair / 10) ∷ (48 + pair % 10) ∷ []) result }
    ensures end { result ≡ at + 2 }
{
    let from = pair as usize * 2;
    let (tens, ones) = (PAIRS[from], PAIRS[from + 1]);
    bytes[at] = tens;
    bytes[at + 1] = ones;
    at + 2
}

/// Puts what stands before an item. Its two bytes are put there in any case, and count where others stand before.
#[inline(always)]
pub(crate) fn place_separator(bytes: &mut [u8], at: usize, started: bool) -> usize
    requires { at + 2 ≤ length bytes.old }
    ensures placed { Placed bytes.old bytes.new at (before_item started) result }
    ensures short { result ≤ at + 2 }
{
    bytes[at] = b';';
    bytes[at + 1] = b' ';
    if started {
        return at + 2;
    }
    at
}

/// Puts the first `N` bytes of a text: one load and one store.
#[inline(always)]
fn place_front<const N: usize>(bytes: &mut [u8], at: usize, text: &[u8]) -> usize
    requires { (N ≤ length text.now) × (at + N ≤ length bytes.old) }
    ensures { Placed bytes.old bytes.new at (take N text.now) result }
{
    Simd::<u8, N>::from_slice(text).copy_to_slice(&mut bytes[at..]);
    at + N
}

/// Puts a text of `N` to `2 N` bytes: its first `N`, and its last `N` partly over them.
#[inline(always)]
fn place_ends<const N: usize>(bytes: &mut [u8], at: usize, text: &[u8]) -> usize
    requires fits { at + length text.now ≤ length bytes.old }
    requires covers { (N ≤ length text.now) × (length text.now ≤ N + N) }
    ensures { Placed bytes.old bytes.new at text.now result }
{
    let last = text.len() - N;
    place_front::<N>(bytes, at, text);
    place_front::<N>(bytes, at + last, &text[last..])
}

/// Puts a text of 32 bytes or more.
fn place_long(bytes: &mut [u8], at: usize, text: &[u8]) -> usize
    requires { (32 ≤ length text.now) × (at + length text.now ≤ length bytes.old) }
    ensures { Placed bytes.old bytes.new at text.now result }
{
    let mut done = 0;
    while text.len() - done > 64 {
        place_front::<32>(bytes, at + done, &text[done..]);
        done += 32;
    }
    place_ends::<32>(bytes, at + done, &text[done..])
}

/// Puts a text. Most are short, and to call the system's copy would take longer than two copies of a fixed size.
#[inline(always)]
pub(crate) fn place_text(bytes: &mut [u8], at: usize, text: &[u8]) -> usize
    requires { at + length text.now ≤ length bytes.old }
    ensures { Placed bytes.old bytes.new at text.now result }
{
    let len = text.len();
    if len > 32 {
        place_long(bytes, at, text)
    } else if len >= 16 {
        place_ends::<16>(bytes, at, text)
    } else if len >= 8 {
        place_ends::<8>(bytes, at, text)
    } else if len >= 4 {
        place_ends::<4>(bytes, at, text)
    } else if len >= 2 {
        place_ends::<2>(bytes, at, text)
    } else if len == 1 {
        place_front::<1>(bytes, at, text)
    } else {
        at
    }
}
