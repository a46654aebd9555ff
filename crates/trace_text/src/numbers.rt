//! Numbers at a place of a buffer that has room. Nearly all bytes of a long trace are digits.

ghost use Rattle.std.specs.Prelude.{◌≡◌, ◌+◌, ◌*◌, ◌<◌, ◌≤◌, ◌++◌, length, take, codes, decimal, IfOk};
ghost use Rattle.fixed_num.specs.Text.{spelled, sign_text, six_digits};
ghost use Rattle.fixed_num.specs.declared.TheConstants.{MICRO, MOST_UNITS, MOST_DIGITS_OF_UNITS};
ghost use Rattle.cm_model.specs.Items.{value_text, outs_text, numbers_text};
ghost use Rattle.trace_text.specs.Joined.{before_item};
ghost use Rattle.trace_text.specs.Placed.{Placed};
ghost use Rattle.trace_text.specs.declared.numbers.TheConstants.{NUMBER_ROOM};

use crate::place::{place_byte, place_pair, place_separator, place_text};
use fixed_num::{Fx, MICRO, Memory, StoredValue, Value};
use itoa::Buffer;

/// What a number takes at most, with the space before it.
const NUMBER_ROOM: usize = 1 + Fx::LONGEST_TEXT;

/// How many micro-units are a unit.
const UNIT: u64 = MICRO as u64;

/// Puts a minus where the number is negative. Its byte is put there in any case.
#[inline(always)]
fn place_sign(bytes: &mut [u8], at: usize, number: Fx) -> usize
    requires { at < length bytes.old }
    ensures placed { Placed bytes.old bytes.new at (sign_text number) result }
    ensures short { result ≤ at + 1 }
{
    bytes[at] = b'-';
    if number.micro() < 0 {
        return at + 1;
    }
    at
}

/// Puts whole units, which are nearly always fewer than ten.
#[inline(always)]
fn place_whole(bytes: &mut [u8], at: usize, whole: u64) -> usize
    requires few { whole ≤ MOST_UNITS }
    requires room { at + MOST_DIGITS_OF_UNITS ≤ length bytes.old }
    ensures placed { Placed bytes.old bytes.new at (decimal whole) result }
    ensures short { result ≤ at + MOST_DIGITS_OF_UNITS }
{
    if whole < 10 {
        return place_byte(bytes, at, b'0' + whole as u8);
    }
    place_digits(bytes, at, whole)
}

/// Puts units of any number of digits.
#[cold]
#[inline(never)]
#[tactic(auto, using(fixed_num::proofs::SpellingLemmas::ten_digits))]
fn place_digits(bytes: &mut [u8], at: usize, whole: u64) -> usize
    requires few { whole ≤ MOST_UNITS }
    requires room { at + MOST_DIGITS_OF_UNITS ≤ length bytes.old }
    ensures placed { Placed bytes.old bytes.new at (decimal whole) result }
    ensures short { result ≤ at + MOST_DIGITS_OF_UNITS }
{
    let mut buffer = Buffer::new();
    place_text(bytes, at, buffer.format(whole).as_bytes())
}

/// Puts the point and six decimals.
#[inline(always)]
fn place_decimals(bytes: &mut [u8], at: usize, decimals: u32) -> usize
    requires few { decimals < MICRO }
    requires room { at + 7 ≤ length bytes.old }
    ensures placed { Placed bytes.old bytes.new at (codes "." ++ six_digits decimals) result }
    ensures end { result ≡ at + 7 }
{
    let at = place_byte(bytes, at, b'.');
    let at = place_pair(bytes, at, decimals / 10_000);
    let at = place_pair(bytes, at, decimals / 100 % 100);
    place_pair(bytes, at, decimals % 100)
}

/// Puts a space and a number's text.
#[inline(always)]
fn place_number(bytes: &mut [u8], at: usize, number: Fx) -> usize
    requires { at + NUMBER_ROOM ≤ length bytes.old }
    ensures placed { Placed bytes.old bytes.new at (codes " " ++ spelled number) result }
    ensures short { result ≤ at + NUMBER_ROOM }
{
    let size = number.micro().unsigned_abs();
    let at = place_byte(bytes, at, b' ');
    let at = place_sign(bytes, at, number);
    let at = place_whole(bytes, at, size / UNIT);
    place_decimals(bytes, at, (size % UNIT) as u32)
}

/// Puts a space and a value's text.
#[inline(always)]
fn place_value(bytes: &mut [u8], at: usize, value: StoredValue) -> usize
    requires { at + NUMBER_ROOM ≤ length bytes.old }
    ensures placed { Placed bytes.old bytes.new at (codes " " ++ value_text value) result }
    ensures short { result ≤ at + NUMBER_ROOM }
{
    match value.get() {
        Value::Unset => place_text(bytes, at, b" unset"),
        Value::Num(number) => place_number(bytes, at, number),
    }
}

/// Puts values, each after a space.
fn place_values(bytes: &mut [u8], at: usize, values: &[StoredValue]) -> usize
    requires { at + NUMBER_ROOM * length values.now ≤ length bytes.old }
    ensures front { take result bytes.new ≡ take at bytes.old ++ outs_text values.now }
    ensures short { result ≤ at + NUMBER_ROOM * length values.now }
    ensures len { length bytes.new ≡ length bytes.old }
{
    let mut at = at;
    for value in values {
        at = place_value(bytes, at, *value);
    }
    at
}

/// Puts numbers, each after a space.
fn place_numbers(bytes: &mut [u8], at: usize, numbers: &[Fx]) -> usize
    requires { at + NUMBER_ROOM * length numbers.now ≤ length bytes.old }
    ensures front { take result bytes.new ≡ take at bytes.old ++ numbers_text numbers.now }
    ensures short { result ≤ at + NUMBER_ROOM * length numbers.now }
    ensures len { length bytes.new ≡ length bytes.old }
{
    let mut at = at;
    for number in numbers {
        at = place_number(bytes, at, *number);
    }
    at
}

/// What an item takes at most that begins with this head and has these values and numbers. No buffer has more than a
/// word counts.
pub(crate) fn item_room(head: &str, values: &[StoredValue], numbers: &[Fx]) -> Result<usize, Memory>
    ensures { IfOk result (λ room. room
        ≡ 2 + length head.now + NUMBER_ROOM * (length values.now + length numbers.now)) }
{
    let count = values.len() + numbers.len();
    let Some(digits) = NUMBER_ROOM.checked_mul(count) else {
        return Err(Memory);
    };
    let Some(room) = digits.checked_add(2 + head.len()) else {
        return Err(Memory);
    };
    Ok(room)
}

/// Puts an item, behind a separator where others stand before it.
pub(crate) fn place_item(
    bytes: &mut [u8],
    at: usize,
    started: bool,
    head: &[u8],
    values: &[StoredValue],
    numbers: &[Fx],
) -> usize
    requires { at + (2 + length head.now + NUMBER_ROOM * (length values.now + length numbers.now))
        ≤ length bytes.old }
    ensures front { take result bytes.new ≡ take at bytes.old ++ before_item started ++ head.now
        ++ outs_text values.now ++ numbers_text numbers.now }
    ensures within { result ≤ length bytes.new }
    ensures len { length bytes.new ≡ length bytes.old }
{
    let at = place_separator(bytes, at, started);
    let at = place_text(bytes, at, head);
    let at = place_values(bytes, at, values);
    place_numbers(bytes, at, numbers)
}
