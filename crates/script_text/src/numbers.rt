//! Numbers in a line: whole ones of a few digits, and values.

ghost use Rattle.std.specs.Prelude.{◌≡◌, ◌≤◌, ◌<◌, length, IfSome, IsTrue};
ghost use Rattle.std.specs.List.{list_all};
ghost use Rattle.std.specs.Char.{is_ascii_digit};
ghost use Rattle.std.specs.Str.Parse.{digits_value};
ghost use Rattle.cm_document.specs.declared.limits.TheConstants.{MOST_DIGITS_OF_WHOLE};
ghost use Rattle.cm_document.specs.LineGrammar.{whole_word, at_most, value_word, is_time, time_word};

use cm_document::MOST_DIGITS_OF_WHOLE;
use fixed_num::Fx;

/// The whole number that a word writes, of one digit at least and no more than there may be.
pub(crate) fn whole(word: &[u8]) -> Option<u32>
    ensures { result ≡ whole_word word.now }
{
    if word.is_empty() || word.len() > MOST_DIGITS_OF_WHOLE || !are_digits(word) {
        return None;
    }
    Some(digits(word))
}

/// The whole number that a word writes, where it is at most the limit.
pub fn whole_up_to(limit: u32, word: &[u8]) -> Option<u32>
    ensures { result ≡ at_most limit (whole_word word.now) }
{
    match whole(word) {
        Some(number) if number <= limit => Some(number),
        _ => None,
    }
}

/// The value that a word writes.
pub fn value(word: &[u8]) -> Option<Fx>
    ensures { result ≡ value_word word.now }
{
    match Fx::read(word) {
        Ok(value) => Some(value),
        Err(_) => None,
    }
}

/// Whether a word is a time: it begins with `@`.
pub fn is_time(word: &[u8]) -> bool
    ensures { result ≡ is_time word.now }
{
    match word.first() {
        Some(byte) => *byte == b'@',
        None => false,
    }
}

/// The microseconds that a time writes.
pub fn time(word: &[u8]) -> Option<u32>
    ensures { result ≡ time_word word.now }
{
    match word.split_first() {
        Some((b'@', digits)) => whole(digits),
        _ => None,
    }
}

fn are_digits(word: &[u8]) -> bool
    ensures { result ≡ list_all is_ascii_digit word.now }
{
    word.iter().all(|byte| byte.is_ascii_digit())
}

/// The number that some digits write.
#[tactic(auto, using(crate::proofs::NumberLemmas::digits_so_far))]
fn digits(digits: &[u8]) -> u32
    requires short { length digits.now ≤ MOST_DIGITS_OF_WHOLE }
    requires digits { IsTrue (list_all is_ascii_digit digits.now) }
    ensures { result ≡ digits_value 10 digits.now }
{
    let mut number = 0;
    for digit in digits {
        number = number * 10 + u32::from(digit - b'0');
    }
    number
}
