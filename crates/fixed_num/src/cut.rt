//! A text cut into the parts of a number, and what the parts write.

ghost use Rattle.std.specs.Prelude.{◌≡◌, ◌+◌, ◌<◌, ◌≤◌, length, min, nat_lt, if◌then◌else◌, None, Some, pos, IsTrue};
ghost use Rattle.std.specs.Str.{all_ascii_digits};
ghost use Rattle.std.specs.List.{prefix_len};
ghost use Rattle.std.specs.Char.{is_ascii_digit};
ghost use Rattle.std.specs.Str.Parse.{digits_value};
ghost use Rattle.fixed_num.specs.Text.{front_digits, after_digits, unsigned_parts, number_parts, is_broken};
ghost use Rattle.fixed_num.specs.Text.{is_bare_point, decimal_count, micro_of_decimals, size_of};

use crate::{DECIMALS, LARGEST, MICRO, MOST_UNITS};
use std::marker::Model;

/// A text cut into the parts of a number, and what a number can't have.
#[derive(Drop)]
pub(crate) struct Cut<'a> {
    pub(crate) negative: bool,
    whole: &'a [u8],
    decimals: Option<&'a [u8]>,
    pub(crate) rest: &'a [u8],
}

impl<'a> Model for Cut<'a> {
    ghost use Rattle.std.specs.Prelude.{IsTrue};
    ghost use Rattle.std.specs.Option.{option_map, ForSome};
    ghost use Rattle.std.specs.Str.{all_ascii_digits};
    ghost use Rattle.fixed_num.specs.Text.{Parts};

    ghost Value = { Parts };

    ghost view = { λ s. record {
      negative = s.negative;
      whole = s.whole.now;
      decimals = option_map (λ ds. ds.now) s.decimals;
      rest = s.rest.now;
    } };

    ghost invariant = { λ s.
        IsTrue (all_ascii_digits s.whole.now)
        × ForSome s.decimals (λ ds. IsTrue (all_ascii_digits ds.now)) };
}

impl<'a> Cut<'a> {
    pub(crate) fn of(text: &'a [u8]) -> Cut<'a>
        ensures parts { result ≡ number_parts text.now }
        ensures shorter { length result.rest ≤ length text.now }
    {
        match text.split_first() {
            Some((b'-', behind)) => Cut::unsigned(true, behind),
            _ => Cut::unsigned(false, text),
        }
    }

    fn unsigned(negative: bool, text: &'a [u8]) -> Cut<'a>
        ensures parts { result ≡ unsigned_parts negative text.now }
        ensures shorter { length result.rest ≤ length text.now }
    {
        let (whole, rest) = split_digits(text);
        match rest.split_first() {
            Some((b'.', behind)) if !whole.is_empty() => {
                let (decimals, rest) = split_digits(behind);
                Cut {
                    negative,
                    whole,
                    decimals: Some(decimals),
                    rest,
                }
            }
            _ => Cut {
                negative,
                whole,
                decimals: None,
                rest,
            },
        }
    }

    pub(crate) fn is_broken(&self) -> bool
        ensures { result ≡ is_broken self.now }
    {
        self.whole.is_empty() || self.has_bare_point() || !self.rest.is_empty()
    }

    fn has_bare_point(&self) -> bool
        ensures { result ≡ is_bare_point self.now.decimals }
    {
        match self.decimals {
            Some(digits) => digits.is_empty(),
            None => false,
        }
    }

    pub(crate) fn decimal_count(&self) -> usize
        ensures { result ≡ decimal_count self.now.decimals }
    {
        match self.decimals {
            Some(digits) => digits.len(),
            None => 0,
        }
    }

    /// The micro-units without the sign, where they are in the range.
    pub(crate) fn size(&self) -> Option<i64>
        requires { decimal_count self.now.decimals ≤ DECIMALS }
        ensures { result ≡ (if nat_lt LARGEST (size_of self.now) then None else Some (pos (size_of self.now))) }
    {
        let size = read_digits(self.whole) * u64::from(MICRO) + self.micro_of_decimals();
        (size <= LARGEST).then_some(size as i64)
    }

    #[tactic(auto, using(crate::proofs::DigitLemmas::decimals_below_unit, crate::proofs::DigitLemmas::six_digits_below))]
    fn micro_of_decimals(&self) -> u64
        requires { decimal_count self.now.decimals ≤ DECIMALS }
        ensures value { result ≡ micro_of_decimals self.now.decimals }
        ensures small { result < MICRO }
    {
        match self.decimals {
            Some(digits) => read_digits(digits) * 10u64.pow((DECIMALS - digits.len()) as u32),
            None => 0,
        }
    }
}

/// The digits that a text begins with, and what follows them.
#[tactic(auto, using(crate::proofs::DigitLemmas::front_digits_all))]
fn split_digits(text: &[u8]) -> (&[u8], &[u8])
    ensures front { result.0.now ≡ front_digits text.now }
    ensures rest { result.1.now ≡ after_digits text.now }
    ensures digits { IsTrue (all_ascii_digits result.0.now) }
    ensures shorter { length result.1.now ≤ length text.now }
{
    text.split_at(count_digits(text))
}

fn count_digits(text: &[u8]) -> usize
    ensures count { result ≡ prefix_len is_ascii_digit text.now }
    ensures within { result ≤ length text.now }
{
    text.iter().take_while(|byte| byte.is_ascii_digit()).count()
}

/// The number that the digits write; one above the most units stands for every larger one.
#[tactic(auto, using(crate::proofs::DigitLemmas::number_more, crate::proofs::DigitLemmas::is_digit))]
fn read_digits(digits: &[u8]) -> u64
    requires { IsTrue (all_ascii_digits digits.now) }
    ensures { result ≡ min (digits_value 10 digits.now) (MOST_UNITS + 1) }
{
    let mut number = 0;
    for digit in digits {
        number = (number * 10 + u64::from(digit - b'0')).min(u64::from(MOST_UNITS) + 1);
    }
    number
}
