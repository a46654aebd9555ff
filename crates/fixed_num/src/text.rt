//! The one spelling of a number.

ghost use Rattle.std.specs.Prelude.{◌≡◌, ◌+◌, ◌*◌, ◌^◌, ◌<◌, ◌≤◌, List, [], ◌∷◌, ◌++◌, length, nat_abs};
ghost use Rattle.std.specs.Prelude.{MatchResult, IfOk, IsOk, Some, vec_len, vec_capacity, string_bytes};
ghost use Rattle.std.specs.Fmt.{decimal, DisplaysOnOk};
ghost use Rattle.fixed_num.specs.Text.{spelled, six_digits};

use crate::fx::Fx;
use crate::memory::Memory;
use crate::{DECIMALS, MICRO, MOST_DIGITS_OF_UNITS, MOST_UNITS};
use std::alloc::Global;
use std::fmt;
use std::fmt::{Display, Formatter, Write};
use std::marker::Model;

impl Fx {
    /// No number's text is longer: a sign, ten digits, the point and six decimals.
    pub const LONGEST_TEXT: usize = 1 + MOST_DIGITS_OF_UNITS + 1 + DECIMALS;

    /// The number's text: `-` where negative, the whole part, a point and six decimals.
    #[tactic(auto, using(crate::proofs::SpellingLemmas::spelled_IsUtf8))]
    pub fn text(self, alloc: Global) -> Result<String, Memory>
        ensures { IfOk result (λ text. string_bytes text ≡ spelled self) }
    {
        let mut bytes = Vec::with_capacity(alloc, Fx::LONGEST_TEXT)?;
        self.push_text(&mut bytes)?;
        match String::from_utf8(bytes) {
            Ok(text) => Ok(text),
            Err(_) => unreachable!(),
        }
    }

    /// Appends the number's text. Without memory the bytes stay as they were, and where room is reserved it can't fail.
    pub fn push_text(self, text: &mut Vec<u8>) -> Result<(), Memory>
        ensures bytes { MatchResult result (λ _. text.new.items ≡ text.old.items ++ spelled self)
            (λ _. text.new.items ≡ text.old.items) }
        ensures room { vec_len text.old + length (spelled self) ≤ vec_capacity text.old → IsOk result }
        ensures capacity { vec_capacity text.old ≤ vec_capacity text.new }
        ensures longest { length (spelled self) ≤ Self.LONGEST_TEXT }
    {
        let mut spelling = Spelling::new();
        spelling.put_number(self);
        text.extend_from_slice(spelling.bytes())?;
        Ok(())
    }
}

impl Display for Fx {
    ghost use Rattle.std.specs.Prelude.{Some};
    ghost use Rattle.fixed_num.specs.Text.{spelled};

    ghost output = { λ number. Some (spelled number) };

    fn fmt<W: Write>(&self, f: &mut Formatter<W>) -> fmt::Result {
        write_number(*self, f)
    }
}

fn write_number<W: Write>(number: Fx, f: &mut Formatter<W>) -> fmt::Result
    ensures { DisplaysOnOk W.write_str_gives f.old result (Some (spelled number)) f.new }
{
    let mut spelling = Spelling::new();
    spelling.put_number(number);
    match std::str::from_utf8(spelling.bytes()) {
        Ok(text) => f.write_str(text),
        Err(_) => unreachable!(),
    }
}

/// A text of 18 bytes at most, written from its end. Contracts see the bytes written.
#[derive(Drop)]
struct Spelling {
    bytes: [u8; Fx::LONGEST_TEXT],
    start: usize,
}

impl Model for Spelling {
    ghost use Rattle.std.specs.Prelude.{List, ℕ, drop, ◌≤◌};
    ghost use Rattle.fixed_num.specs.declared.fx.TheConstants.Fx.{LONGEST_TEXT};

    ghost Value = { List ℕ };

    ghost view = { λ s. drop s.start s.bytes };

    ghost invariant = { λ s. s.start ≤ LONGEST_TEXT };
}

impl Spelling {
    fn new() -> Spelling
        ensures { result ≡ [] }
    {
        Spelling {
            bytes: [0; Fx::LONGEST_TEXT],
            start: Fx::LONGEST_TEXT,
        }
    }

    #[tactic(auto, unfolding(crate::specs::Text::spelled))]
    fn put_number(&mut self, number: Fx)
        requires { self.old ≡ [] }
        ensures { self.new ≡ spelled number }
    {
        let micro = number.micro();
        let size = micro.unsigned_abs();
        self.put_decimals(size % u64::from(MICRO));
        self.put(b'.');
        self.put_whole(size / u64::from(MICRO));
        if micro < 0 {
            self.put(b'-');
        }
    }

    fn put(&mut self, byte: u8)
        requires { length self.old < Fx.LONGEST_TEXT }
        ensures bytes { self.new ≡ byte ∷ self.old }
        ensures longer { length self.new ≡ length self.old + 1 }
    {
        self.start -= 1;
        self.bytes[self.start] = byte;
    }

    #[tactic(auto, using(crate::proofs::SpellingLemmas::low_put, crate::proofs::SpellingLemmas::six_digits_are))]
    fn put_decimals(&mut self, decimals: u64)
        requires below_unit { decimals < MICRO }
        requires room { length self.old + DECIMALS ≤ Fx.LONGEST_TEXT }
        ensures bytes { self.new ≡ six_digits decimals ++ self.old }
        ensures longer { length self.new ≡ length self.old + DECIMALS }
    {
        let mut left = decimals;
        'places: for _place in 0..DECIMALS {
            self.put(b'0' + (left % 10) as u8);
            left /= 10;
        }
    }

    #[tactic(auto, using(crate::proofs::SpellingLemmas::decimal_put, crate::proofs::SpellingLemmas::decimal_shorter, std::proofs::lemmas::Fmt::decimal_digit, std::proofs::lemmas::Fmt::decimal_nonempty, crate::proofs::SpellingLemmas::ten_digits))]
    fn put_whole(&mut self, whole: u64)
        requires in_range { whole ≤ MOST_UNITS }
        requires room { length self.old + MOST_DIGITS_OF_UNITS ≤ Fx.LONGEST_TEXT }
        ensures bytes { self.new ≡ decimal whole ++ self.old }
        ensures longer { length self.new ≤ length self.old + MOST_DIGITS_OF_UNITS }
    {
        let mut left = whole;
        while left >= 10 {
            self.put(b'0' + (left % 10) as u8);
            left /= 10;
        }
        self.put(b'0' + left as u8);
    }

    fn bytes(&self) -> &[u8]
        ensures bytes { result.now ≡ self.now }
        ensures longest { length result.now ≤ Fx.LONGEST_TEXT }
    {
        &self.bytes[self.start..]
    }
}
