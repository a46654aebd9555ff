//! What holds of the definitions: functions that do nothing, with a contract.

ghost use Rattle.std.specs.Prelude.{◌≡◌, ◌≤◌, ◌<ℤ◌, ℤ, pos, length, Ok};
ghost use Rattle.fixed_num.specs.Micro.{IsInRange};
ghost use Rattle.fixed_num.specs.Arithmetic.{IsFloor, floor_div};
ghost use Rattle.fixed_num.specs.Text.{number_of, spelled};

use crate::fx::Fx;

/// Division rounds down: its quotient is the greatest whole number whose product with the divisor is not above what is
/// divided.
pub fn division_rounds_down()
    ensures { (z d : ℤ) → pos 0 <ℤ d → IsFloor z d (floor_div z d) }
{}

/// A number's text stands for that number.
pub fn text_reads_back(number: Fx)
    ensures { number_of (spelled number) ≡ Ok number }
{}

/// What a text is read as lies in the range, and is spelled as a text that is read as the same number.
pub fn spelling_keeps_the_number(text: &[u8])
    ensures in_range { (n : ℤ) → number_of text.now ≡ Ok n → IsInRange n }
    ensures same { (n : ℤ) → number_of text.now ≡ Ok n → number_of (spelled n) ≡ Ok n }
{}

/// No number in the range has a text of more than 18 bytes.
pub fn texts_are_short()
    ensures { (n : ℤ) → IsInRange n → length (spelled n) ≤ Fx.LONGEST_TEXT }
{}
