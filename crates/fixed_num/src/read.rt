//! Reading a number from text.

ghost use Rattle.std.specs.Prelude.{◌≡◌};
ghost use Rattle.fixed_num.specs.Text.{number_in_range, number_of};

use crate::DECIMALS;
use crate::cut::Cut;
use crate::fx::Fx;
use thiserror::Error;

/// Why a text is no number; where several reasons hold, the first of them here.
#[derive(Clone, Copy, Debug, PartialEq, Eq, Error)]
pub enum FxFault {
    /// There are no bytes.
    #[error("no number")]
    Empty,
    /// The first byte that can't stand at its place, by that place; or the length, where a digit is missing at the end.
    #[error("not a number at byte {0}")]
    BadByte(usize),
    /// Seven or more decimals.
    #[error("more than six decimals")]
    TooManyDecimals,
    /// Outside the range.
    #[error("number out of range")]
    TooLarge,
}

impl Fx {
    /// The number that a text stands for: an optional `-`, one or more digits, optionally `.` and one to six digits.
    #[tactic(auto, using(crate::proofs::ReadLemmas::number_of_nothing, crate::proofs::ReadLemmas::number_of_broken, crate::proofs::ReadLemmas::number_of_parts))]
    pub fn read(text: &[u8]) -> Result<Fx, FxFault>
        ensures { result ≡ number_of text.now }
    {
        if text.is_empty() {
            return Err(FxFault::Empty);
        }
        let cut = Cut::of(text);
        if cut.is_broken() {
            return Err(FxFault::BadByte(text.len() - cut.rest.len()));
        }
        number_in_range(&cut)
    }
}

#[tactic(auto, unfolding(crate::specs::Micro::clamped))]
fn number_in_range(cut: &Cut) -> Result<Fx, FxFault>
    ensures { result ≡ number_in_range cut.now }
{
    if cut.decimal_count() > DECIMALS {
        return Err(FxFault::TooManyDecimals);
    }
    match cut.size() {
        Some(size) if cut.negative => Ok(Fx::from_micro(-size)),
        Some(size) => Ok(Fx::from_micro(size)),
        None => Err(FxFault::TooLarge),
    }
}
