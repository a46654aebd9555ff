//! What is timed: each body in the one form that all share.

ghost use Rattle.std.specs.Prelude.{◌≡◌};
ghost use Rattle.fixed_num.specs.Arithmetic.{multiplied, ratio};

use crate::cases::Case;
use crate::plain::{plain_mul, plain_over};

/// One way to do a thing that is timed beside another way.
pub(crate) trait Contender<C> {
    /// Does it once, and gives a number that hangs on its answer.
    fn turn(&mut self, case: &C) -> i64;
}

/// The product by 128 bits.
#[derive(Clone, Copy)]
pub(crate) struct PlainMul;

impl Contender<Case> for PlainMul {
    fn turn(&mut self, case: &Case) -> i64
        ensures { result ≡ multiplied case.now.left case.now.right }
    {
        plain_mul(case.left, case.right).micro()
    }
}

/// `Fx::mul`.
#[derive(Clone, Copy)]
pub(crate) struct FastMul;

impl Contender<Case> for FastMul {
    fn turn(&mut self, case: &Case) -> i64
        ensures { result ≡ multiplied case.now.left case.now.right }
    {
        case.left.mul(case.right).micro()
    }
}

/// The ratio by 128 bits.
#[derive(Clone, Copy)]
pub(crate) struct PlainOver;

impl Contender<Case> for PlainOver {
    fn turn(&mut self, case: &Case) -> i64
        ensures { result ≡ ratio case.now.left case.now.right case.now.divisor }
    {
        plain_over(case.left, case.right.micro(), case.divisor).micro()
    }
}

/// `Fx::over`.
#[derive(Clone, Copy)]
pub(crate) struct FastOver;

impl Contender<Case> for FastOver {
    fn turn(&mut self, case: &Case) -> i64
        ensures { result ≡ ratio case.now.left case.now.right case.now.divisor }
    {
        case.left.over(case.right.micro(), case.divisor).micro()
    }
}
