//! The numbers that the bodies get. They come from a seed given at run time, so the compiler knows none of them.

ghost use Rattle.std.specs.Prelude.{◌≡◌, ◌*◌, pos, nat_abs, ◌<ℤ◌, ◌≤◌, ◌≤ℤ◌};
ghost use Rattle.fixed_num.specs.declared.TheConstants.{LARGEST};
ghost use Rattle.cm_bench.specs.Shapes.{timed};
ghost use Rattle.cm_bench.specs.declared.cases.TheConstants.{FAR, LOWEST, HIGHEST};

use ctl_shape::Limiter;
use fixed_num::{Fx, LARGEST, Memory, Value};
use std::alloc::Global;

/// How many cases a round has. They fit the nearest cache.
const COUNT: usize = 1000;

/// How far from 0 a number is at most, in micro-units: a thousand units, so that the product of two fits 64 bits.
const FAR: u64 = 1_000_000_000;

/// Ten units, in micro-units: so far from 0 the joints of most machines are, and how fast they move.
const NEAR: u64 = 10_000_000;

/// What one turn of a body is given.
#[derive(Clone, Copy)]
pub(crate) struct Case {
    pub left: Fx,
    pub right: Fx,
    pub divisor: i64,
    ghost positive: { pos 0 <ℤ divisor },
}

/// The cases of a seed.
pub(crate) fn made(alloc: Global, seed: u64) -> Result<Vec<Case>, Memory> {
    let mut source = SplitMix::make(seed);
    let mut cases = Vec::with_capacity(alloc, COUNT)?;
    for _ in 0..COUNT {
        cases.push(source.case())?;
    }
    Ok(cases)
}

/// So many numbers of a seed, of at most so many micro-units either way.
fn numbers(alloc: Global, seed: u64, count: usize, far: u64) -> Result<Vec<Fx>, Memory>
    requires { far ≤ FAR }
{
    let mut source = SplitMix::make(seed);
    let mut numbers = Vec::new(alloc);
    for _ in 0..count {
        numbers.push(source.within(far))?;
    }
    Ok(numbers)
}

/// The positions of a round's joints.
pub(crate) fn positions(alloc: Global, seed: u64) -> Result<Vec<Fx>, Memory> {
    numbers(alloc, seed, COUNT, NEAR)
}

/// The ends of the limiter that is timed, in micro-units.
pub(crate) const LOWEST: i64 = -5000;

pub(crate) const HIGHEST: i64 = 5000;

/// So far from 0 wanted positions are: beyond both ends, so that it comes to them.
const WANTED: u64 = 6000;

/// A position is wanted for so many updates: long enough to go from end to end, and to stand there.
const UPDATES: usize = 100;

/// One update of a limiter: where it stands, the step that led there, and what is wanted.
#[derive(Clone, Copy)]
pub(crate) struct Stand {
    pub at: Fx,
    pub last: i64,
    pub wanted: Fx,
    ghost above: { LOWEST ≤ℤ at },
    ghost below: { at ≤ℤ HIGHEST },
    ghost short: { nat_abs last ≤ 2 * LARGEST },
}

impl Stand {
    /// The next update of this limiter, towards another position.
    fn next(&self, limiter: &Limiter, wanted: Fx) -> Stand
        requires { limiter.now ≡ timed }
    {
        let at = limiter.advance(self.at, self.last, Value::Num(self.wanted));
        Stand {
            at,
            last: Fx::difference(at, self.at),
            wanted,
        }
    }
}

/// The updates of a round, one after the other, of a limiter that goes for positions of a seed.
pub(crate) fn stands(alloc: Global, seed: u64, limiter: &Limiter) -> Result<Vec<Stand>, Memory>
    requires { limiter.now ≡ timed }
{
    let wanted = numbers(alloc, seed, COUNT / UPDATES, WANTED)?;
    let mut stands = Vec::with_capacity(alloc, COUNT)?;
    let mut stand = Stand {
        at: Fx::ZERO,
        last: 0,
        wanted: Fx::ZERO,
    };
    for number in 0..COUNT {
        stands.push(stand)?;
        stand = stand.next(limiter, wanted_in(wanted.as_slice(), number));
    }
    Ok(stands)
}

/// What is wanted in the update of this number.
fn wanted_in(wanted: &[Fx], number: usize) -> Fx {
    wanted.get(number / UPDATES).copied().unwrap_or(Fx::ZERO)
}

/// Gives numbers without visible order: the generator known as SplitMix64.
#[derive(Drop)]
struct SplitMix {
    state: u64,
}

impl SplitMix {
    /// The numbers of a seed.
    fn make(seed: u64) -> SplitMix {
        SplitMix { state: seed }
    }

    fn case(&mut self) -> Case {
        Case {
            left: self.number(),
            right: self.number(),
            divisor: 1 + (self.next() % 1_000_000) as i64,
        }
    }

    /// The next number, of up to a thousand units either way.
    fn number(&mut self) -> Fx {
        self.within(FAR)
    }

    /// The next number of at most so many micro-units either way.
    fn within(&mut self, far: u64) -> Fx
        requires { far ≤ FAR }
    {
        Fx::from_micro((self.next() % (2 * far + 1)) as i64 - far as i64)
    }

    /// The next number of 64 bits.
    fn next(&mut self) -> u64 {
        self.state = self.state.wrapping_add(0x9E37_79B9_7F4A_7C15);
        let mixed = (self.state ^ (self.state >> 30)).wrapping_mul(0xBF58_476D_1CE4_E5B9);
        let mixed = (mixed ^ (mixed >> 27)).wrapping_mul(0x94D0_49BB_1331_11EB);
        mixed ^ (mixed >> 31)
    }
}
