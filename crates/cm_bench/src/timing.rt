//! Two bodies beside each other: their answers compared, and their turns timed.

ghost use Rattle.std.specs.Prelude.{◌<◌};

use crate::bodies::Contender;
use std::rt::Clock;
use std::time::Instant;
use std::{fmt, io};

/// What the bodies go over, and how many turns each is given.
#[derive(Drop)]
pub(crate) struct Trial<'a, C> {
    pub cases: &'a [C],
    pub turns: u64,
    ghost some: { 0 < turns },
}

/// How a plain body and a fast one compare.
#[derive(Clone, Copy)]
pub(crate) struct Pair {
    /// Whether they gave the same answers.
    pub same: bool,
    /// The time of a turn of each.
    pub plain: Tenths,
    pub fast: Tenths,
}

/// A number of tenths, as a time in tenths of a nanosecond; it prints with one decimal.
#[derive(Clone, Copy)]
pub(crate) struct Tenths(u128);

impl Tenths {
    /// The time of each of so many turns that took these nanoseconds together; 0 if there were none.
    pub fn of(nanos: u128, turns: u128) -> Tenths {
        Tenths(nanos.saturating_mul(10).checked_div(turns).unwrap_or(0))
    }
}

impl fmt::Display for Tenths {
    fn fmt<W: fmt::Write>(&self, f: &mut fmt::Formatter<W>) -> fmt::Result {
        write!(f, "{}.{}", self.0 / 10, self.0 % 10)
    }
}

impl Pair {
    /// Prints the line of a pair of this name. One turn has no time worth telling, so its line is the same in each run.
    pub fn tell<R: Print>(&self, rt: &R, name: &str, turns: u64) -> io::Result<()> {
        if !self.same {
            return println!(rt; "{name}: answers differ");
        }
        if turns == 1 {
            return println!(rt; "{name}: same answers");
        }
        println!(rt;
            "{name}: same answers, {} ns plain, {} ns",
            self.plain, self.fast
        )
    }
}

impl<C> Trial<'_, C> {
    /// Compares both bodies and prints their line. Says whether they gave the same answers.
    pub fn tell<R, P, F>(
        &self,
        rt: &R,
        name: &str,
        plain: &mut P,
        fast: &mut F,
    ) -> anyhow::Result<bool>
    where
        R: Clock + Print,
        P: Contender<C>,
        F: Contender<C>,
    {
        let pair = self.compare(rt, plain, fast)?;
        pair.tell(rt, name, self.turns)?;
        Ok(pair.same)
    }

    /// Compares both bodies at each case, and then times the turns of each.
    pub fn compare<R, P, F>(&self, rt: &R, plain: &mut P, fast: &mut F) -> io::Result<Pair>
    where
        R: Clock,
        P: Contender<C>,
        F: Contender<C>,
    {
        let agree = agree(self.cases, plain, fast);
        let (by_plain, plain) = self.timed(rt, plain)?;
        let (by_fast, fast) = self.timed(rt, fast)?;
        Ok(Pair {
            same: agree && by_plain == by_fast,
            plain,
            fast,
        })
    }

    /// The sum of all turns of a body, and the time of one.
    fn timed<R: Clock, B: Contender<C>>(&self, rt: &R, body: &mut B) -> io::Result<(i64, Tenths)> {
        let start = Instant::now(rt)?;
        let sum = self.sum(body);
        let nanos = start.elapsed(rt)?.as_nanos();
        Ok((sum, Tenths::of(nanos, u128::from(self.turns))))
    }

    /// The sum of all turns: round after round over the cases, and at last over as many as are left.
    fn sum<B: Contender<C>>(&self, body: &mut B) -> i64 {
        let count = self.cases.len() as u64;
        let Some(rounds) = self.turns.checked_div(count) else {
            return 0;
        };
        let mut sum = 0;
        for _ in 0..rounds {
            sum = round(self.cases, body, sum);
        }
        let left = (self.turns % count) as usize;
        round(&self.cases[..left], body, sum)
    }
}

/// Whether both give the same answer at each case.
fn agree<C, P: Contender<C>, F: Contender<C>>(cases: &[C], plain: &mut P, fast: &mut F) -> bool {
    for case in cases {
        if plain.turn(case) != fast.turn(case) {
            return false;
        }
    }
    true
}

/// One turn at each case, the answers added to the sum so far: so no round is the same call as another, and none is
/// left out.
fn round<C, B: Contender<C>>(cases: &[C], body: &mut B, mut sum: i64) -> i64 {
    for case in cases {
        sum = sum.wrapping_add(body.turn(case));
    }
    sum
}
