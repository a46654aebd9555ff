//! What is to be done.

ghost use Rattle.std.specs.Prelude.{◌<◌};

/// How many turns each body gets, and the seed of the numbers.
#[derive(Clone, Copy)]
pub(crate) struct TurnsAsked {
    pub turns: u64,
    pub seed: u64,
    ghost some: { 0 < turns },
}
