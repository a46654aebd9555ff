//! What a seat of the lock's table knows. No value of these types is made: they stand in proofs alone, where a `u64` is
//! any whole number.

use std::collections::LinkedList;

/// What a seat knows of one published number.
pub struct Known {
    /// The greatest number that it has found, at first 0.
    pub number: u64,
    /// Whether it has counted an entry since it published last.
    pub owes: bool,
}

/// What a seat knows.
pub struct SeatView<E, G> {
    /// Whether it is a pass's. A seat that was joined into another is not, and knows nothing.
    pub alive: bool,
    /// The ticket that it has drawn and not yet passed on, counted from the first ticket of all and never wrapped.
    pub number: Option<u64>,
    /// Whether its ticket is the one that is served.
    pub holds: bool,
    /// How many turns it has taken and passed on.
    pub turns: u64,
    /// How many times it has loaded a published number.
    pub loads: u64,
    /// The counted list, as far as it has seen it.
    pub seen: LinkedList<E>,
    /// What is the same of all values that the lock keeps.
    pub footing: Option<G>,
    /// The numbers of its entries: its pass's, and those of the passes that were joined into it.
    pub mine: LinkedList<u64>,
    /// How many numbers were given to passes, where this seat keeps count.
    pub given: Option<u64>,
    pub cycles: Known,
    pub tickets: Known,
    /// The passes that were joined into it: the numbers of each, beside what that pass had seen.
    pub absorbed: LinkedList<(LinkedList<u64>, LinkedList<E>)>,
}
