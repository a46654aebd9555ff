//! What a lock keeps, as its proof sees it.

/// The two numbers of a list of entries that a lock publishes, so that they are read without a turn.
#[derive(Clone, Copy, Debug, PartialEq, Eq)]
pub enum Shown {
    /// How many cycles have ended.
    Cycles,
    /// How many requests are decided.
    Tickets,
}

/// A value that a lock can keep. It has no methods: the four meanings exist for clauses alone.
pub trait Kept {
    ghost use Rattle.std.specs.Prelude.{◌≡◌, ◌≤◌, ℕ, List, [], ◌++◌};
    ghost use Rattle.turn_lock.specs.declared.kept.Shown.{Shown};

    /// One entry of the list that turns make longer.
    type Entry;

    /// What is the same of all values that one lock ever keeps.
    type Ground;

    // The list of entries that a value keeps.
    ghost entries: { Self → List Self.Entry };

    // The ground of a value.
    ghost footing: { Self → Self.Ground };

    // The number of the pass that made an entry.
    ghost caller: { Self.Entry → ℕ };

    // What is published of a list.
    ghost shown: { Shown → List Self.Entry → ℕ };

    // Of the empty list 0 is published, which is what the words begin with.
    ghost shown_empty: { (which : Shown) → shown which [] ≡ 0 };

    // What is published never falls as the list grows.
    ghost shown_grows: { (which : Shown) (xs ys : List Self.Entry) → shown which xs ≤ shown which (xs ++ ys) };
}
