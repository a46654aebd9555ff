//! The stock of blank controllers.

ghost use Rattle.std.specs.Prelude.{◌≡◌};

use cm_document::{CtlKind, NUMBER_OF_KINDS};
use std::marker::Model;

/// How many blanks of each kind the stock holds: each load takes one. Contracts see how many there are of a kind.
#[derive(Drop)]
pub struct Blanks {
    counts: [u32; NUMBER_OF_KINDS],
}

impl Model for Blanks {
    ghost use Rattle.std.specs.Prelude.{ℕ, List};

    ghost Value = { List ℕ };

    ghost use Rattle.cm_model.specs.Blanks.{blanks_of, counted_by};

    ghost view = { λ b. counted_by (blanks_of b.counts) };
}

impl Blanks {
    ghost use Rattle.cm_model.specs.Blanks.{blanks_of, blanks_of_each, counted_by, with_count};

    /// So many of each kind.
    pub fn of_each(count: u32) -> Blanks
        ensures { result ≡ blanks_of_each count }
    {
        Blanks {
            counts: [count; NUMBER_OF_KINDS],
        }
    }

    /// How many of a kind there are.
    pub fn of(&self, kind: CtlKind) -> u32
        ensures { result ≡ blanks_of self.now kind }
    {
        self.counts[kind.place()]
    }

    /// The same, but so many of this kind.
    pub fn with(&self, kind: CtlKind, count: u32) -> Blanks
        ensures { result ≡ with_count self.now kind count }
    {
        let mut counts = self.counts;
        counts[kind.place()] = count;
        Blanks { counts }
    }

    /// The same once more.
    pub fn copied(&self) -> Blanks
        ensures { result ≡ self.now }
    {
        Blanks {
            counts: self.counts,
        }
    }

    /// What all blanks are, for a caller's proof: it does nothing.
    pub fn are_counted(&self)
        ensures { self.now ≡ counted_by (blanks_of self.now) }
    {
        let _ = &self.counts;
    }
}
