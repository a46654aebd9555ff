//! Who stands in a depth.

ghost use Rattle.std.specs.Prelude.{◌≡◌, ℕ, List, [], ◌∷◌, ◌++◌, slice_get};
ghost use Rattle.rt_flight.specs.Depths.{IsFlagged};

use cm_document::MOST_CONTROLLERS;

/// Who stands in a depth: a flag for each place that a description can have.
#[derive(Drop)]
pub(crate) struct Layer {
    flags: [bool; MOST_CONTROLLERS],
}

impl Layer {
    /// Nobody stands in it. It takes no memory.
    pub(crate) fn none() -> Layer
        ensures { IsFlagged result.flags [] }
    {
        Layer {
            flags: [false; MOST_CONTROLLERS],
        }
    }

    /// The controller at this place stands in it.
    pub(crate) fn insert(&mut self, place: u32)
        ensures { (ps : List ℕ) → IsFlagged self.old.flags ps → IsFlagged self.new.flags (ps ++ place ∷ []) }
    {
        let place = place as usize;
        if place < self.flags.len() {
            self.flags[place] = true;
        }
    }

    /// Whether the controller at this place stands in it. A place past the last that a description can have has no
    /// flag.
    pub(crate) fn flag(&self, place: u32) -> Option<bool>
        ensures { result ≡ slice_get self.now.flags place }
    {
        self.flags.get(place as usize).copied()
    }
}
