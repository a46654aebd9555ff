//! The depths of the cells: each is put down once in a cycle.

ghost use Rattle.std.specs.Prelude.{◌≡◌, ℕ, ◌<◌, ◌≤◌, ◌==◌, ◌||◌, length, take, drop, slice_index_or};
ghost use Rattle.std.specs.List.{AllByRecursion};
ghost use Rattle.rt_flight.specs.Depths.{places_in, is_led_by, IsFlagged, RanksDepths};
ghost use Rattle.rt_flight.specs.Calls.Depths.{PutsDepths, StartsElsewhere};

use crate::cell::Cell;
use crate::layer::Layer;
use ctl_trait::Controller;
use switch_plan::Relations;

/// The depths of the cells, which stand in the order of updates, are put down; it answers how many there are. A cell
/// stands in the depth of the cell before it, unless a controller of that depth precedes it. It takes no memory.
pub(crate) fn set_depths<C: Controller>(cells: &mut [Cell<C>], relations: &Relations) -> u32
    requires ranked { (ranked : ℕ → ℕ) × RanksDepths relations.now ranked (places_in cells.old) }
    requires related { AllByRecursion (λ c. c.workspace.place < length relations.now.leaders) cells.old }
    ensures { PutsDepths relations.now cells.old cells.new result }
{
    let mut depths = 0;
    let mut first = 0;
    let mut layer = Layer::none();
    for i in 0..cells.len() {
        if starts_depth(cells, first, i, &layer, relations) {
            first = i;
            depths += 1;
            layer = Layer::none();
        }
        layer.insert(cells[i].place());
        cells[i].set_depth(depths - 1);
    }
    depths
}

/// Whether the cell at this index is the first of its depth, while those of the depth before, which have the flags,
/// begin at another.
fn starts_depth<C: Controller>(
    cells: &[Cell<C>],
    first: usize,
    i: usize,
    layer: &Layer,
    relations: &Relations,
) -> bool
    requires within { (first ≤ i) × (i < length cells.now) }
    requires layer { IsFlagged layer.now.flags (drop first (take i (places_in cells.now))) }
    requires related { AllByRecursion (λ c. c.workspace.place < length relations.now.leaders) cells.now }
    ensures { result ≡ (i == 0 || is_led_by relations.now (drop first (take i (places_in cells.now)))
        (slice_index_or (places_in cells.now) i 0)) }
{
    i == 0 || cells[i].follows(&cells[first..i], layer, relations)
}

/// How many of these cells, from the first on, stand in this depth.
pub(crate) fn count_at<C: Controller>(cells: &[Cell<C>], depth: u32) -> usize
    ensures within { result ≤ length cells.now }
    ensures at { AllByRecursion (λ c. c.depth ≡ depth) (take result cells.now) }
    ensures next { StartsElsewhere depth (drop result cells.now) }
{
    let mut count = 0;
    while count < cells.len() && cells[count].depth() == depth {
        count += 1;
    }
    count
}
