//! The lock's type. Its calls stand in `make`, `turn` and `finish`.

ghost use Rattle.std.specs.Prelude.{◌≡◌};

use crate::kept::Kept;
use crate::table::{Spot, Terms, Turns};
use crate::view::SeatView;
use atomic_table::Table;
use std::alloc::Global;

/// A value that its passes take turns at.
#[derive(Drop)]
pub struct TurnLock<K: Kept> {
    pub(crate) table: Table<Spot<K>, SeatView<K::Entry, K::Ground>, Terms<K>, Turns<K>, Global>,
    ghost sized: { (table.shared.table_id.words ≡ 5) × (table.shared.table_id.slots ≡ 1) },
}
