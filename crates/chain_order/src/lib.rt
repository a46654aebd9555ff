//! The order among described controllers: which precede which, whether one precedes itself, and in which order and how
//! often active ones are updated. Claims are resolved to places once, and what remains goes over places.
#![tactic(auto)]

pub use links::{Links, exports, precedes};
pub use loops::first_loop;
pub use orders::{by_rank, has_any, heights, in_order, is_chained, run_list, serials};
pub use places::PlaceSet;
pub use rates::{divisor, due};

pub mod laws;
mod links;
mod loops;
mod orders;
mod places;
mod ranks;
mod rates;
mod search;
