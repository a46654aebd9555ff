//! The desk, the one object that changes: the loaded controllers with the console's calls on them, the requests that
//! wait, and the hardware with its cycles, in which the active controllers are updated.
#![tactic(auto)]

pub use book::Book;
pub use desk::Desk;

mod answer;
mod begin;
mod book;
mod console;
mod cycles;
mod desk;
mod filling;
mod land;
pub mod laws;
mod lines;
mod works;

/// The entries of a book are fewer than this.
pub const TOO_MANY_FOR_A_BOOK: usize = 1 << 32;
