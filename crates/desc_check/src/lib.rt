//! The checks of a description that was read: it is valid, or its first fault is told. Each check is one module, in the
//! order in which a fault counts: counts, names, ranges, interfaces, fallbacks, members, loops.
#![tactic(auto)]

pub use verdict::check;

mod counts;
mod fallbacks;
mod interfaces;
mod loops;
mod members;
mod names;
mod ranges;
mod references;
mod verdict;
