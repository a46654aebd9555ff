//! The job `live` in whole runs: calls of sessions and cycles in orders that a gate forces, and runs that are left to
//! their threads; and jobs by several workers: that they work beside one another, and that a run prints what it prints
//! by one.

mod alike;
mod beside;
mod forced;
mod free;
mod meeting;
mod ordered;
mod orders;
mod running;
mod waiting;
mod watching;
