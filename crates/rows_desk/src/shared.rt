//! Tests of a shared desk: pages of calls through passes, and passes in threads of their own.

#[cfg(test)]
mod crowds;
#[cfg(test)]
mod ends;
#[cfg(test)]
mod lines;
#[cfg(test)]
mod looping;
#[cfg(test)]
mod passes;
#[cfg(test)]
mod sessions;
/// Specs name it, so it stands beside the tests.
pub mod stand;
#[cfg(test)]
mod starts;
