//! Tests of the callers of a desk: a lock at which threads take turns, a session over a small console, and live runs
//! over small consoles.
#![tactic(auto)]

#[cfg(test)]
mod board;
#[cfg(test)]
mod consoles;
#[cfg(test)]
mod gates;
#[cfg(test)]
mod lines;
#[cfg(test)]
mod rests;
#[cfg(test)]
mod runs;
#[cfg(test)]
mod sessions;
#[cfg(test)]
mod turns;
