//! Tests of the public calls of the ground crates, and of the edge to the world, as pages of text.
#![tactic(auto)]

#[cfg(test)]
mod bodies;
#[cfg(test)]
mod edge;
#[cfg(test)]
mod edge_faults;
#[cfg(test)]
mod faults;
#[cfg(test)]
mod largest;
#[cfg(test)]
mod lists;
#[cfg(test)]
mod names;
#[cfg(test)]
mod numbers;
#[cfg(test)]
mod pace;
#[cfg(test)]
mod places;
