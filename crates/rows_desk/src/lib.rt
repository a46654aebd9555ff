//! Tests of the desk and of a shared desk, call by call: a page has for each case the calls of several sessions and of
//! the loop, a line each with what must be told of it; and sessions call on threads of their own.
#![tactic(auto)]

#[cfg(test)]
mod cycles;
#[cfg(test)]
mod desks;
#[cfg(test)]
mod flights;
#[cfg(test)]
mod lines;
#[cfg(test)]
mod looping;
#[cfg(test)]
mod marked;
#[cfg(test)]
mod refused;
pub mod shared;
#[cfg(test)]
mod tables;
