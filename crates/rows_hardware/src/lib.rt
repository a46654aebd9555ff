//! Tests of the public calls of hardware components, act by act: a page has for each case a component, and line by line
//! what is done and what is told of it; of the hardware of a description, at start, moved and run; of loan boards, and
//! of where the interfaces of each controller stand there; and of the order of updates, of ends of cycles, and of the
//! records of cycles in which the bodies stand.
#![tactic(auto)]

#[cfg(test)]
mod acts;
#[cfg(test)]
mod boards;
#[cfg(test)]
mod ends;
#[cfg(test)]
mod failures;
#[cfg(test)]
mod managed;
#[cfg(test)]
mod modes;
#[cfg(test)]
mod moves;
#[cfg(test)]
mod orders;
#[cfg(test)]
mod places;
#[cfg(test)]
mod standing;
#[cfg(test)]
mod starts;
#[cfg(test)]
mod steps;
