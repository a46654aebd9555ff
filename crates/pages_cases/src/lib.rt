//! Pages of cases: constant texts that a person reads, each case with what must be told of it, and what holds them
//! against that.
#![tactic(auto)]

pub mod acts;
pub mod largest;
pub mod pages;
pub mod words;
