//! Tests of whole runs, as pages of documents: each with how its run ends and what is printed, by the documents' rules.
//! Others are of runs by their words, and of runs whose source or sink fails, or takes a few bytes at a time; of what a
//! run leaves behind, its history and its boxes, and of summaries of histories. Others are of the pages that show runs,
//! and of what tells in words why something was not done: what stands there.
#![tactic(auto)]

#[cfg(test)]
mod awaits;
#[cfg(test)]
mod books;
#[cfg(test)]
mod checks;
#[cfg(test)]
mod console;
#[cfg(test)]
mod drawn;
#[cfg(test)]
mod each_call;
#[cfg(test)]
mod fallbacks;
#[cfg(test)]
mod faults;
#[cfg(test)]
mod gathered;
#[cfg(test)]
mod groups;
#[cfg(test)]
mod hardware;
#[cfg(test)]
mod kinds;
#[cfg(test)]
mod largest;
#[cfg(test)]
mod long_traces;
#[cfg(test)]
mod operators;
#[cfg(test)]
mod outside;
#[cfg(test)]
mod pages;
#[cfg(test)]
mod plans;
#[cfg(test)]
mod runs;
#[cfg(test)]
mod shaping;
#[cfg(test)]
mod sinks;
#[cfg(test)]
mod summaries;
#[cfg(test)]
mod switches;
#[cfg(test)]
mod titles;
#[cfg(test)]
mod traces;
#[cfg(test)]
mod turns;
#[cfg(test)]
mod upgrades;
#[cfg(test)]
mod whys;
#[cfg(test)]
mod words;
