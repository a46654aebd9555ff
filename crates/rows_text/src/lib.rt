//! Tests of the public calls that read words, that read and check descriptions, that read and print scripts, and that
//! make documents: what no clause says, as that calls succeed where there is memory, and cases beside the clauses. Most
//! are pages of text, each with what must be told of it.
#![tactic(auto)]

#[cfg(test)]
mod checks;
#[cfg(test)]
mod descriptions;
#[cfg(test)]
mod faults;
#[cfg(test)]
mod largest;
#[cfg(test)]
mod made;
#[cfg(test)]
mod scripts;
#[cfg(test)]
mod words;

#[cfg(test)]
use pages_cases::pages;
