//! Tests of the program but for its `main`, of the job `live`, and of jobs by several workers: the program's words, its
//! statuses, runs where one allocation may be refused, and whole runs of these jobs.
#![tactic(auto)]

#[cfg(test)]
mod ends;
#[cfg(test)]
mod given;
#[cfg(test)]
mod jobs;
#[cfg(test)]
mod memory;
#[cfg(test)]
mod words;
