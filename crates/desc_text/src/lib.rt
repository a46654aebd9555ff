//! A description's text, read: the description that it is, or its first fault with its place. A description, printed.
//! Each kind of table is one file, with the keys that it may have and how each is read.
#![tactic(auto)]

pub use print::print_description;
pub use read::read_description;

mod component;
mod controller;
mod cycles;
mod faults;
mod forms;
mod group;
mod joint;
mod keys;
mod own_keys;
mod paths;
mod print;
mod read;
mod states;
mod values;
mod words;
