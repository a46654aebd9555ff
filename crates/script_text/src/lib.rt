//! Scripts as text, both ways: the script that a text is, or its first bad line; and a script in its one spelling,
//! which reads back. What each line says and which rules hold stands in `cm_document`, in `LineGrammar`, `ScriptRules`
//! and `ScriptLaws`.
#![tactic(auto)]

pub use lines::{bare_line, first_line};
pub use print::print_script;
pub use reading::{read_script, read_script_with};
pub use saying::said_by;

mod calls;
mod grammar;
pub mod laws;
mod limits;
mod lines;
mod mail;
mod numbers;
mod print;
mod reading;
mod rules;
mod saying;
mod switches;
mod verbs;
mod words;
