//! The part of the picture of a run that tells cycle by cycle what happened, and the same in words.
#![tactic(auto)]

pub use axis::draw_axis;
pub use log::draw_log;
pub use marks::draw_mark;
pub use run::{Run, draw_run};
pub use strip::Strip;
pub use why::push_whys;

mod axis;
mod bars;
mod broken;
mod causes;
mod log;
mod marks;
mod placed;
mod run;
mod strip;
mod why;
