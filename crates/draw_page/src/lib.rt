//! The page of SVG that shows a run: who commands whom, the run cycle by cycle, and where each joint was.
#![tactic(auto)]

pub use page::{page_of, trace_page_of, trace_whys_of, whys_of};
pub use wrong::WrongTrace;

mod courses;
mod curves;
mod keys;
mod page;
mod style;
mod warnings;
mod wrong;
