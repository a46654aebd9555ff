//! The text of a page of SVG: lengths and areas, shapes and titles, and numbers as they are printed there.
#![tactic(auto)]

pub use layout::{Area, MARGIN, PAGE_WIDTH, PagePoint, Px};
pub use lines::wrapped;
pub use numbers::{push_cycles, short};
pub use svg::{Svg, shortened};

mod layout;
mod lines;
mod numbers;
mod svg;
