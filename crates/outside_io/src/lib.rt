//! The edge of the program to the world: where its bytes come from and go to, and what paces and watches it.
//! The traits let contracts speak of the bytes; behind them stand memory, for tests, and std's readers and writers.
#![tactic(auto)]

pub use failed::Failed;
pub use gate::{Gate, OpenGate, Point};
pub use gathered::MOST_GATHERED;
pub use memory_sink::MemSink;
pub use memory_source::MemSource;
pub use pace::{NoPace, Pace, YieldPace};
pub use retrying::MOST_TRIES;
pub use sink::Sink;
pub use source::Source;
pub use std_edge::{StdSink, StdSource};
pub use whole::{ReadFault, read_whole, write_whole};

mod failed;
mod failures;
mod gate;
mod gathered;
mod memory_sink;
mod memory_source;
mod pace;
mod retrying;
mod sink;
mod source;
mod std_edge;
mod whole;
