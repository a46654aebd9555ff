//! The program `cm_draw`: a document from standard input, and to standard output a page of SVG that shows its run, or
//! what went wrong in it in words.
#![tactic(auto)]

use crate::output::report;
use crate::stock::draw_stocked;
use crate::words::asked_of;
use cm_top::Status;
use outside_io::{StdSink, StdSource};
use std::io;
use std::process::ExitCode;

mod made;
mod output;
mod stock;
mod traced;
mod unkept;
mod words;

fn main(rt: HostRuntime) -> ExitCode {
    let mut source = StdSource::make(rt.reader());
    let mut sink = StdSink::make(io::writer(&rt));
    let status = match asked_of(&rt) {
        Ok(asked) => draw_stocked(rt.alloc(), &asked, &mut source, &mut sink).unwrap_or(
            Status::Memory,
        ),
        Err(status) => status,
    };
    ExitCode::from(report(&rt, &status))
}
