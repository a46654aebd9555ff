//! The program `cm`: a document from standard input, its trace to standard output.
#![tactic(auto)]

use cm_program::{report, run_words};
use outside_io::{StdSink, StdSource};
use std::io;
use std::process::ExitCode;

fn main(rt: HostRuntime) -> ExitCode {
    let mut source = StdSource::make(rt.reader());
    let mut sink = StdSink::make(io::writer(&rt));
    let status = run_words(&rt, &rt, &mut source, &mut sink);
    ExitCode::from(report(&rt, &status))
}
