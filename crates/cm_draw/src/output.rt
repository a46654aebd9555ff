//! What the program writes: a text to its sink, and a status that is not `Ok` to standard error.

use cm_top::Status;
use fixed_num::Memory;
use outside_io::{Sink, write_whole};
use std::io::Eprint;

/// Writes a text, if there was memory for it.
pub(crate) fn write_text<K: Sink>(sink: &mut K, text: Result<String, Memory>) -> Status {
    let Ok(text) = text else {
        return Status::Memory;
    };
    if write_whole(sink, text.as_bytes()).is_err() || sink.flush().is_err() {
        return Status::WriteFault;
    }
    Status::Ok
}

/// Tells a status that is not `Ok` on standard error, as `cm` does, and gives the number that the program ends with.
pub(crate) fn report<R: Eprint>(rt: &R, status: &Status) -> u8 {
    match status {
        Status::Ok => {}
        Status::BadWords => {
            let _ = eprintln!(rt; "cm: usage: draw [run|steps|check] [--why | --name NAME]");
        }
        fault => {
            let _ = eprintln!(rt; "cm: {fault}");
        }
    }
    status.code()
}
