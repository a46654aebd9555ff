//! Calls of std's readers and writers, tried again where the system interrupts them.

ghost use Rattle.std.specs.Prelude.{◌≡◌, ◌≤◌, length, take, IfOk, OnOk};
ghost use Rattle.std.specs.Io.KnownBytes.{Keeps, Appends, ReadConsumes, WriteAppends};

use crate::Failed;
use std::io::{ErrorKind, Read, Write};

/// How often a call is made while the system interrupts it. A signal that is handled interrupts one call, so as many in
/// a row are no signals that pass by.
pub const MOST_TRIES: u32 = 1_000;

/// One read, made again where it is interrupted.
pub(crate) fn read<R: Read>(reader: &mut R, buf: &mut [u8]) -> Result<usize, Failed>
    ensures within { IfOk result (λ n. n ≤ length buf.new) }
    ensures bytes { ReadConsumes (R.remaining reader.old) (R.remaining reader.new) result buf.new }
{
    for _ in 0..MOST_TRIES {
        match reader.read(buf) {
            Ok(count) => return Ok(count),
            Err(fault) if fault.kind() == ErrorKind::Interrupted => {}
            Err(_) => break,
        }
    }
    Err(Failed)
}

/// One write, made again where it is interrupted.
pub(crate) fn write<W: Write>(writer: &mut W, piece: &[u8]) -> Result<usize, Failed>
    ensures within { IfOk result (λ n. n ≤ length piece.now) }
    ensures bytes { WriteAppends (W.contents writer.old) (W.contents writer.new) result piece.now }
{
    for _ in 0..MOST_TRIES {
        match writer.write(piece) {
            Ok(count) => return Ok(count),
            Err(fault) if fault.kind() == ErrorKind::Interrupted => {}
            Err(_) => break,
        }
    }
    Err(Failed)
}

/// Writes all of some bytes, or a front of them where a write fails: how many bytes were written, and how it ended. A
/// writer that takes none of them fails too, so that no loop over it goes on for ever.
pub(crate) fn write_out<W: Write>(writer: &mut W, bytes: &[u8]) -> (usize, Result<(), Failed>)
    ensures within { result.0 ≤ length bytes.now }
    ensures all { OnOk result.1 (result.0 ≡ length bytes.now) }
    ensures bytes { Appends (W.contents writer.old) (W.contents writer.new) (take result.0 bytes.now) }
{
    let mut done = 0;
    while done < bytes.len() {
        match write(writer, &bytes[done..]) {
            Ok(count) if count > 0 => done += count,
            _ => return (done, Err(Failed)),
        }
    }
    (done, Ok(()))
}

/// One flush, made again where it is interrupted.
pub(crate) fn flush<W: Write>(writer: &mut W) -> Result<(), Failed>
    ensures { Keeps (W.contents writer.old) (W.contents writer.new) }
{
    for _ in 0..MOST_TRIES {
        match writer.flush() {
            Ok(()) => return Ok(()),
            Err(fault) if fault.kind() == ErrorKind::Interrupted => {}
            Err(_) => break,
        }
    }
    Err(Failed)
}
