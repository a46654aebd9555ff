//! Reading a source to its end, and writing all of some bytes, so that nobody above loops over a source or a sink.

ghost use Rattle.std.specs.Prelude.{◌≡◌, ◌+◌, ◌^◌, ◌<◌, ◌≤◌, length, IfOk, OnOk, OnErr};
ghost use Rattle.std.specs.Io.KnownBytes.{Appends};
ghost use Rattle.outside_io.specs.Bytes.{AppendsPrefix, TakesAtMost};
ghost use Rattle.outside_io.specs.Calls.ReadWhole.{ReadsAll, ReadHasCause};
ghost use Rattle.outside_io.specs.Faults.{HasCause};

use crate::{Failed, Sink, Source};
use std::alloc::{AllocError, Global};
use thiserror::Error;

/// How many bytes are asked for at a time: few calls for a long document, and little on the stack.
const PIECE: usize = 8192;

/// Why a source was not read to its end.
#[derive(Clone, Copy, Debug, PartialEq, Eq, Error)]
pub enum ReadFault {
    /// A read failed.
    #[error("a read failed")]
    Failed,
    /// There are more bytes than the limit allows.
    #[error("there are too many bytes")]
    TooLong,
    /// Memory ran out.
    #[error("out of memory")]
    Memory,
}

/// Reads to the end of a source that has at most `limit` bytes left.
///
/// `TooLong` comes as soon as it gives byte `limit + 1`, and no byte more is read then; `Failed` exactly where a read
/// failed, and no read follows that one; `Memory` only for want of memory. What was read before a fault is lost.
pub fn read_whole<S: Source>(
    alloc: Global,
    source: &mut S,
    limit: usize,
) -> Result<Vec<u8>, ReadFault>
    requires { limit + 1 < 2 ^ 64 }
    ensures read { IfOk result (λ bytes. ReadsAll (S.left source.old) (S.left source.new) limit bytes.items) }
    ensures cause { ReadHasCause (S.left source.old) limit (S.faults source.old) (S.faults source.new) result }
    ensures at_most { TakesAtMost (S.left source.old) (S.left source.new) (limit + 1) }
{
    let mut bytes = Vec::new(alloc);
    let mut buffer = [0u8; PIECE];
    while bytes.len() <= limit {
        let room = PIECE.min(limit + 1 - bytes.len());
        match source.read(&mut buffer[..room]) {
            Ok(0) => return Ok(bytes),
            Ok(count) => match bytes.extend_from_slice(&buffer[..count]) {
                Ok(()) => {}
                Err(AllocError) => return Err(ReadFault::Memory),
            },
            Err(Failed) => return Err(ReadFault::Failed),
        }
    }
    Err(ReadFault::TooLong)
}

/// Writes all bytes, piece after piece. At `Failed` some front of them was taken.
pub fn write_whole<K: Sink>(sink: &mut K, bytes: &[u8]) -> Result<(), Failed>
    ensures ok { OnOk result (Appends (K.taken sink.old) (K.taken sink.new) bytes.now) }
    ensures err { OnErr result (AppendsPrefix (K.taken sink.old) (K.taken sink.new) bytes.now) }
    ensures flushed { K.flushed sink.new ≡ K.flushed sink.old }
    ensures cause { HasCause (K.faults sink.old) (K.faults sink.new) result }
{
    let mut done = 0;
    while done < bytes.len() {
        done += sink.write(&bytes[done..])?;
    }
    Ok(())
}
