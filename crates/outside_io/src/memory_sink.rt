//! A sink in memory, for tests.

ghost use Rattle.std.specs.Prelude.{◌≡◌, ◌+◌, ◌<◌, ◌≤◌, length, Some, IfOk, MatchResult};
ghost use Rattle.std.specs.Io.KnownBytes.{Keeps, WriteAppends};
ghost use Rattle.outside_io.specs.Bytes.{AllFlushed, IsSomeOf};
ghost use Rattle.outside_io.specs.Faults.{HasCause};
ghost use Rattle.outside_io.specs.Calls.MemorySink.{Takes, Flushes};
ghost use Rattle.outside_io.specs.InMemory.{unwritten};

use crate::failures::Failures;
use crate::{Failed, Sink};
use fixed_num::Memory;
use std::alloc::Global;
use std::marker::Model;

/// Keeps what it takes in room that it reserved when it was made, a few bytes at a time, and fails where it is told to
/// or has no room. Contracts see it as a `SinkView`.
#[derive(Debug, Drop)]
pub struct MemSink {
    bytes: Vec<u8>,
    flushed: usize,
    room: usize,
    step: usize,
    failures: Failures,
}

impl Model for MemSink {
    ghost use Rattle.std.specs.Prelude.{◌+◌, ◌<◌, ◌≤◌, length};
    ghost use Rattle.std.specs.Vec.{vec_capacity, vec_len};
    ghost use Rattle.outside_io.specs.InMemory.{SinkView};

    ghost Value = { SinkView };

    ghost view = { λ s. record {
      taken = s.bytes.items;
      flushed = s.flushed;
      room = s.room;
      step = s.step;
      fails = s.failures.listed.items;
      calls = s.failures.calls;
      faults = s.failures.faults;
    } };

    ghost invariant = { λ s. (0 < s.step) × (vec_len s.bytes + s.room ≤ vec_capacity s.bytes) };
}

impl MemSink {
    /// An empty sink with room for `room` bytes, which takes at most `step` of them a write and fails in the writes and
    /// flushes whose numbers are listed; both are numbered together, from 0. `Memory` where the room can't be had.
    pub fn make(alloc: Global, room: usize, step: usize, fails: Vec<u64>) -> Result<MemSink, Memory>
        requires { 0 < step }
        ensures { IfOk result (λ sink. sink ≡ unwritten room step fails.items) }
    {
        Ok(MemSink {
            bytes: Vec::with_capacity(alloc, room)?,
            flushed: 0,
            room,
            step,
            failures: Failures::make(fails),
        })
    }

    /// The bytes taken so far. It takes no memory.
    pub fn bytes(&self) -> &[u8]
        ensures { result.now ≡ self.now.taken }
    {
        self.bytes.as_slice()
    }
}

impl Sink for MemSink {
    ghost taken = { λ s. Some s.taken };

    ghost flushed = { λ s. Some s.flushed };

    ghost faults = { λ s. s.faults };

    /// Takes as many bytes as the step, the piece and the room allow, and no memory. A listed write fails,
    /// and so does one of a byte or more where no room is left; it takes nothing then and is a fault.
    fn write(&mut self, piece: &[u8]) -> Result<usize, Failed>
        ensures some { IfOk result (IsSomeOf piece.now) }
        ensures bytes { WriteAppends (Some self.old.taken) (Some self.new.taken) result piece.now }
        ensures cause { HasCause self.old.faults self.new.faults result }
        ensures takes { Takes self.old self.new piece.now result }
    {
        let is_listed = self.failures.next_is_listed();
        let count = self.step.min(piece.len()).min(self.room);
        if is_listed || (count == 0 && !piece.is_empty()) {
            self.failures.count();
            return Err(Failed);
        }
        self.bytes.extend_from_slice(&piece[..count]).unwrap();
        self.room -= count;
        Ok(count)
    }

    /// Remembers how many bytes were taken; a listed flush fails, remembers nothing and is a fault.
    fn flush(&mut self) -> Result<(), Failed>
        ensures bytes { Keeps (Some self.old.taken) (Some self.new.taken) }
        ensures flushed { MatchResult result (λ _. AllFlushed (Some self.new.taken) (Some self.new.flushed))
            (λ _. Some self.new.flushed ≡ Some self.old.flushed) }
        ensures cause { HasCause self.old.faults self.new.faults result }
        ensures flushes { Flushes self.old self.new result }
    {
        if self.failures.next_is_listed() {
            self.failures.count();
            return Err(Failed);
        }
        self.flushed = self.bytes.len();
        Ok(())
    }
}
