//! A source in memory, for tests.

ghost use Rattle.std.specs.Prelude.{◌≡◌, ◌<◌, ◌≤◌, length, Some, IfOk};
ghost use Rattle.std.specs.Io.KnownBytes.{ReadConsumes};
ghost use Rattle.outside_io.specs.Faults.{HasCause};
ghost use Rattle.outside_io.specs.Calls.MemorySource.{Gives};
ghost use Rattle.outside_io.specs.InMemory.{unread};

use crate::failures::Failures;
use crate::{Failed, Source};
use std::marker::Model;

/// Gives the bytes of a vector, a few at a time, and fails where it is told to. Contracts see it as a `SourceView`.
#[derive(Debug, Drop)]
pub struct MemSource {
    bytes: Vec<u8>,
    at: usize,
    step: usize,
    failures: Failures,
}

impl Model for MemSource {
    ghost use Rattle.std.specs.Prelude.{◌<◌, ◌≤◌, length, drop};
    ghost use Rattle.outside_io.specs.InMemory.{SourceView};

    ghost Value = { SourceView };

    ghost view = { λ s. record {
      left = drop s.at s.bytes.items;
      step = s.step;
      fails = s.failures.listed.items;
      calls = s.failures.calls;
      faults = s.failures.faults;
    } };

    ghost invariant = { λ s. (0 < s.step) × (s.at ≤ length s.bytes.items) };
}

impl MemSource {
    /// A source of these bytes, which gives at most `step` of them a read and fails in the reads whose numbers, from 0,
    /// are listed.
    pub fn make(bytes: Vec<u8>, step: usize, fails: Vec<u64>) -> MemSource
        requires { 0 < step }
        ensures { result ≡ unread bytes.items step fails.items }
    {
        MemSource {
            bytes,
            at: 0,
            step,
            failures: Failures::make(fails),
        }
    }
}

impl Source for MemSource {
    ghost left = { λ s. Some s.left };

    ghost faults = { λ s. s.faults };

    /// Gives as many bytes as the step, the buffer and what is left allow; behind them the buffer stays as it was. A
    /// listed read fails, takes none and is a fault; it leaves all of the buffer as it was.
    fn read(&mut self, buf: &mut [u8]) -> Result<usize, Failed>
        ensures within { IfOk result (λ n. n ≤ length buf.new) }
        ensures bytes { ReadConsumes (Some self.old.left) (Some self.new.left) result buf.new }
        ensures cause { HasCause self.old.faults self.new.faults result }
        ensures gives { Gives self.old self.new buf.old buf.new result }
    {
        if self.failures.next_is_listed() {
            self.failures.count();
            return Err(Failed);
        }
        let left = &self.bytes[self.at..];
        let count = self.step.min(buf.len()).min(left.len());
        buf[..count].copy_from_slice(&left[..count]);
        self.at += count;
        Ok(count)
    }
}
