//! The real edge: std's readers and writers. What they do to the world is trusted, not proved.

ghost use Rattle.std.specs.Prelude.{◌≡◌, ◌<◌, ℕ, [], length, Option, None, OnOk, MatchResult};
ghost use Rattle.std.specs.Io.KnownBytes.{Keeps, append_known};
ghost use Rattle.outside_io.specs.Bytes.{AllFlushed};
ghost use Rattle.outside_io.specs.Faults.{HasCause};
ghost use Rattle.outside_io.specs.declared.gathered.TheConstants.{MOST_GATHERED};

use crate::gathered::Gathered;
use crate::{Failed, Sink, Source, retrying};
use std::io::{Read, Write};

/// A source over a reader of std, as standard input. It tells of the bytes what the reader tells.
#[derive(Drop)]
pub struct StdSource<R: Read + Drop> {
    inner: R,
    faults: u64,
}

impl<R: Read + Drop> StdSource<R> {
    /// A source of what the reader has left, with no fault counted.
    pub fn make(inner: R) -> StdSource<R>
        ensures inner { result.inner ≡ inner }
        ensures faults { result.faults ≡ 0 }
    {
        StdSource { inner, faults: 0 }
    }
}

impl<R: Read + Drop> Source for StdSource<R> {
    ghost left = { λ s. R.remaining s.inner };

    ghost faults = { λ s. s.faults };

    /// A read that the system interrupts is tried again, `MOST_TRIES` times in all.
    fn read(&mut self, buf: &mut [u8]) -> Result<usize, Failed> {
        match retrying::read(&mut self.inner, buf) {
            Ok(count) => Ok(count),
            Err(Failed) => {
                self.faults = self.faults.saturating_add(1);
                Err(Failed)
            }
        }
    }
}

/// A sink over a writer of std, as standard output. What it takes is gathered, and `MOST_GATHERED` bytes are written at
/// a time; a flush writes what is left. So a write that fails is told by a later call than those that took its bytes,
/// and these bytes wait on. It tells of the bytes what the writer tells, those that wait behind them, and nothing of
/// flushes. What waits when it is dropped is lost.
#[derive(Drop)]
pub struct StdSink<W: Write + Drop> {
    inner: W,
    gathered: Gathered,
    faults: u64,
}

impl<W: Write + Drop> StdSink<W> {
    /// A sink into the writer, with nothing gathered and no fault counted.
    pub fn make(inner: W) -> StdSink<W>
        ensures inner { result.inner ≡ inner }
        ensures gathered { result.gathered ≡ [] }
        ensures faults { result.faults ≡ 0 }
    {
        StdSink {
            inner,
            gathered: Gathered::none(),
            faults: 0,
        }
    }

    /// Writes all that is gathered. At `Failed` what was not written waits on.
    fn send(&mut self) -> Result<(), Failed>
        ensures sent { OnOk result (self.new.gathered ≡ []) }
        ensures bytes { Keeps (append_known (W.contents self.old.inner) self.old.gathered)
            (append_known (W.contents self.new.inner) self.new.gathered) }
        ensures cause { HasCause self.old.faults self.new.faults result }
    {
        let (count, end) = retrying::write_out(&mut self.inner, self.gathered.as_slice());
        self.gathered.let_go(count);
        self.counted(end)
    }

    /// Makes room for a byte at least: where there is none, all that is gathered is written.
    fn make_room(&mut self) -> Result<(), Failed>
        ensures room { OnOk result (length self.new.gathered < MOST_GATHERED) }
        ensures bytes { Keeps (append_known (W.contents self.old.inner) self.old.gathered)
            (append_known (W.contents self.new.inner) self.new.gathered) }
        ensures cause { HasCause self.old.faults self.new.faults result }
    {
        if self.gathered.is_full() {
            return self.send();
        }
        Ok(())
    }

    /// Counts a fault where a call of the writer failed.
    fn counted(&mut self, end: Result<(), Failed>) -> Result<(), Failed>
        ensures same { result ≡ end }
        ensures inner { self.new.inner ≡ self.old.inner }
        ensures gathered { self.new.gathered ≡ self.old.gathered }
        ensures cause { HasCause self.old.faults self.new.faults result }
    {
        match end {
            Ok(()) => Ok(()),
            Err(Failed) => {
                self.faults = self.faults.saturating_add(1);
                Err(Failed)
            }
        }
    }
}

impl<W: Write + Drop> Sink for StdSink<W> {
    ghost taken = { λ s. append_known (W.contents s.inner) s.gathered };

    ghost flushed = { λ _. None };

    ghost faults = { λ s. s.faults };

    /// Takes as much as there is room for. Where there is none, what is gathered is written first, and a write that
    /// fails is told here: then nothing is taken of the piece.
    fn write(&mut self, piece: &[u8]) -> Result<usize, Failed> {
        self.make_room()?;
        Ok(self.gathered.take_in(piece))
    }

    /// Writes what is gathered, and passes it on. Calls that the system interrupts are made again, `MOST_TRIES` times
    /// in all.
    fn flush(&mut self) -> Result<(), Failed>
        ensures bytes { Keeps (append_known (W.contents self.old.inner) self.old.gathered)
            (append_known (W.contents self.new.inner) self.new.gathered) }
        ensures flushed { MatchResult result
            (λ _. AllFlushed (append_known (W.contents self.new.inner) self.new.gathered) None)
            (λ _. ◌≡◌ {A = Option ℕ} None None) }
        ensures cause { HasCause self.old.faults self.new.faults result }
        // Nothing waits behind what is written.
        ensures sent { OnOk result (self.new.gathered ≡ []) }
    {
        self.send()?;
        let end = retrying::flush(&mut self.inner);
        self.counted(end)
    }
}
