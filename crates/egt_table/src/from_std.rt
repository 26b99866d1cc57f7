//! Streams over the standard library's.
ghost use Rattle.std.specs.Prelude.{◌≡◌, ◌-◌, ◌^◌};

use crate::device::Device;
use crate::stream::{Sink, Source};
use std::io::{Read, Write};

/// Reads from a reader of the standard library. Each error is a failure, an interrupted call too. It makes at most
/// 2^64 - 1 calls; from then on each pull fails.
#[derive(Drop)]
pub struct FromStd<T> {
    inner: T,
    turns: u64,
    failures: u64,
}

impl<T: Read> FromStd<T> {
    pub fn new(inner: T) -> Self
        ensures left { ⟦<FromStd<T> as Source>⟧.left result ≡ T.remaining inner }
        ensures failures { ⟦<FromStd<T> as Source>⟧.failures result ≡ 0 }
        ensures turns { ⟦<FromStd<T> as Source>⟧.turns result ≡ 2 ^ 64 - 1 }
    {
        FromStd {
            inner,
            turns: u64::MAX,
            failures: 0,
        }
    }
}

impl<T: Read> Source for FromStd<T> {
    ghost use Rattle.std.specs.Prelude.{◌≡◌, ◌-◌, ◌<◌, ◌≤◌, length, IfOk, IsErr};
    ghost use Rattle.std.specs.Io.KnownBytes.{ReadConsumes};
    ghost use Rattle.egt_table.specs.Stream.{CountsFailure};

    ghost left = { λ s. T.remaining s.inner };

    ghost failures = { λ s. s.failures };

    ghost turns = { λ s. s.turns };

    fn pull(&mut self, buffer: &mut [u8]) -> Result<usize, Device>
        ensures bound { IfOk result (λ n. n ≤ length buffer.new) }
        ensures bytes { ReadConsumes (T.remaining self.old.inner) (T.remaining self.new.inner) result buffer.new }
        ensures falls { IfOk result (λ n. 0 < n → self.new.turns < self.old.turns) }
        ensures failures { CountsFailure result self.old.failures self.new.failures }

        // It takes one of the calls that are left. Where none is left, it fails and leaves the reader as it is.
        ensures takes { self.new.turns ≡ self.old.turns - 1 }
        ensures spent { self.old.turns ≡ 0 → IsErr result }
        ensures apart { self.old.turns ≡ 0 → self.new.inner ≡ self.old.inner }
    {
        if self.turns == 0 {
            self.failures = self.failures.saturating_add(1);
            return Err(Device);
        }
        self.turns -= 1;
        match self.inner.read(buffer) {
            Ok(n) => Ok(n),
            Err(_) => {
                self.failures = self.failures.saturating_add(1);
                Err(Device)
            }
        }
    }
}

/// Writes to a writer of the standard library. Each error is a failure, an interrupted call too, and so is a write that
/// takes nothing of a piece that is not empty.
#[derive(Drop)]
pub struct ToStd<T> {
    inner: T,
    failures: u64,
}

impl<T: Write> ToStd<T> {
    pub fn new(inner: T) -> Self
        ensures written { ⟦<ToStd<T> as Sink>⟧.written result ≡ T.contents inner }
        ensures failures { ⟦<ToStd<T> as Sink>⟧.failures result ≡ 0 }
    {
        ToStd { inner, failures: 0 }
    }

    /// The writer, as it is now.
    pub fn into_inner(self) -> T
        ensures { T.contents result ≡ ⟦<ToStd<T> as Sink>⟧.written self }
    {
        self.inner
    }
}

impl<T: Write> Sink for ToStd<T> {
    ghost written = { λ s. T.contents s.inner };

    ghost failures = { λ s. s.failures };

    fn push(&mut self, piece: &[u8]) -> Result<usize, Device> {
        match self.inner.write(piece) {
            Ok(n) if n > 0 || piece.is_empty() => Ok(n),
            _ => {
                self.failures = self.failures.saturating_add(1);
                Err(Device)
            }
        }
    }
}
