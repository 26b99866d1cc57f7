//! Streams over memory.
ghost use Rattle.std.specs.Io.KnownBytes.{ReadConsumes, WriteAppends};
ghost use Rattle.std.specs.Prelude.{◌≡◌, [], IfOk, List, ℕ, ◌<◌, ◌≤◌, min, Some, length, IsOk, vec_len, vec_capacity};
ghost use Rattle.std.specs.Prelude.{◌-◌, OnErr};
ghost use Rattle.egt_table.specs.Stream.{CountsFailure, Kept};

use crate::device::Device;
use crate::stream::{Sink, Source};
use std::alloc::{AllocError, Global};
use std::marker::Model;

/// Reads a slice to its end. It never fails.
#[derive(Drop)]
pub struct MemorySource<'a> {
    rest: &'a [u8],
}

impl<'a> Model for MemorySource<'a> {
    ghost Value = { List ℕ };

    ghost view = { λ s. s.rest.now };
}

impl<'a> MemorySource<'a> {
    pub fn new(bytes: &'a [u8]) -> Self
        ensures { result ≡ bytes.now }
    {
        MemorySource { rest: bytes }
    }
}

impl Source for MemorySource<'_> {
    ghost left = { λ s. Some s };

    ghost failures = { λ _. 0 };

    ghost turns = { λ s. length s };

    fn pull(&mut self, buffer: &mut [u8]) -> Result<usize, Device>
        ensures bound { IfOk result (λ n. n ≤ length buffer.new) }
        ensures bytes { ReadConsumes (Some self.old) (Some self.new) result buffer.new }
        ensures falls { IfOk result (λ n. 0 < n → length self.new < length self.old) }
        ensures failures { CountsFailure result 0 0 }

        // It gives as much as there is and there is room for.
        ensures most { IfOk result (λ n. n ≡ min (length buffer.new) (length self.old)) }
        ensures never_fails { IsOk result }
    {
        let n = buffer.len().min(self.rest.len());
        let (front, behind) = self.rest.split_at(n);
        buffer[..n].copy_from_slice(front);
        self.rest = behind;
        Ok(n)
    }
}

/// Writes into a room that is reserved when it is made and never grows: a push takes what still fits, and fails where
/// nothing does.
#[derive(Drop)]
pub struct MemorySink {
    bytes: Vec<u8>,
    room: usize,
    failures: u64,
}

impl Model for MemorySink {
    ghost Value = { Kept };

    ghost view = { λ s. record { bytes = s.bytes.items; room = s.room; failures = s.failures } };

    ghost invariant = { λ s. (vec_len s.bytes ≤ s.room) × (s.room ≤ vec_capacity s.bytes) };
}

impl MemorySink {
    /// A sink for up to `room` bytes.
    ///
    /// # Errors
    ///
    /// `NoMemory` where the room was refused.
    pub fn new(alloc: Global, room: usize) -> Result<Self, AllocError>
        ensures { IfOk result (λ s. s ≡ record { bytes = []; room = room; failures = 0 }) }
    {
        let bytes = Vec::with_capacity(alloc, room)?;
        Ok(MemorySink {
            bytes,
            room,
            failures: 0,
        })
    }

    /// The bytes written.
    pub fn bytes(&self) -> &[u8]
        ensures { result.now ≡ self.now.bytes }
    {
        &self.bytes
    }
}

impl Sink for MemorySink {
    ghost written = { λ s. Some s.bytes };

    ghost failures = { λ s. s.failures };

    fn push(&mut self, piece: &[u8]) -> Result<usize, Device>
        ensures bound { IfOk result (λ n. n ≤ length piece.now) }
        ensures some { IfOk result (λ n. 0 < length piece.now → 0 < n) }
        ensures bytes { WriteAppends (Some self.old.bytes) (Some self.new.bytes) result piece.now }
        ensures failures { CountsFailure result self.old.failures self.new.failures }

        // It takes what still fits, and fails only where nothing does.
        ensures most { IfOk result (λ n. n ≡ min (length piece.now) (self.old.room - length self.old.bytes)) }
        ensures full { OnErr result (length self.old.bytes ≡ self.old.room) }
        ensures room { self.new.room ≡ self.old.room }
    {
        let n = piece.len().min(self.room - self.bytes.len());
        if n == 0 && !piece.is_empty() {
            self.failures = self.failures.saturating_add(1);
            return Err(Device);
        }
        self.bytes.extend_from_slice(&piece[..n]).unwrap();
        Ok(n)
    }
}
