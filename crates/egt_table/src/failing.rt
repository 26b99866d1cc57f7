//! Streams that fail at one call, for tests of what meets failures.
ghost use Rattle.std.specs.Io.KnownBytes.{ReadConsumes, WriteAppends};
ghost use Rattle.std.specs.Prelude.{◌≡◌, ◌≢◌, ◌-◌, ◌<◌, ◌≤◌, length, IfOk, IsErr};
ghost use Rattle.egt_table.specs.Failing.{Failing};
ghost use Rattle.egt_table.specs.Stream.{CountsFailure};

use crate::device::Device;
use crate::stream::{Sink, Source};
use std::marker::Model;

/// A source whose k-th pull fails and takes nothing; all others are those of the source within.
#[derive(Drop)]
pub struct FailingSource<S> {
    inner: S,
    calls: u64,
    failures: u64,
}

impl<S> Model for FailingSource<S> {
    ghost Value = { Failing S };

    ghost view = { λ s. record { inner = s.inner; calls_to_failure = s.calls; failures = s.failures } };
}

impl<S: Source> FailingSource<S> {
    /// The k-th pull from now on fails, counted from 1; none for 0.
    pub fn new(inner: S, k: u64) -> Self
        ensures left { ⟦<FailingSource<S> as Source>⟧.left result ≡ S.left inner }
        ensures failures { ⟦<FailingSource<S> as Source>⟧.failures result ≡ 0 }
        ensures inner { result.inner ≡ inner }
        ensures calls_to_failure { result.calls_to_failure ≡ k }
    {
        FailingSource {
            inner,
            calls: k,
            failures: 0,
        }
    }

    /// Which pull from now on fails, counted from 1; 0 where none does.
    pub fn calls_to_failure(&self) -> u64
        ensures { result ≡ self.now.calls_to_failure }
    {
        self.calls
    }
}

impl<S: Source> Source for FailingSource<S> {
    ghost left = { λ s. S.left s.inner };

    ghost failures = { λ s. s.failures };

    ghost turns = { λ s. S.turns s.inner };

    fn pull(&mut self, buffer: &mut [u8]) -> Result<usize, Device>
        ensures bound { IfOk result (λ n. n ≤ length buffer.new) }
        ensures bytes { ReadConsumes (S.left self.old.inner) (S.left self.new.inner) result buffer.new }
        ensures falls { IfOk result (λ n. 0 < n → S.turns self.new.inner < S.turns self.old.inner) }
        ensures failures { CountsFailure result self.old.failures self.new.failures }

        // The call whose turn it is fails and leaves the source within as it is; any other fails only where that one
        // fails.
        ensures turn { self.new.calls_to_failure ≡ self.old.calls_to_failure - 1 }
        ensures fails { self.old.calls_to_failure ≡ 1 → IsErr result }
        ensures apart { self.old.calls_to_failure ≡ 1 → self.new.inner ≡ self.old.inner }
        ensures within { self.old.calls_to_failure ≢ 1 →
            CountsFailure result (S.failures self.old.inner) (S.failures self.new.inner) }
    {
        let pull_fails = self.calls == 1;
        self.calls = self.calls.saturating_sub(1);
        if pull_fails {
            self.failures = self.failures.saturating_add(1);
            return Err(Device);
        }
        let pulled = self.inner.pull(buffer);
        if pulled.is_err() {
            self.failures = self.failures.saturating_add(1);
        }
        pulled
    }
}

/// A sink whose k-th push fails and adds nothing; all others are those of the sink within.
#[derive(Drop)]
pub struct FailingSink<S> {
    inner: S,
    calls: u64,
    failures: u64,
}

impl<S> Model for FailingSink<S> {
    ghost Value = { Failing S };

    ghost view = { λ s. record { inner = s.inner; calls_to_failure = s.calls; failures = s.failures } };
}

impl<S: Sink> FailingSink<S> {
    /// The k-th push from now on fails, counted from 1; none for 0.
    pub fn new(inner: S, k: u64) -> Self
        ensures written { ⟦<FailingSink<S> as Sink>⟧.written result ≡ S.written inner }
        ensures failures { ⟦<FailingSink<S> as Sink>⟧.failures result ≡ 0 }
        ensures inner { result.inner ≡ inner }
        ensures calls_to_failure { result.calls_to_failure ≡ k }
    {
        FailingSink {
            inner,
            calls: k,
            failures: 0,
        }
    }

    /// Which push from now on fails, counted from 1; 0 where none does.
    pub fn calls_to_failure(&self) -> u64
        ensures { result ≡ self.now.calls_to_failure }
    {
        self.calls
    }

    /// The sink within, as it is now.
    pub fn into_inner(self) -> S
        ensures { S.written result ≡ ⟦<FailingSink<S> as Sink>⟧.written self }
    {
        self.inner
    }
}

impl<S: Sink> Sink for FailingSink<S> {
    ghost written = { λ s. S.written s.inner };

    ghost failures = { λ s. s.failures };

    fn push(&mut self, piece: &[u8]) -> Result<usize, Device>
        ensures bound { IfOk result (λ n. n ≤ length piece.now) }
        ensures some { IfOk result (λ n. 0 < length piece.now → 0 < n) }
        ensures bytes { WriteAppends (S.written self.old.inner) (S.written self.new.inner) result piece.now }
        ensures failures { CountsFailure result self.old.failures self.new.failures }

        // The call whose turn it is fails and leaves the sink within as it is; any other fails only where that one
        // fails.
        ensures turn { self.new.calls_to_failure ≡ self.old.calls_to_failure - 1 }
        ensures fails { self.old.calls_to_failure ≡ 1 → IsErr result }
        ensures apart { self.old.calls_to_failure ≡ 1 → self.new.inner ≡ self.old.inner }
        ensures within { self.old.calls_to_failure ≢ 1 →
            CountsFailure result (S.failures self.old.inner) (S.failures self.new.inner) }
    {
        let push_fails = self.calls == 1;
        self.calls = self.calls.saturating_sub(1);
        if push_fails {
            self.failures = self.failures.saturating_add(1);
            return Err(Device);
        }
        let pushed = self.inner.push(piece);
        if pushed.is_err() {
            self.failures = self.failures.saturating_add(1);
        }
        pushed
    }
}
