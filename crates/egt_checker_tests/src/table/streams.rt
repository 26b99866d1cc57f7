//! Streams that take or give a few bytes a call, and real files.
ghost use Rattle.std.specs.Prelude.{◌<◌};

use super::has_kings;
use crate::asserts::{require, require_at};
use egt_plain::kings::{LENGTH, class, kings_file, table_with};
use egt_plain::shelf::entry_of;
use egt_table::{Column, Device, FromStd, MemorySink, MemorySource, Sink, Source, Table, ToStd};
use std::alloc::Global;
use std::fs;
use std::fs::File;
use std::test::*;

/// A source that gives at most so many bytes a call.
#[derive(Drop)]
struct Dripping<S> {
    inner: S,
    most: usize,
    ghost some: { 0 < most },
}

impl<S: Source> Source for Dripping<S> {
    ghost left = { λ s. S.left s.inner };

    ghost failures = { λ s. S.failures s.inner };

    ghost turns = { λ s. S.turns s.inner };

    fn pull(&mut self, buffer: &mut [u8]) -> Result<usize, Device> {
        let most = buffer.len().min(self.most);
        self.inner.pull(&mut buffer[..most])
    }
}

/// A sink that takes at most so many bytes a call.
#[derive(Drop)]
struct Sipping<S> {
    inner: S,
    most: usize,
    ghost some: { 0 < most },
}

impl<S: Sink> Sink for Sipping<S> {
    ghost written = { λ s. S.written s.inner };

    ghost failures = { λ s. S.failures s.inner };

    fn push(&mut self, piece: &[u8]) -> Result<usize, Device> {
        let most = piece.len().min(self.most);
        self.inner.push(&piece[..most])
    }
}

/// Whether the file of two kings is read where at most so many bytes are given a call.
fn is_read(alloc: Global, bytes: &[u8], most: usize) -> Option<bool>
    requires { 0 < most }
{
    let mut source = Dripping {
        inner: MemorySource::new(bytes),
        most,
    };
    let table = Table::read(alloc, class(), &mut source).ok()?;
    Some(has_kings(&table, Column::Zeroing, 0))
}

#[test]
fn few_bytes_a_pull(rt: HostRuntime) -> Result<(), Fail> {
    let bytes = kings_file(rt.alloc())?;
    for &most in &[1, 3, 4095] {
        require_at(&rt, is_read(rt.alloc(), &bytes, most) == Some(true), most);
    }
    Ok(())
}

/// Whether the table is written as these bytes where at most so many are taken a call.
fn is_written(alloc: Global, table: &Table, bytes: &[u8], most: usize) -> Option<bool>
    requires { 0 < most }
{
    let mut sink = Sipping {
        inner: MemorySink::new(alloc, LENGTH).ok()?,
        most,
    };
    table.write(&mut sink).ok()?;
    Some(sink.inner.bytes() == bytes)
}

#[test]
fn few_bytes_a_push(rt: HostRuntime) -> Result<(), Fail> {
    let whole = kings_file(rt.alloc())?;
    let table = table_with(rt.alloc(), &[], &[])?;
    for &most in &[1, 3, 4095] {
        let right = is_written(rt.alloc(), &table, &whole, most) == Some(true);
        require_at(&rt, right, most);
    }
    Ok(())
}

/// The table of two kings, written to a real file and read from it.
fn through_a_file(rt: &HostRuntime, table: &Table) -> Result<Table, Fail> {
    table.write(&mut ToStd::new(File::create(rt, "kings.egt")?))?;
    let mut source = FromStd::new(File::open(rt, "kings.egt")?);
    Ok(Table::read(rt.alloc(), class(), &mut source)?)
}

#[test]
fn a_real_file(rt: HostRuntime) -> Result<(), Fail> {
    let written = table_with(rt.alloc(), &[(4, 64_003)], &[(4, 7)])?;
    let table = through_a_file(&rt, &written)?;
    require(&rt, entry_of(&table, Column::Mate, 4) == Some(64_003));
    require(&rt, entry_of(&table, Column::Zeroing, 4) == Some(7));
    require(&rt, has_kings(&table, Column::Mate, 5));
    fs::remove_file(&rt, "kings.egt")?;
    Ok(())
}
