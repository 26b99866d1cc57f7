//! The bytes of a file as written.
use crate::asserts::{agree, require, require_at};
use egt_plain::kings::{LENGTH, kings_file, table_with, whole_kings_file};
use egt_plain::shelf::file_of;
use egt_table::{Device, FailingSink, MemorySink, Sink, Table};
use std::alloc::Global;
use std::test::*;

/// Whether the bytes have these from a place on.
fn has(bytes: &[u8], place: usize, part: &[u8]) -> bool {
    match bytes.get(place..) {
        Some(rest) => rest.starts_with(part),
        None => false,
    }
}

const HEADER: [u8; 16] = [0x45, 0x47, 0x54, 0x42, 1, 0, 1, 0, 0, 0, 2, 0, 0, 5, 0, 0];

#[test]
fn two_kings(rt: HostRuntime) -> Result<(), Fail> {
    let bytes = kings_file(rt.alloc())?;
    agree(&rt, bytes.len(), 5136);
    require(&rt, has(&bytes, 0, &HEADER));
    // Both kings on a1; the kings on a1 and c1, White to move.
    require(&rt, has(&bytes, 16, &[0, 0]));
    require(&rt, has(&bytes, 24, &[1, 0]));
    Ok(())
}

const WHOLE_HEADER: [u8; 16] = [0x45, 0x47, 0x54, 0x42, 2, 0, 1, 0, 0, 0, 3, 0, 0, 5, 0, 0];

#[test]
fn two_kings_with_three_columns(rt: HostRuntime) -> Result<(), Fail> {
    let bytes = whole_kings_file(rt.alloc())?;
    agree(&rt, bytes.len(), 7696);
    require(&rt, has(&bytes, 0, &WHOLE_HEADER));
    // The kings on a1 and c1, White to move: a dead position.
    require(&rt, has(&bytes, 5144, &[1, 0]));
    Ok(())
}

/// The file of the table of two kings with other entries.
fn file_with(alloc: Global, mate: &[(u32, u16)], zeroing: &[(u32, u16)]) -> Result<Vec<u8>, Fail> {
    file_of(alloc, &table_with(alloc, mate, zeroing)?)
}

#[test]
fn each_entry_has_its_place(rt: HostRuntime) -> Result<(), Fail> {
    let bytes = file_with(rt.alloc(), &[(4, 64_003)], &[(4, 7), (1279, 0x0102)])?;
    agree(&rt, bytes.len(), 5136);
    for &(place, part) in &[(24, [0x03, 0xfa]), (2584, [7, 0]), (5134, [2, 1])] {
        require_at(&rt, has(&bytes, place, &part), place);
    }
    Ok(())
}

/// Whether a sink with so much room is filled with the first bytes of these, and the write refused.
fn is_filled(alloc: Global, table: &Table, whole: &[u8], room: usize) -> Option<bool> {
    let mut sink = MemorySink::new(alloc, room).ok()?;
    let refused = table.write(&mut sink).is_err();
    Some(refused && sink.bytes().len() == room && whole.starts_with(sink.bytes()))
}

#[test]
fn sinks_that_are_too_small(rt: HostRuntime) -> Result<(), Fail> {
    let table = table_with(rt.alloc(), &[], &[])?;
    let whole = kings_file(rt.alloc())?;
    for &room in &[0, 1, 15, 16, 17, 2575, 2576, 2577, 5135] {
        let right = is_filled(rt.alloc(), &table, &whole, room) == Some(true);
        require_at(&rt, right, room);
    }
    Ok(())
}

/// Whether the k-th push fails, and behind so many first bytes of these.
fn fails_behind(alloc: Global, table: &Table, whole: &[u8], k: u64, length: usize) -> Option<bool> {
    let mut sink = FailingSink::new(MemorySink::new(alloc, LENGTH).ok()?, k);
    let refused = table.write(&mut sink).is_err();
    let sink = sink.into_inner();
    Some(refused && sink.bytes().len() == length && whole.starts_with(sink.bytes()))
}

/// Whether a write that makes three pushes is done where the fourth fails, and one behind it is not.
fn fails_once(alloc: Global, table: &Table) -> Option<bool> {
    let mut sink = FailingSink::new(MemorySink::new(alloc, LENGTH).ok()?, 4);
    let done = table.write(&mut sink).is_ok() && sink.calls_to_failure() == 1;
    Some(done && table.write(&mut sink).is_err() && sink.calls_to_failure() == 0)
}

#[test]
fn each_push_fails_in_turn(rt: HostRuntime) -> Result<(), Fail> {
    let table = table_with(rt.alloc(), &[], &[])?;
    let whole = kings_file(rt.alloc())?;
    // A header and two columns of one piece each.
    for &(k, length) in &[(1, 0), (2, 16), (3, 2576)] {
        let right = fails_behind(rt.alloc(), &table, &whole, k, length) == Some(true);
        require_at(&rt, right, k);
    }
    require(&rt, fails_once(rt.alloc(), &table) == Some(true));
    Ok(())
}

// The failed call adds nothing, and those before and behind it are the sink's own.
#[test]
fn a_sink_goes_on_behind_its_failure(rt: HostRuntime) -> Result<(), Fail> {
    let mut sink = FailingSink::new(MemorySink::new(rt.alloc(), 5)?, 2);
    agree(&rt, sink.calls_to_failure(), 2);
    agree(&rt, sink.push(&[1, 2]), Ok(2));
    agree(&rt, sink.calls_to_failure(), 1);
    agree(&rt, sink.push(&[3]), Err(Device));
    agree(&rt, sink.calls_to_failure(), 0);
    agree(&rt, sink.push(&[4, 5]), Ok(2));
    agree(&rt, sink.push(&[6, 7]), Ok(1));
    agree(&rt, sink.push(&[7]), Err(Device));
    require(&rt, sink.into_inner().bytes() == [1, 2, 4, 5, 6].as_slice());
    Ok(())
}

#[test]
fn a_sink_that_never_fails(rt: HostRuntime) -> Result<(), Fail> {
    let mut sink = FailingSink::new(MemorySink::new(rt.alloc(), 5)?, 0);
    agree(&rt, sink.push(&[1, 2]), Ok(2));
    agree(&rt, sink.push(&[3]), Ok(1));
    agree(&rt, sink.calls_to_failure(), 0);
    require(&rt, sink.into_inner().bytes() == [1, 2, 3].as_slice());
    Ok(())
}
