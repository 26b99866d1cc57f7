//! Reading of files, and the fault that other bytes have.
use super::has_kings;
use crate::asserts::{agree, require, require_at};
use egt_class::Class;
use egt_plain::kings::{
    LENGTH, class, flip, kings_file, table_with, whole_kings_file, whole_table_with,
};
use egt_plain::shelf::{entry_of, file_of};
use egt_table::{Column, Device, FailingSource, FileFault, MemorySource, Source, Table};
use std::alloc::Global;
use std::test::*;

/// The number of the fault of the bytes; 0 where they are a table's file.
fn fault_of(alloc: Global, class: Class, bytes: &[u8]) -> u8 {
    match Table::read(alloc, class, &mut MemorySource::new(bytes)) {
        Ok(_table) => 0,
        Err(fault) => fault.number(),
    }
}

/// Whether the bytes are the file of two kings.
fn are_kings(alloc: Global, bytes: &[u8]) -> Option<bool> {
    let table = Table::read(alloc, class(), &mut MemorySource::new(bytes)).ok()?;
    let mate = has_kings(&table, Column::Mate, 0);
    Some(table.class() == class() && mate && has_kings(&table, Column::Zeroing, 0))
}

#[test]
fn two_kings(rt: HostRuntime) -> Result<(), Fail> {
    let bytes = kings_file(rt.alloc())?;
    require(&rt, are_kings(rt.alloc(), &bytes) == Some(true));
    Ok(())
}

/// Whether the bytes are their file with the column of the nearest mates.
fn are_whole(alloc: Global, bytes: &[u8]) -> Option<bool> {
    let table = Table::read(alloc, class(), &mut MemorySource::new(bytes)).ok()?;
    let mut same = table.has_reach();
    for column in Column::ALL {
        same = same && has_kings(&table, column, 0);
    }
    Some(same)
}

#[test]
fn two_kings_with_three_columns(rt: HostRuntime) -> Result<(), Fail> {
    let bytes = whole_kings_file(rt.alloc())?;
    require(&rt, are_whole(rt.alloc(), &bytes) == Some(true));
    let written = whole_table_with(rt.alloc(), &[(4, 7)], &[(5, 9)], &[(6, 0x0102)])?;
    let bytes = file_of(rt.alloc(), &written)?;
    let table = Table::read(rt.alloc(), class(), &mut MemorySource::new(&bytes))?;
    for &(column, code, wanted) in &[
        (Column::Mate, 4, 7),
        (Column::Zeroing, 5, 9),
        (Column::Reach, 6, 0x0102),
    ] {
        require_at(&rt, entry_of(&table, column, code) == Some(wanted), code);
    }
    Ok(())
}

// A version, a number of columns, and the fault: of a file of two columns, and of one of three.
const VERSIONS: [(u8, u8, u8, u8); 6] = [
    (1, 2, 0, 9),
    (2, 3, 2, 0),
    (1, 3, 7, 7),
    (2, 2, 7, 7),
    (3, 3, 4, 4),
    (0, 2, 4, 4),
];

/// The fault of the bytes with another version and another number of columns.
fn fault_of_version(alloc: Global, whole: &[u8], version: u8, columns: u8) -> Option<u8> {
    let mut bytes = Vec::from_slice(alloc, whole).ok()?;
    for &(place, byte) in &[(4, version), (10, columns)] {
        if let Some(old) = bytes.get_mut(place) {
            *old = byte;
        }
    }
    Some(fault_of(alloc, class(), &bytes))
}

#[test]
fn versions_and_numbers_of_columns(rt: HostRuntime) -> Result<(), Fail> {
    let two = kings_file(rt.alloc())?;
    let three = whole_kings_file(rt.alloc())?;
    for &(version, columns, of_two, of_three) in &VERSIONS {
        let found = fault_of_version(rt.alloc(), &two, version, columns);
        require_at(&rt, found == Some(of_two), (version, columns));
        let found = fault_of_version(rt.alloc(), &three, version, columns);
        require_at(&rt, found == Some(of_three), (version, columns));
    }
    Ok(())
}

/// The table of two kings with other entries, written and read.
fn read_again(alloc: Global, mate: &[(u32, u16)], zeroing: &[(u32, u16)]) -> Result<Table, Fail> {
    let written = table_with(alloc, mate, zeroing)?;
    let bytes = file_of(alloc, &written)?;
    Ok(Table::read(alloc, class(), &mut MemorySource::new(&bytes))?)
}

#[test]
fn columns_are_told_apart(rt: HostRuntime) -> Result<(), Fail> {
    let table = read_again(rt.alloc(), &[(4, 64_003)], &[(4, 7), (1279, 0x0102)])?;
    for &(column, code, wanted) in &[
        (Column::Mate, 4, 64_003),
        (Column::Zeroing, 4, 7),
        (Column::Zeroing, 1279, 0x0102),
    ] {
        require_at(&rt, entry_of(&table, column, code) == Some(wanted), code);
    }
    Ok(())
}

/// Whether each part from the first byte on is too short.
fn parts_are_short(alloc: Global, bytes: &[u8]) -> bool {
    for length in 0..bytes.len() {
        if fault_of(alloc, class(), &bytes[..length]) != 2 {
            return false;
        }
    }
    true
}

#[test]
fn cut_to_each_length(rt: HostRuntime) -> Result<(), Fail> {
    let bytes = kings_file(rt.alloc())?;
    agree(&rt, bytes.len(), LENGTH);
    require(&rt, parts_are_short(rt.alloc(), &bytes));
    Ok(())
}

#[test]
fn fifteen_bytes_of_zeros(rt: HostRuntime) {
    agree(&rt, fault_of(rt.alloc(), class(), &[0; 15]), 2);
}

/// The fault of so many of the bytes, with these bits of the bytes at some places changed, and with those behind.
fn fault_with(
    alloc: Global,
    whole: &[u8],
    places: &[usize],
    bits: u8,
    length: usize,
    behind: &[u8],
) -> Option<u8> {
    let mut bytes = Vec::from_slice(alloc, whole).ok()?;
    for place in places {
        flip(&mut bytes, *place, bits);
    }
    bytes.truncate(length);
    bytes.extend_from_slice(behind).ok()?;
    Some(fault_of(alloc, class(), &bytes))
}

#[test]
fn each_byte_of_the_header_changed(rt: HostRuntime) -> Result<(), Fail> {
    let bytes = kings_file(rt.alloc())?;
    let faults = [3, 3, 3, 3, 4, 4, 5, 5, 6, 6, 7, 7, 8, 8, 8, 8];
    for (place, fault) in faults.iter().enumerate() {
        for &bits in &[1, 0x80] {
            let found = fault_with(rt.alloc(), &bytes, &[place], bits, LENGTH, &[]);
            require_at(&rt, found == Some(*fault), place);
        }
    }
    Ok(())
}

// Places of bytes to change, how many bytes to keep, and the fault.
const TWO_FAULTS: [([usize; 2], usize, u8); 7] = [
    ([0, 4], 15, 2),
    ([0, 4], 16, 3),
    ([4, 6], 17, 4),
    ([6, 8], 5136, 5),
    ([8, 10], 16, 6),
    ([10, 12], 5135, 7),
    ([12, 15], 16, 8),
];

#[test]
fn the_first_of_two_faults(rt: HostRuntime) -> Result<(), Fail> {
    let bytes = kings_file(rt.alloc())?;
    for &(places, length, fault) in &TWO_FAULTS {
        let found = fault_with(rt.alloc(), &bytes, &places, 1, length, &[]);
        require_at(&rt, found == Some(fault), fault);
    }
    // The file of another class than the one asked for.
    agree(&rt, fault_of(rt.alloc(), Class::at(1), &bytes), 6);
    Ok(())
}

#[test]
fn bytes_behind_the_last_entry(rt: HostRuntime) -> Result<(), Fail> {
    let bytes = kings_file(rt.alloc())?;
    for &(places, fault) in &[([].as_slice(), 9), ([8].as_slice(), 6)] {
        let found = fault_with(rt.alloc(), &bytes, places, 1, LENGTH, &[0]);
        require_at(&rt, found == Some(fault), fault);
    }
    Ok(())
}

/// The number of the fault where the k-th pull fails, and how many pulls are left to it.
fn fault_at_pull(alloc: Global, bytes: &[u8], k: u64) -> (u8, u64) {
    let mut source = FailingSource::new(MemorySource::new(bytes), k);
    let fault = match Table::read(alloc, class(), &mut source) {
        Ok(_table) => 0,
        Err(fault) => fault.number(),
    };
    (fault, source.calls_to_failure())
}

#[test]
fn each_pull_fails_in_turn(rt: HostRuntime) -> Result<(), Fail> {
    let bytes = kings_file(rt.alloc())?;
    // A header, two columns of one piece each, and the end.
    for k in 1..=4 {
        agree(&rt, fault_at_pull(rt.alloc(), &bytes, k), (1, 0));
    }
    agree(&rt, fault_at_pull(rt.alloc(), &bytes, 5), (0, 1));
    Ok(())
}

/// What the next pull gives: the bytes, of which there is room for two, or a failure.
fn pulled(source: &mut FailingSource<MemorySource<'_>>, wanted: &[u8]) -> bool {
    let mut room = [0; 2];
    match source.pull(&mut room) {
        Ok(n) => room.get(..n) == Some(wanted),
        Err(Device) => false,
    }
}

// The failed call takes nothing, and those before and behind it are the source's own.
#[test]
fn a_source_goes_on_behind_its_failure(rt: HostRuntime) {
    let mut source = FailingSource::new(MemorySource::new(&[1, 2, 3, 4, 5]), 2);
    agree(&rt, source.calls_to_failure(), 2);
    require(&rt, pulled(&mut source, &[1, 2]));
    agree(&rt, source.calls_to_failure(), 1);
    agree(&rt, source.pull(&mut [0; 2]), Err(Device));
    agree(&rt, source.calls_to_failure(), 0);
    require(&rt, pulled(&mut source, &[3, 4]));
    require(&rt, pulled(&mut source, &[5]));
    require(&rt, pulled(&mut source, &[]));
    agree(&rt, source.calls_to_failure(), 0);
}

#[test]
fn a_source_that_never_fails(rt: HostRuntime) {
    let mut source = FailingSource::new(MemorySource::new(&[1, 2]), 0);
    require(&rt, pulled(&mut source, &[1, 2]));
    require(&rt, pulled(&mut source, &[]));
    agree(&rt, source.calls_to_failure(), 0);
}

const FAULTS: [(FileFault, u8, &str); 10] = [
    (FileFault::Device, 1, "Device"),
    (FileFault::Short, 2, "Short"),
    (FileFault::Magic, 3, "Magic"),
    (FileFault::Version, 4, "Version"),
    (FileFault::Layout, 5, "Layout"),
    (FileFault::Class, 6, "Class"),
    (FileFault::Columns, 7, "Columns"),
    (FileFault::Count, 8, "Count"),
    (FileFault::Trailing, 9, "Trailing"),
    (FileFault::NoMemory, 10, "NoMemory"),
];

#[test]
fn faults_by_number_and_name(rt: HostRuntime) {
    for &(fault, number, name) in &FAULTS {
        require_at(&rt, fault.number() == number && fault.name() == name, name);
    }
}

#[test]
fn faults_of_headers_take_no_memory(rt: HostRuntime) -> Result<(), Fail> {
    // A header that claims 2^32 - 1 entries.
    let bytes = [
        0x45, 0x47, 0x54, 0x42, 1, 0, 1, 0, 0, 0, 2, 0, 255, 255, 255, 255,
    ];
    match Table::read(rt.alloc(), class(), &mut MemorySource::new(&bytes)) {
        Ok(_table) => Err(Fail::from("a table without entries")),
        Err(fault) => {
            agree(&rt, fault.number(), 8);
            Ok(())
        }
    }
}
