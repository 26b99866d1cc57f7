//! Tables of four men with other entries: what the checker names first.
use super::built;
use crate::asserts::require_at;
use egt_check::{Library, Reject, check};
use egt_class::Class;
use egt_graph::{Nears, Ranks};
use egt_plain::shelf::named;
use egt_sweep::build;
use egt_table::{Column, Table};
use std::alloc::Global;
use std::test::*;

/// Black to move, kings b1 and h8, rooks c4 and e2: an index of two rooks.
const ROOKS: u32 = 1_041_973;

/// A code with both rooks in the order that no position has for its index.
const ROOKS_EXCHANGED: u32 = 1_043_737;

/// All men on the last squares.
const LAST: u32 = 5_242_879;

/// An entry of one column that is changed.
#[derive(Clone, Copy)]
struct Change {
    column: Column,
    code: u32,
    entry: u16,
}

/// The column's entries; none where the table lacks it.
fn entries_of(table: &Table, column: Column) -> &[u16] {
    match column {
        Column::Mate => table.entries(Column::Mate),
        Column::Zeroing => table.entries(Column::Zeroing),
        Column::Reach if table.has_reach() => table.entries(Column::Reach),
        Column::Reach => &[],
    }
}

/// The column's entries, changed where the change is of it.
fn changed(alloc: Global, table: &Table, column: Column, change: Change) -> Option<Vec<u16>> {
    let mut entries = Vec::from_slice(alloc, entries_of(table, column)).ok()?;
    if change.column == column {
        *entries.get_mut(change.code as usize)? = change.entry;
    }
    Some(entries)
}

/// The table with the change.
fn damaged(alloc: Global, table: &Table, change: Change) -> Option<Table> {
    let mate = Ranks::from_entries(changed(alloc, table, Column::Mate, change)?);
    let zeroing = Ranks::from_entries(changed(alloc, table, Column::Zeroing, change)?);
    let reach = Nears::from_entries(changed(alloc, table, Column::Reach, change)?);
    let damaged = Table::from_ranks(table.class(), mate, zeroing).ok()?;
    damaged.with_reach(reach).ok()
}

/// The column and the index that the checker names of the table with the change; `None` where it takes it.
fn named_first(
    alloc: Global,
    table: &Table,
    library: &Library,
    change: Change,
) -> Option<(Column, u32)> {
    let damaged = damaged(alloc, table, change)?;
    match check(&damaged, library) {
        Err(Reject::Rejected { column, index, .. }) => Some((column, index)),
        _ => None,
    }
}

/// Two rooks beside the kings, and what they rest on.
fn two_rooks(alloc: Global) -> Result<(Library, Table), Fail> {
    let library = built(alloc, &["KK", "KRK"])?;
    let table = build(alloc, named("KRRK")?, &library, 32_000)?;
    Ok((library, table))
}

#[test]
fn codes_of_no_position(rt: HostRuntime) -> Result<(), Fail> {
    let (library, table) = two_rooks(rt.alloc())?;
    for column in Column::ALL {
        for &code in &[0, ROOKS_EXCHANGED, LAST] {
            for &entry in &[1, 2, 65_535] {
                let change = Change {
                    column,
                    code,
                    entry,
                };
                let found = named_first(rt.alloc(), &table, &library, change);
                require_at(&rt, found == Some((column, code)), (code, entry));
            }
        }
    }
    Ok(())
}

// A wrong entry is named, or one before it whose moves lead there.
#[test]
fn an_entry_of_a_position(rt: HostRuntime) -> Result<(), Fail> {
    let (library, table) = two_rooks(rt.alloc())?;
    for column in Column::ALL {
        let right = entries_of(&table, column).get(ROOKS as usize).copied();
        for &entry in &[0, 1, 2, 3, 4, 252, 253, 254, 255, 256, 257, 64_003, 65_535] {
            let change = Change {
                column,
                code: ROOKS,
                entry,
            };
            let found = named_first(rt.alloc(), &table, &library, change);
            let is_named = match found {
                Some((named, index)) => named == column && index <= ROOKS,
                None => right == Some(entry),
            };
            require_at(&rt, is_named, entry);
        }
    }
    Ok(())
}
