//! Tables, their files, and libraries of tables that plain sweeps made.
ghost use Rattle.std.specs.Prelude.{◌≡◌, true};
ghost use Rattle.egt_table.specs.Table.{HasColumn};

use crate::filling::{table_of, whole_table_of};
use crate::tables::PlainTables;
use egt_check::Library;
use egt_class::{Class, by_name};
use egt_index::size;
use egt_table::{Column, MemorySink, Table};
use std::alloc::Global;
use std::test::Fail;

/// The class of that name.
pub fn named(name: &str) -> Result<Class, Fail> {
    Ok(by_name(name).ok_or("no class has the name")?)
}

/// A library with these plain tables of the classes below a number, which is at most 6.
pub fn library_of(alloc: Global, tables: &PlainTables, end: u8) -> Result<Library, Fail> {
    let mut library = Library::new(alloc)?;
    for class in 0..end {
        if library.admit(table_of(alloc, tables, class)?).is_err() {
            return Err(Fail::from("a table of plain sweeps was refused"));
        }
    }
    Ok(library)
}

/// A library with these plain tables, the column of the nearest mates in each, of the classes below a number, which is
/// at most 6.
pub fn whole_library_of(alloc: Global, tables: &PlainTables, end: u8) -> Result<Library, Fail> {
    let mut library = Library::new(alloc)?;
    for class in 0..end {
        let table = whole_table_of(alloc, tables, class)?;
        if library.admit(table).is_err() {
            return Err(Fail::from("a table of plain sweeps was refused"));
        }
    }
    Ok(library)
}

/// The library of the first tables, with the plain tables made anew.
pub fn library_below(alloc: Global, end: u8) -> Result<Library, Fail> {
    library_of(alloc, &PlainTables::solve(alloc, usize::from(end))?, end)
}

/// The library of the first tables with the column of the nearest mates in each, with the plain tables made anew.
pub fn whole_library_below(alloc: Global, end: u8) -> Result<Library, Fail> {
    whole_library_of(alloc, &PlainTables::solve(alloc, usize::from(end))?, end)
}

/// Whether the table has the column.
fn has_column(table: &Table, column: Column) -> bool
    ensures { result ≡ true → HasColumn column table.now }
{
    match column {
        Column::Mate | Column::Zeroing => true,
        Column::Reach => table.has_reach(),
    }
}

/// The table's entry at a code, where the table has the column and the class the code.
pub fn entry_of(table: &Table, column: Column, code: u32) -> Option<u16> {
    if has_column(table, column) && code < size(table.class()) {
        Some(table.entry(column, code))
    } else {
        None
    }
}

/// The table's file.
pub fn file_of(alloc: Global, table: &Table) -> Result<Vec<u8>, Fail> {
    let columns = if table.has_reach() { 3 } else { 2 };
    let length = 16 + 2 * columns * size(table.class()) as usize;
    let mut sink = MemorySink::new(alloc, length)?;
    table.write(&mut sink)?;
    Ok(Vec::from_slice(alloc, sink.bytes())?)
}
