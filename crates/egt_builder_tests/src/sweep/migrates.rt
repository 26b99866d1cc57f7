//! Tables without the column of the nearest mates get it, or say why not.
ghost use Rattle.std.specs.Prelude.{OnOk};
ghost use Rattle.egt_entries.specs.Library.{IsAccepted};
ghost use Rattle.egt_entries.specs.Tables.{table_at};

use super::{built, have_one_file, without_reach};
use crate::asserts::{agree, require, require_at};
use egt_check::{Library, check};
use egt_plain::kings::{table_with, whole_kings_file, whole_table_with};
use egt_plain::shelf::{file_of, library_below, named};
use egt_plain::{PlainTables, table_of};
use egt_sweep::{BuildFault, MigrateFault, build, migrate};
use egt_table::Table;
use std::alloc::Global;
use std::test::*;

/// Sees that the table is true beside the library.
fn require_true(table: &Table, library: &Library) -> Result<(), Fail>
    ensures { OnOk result (IsAccepted (table_at library.now) table.now) }
{
    match check(table, library) {
        Ok(()) => Ok(()),
        Err(_reject) => Err(Fail::from("the table is not true")),
    }
}

/// What is answered where a true table is migrated beside the library.
fn migrated(
    alloc: Global,
    table: Table,
    library: &Library,
) -> Result<Result<Table, (Table, MigrateFault)>, Fail> {
    require_true(&table, library)?;
    Ok(migrate(alloc, table, library))
}

/// Whether the class's table that is built becomes itself again, byte for byte, where its third column is taken away and
/// made anew.
fn is_as_built(alloc: Global, name: &str, library: &Library) -> Result<bool, Fail> {
    let built = build(alloc, named(name)?, library, 32_000)?;
    let short = without_reach(alloc, &built)?;
    let Ok(table) = migrated(alloc, short, library)? else {
        return Err(Fail::from("the table was refused"));
    };
    have_one_file(alloc, &table, &built)
}

#[test]
fn migrated_tables_are_those_that_are_built(rt: HostRuntime) -> Result<(), Fail> {
    let empty = Library::new(rt.alloc())?;
    require(&rt, is_as_built(rt.alloc(), "KK", &empty)?);
    let kings = built(rt.alloc(), &["KK"])?;
    for &name in &["KQK", "KNK"] {
        require_at(&rt, is_as_built(rt.alloc(), name, &kings)?, name);
    }
    Ok(())
}

/// Whether the table's file is that of two kings with the third column.
fn is_whole_kings(alloc: Global, table: &Table) -> Result<bool, Fail> {
    let file = file_of(alloc, table)?;
    let kings = whole_kings_file(alloc)?;
    Ok(file.as_slice() == kings.as_slice())
}

#[test]
fn a_table_that_has_the_column(rt: HostRuntime) -> Result<(), Fail> {
    let library = Library::new(rt.alloc())?;
    let table = whole_table_with(rt.alloc(), &[], &[], &[])?;
    let Err((table, fault)) = migrated(rt.alloc(), table, &library)? else {
        return Err(Fail::from("the table was migrated"));
    };
    agree(&rt, fault, MigrateFault::HasReach);
    require(&rt, fault.number() == 5 && fault.name() == "HasReach");
    require(&rt, is_whole_kings(rt.alloc(), &table)?);
    Ok(())
}

// A library that has the class's own table without the column refuses nothing: only the children's columns are asked
// for.
#[test]
fn the_own_table_is_not_asked(rt: HostRuntime) -> Result<(), Fail> {
    let library = library_below(rt.alloc(), 1)?;
    let table = table_with(rt.alloc(), &[], &[])?;
    let Ok(table) = migrated(rt.alloc(), table, &library)? else {
        return Err(Fail::from("the table was refused"));
    };
    require(&rt, is_whole_kings(rt.alloc(), &table)?);
    Ok(())
}

#[test]
fn a_child_lacks_the_column(rt: HostRuntime) -> Result<(), Fail> {
    let tables = PlainTables::solve(rt.alloc(), 2)?;
    let library = library_below(rt.alloc(), 1)?;
    let kings = named("KK")?;
    let queen = table_of(rt.alloc(), &tables, 1)?;
    let before = file_of(rt.alloc(), &queen)?;
    let Err((queen, fault)) = migrated(rt.alloc(), queen, &library)? else {
        return Err(Fail::from("the table was migrated"));
    };
    agree(&rt, fault, MigrateFault::NoReach(kings));
    require(&rt, fault.number() == 4 && fault.name() == "NoReach");
    let file = file_of(rt.alloc(), &queen)?;
    require(&rt, file.as_slice() == before.as_slice());

    let Err(fault) = build(rt.alloc(), named("KQK")?, &library, 32_000) else {
        return Err(Fail::from("the table was built"));
    };
    agree(&rt, fault, BuildFault::NoReach(kings));
    require(&rt, fault.number() == 4 && fault.name() == "NoReach");
    Ok(())
}
