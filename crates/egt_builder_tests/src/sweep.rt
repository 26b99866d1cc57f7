//! The builder, and the three games over a class.
mod builds;
mod damaged;
mod figures;
mod games;
mod looks;
mod migrates;
mod nearest;
mod orders;

ghost use Rattle.std.specs.Prelude.{IfOk};
ghost use Rattle.egt_entries.specs.Tables.{table_at};
ghost use Rattle.egt_sweep.specs.MateColumn.{AreMateRanks};

use egt_check::Library;
use egt_class::Class;
use egt_graph::{Ranks, solve};
use egt_plain::shelf::{file_of, named};
use egt_sweep::{BuildFault, MateGame, build};
use egt_table::{Column, Table};
use std::alloc::Global;
use std::test::Fail;

/// A library with the built tables of these classes, each of which comes after its children.
fn built(alloc: Global, names: &[&str]) -> Result<Library, Fail> {
    let mut library = Library::new(alloc)?;
    for name in names {
        let table = build(alloc, named(name)?, &library, 32_000)?;
        if library.admit(table).is_err() {
            return Err(Fail::from("a built table was refused"));
        }
    }
    Ok(library)
}

/// What is answered where a class is built over these tables.
fn built_over(
    alloc: Global,
    names: &[&str],
    name: &str,
    limit: u16,
) -> Result<Result<Table, BuildFault>, Fail> {
    if limit > 32_000 {
        return Err(Fail::from("no limit is above 32,000"));
    }
    let library = built(alloc, names)?;
    Ok(build(alloc, named(name)?, &library, limit))
}

/// How many entries are the number.
fn count(entries: &[u16], number: u16) -> usize {
    entries.iter().filter(|entry| **entry == number).count()
}

/// Whether the files of both tables are the same, byte for byte.
fn have_one_file(alloc: Global, one: &Table, other: &Table) -> Result<bool, Fail> {
    let file = file_of(alloc, one)?;
    let same = file_of(alloc, other)?;
    Ok(file.as_slice() == same.as_slice())
}

/// The table without the column of the nearest mates.
fn without_reach(alloc: Global, table: &Table) -> Result<Table, Fail> {
    let mate = Ranks::from_entries(Vec::from_slice(alloc, table.entries(Column::Mate))?);
    let zeroing = Ranks::from_entries(Vec::from_slice(alloc, table.entries(Column::Zeroing))?);
    match Table::from_ranks(table.class(), mate, zeroing) {
        Ok(table) => Ok(table),
        Err(_columns) => Err(Fail::from("a column of another length")),
    }
}

/// The number of plies of the longest win.
fn longest_win(table: &Table) -> u16 {
    let mut longest = 0;
    for &entry in table.entries(Column::Mate) {
        if entry >= 4 && entry % 2 == 0 {
            longest = longest.max(entry / 2 - 1);
        }
    }
    longest
}

/// The ranks of the class's game of mates.
fn mates(alloc: Global, class: Class, library: &Library) -> Result<Ranks, Fail>
    ensures { IfOk result (AreMateRanks (table_at library.now) class) }
{
    match MateGame::new(class, library) {
        Ok(game) => Ok(solve(alloc, &game, 32_000)?),
        Err(_missing) => Err(Fail::from("a child is missing")),
    }
}
