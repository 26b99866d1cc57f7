//! The checker's answers to tables that are not true.
use crate::asserts::{agree, require, require_at};
use egt_check::{Library, Reject, Rule, check};
use egt_class::Class;
use egt_graph::{Nears, Ranks};
use egt_plain::kings::{table_with, whole_table_with};
use egt_plain::shelf::library_of;
use egt_plain::{PlainTables, table_of};
use egt_table::{Column, Table};
use std::alloc::Global;
use std::test::*;

/// What is answered to the table of two kings with this entry at the code of a mate column.
fn mate_with(alloc: Global, code: u32, entry: u16) -> Result<Result<(), Reject>, Fail> {
    let table = table_with(alloc, &[(code, entry)], &[])?;
    Ok(check(&table, &Library::new(alloc)?))
}

/// What the checker answers with this entry in the zeroing column.
fn zeroing_with(alloc: Global, code: u32, entry: u16) -> Result<Result<(), Reject>, Fail> {
    let table = table_with(alloc, &[], &[(code, entry)])?;
    Ok(check(&table, &Library::new(alloc)?))
}

pub(super) fn rejected(column: Column, index: u32, rule: Rule) -> Result<(), Reject> {
    Err(Reject::Rejected {
        column,
        index,
        rule,
    })
}

#[test]
fn two_kings_are_accepted(rt: HostRuntime) -> Result<(), Fail> {
    let table = table_with(rt.alloc(), &[], &[])?;
    let library = Library::new(rt.alloc())?;
    agree(&rt, check(&table, &library), Ok(()));
    Ok(())
}

#[test]
fn a_queen_alone_has_a_child_missing(rt: HostRuntime) -> Result<(), Fail> {
    let alloc = rt.alloc();
    let mate = Ranks::from_entries(vec![in alloc; 0; 81_920]?);
    let zeroing = Ranks::from_entries(vec![in alloc; 0; 81_920]?);
    let Ok(table) = Table::from_ranks(Class::at(1), mate, zeroing) else {
        return Err(Fail::from("a column of another length"));
    };
    let library = Library::new(alloc)?;
    let found = check(&table, &library);
    agree(&rt, found, Err(Reject::Missing(Class::at(0))));
    Ok(())
}

// Both kings on a1 spell no position.
#[test]
fn an_entry_where_there_is_no_position(rt: HostRuntime) -> Result<(), Fail> {
    let found = mate_with(rt.alloc(), 0, 1)?;
    agree(&rt, found, rejected(Column::Mate, 0, Rule::Void));
    let found = zeroing_with(rt.alloc(), 0, 1)?;
    agree(&rt, found, rejected(Column::Zeroing, 0, Rule::Void));
    Ok(())
}

// Code 4 has the white king on a1, the black king on c1 and White to move; each code below is void.
#[test]
fn each_rule_of_the_mate_column(rt: HostRuntime) -> Result<(), Fail> {
    let cases = [
        (0, Rule::Void),
        (2, Rule::Range),
        (64_004, Rule::Range),
        (65_535, Rule::Range),
        (4, Rule::Win),
        (3, Rule::Loss),
        (5, Rule::Loss),
        (64_003, Rule::Loss),
    ];
    for &(entry, rule) in &cases {
        let right = mate_with(rt.alloc(), 4, entry)? == rejected(Column::Mate, 4, rule);
        require_at(&rt, right, entry);
    }
    Ok(())
}

#[test]
fn the_zeroing_column_shows_what_the_mate_column_does(rt: HostRuntime) -> Result<(), Fail> {
    let cases = [
        (0, Rule::Void),
        (2, Rule::Range),
        (64_004, Rule::Range),
        (4, Rule::Kind),
        (3, Rule::Kind),
    ];
    for &(entry, rule) in &cases {
        let right = zeroing_with(rt.alloc(), 4, entry)? == rejected(Column::Zeroing, 4, rule);
        require_at(&rt, right, entry);
    }
    Ok(())
}

#[test]
fn the_mate_column_comes_first(rt: HostRuntime) -> Result<(), Fail> {
    let table = table_with(rt.alloc(), &[(5, 0)], &[(4, 0)])?;
    let library = Library::new(rt.alloc())?;
    let found = check(&table, &library);
    agree(&rt, found, rejected(Column::Mate, 5, Rule::Void));
    Ok(())
}

// FIDE Laws of Chess 2023, article 5.2.2: all positions of two kings are dead.
#[test]
fn each_rule_of_the_column_of_the_nearest_mates(rt: HostRuntime) -> Result<(), Fail> {
    let library = Library::new(rt.alloc())?;
    let whole = whole_table_with(rt.alloc(), &[], &[], &[])?;
    agree(&rt, check(&whole, &library), Ok(()));
    let cases = [
        (4, 0, Rule::Void),
        (4, 2, Rule::Reach),
        (4, 3, Rule::Reach),
        (4, 32_002, Rule::Reach),
        (4, 32_003, Rule::Range),
        (4, 65_535, Rule::Range),
        (0, 1, Rule::Void),
    ];
    for &(code, entry, rule) in &cases {
        let table = whole_table_with(rt.alloc(), &[], &[], &[(code, entry)])?;
        let right = check(&table, &library) == rejected(Column::Reach, code, rule);
        require_at(&rt, right, entry);
    }
    Ok(())
}

#[test]
fn the_column_of_the_nearest_mates_comes_last(rt: HostRuntime) -> Result<(), Fail> {
    let table = whole_table_with(rt.alloc(), &[], &[(1279, 1)], &[(0, 1)])?;
    let library = Library::new(rt.alloc())?;
    let found = check(&table, &library);
    agree(&rt, found, rejected(Column::Zeroing, 1279, Rule::Void));
    Ok(())
}

/// A table of a queen with nothing but zeros, and with the column of the nearest mates.
fn empty_queen(alloc: Global) -> Result<Table, Fail> {
    let mate = Ranks::from_entries(vec![in alloc; 0; 81_920]?);
    let zeroing = Ranks::from_entries(vec![in alloc; 0; 81_920]?);
    let Ok(table) = Table::from_ranks(Class::at(1), mate, zeroing) else {
        return Err(Fail::from("a column of another length"));
    };
    match table.with_reach(Nears::from_entries(vec![in alloc; 0; 81_920]?)) {
        Ok(table) => Ok(table),
        Err(_both) => Err(Fail::from("a column of another length")),
    }
}

#[test]
fn a_child_lacks_the_column(rt: HostRuntime) -> Result<(), Fail> {
    let queen = empty_queen(rt.alloc())?;
    let mut library = Library::new(rt.alloc())?;
    let found = check(&queen, &library);
    agree(&rt, found, Err(Reject::Missing(Class::at(0))));
    let right = library.admit(table_with(rt.alloc(), &[], &[])?).is_ok();
    require(&rt, right);
    let found = check(&queen, &library);
    agree(&rt, found, Err(Reject::NoReach(Class::at(0))));
    Ok(())
}

// White mates at once there. What is named is that entry, or one before it whose moves lead there.
#[test]
fn a_mate_told_later_than_it_comes(rt: HostRuntime) -> Result<(), Fail> {
    let tables = PlainTables::solve(rt.alloc(), 2)?;
    let table = table_of(rt.alloc(), &tables, 1)?;
    let mut mate = Vec::from_slice(rt.alloc(), table.entries(Column::Mate))?;
    if let Some(entry) = mate.get_mut(41_022) {
        *entry = 6;
    }
    let mate = Ranks::from_entries(mate);
    let zeroing = Vec::from_slice(rt.alloc(), table.entries(Column::Zeroing))?;
    let Ok(table) = Table::from_ranks(table.class(), mate, Ranks::from_entries(zeroing)) else {
        return Err(Fail::from("a column of another length"));
    };
    let answer = check(&table, &library_of(rt.alloc(), &tables, 1)?);
    require(
        &rt,
        matches!(answer, Err(Reject::Rejected { column: Column::Mate, index, .. }) if index <= 41_022),
    );
    Ok(())
}
