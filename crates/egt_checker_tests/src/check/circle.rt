//! Wins that lean on each other in a circle: each move of the one side leads on to one, and none ends in mate.
use crate::asserts::require;
use egt_board::{Position, Side};
use egt_check::{Library, Reject, Rule, check};
use egt_class::{Class, of};
use egt_graph::Ranks;
use egt_index::{index, position, size};
use egt_moves::{Move, legal_moves, play};
use egt_plain::{PlainTables, table_of};
use egt_table::{Column, Table};
use std::alloc::Global;
use std::test::*;

/// The class of two kings and a knight.
const KNIGHT: u8 = 4;

/// An entry of a win in 2 for White to move.
const WON: u16 = 6;

/// An entry of a loss in 1 for Black to move.
const LOST: u16 = 5;

/// Every position decided: White wins in 2, Black loses in 1.
fn all_decided(alloc: Global) -> Result<Vec<u16>, Fail> {
    let class = Class::at(KNIGHT);
    let mut entries = Vec::with_capacity(alloc, size(class) as usize)?;
    for index in 0..size(class) {
        entries.push(match position(class, index) {
            Some(position) => match position.side() {
                Side::White => WON,
                Side::Black => LOST,
            },
            None => 0,
        })?;
    }
    Ok(entries)
}

/// The entry of where a move leads, if it stays in the class.
fn entry_after(position: &Position, chosen: Move, entries: &[u16]) -> Option<u16> {
    let after = play(position, chosen)?;
    let (class, _) = of(&after);
    if class.number() == KNIGHT {
        entries.get(index(class, &after) as usize).copied()
    } else {
        None
    }
}

/// Whether the entry of an index leans on others as a circle wants: a win on some loss, and a loss on wins alone, of
/// which there is one.
fn leans(entries: &[u16], index: u32) -> bool {
    let Some(position) = position(Class::at(KNIGHT), index) else {
        return true;
    };
    let is_lost = position.side() == Side::Black;
    let wanted = if is_lost { WON } else { LOST };
    let moves = legal_moves(&position);
    let mut some = false;
    let mut all = !moves.as_slice().is_empty();
    for chosen in moves.as_slice() {
        let leads_on = entry_after(&position, *chosen, entries) == Some(wanted);
        some = some || leads_on;
        all = all && leads_on;
    }
    if is_lost { all } else { some }
}

/// One pass that makes draws of what does not lean on others; tells whether there was something.
fn thinned(entries: &mut [u16]) -> bool {
    let mut thins = false;
    let mut index = 0u32;
    for place in 0..entries.len() {
        if entries[place] > 1 && !leans(entries, index) {
            entries[place] = 1;
            thins = true;
        }
        index = index.saturating_add(1);
    }
    thins
}

// A knight and a king cannot mate, but they can stay on the board: of the positions where they can, each win in 2 has a
// move to a loss in 1, and each loss in 1 leads to wins in 2 alone.
#[test]
fn wins_in_a_circle(rt: HostRuntime) -> Result<(), Fail> {
    let alloc = rt.alloc();
    let tables = PlainTables::solve(alloc, 1)?;
    let mut entries = all_decided(alloc)?;
    for _ in 0..1000 {
        if !thinned(&mut entries) {
            break;
        }
    }
    let circle = entries.iter().filter(|entry| **entry == LOST).count();
    require(&rt, circle > 0);
    let mut zeroing = Vec::new(alloc);
    zeroing.extend_from_slice(&entries)?;
    let Ok(table) = Table::from_ranks(
        Class::at(KNIGHT),
        Ranks::from_entries(entries),
        Ranks::from_entries(zeroing),
    ) else {
        return Err(Fail::new("a column of another length"));
    };
    let mut library = Library::new(alloc)?;
    require(&rt, library.admit(table_of(alloc, &tables, 0)?).is_ok());
    // A win in 2 stands beside a loss in 1, but no loss in 1 beside a win in 0.
    require(
        &rt,
        matches!(
            check(&table, &library),
            Err(Reject::Rejected {
                column: Column::Mate,
                rule: Rule::Loss,
                ..
            })
        ),
    );
    Ok(())
}
