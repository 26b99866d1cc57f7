//! Tables that are built pass the check and are admitted. The numbers of plies are those of the literature.
use super::{built, built_over, longest_win, without_reach};
use crate::asserts::{agree, require, require_at};
use egt_check::{Library, Reject, check};
use egt_class::Class;
use egt_plain::shelf::{entry_of, file_of, named};
use egt_sweep::{BuildFault, MigrateFault, build};
use egt_table::{Column, Table};
use std::alloc::Global;
use std::test::*;

/// The table of a class of three men that is built over two kings, within so many plies.
fn built_within(alloc: Global, name: &str, limit: u16) -> Result<Table, Fail> {
    let answer = built_over(alloc, &["KK"], name, limit)?;
    Ok(answer?)
}

#[test]
fn two_kings_are_built_and_admitted(rt: HostRuntime) -> Result<(), Fail> {
    let mut library = Library::new(rt.alloc())?;
    let table = build(rt.alloc(), named("KK")?, &library, 0)?;
    agree(&rt, check(&table, &library), Ok(()));
    require(&rt, library.admit(table).is_ok());
    let again = build(rt.alloc(), named("KK")?, &library, 0)?;
    let Err((_table, reject)) = library.admit(again) else {
        return Err(Fail::from("admitted twice"));
    };
    agree(&rt, reject, Reject::AlreadyThere);
    Ok(())
}

#[test]
fn a_queen_mates_within_ten_moves(rt: HostRuntime) -> Result<(), Fail> {
    let mut library = built(rt.alloc(), &["KK"])?;
    let table = build(rt.alloc(), named("KQK")?, &library, 20)?;
    agree(&rt, check(&table, &library), Ok(()));
    agree(&rt, longest_win(&table), 19);

    // Kings on b6 and a8, a queen on d1: mate in one with White to move, and in two plies with Black to move.
    for &column in &[Column::Mate, Column::Zeroing] {
        agree(&rt, entry_of(&table, column, 41_022), Some(4));
        agree(&rt, entry_of(&table, column, 41_023), Some(7));
    }
    agree(&rt, entry_of(&table, Column::Reach, 41_022), Some(3));
    agree(&rt, entry_of(&table, Column::Reach, 41_023), Some(4));
    require(&rt, library.admit(table).is_ok());
    Ok(())
}

/// Why a class is not built over these tables; `None` where it is.
fn fault(
    alloc: Global,
    names: &[&str],
    name: &str,
    limit: u16,
) -> Result<Option<BuildFault>, Fail> {
    Ok(built_over(alloc, names, name, limit)?.err())
}

#[test]
fn some_need_more_than_nine_moves(rt: HostRuntime) -> Result<(), Fail> {
    let fault = fault(rt.alloc(), &["KK"], "KQK", 18)?;
    agree(&rt, fault, Some(BuildFault::TooDeep(18)));
    Ok(())
}

#[test]
fn a_rook_mates_within_sixteen_moves(rt: HostRuntime) -> Result<(), Fail> {
    let table = built_within(rt.alloc(), "KRK", 32_000)?;
    agree(&rt, longest_win(&table), 31);
    Ok(())
}

/// Whether the bytes have these from each of the places on.
fn have(bytes: &[u8], parts: &[(usize, &[u8])]) -> bool {
    for (place, part) in parts {
        if !bytes
            .get(*place..)
            .is_some_and(|rest| rest.starts_with(part))
        {
            return false;
        }
    }
    true
}

/// The bytes of the pawn's file at code 164434, whose entries differ. In the image with king c7, pawn b7 and king a7 it
/// is ((26 * 64 + 48) * 48 + 41) * 2 + 0. White wins in three plies: 8. The first zeroes: 4. No first move mates, so no
/// mate is nearer: 5. The columns, of 196,608 entries each, begin at byte 16, 393,216 bytes further and as many more.
const PAWN_BYTES: [(usize, &[u8]); 3] = [
    (328_884, &[8, 0]),
    (722_100, &[4, 0]),
    (1_115_316, &[5, 0]),
];

// White to move, king f7, pawn g7, black king h7: g7g8q, h7h6, g8g6 mate. The first move zeroes.
#[test]
fn a_pawn_zeroes_before_it_mates(rt: HostRuntime) -> Result<(), Fail> {
    let library = built(rt.alloc(), &["KK", "KQK", "KRK", "KBK", "KNK"])?;
    let table = build(rt.alloc(), named("KPK")?, &library, 32_000)?;
    agree(&rt, check(&table, &library), Ok(()));
    agree(&rt, entry_of(&table, Column::Mate, 164_434), Some(8));
    agree(&rt, entry_of(&table, Column::Zeroing, 164_434), Some(4));
    let bytes = file_of(rt.alloc(), &table)?;
    require(&rt, have(&bytes, &PAWN_BYTES));
    Ok(())
}

#[test]
fn the_least_child_is_missing(rt: HostRuntime) -> Result<(), Fail> {
    let kings = fault(rt.alloc(), &[], "KPK", 32_000)?;
    agree(&rt, kings, Some(BuildFault::Missing(named("KK")?)));
    let rook = fault(rt.alloc(), &["KK", "KQK"], "KPK", 32_000)?;
    agree(&rt, rook, Some(BuildFault::Missing(named("KRK")?)));
    Ok(())
}

/// The bytes of the queen's file at codes 41022 and 41023: king b6, queen d1 and king a8, in the image king c2, queen
/// h4 and king a1, ((5 * 64 + 0) * 64 + 31) * 2, and 1 more with Black to move. White wins in one ply, d1d8: 4. Black
/// has a8b8 alone, and d1d8 mates again, so he loses in two plies: 7. Nothing zeroes before the mate, so the second
/// column has the same; and no mate is nearer: 3 and 4 in the third. The columns, of 81,920 entries each, begin at byte
/// 16, 163,840 bytes further and as many more.
const QUEEN_BYTES: [(usize, &[u8]); 3] = [
    (82_060, &[4, 0, 7, 0]),
    (245_900, &[4, 0, 7, 0]),
    (409_740, &[3, 0, 4, 0]),
];

#[test]
fn the_file_of_a_queen(rt: HostRuntime) -> Result<(), Fail> {
    let table = built_within(rt.alloc(), "KQK", 20)?;
    let bytes = file_of(rt.alloc(), &table)?;
    agree(&rt, bytes.len(), 491_536);
    let header = [
        0x45, 0x47, 0x54, 0x42, 2, 0, 1, 0, 1, 0, 3, 0, 0, 0x40, 1, 0,
    ];
    agree(&rt, bytes.get(..16), Some(header.as_slice()));
    require(&rt, have(&bytes, &QUEEN_BYTES));
    Ok(())
}

/// The file of the table without the column of the nearest mates.
fn short_file(alloc: Global, table: &Table) -> Result<Vec<u8>, Fail> {
    let short = without_reach(alloc, table)?;
    file_of(alloc, &short)
}

// In version 1 the first two columns stand where they do in version 2, and the file ends behind them.
#[test]
fn the_file_of_a_queen_without_the_third_column(rt: HostRuntime) -> Result<(), Fail> {
    let table = built_within(rt.alloc(), "KQK", 20)?;
    let bytes = short_file(rt.alloc(), &table)?;
    agree(&rt, bytes.len(), 327_696);
    let header = [
        0x45, 0x47, 0x54, 0x42, 1, 0, 1, 0, 1, 0, 2, 0, 0, 0x40, 1, 0,
    ];
    agree(&rt, bytes.get(..16), Some(header.as_slice()));
    require(&rt, have(&bytes, &QUEEN_BYTES[..2]));
    Ok(())
}

#[test]
fn faults_by_number_and_name(rt: HostRuntime) {
    let class = Class::at(0);
    for &(fault, number, name) in &[
        (BuildFault::NoMemory, 1, "NoMemory"),
        (BuildFault::TooDeep(18), 2, "TooDeep"),
        (BuildFault::Missing(class), 3, "Missing"),
        (BuildFault::NoReach(class), 4, "NoReach"),
    ] {
        require_at(&rt, fault.number() == number && fault.name() == name, name);
    }
    for &(fault, number, name) in &[
        (MigrateFault::NoMemory, 1, "NoMemory"),
        (MigrateFault::TooDeep, 2, "TooDeep"),
        (MigrateFault::NoReach(class), 4, "NoReach"),
        (MigrateFault::HasReach, 5, "HasReach"),
    ] {
        require_at(&rt, fault.number() == number && fault.name() == name, name);
    }
}
