//! Tables that are built, beside public figures and beside tables of sweeps forward.
use super::{built, have_one_file, longest_win};
use crate::asserts::{agree, require_at};
use egt_check::Library;
use egt_class::Class;
use egt_plain::shelf::{named, whole_library_of};
use egt_plain::{PlainTables, whole_table_of};
use egt_sweep::{build, build_within};
use egt_table::{Column, Table};
use std::alloc::Global;
use std::test::*;

/// With a rook and Black to move: how many positions are drawn, each with all its images counted once, and how many
/// White wins in 0, 1, 2 moves and so on. The figures are those of the data set "Chess (King-Rook vs. King)" of the UCI
/// repository (Bain and Hoff 1994).
const ROOK_DRAWS: usize = 2796;

const ROOK_LOSSES: [usize; 17] = [
    27, 78, 246, 81, 198, 471, 592, 683, 1433, 1712, 1985, 2854, 3597, 4194, 4553, 2166, 390,
];

/// How many positions of the class with Black to move have the mate entry.
fn count(table: &Table, entry: u16) -> usize {
    let black = table.entries(Column::Mate).iter().skip(1).step_by(2);
    black.filter(|found| **found == entry).count()
}

#[test]
fn a_rook_wins_as_often_as_counted(rt: HostRuntime) -> Result<(), Fail> {
    let library = built(rt.alloc(), &["KK"])?;
    let table = build(rt.alloc(), named("KRK")?, &library, 32_000)?;
    agree(&rt, count(&table, 1), ROOK_DRAWS);
    // A loss in so many moves of White's is one in twice as many plies.
    let mut entry = 3u16;
    let mut all = ROOK_DRAWS;
    for &losses in &ROOK_LOSSES {
        require_at(&rt, count(&table, entry) == losses, entry);
        entry = entry.wrapping_add(4);
        all = all.wrapping_add(losses);
    }
    // There is no other position.
    agree(&rt, all, 28_056);
    agree(&rt, count(&table, 0), 40_960 - 28_056);
    Ok(())
}

/// The plies of longest wins. Two bishops mate in 19 moves at most, a bishop and a knight in 33, a knight and a pawn in
/// 27, two pawns in 32; a rook mates a rook in 19, a pawn a pawn in 33.
const LONGEST: [(&str, u16); 6] = [
    ("KBBK", 37),
    ("KBNK", 65),
    ("KNPK", 53),
    ("KPPK", 63),
    ("KRKR", 37),
    ("KPKP", 65),
];

/// Builds these classes, each of which comes after its children, and admits their tables. How many have the longest win
/// that is known of them.
fn as_known(alloc: Global, names: &[&str]) -> Result<u32, Fail> {
    let mut library = Library::new(alloc)?;
    let mut found = 0u32;
    for name in names {
        let table = build(alloc, named(name)?, &library, 32_000)?;
        let is_known = LONGEST.contains(&(*name, longest_win(&table)));
        found = found.wrapping_add(u32::from(is_known));
        if library.admit(table).is_err() {
            return Err(Fail::from("a built table was refused"));
        }
    }
    Ok(found)
}

#[test]
fn two_men_of_one_side(rt: HostRuntime) -> Result<(), Fail> {
    let names = [
        "KK", "KQK", "KRK", "KBK", "KNK", "KPK", "KQQK", "KQRK", "KQBK", "KQNK", "KRRK", "KRBK",
        "KRNK", "KBBK", "KBNK", "KNNK", "KQPK", "KRPK", "KBPK", "KNPK", "KPPK",
    ];
    agree(&rt, as_known(rt.alloc(), &names)?, 4);
    Ok(())
}

#[test]
fn a_man_of_either_side(rt: HostRuntime) -> Result<(), Fail> {
    let names = [
        "KK", "KQK", "KRK", "KBK", "KNK", "KPK", "KQKQ", "KQKR", "KQKB", "KQKN", "KRKR", "KRKB",
        "KRKN", "KBKB", "KBKN", "KNKN", "KQKP", "KRKP", "KBKP", "KNKP", "KPKP",
    ];
    agree(&rt, as_known(rt.alloc(), &names)?, 2);
    Ok(())
}

/// Whether the file of the class is the same where no round of looks is given, and it is solved by moves backward.
fn is_solved(alloc: Global, library: &Library, name: &str) -> Result<bool, Fail> {
    let class = named(name)?;
    let filled = build(alloc, class, library, 32_000)?;
    let solved = build_within(alloc, class, library, 32_000, 0)?;
    have_one_file(alloc, &filled, &solved)
}

#[test]
fn looks_and_moves_backward_tell_the_same(rt: HostRuntime) -> Result<(), Fail> {
    let library = built(rt.alloc(), &["KK", "KNK"])?;
    for &name in &["KBK", "KRK", "KQK", "KNNK"] {
        require_at(&rt, is_solved(rt.alloc(), &library, name)?, name);
    }
    Ok(())
}

/// Whether the file of the class, of the first six, is the same where it is built as where it is made by sweeps
/// forward.
fn is_swept(alloc: Global, tables: &PlainTables, number: u8) -> Result<bool, Fail> {
    let class = Class::new(number).ok_or("no class")?;
    let library = whole_library_of(alloc, tables, number)?;
    let built = build(alloc, class, &library, 32_000)?;
    let swept = whole_table_of(alloc, tables, number)?;
    have_one_file(alloc, &built, &swept)
}

#[test]
fn three_men_are_built_as_swept(rt: HostRuntime) -> Result<(), Fail> {
    let tables = PlainTables::solve(rt.alloc(), 6)?;
    for number in 0..6 {
        require_at(&rt, is_swept(rt.alloc(), &tables, number)?, number);
    }
    Ok(())
}
