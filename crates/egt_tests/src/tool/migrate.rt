//! Files with the column of the nearest mates, and files that get it.
use super::{
    KINGS, KNIGHT_BUILT, Step, all_go, changed, fails, first_version, folder, goes, has_file,
    has_whole_kings, holds, is_damaged, is_wrong, put, put_kings,
};
use crate::asserts::{agree, require, require_at};
use egt_plain::kings::{WHOLE_LENGTH, kings_file, whole_kings_file};
use egt_plain::shelf::file_of;
use egt_plain::{PlainTables, whole_table_of};
use egt_sweep::MigrateFault;
use egt_tool::ToolFault;
use std::alloc::Global;
use std::fs;
use std::test::Fail;

/// The first bytes of the file of two kings, of version 2.
const HEADER: [u8; 26] = [
    0x45, 0x47, 0x54, 0x42, 2, 0, 1, 0, 0, 0, 3, 0, 0, 5, 0, 0, 0, 0, 0, 0, 0, 0, 0, 0, 1, 0,
];

/// What is told of it.
const WHOLE: [Step; 3] = [
    ("check DIR KK", "", 0, "ok KK\n", ""),
    (
        "stats DIR KK",
        "",
        0,
        "class KK\nentries 1280\nvoid 818\ndraws 462\nwins 0\nlosses 0\nlongest win -\nlongest loss -\ndead 462\n",
        "",
    ),
    ("migrate DIR KK", "", 0, "kept KK\n", ""),
];

#[test]
fn the_whole_file_of_two_kings(rt: HostRuntime) -> Result<(), Fail> {
    let folder = folder(&rt, "whole")?;
    let file = whole_kings_file(rt.alloc())?;
    agree(&rt, file.len(), WHOLE_LENGTH);
    require(&rt, file.as_slice().starts_with(&HEADER));
    put(&rt, &folder, "KK.egt", &file)?;
    all_go(&rt, &folder, &WHOLE)?;
    require(&rt, holds(&rt, &folder, "KK.egt", &file)?);
    let device = fails(
        &rt,
        &["migrate", &folder, "KK"],
        (1, 0),
        3,
        "error device\n",
    );
    require(&rt, device == Some(true));
    fs::remove_dir_all(&rt, folder.as_str())?;
    Ok(())
}

/// A place in the file of version 2, other bytes there and after it, and the line that is printed then.
const CHANGES: [(usize, [u8; 2], &str); 9] = [
    (4, [1, 0], "error KK file 7 Columns\n"),
    (4, [3, 0], "error KK file 4 Version\n"),
    (10, [2, 0], "error KK file 7 Columns\n"),
    (24, [4, 0], "error KK check 12 Rejected mate 4 win\n"),
    (5136, [1, 0], "error KK check 12 Rejected reach 0 void\n"),
    (5144, [0, 0], "error KK check 12 Rejected reach 4 void\n"),
    (5144, [2, 0], "error KK check 12 Rejected reach 4 reach\n"),
    (5144, [3, 0], "error KK check 12 Rejected reach 4 reach\n"),
    (
        5144,
        [0x03, 0x7d],
        "error KK check 12 Rejected reach 4 range\n",
    ),
];

/// The bytes with two others at a place.
fn changed_twice(
    alloc: Global,
    bytes: &[u8],
    place: usize,
    others: [u8; 2],
) -> Result<Vec<u8>, Fail> {
    let once = changed(alloc, bytes, place, others[0])?;
    changed(alloc, &once, place.saturating_add(1), others[1])
}

#[test]
fn damaged_whole_files(rt: HostRuntime) -> Result<(), Fail> {
    let folder = folder(&rt, "whole-damaged")?;
    let file = whole_kings_file(rt.alloc())?;
    for &(place, others, line) in &CHANGES {
        let bytes = changed_twice(rt.alloc(), &file, place, others)?;
        require_at(&rt, is_damaged(&rt, &folder, &bytes, line)?, line);
    }
    fs::remove_dir_all(&rt, folder.as_str())?;
    Ok(())
}

#[test]
fn whole_files_of_another_length(rt: HostRuntime) -> Result<(), Fail> {
    let folder = folder(&rt, "whole-lengths")?;
    let mut file = whole_kings_file(rt.alloc())?;
    file.push(0)?;
    let right = is_damaged(&rt, &folder, &file, "error KK file 9 Trailing\n")?;
    require(&rt, right);
    file.truncate(7695);
    let right = is_damaged(&rt, &folder, &file, "error KK file 2 Short\n")?;
    require(&rt, right);
    fs::remove_dir_all(&rt, folder.as_str())?;
    Ok(())
}

/// What is told of two kings without their third column, and what then gives them it, once.
const KINGS_MIGRATED: [Step; 6] = [
    ("probe DIR KK", KINGS, 0, "KK draw hold e3d2\n", ""),
    (
        "stats DIR KK",
        "",
        0,
        "class KK\nentries 1280\nvoid 818\ndraws 462\nwins 0\nlosses 0\nlongest win -\nlongest loss -\ndead -\n",
        "",
    ),
    ("build DIR KQK", "", 1, "", "error build 4 NoReach KK\n"),
    ("migrate DIR KK", "", 0, "migrated KK entries 1280\n", ""),
    ("probe DIR KK", KINGS, 0, "KK dead hold e3d2\n", ""),
    ("migrate DIR KK", "", 0, "kept KK\n", ""),
];

#[test]
fn two_kings_that_get_the_third_column(rt: HostRuntime) -> Result<(), Fail> {
    let folder = folder(&rt, "migrated-kings")?;
    put_kings(&rt, &folder)?;
    all_go(&rt, &folder, &KINGS_MIGRATED)?;
    require(&rt, has_file(&rt, &folder, "KQK.egt") == Some(false));
    require(&rt, has_whole_kings(&rt, &folder)?);
    fs::remove_dir_all(&rt, folder.as_str())?;
    Ok(())
}

/// The knight's file of version 2 by plain sweeps.
fn knight_file(alloc: Global) -> Result<Vec<u8>, Fail> {
    let tables = PlainTables::solve(alloc, 5)?;
    let table = whole_table_of(alloc, &tables, 4)?;
    file_of(alloc, &table)
}

/// What is told of a knight's file of version 1 above that of two kings of version 1.
const REFUSED: Step = ("migrate DIR KNK", "", 1, "", "error build 4 NoReach KK\n");

/// What gives both their third column.
const KNIGHT_MIGRATED: [Step; 5] = [
    ("migrate DIR KK", "", 0, "migrated KK entries 1280\n", ""),
    ("check DIR KNK", "", 0, "ok KNK\n", ""),
    ("migrate DIR KNK", "", 0, "migrated KNK entries 81920\n", ""),
    ("check DIR KNK", "", 0, "ok KNK\n", ""),
    (
        "probe DIR KNK",
        "8/8/8/3k4/8/3N4/3K4/8 w - - 0 1\n",
        0,
        "KNK dead hold d2c1\n",
        "",
    ),
];

#[test]
fn a_knight_that_gets_the_third_column(rt: HostRuntime) -> Result<(), Fail> {
    let folder = folder(&rt, "migrated-knight")?;
    let second = knight_file(rt.alloc())?;
    let first = first_version(rt.alloc(), &second)?;
    put_kings(&rt, &folder)?;
    put(&rt, &folder, "KNK.egt", &first)?;
    require(&rt, goes(&rt, &folder, REFUSED) == Some(true));
    require(&rt, holds(&rt, &folder, "KNK.egt", &first)?);
    all_go(&rt, &folder, &KNIGHT_MIGRATED)?;
    require(&rt, holds(&rt, &folder, "KNK.egt", &second)?);
    fs::remove_dir_all(&rt, folder.as_str())?;
    Ok(())
}

/// What is told of a file of version 2 above one of version 1, until that has its third column.
const ABOVE: [Step; 3] = [
    (
        "check DIR KNK",
        "",
        1,
        "",
        "error KNK check 17 NoReach KK\n",
    ),
    ("migrate DIR KK", "", 0, "migrated KK entries 1280\n", ""),
    ("check DIR KNK", "", 0, "ok KNK\n", ""),
];

#[test]
fn a_third_column_above_none(rt: HostRuntime) -> Result<(), Fail> {
    let folder = folder(&rt, "above")?;
    all_go(&rt, &folder, &KNIGHT_BUILT)?;
    put_kings(&rt, &folder)?;
    all_go(&rt, &folder, &ABOVE)?;
    fs::remove_dir_all(&rt, folder.as_str())?;
    Ok(())
}

// No position of chess to four men is so far from a checkmate.
#[test]
fn a_mate_that_is_too_far(rt: HostRuntime) -> Result<(), Fail> {
    let ending = ToolFault::of_migrate(MigrateFault::TooDeep);
    let line = format!(in rt.alloc(); "{ending}")?;
    agree(&rt, line.as_str(), "error build 2 TooDeep 32000");
    Ok(())
}

/// What is told of a false table, which gets no third column.
const FALSE: Step = (
    "migrate DIR KK",
    "",
    1,
    "",
    "error KK check 12 Rejected mate 4 win\n",
);

#[test]
fn no_third_column_for_a_false_table(rt: HostRuntime) -> Result<(), Fail> {
    let folder = folder(&rt, "false")?;
    let kings = kings_file(rt.alloc())?;
    let file = changed(rt.alloc(), &kings, 24, 4)?;
    put(&rt, &folder, "KK.egt", &file)?;
    require(&rt, goes(&rt, &folder, FALSE) == Some(true));
    require(&rt, holds(&rt, &folder, "KK.egt", &file)?);
    fs::remove_dir_all(&rt, folder.as_str())?;
    Ok(())
}

/// What is told where there is no file.
const NONE: [Step; 3] = [
    ("migrate DIR KK", "", 1, "", "error check 11 Missing KK\n"),
    ("migrate DIR KNK", "", 1, "", "error check 11 Missing KK\n"),
    ("migrate DIR KKN", "", 2, "", "error class\n"),
];

#[test]
fn no_third_column_for_no_file(rt: HostRuntime) -> Result<(), Fail> {
    let folder = folder(&rt, "none")?;
    all_go(&rt, &folder, &NONE)?;
    require(&rt, has_file(&rt, &folder, "KK.egt") == Some(false));
    require(&rt, is_wrong(&rt, &["migrate", &folder]) == Some(true));
    fs::remove_dir_all(&rt, folder.as_str())?;
    Ok(())
}
