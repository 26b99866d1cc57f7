//! Checks and reports of all files that a folder has.
use super::{
    KINGS, KNIGHT_BUILT, Step, all_go, changed, fails, first_version, folder, put, put_kings,
};
use crate::asserts::require_at;
use std::fs;
use std::test::Fail;

/// A knight beside the kings, a line that is no FEN, two kings alone, and a queen beside them.
const MIXED: &str =
    "8/8/8/3k4/8/3N4/3K4/8 w - - 0 1\nx\n8/8/8/4k3/8/4K3/8/8 w - - 0 1\nk7/8/1K6/8/8/8/8/3Q4 w - - 0 1\n";

/// What is told of a folder without the file of two kings.
const NONE: [Step; 2] = [
    ("check DIR", "", 1, "", "error check 11 Missing KK\n"),
    ("probe DIR", KINGS, 1, "", "error check 11 Missing KK\n"),
];

#[test]
fn a_folder_without_two_kings(rt: HostRuntime) -> Result<(), Fail> {
    let folder = folder(&rt, "no-kings")?;
    all_go(&rt, &folder, &NONE)?;
    put(&rt, &folder, "KNK.egt", b"")?;
    all_go(&rt, &folder, &NONE)?;
    fs::remove_dir_all(&rt, folder.as_str())?;
    all_go(&rt, &folder, &NONE)?;
    Ok(())
}

/// What is told of the files of two kings and of a knight, both of version 2.
const KNIGHT: [Step; 3] = [
    ("check DIR", "", 0, "ok KK\nok KNK\n", ""),
    (
        "probe DIR",
        MIXED,
        0,
        "KNK dead hold d2c1\nerror fen 1 FieldCount\nKK dead hold e3d2\nerror probe 11 Missing KQK\n",
        "",
    ),
    ("probe DIR", "", 0, "", ""),
];

/// What is told of the file of two kings, of version 2, and of a knight's of version 1: only the first tells of dead
/// positions.
const OF_BOTH_VERSIONS: [Step; 4] = [
    ("check DIR", "", 0, "ok KK\nok KNK\n", ""),
    (
        "probe DIR",
        MIXED,
        0,
        "KNK draw hold d2c1\nerror fen 1 FieldCount\nKK dead hold e3d2\nerror probe 11 Missing KQK\n",
        "",
    ),
    (
        "probe DIR KNK",
        MIXED,
        0,
        "KNK draw hold d2c1\nerror fen 1 FieldCount\nKK dead hold e3d2\nerror probe 11 Missing KQK\n",
        "",
    ),
    (
        "probe DIR KK",
        MIXED,
        0,
        "error probe 11 Missing KNK\nerror fen 1 FieldCount\nKK dead hold e3d2\nerror probe 11 Missing KQK\n",
        "",
    ),
];

/// What is told of both of version 1: no table tells of dead positions.
const OF_VERSION_1: Step = (
    "probe DIR",
    MIXED,
    0,
    "KNK draw hold d2c1\nerror fen 1 FieldCount\nKK draw hold e3d2\nerror probe 11 Missing KQK\n",
    "",
);

/// The folder's file of a knight.
fn knight_in(rt: &HostRuntime, folder: &str) -> Result<Vec<u8>, Fail> {
    let path = format!(in rt.alloc(); "{folder}/KNK.egt")?;
    Ok(fs::read(rt, path.as_str())?)
}

/// Puts that file into version 1.
fn put_first_version(rt: &HostRuntime, folder: &str) -> Result<(), Fail> {
    let file = knight_in(rt, folder)?;
    let first = first_version(rt.alloc(), &file)?;
    put(rt, folder, "KNK.egt", &first)
}

#[test]
fn files_of_both_versions(rt: HostRuntime) -> Result<(), Fail> {
    let folder = folder(&rt, "versions")?;
    all_go(&rt, &folder, &KNIGHT_BUILT)?;
    put_first_version(&rt, &folder)?;
    all_go(&rt, &folder, &OF_BOTH_VERSIONS)?;
    put_kings(&rt, &folder)?;
    all_go(&rt, &folder, &[OF_VERSION_1])?;
    fs::remove_dir_all(&rt, folder.as_str())?;
    Ok(())
}

/// What is told beside a pawn's file: its child with the least number that is not there.
const PAWN: [Step; 3] = [
    (
        "check DIR",
        "",
        1,
        "ok KK\nok KNK\n",
        "error check 11 Missing KQK\n",
    ),
    ("check DIR KPK", "", 1, "", "error check 11 Missing KQK\n"),
    ("probe DIR", KINGS, 1, "", "error check 11 Missing KQK\n"),
];

#[test]
fn the_files_that_are_there(rt: HostRuntime) -> Result<(), Fail> {
    let folder = folder(&rt, "present")?;
    all_go(&rt, &folder, &KNIGHT_BUILT)?;
    put(&rt, &folder, "KRK.egt.7-0.new", b"EGTB")?;
    all_go(&rt, &folder, &KNIGHT)?;
    for &words in &[["check", folder.as_str()], ["probe", folder.as_str()]] {
        let device = fails(&rt, &words, (1, 0), 3, "error device\n");
        require_at(&rt, device == Some(true), words[0]);
    }
    put(&rt, &folder, "KPK.egt", b"")?;
    all_go(&rt, &folder, &PAWN)?;
    fs::remove_dir_all(&rt, folder.as_str())?;
    Ok(())
}

/// What is told of a knight's file that is refused: by reading, by an entry, and for its column.
const SHORT: Step = ("check DIR", "", 1, "ok KK\n", "error KNK file 2 Short\n");

const REJECTED: Step = (
    "check DIR",
    "",
    1,
    "ok KK\n",
    "error KNK check 12 Rejected mate 0 void\n",
);

const NO_REACH: Step = (
    "check DIR",
    "",
    1,
    "ok KK\n",
    "error KNK check 17 NoReach KK\n",
);

#[test]
fn the_first_file_that_is_refused(rt: HostRuntime) -> Result<(), Fail> {
    let folder = folder(&rt, "refused")?;
    all_go(&rt, &folder, &KNIGHT_BUILT)?;
    let knight = knight_in(&rt, &folder)?;
    put(&rt, &folder, "KNK.egt", b"")?;
    put(&rt, &folder, "KPK.egt", b"")?;
    all_go(&rt, &folder, &[SHORT])?;
    let damaged = changed(rt.alloc(), &knight, 16, 1)?;
    put(&rt, &folder, "KNK.egt", &damaged)?;
    all_go(&rt, &folder, &[REJECTED])?;
    put(&rt, &folder, "KNK.egt", &knight)?;
    put_kings(&rt, &folder)?;
    all_go(&rt, &folder, &[NO_REACH])?;
    fs::remove_dir_all(&rt, folder.as_str())?;
    Ok(())
}
