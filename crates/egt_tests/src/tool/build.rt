//! Tables built into files, and positions looked up in them.
use super::{Step, fails, folder, goes, has_file, is_wrong, run_on};
use crate::asserts::{require, require_at};
use std::test::Fail;
use std::{fs, str};

#[test]
fn an_empty_folder(rt: HostRuntime) -> Result<(), Fail> {
    let folder = folder(&rt, "empty")?;
    for &step in &[
        ("build DIR KPK", "", 1, "", "error build 3 Missing KK\n"),
        ("build DIR KKQ", "", 2, "", "error class\n"),
    ] {
        require_at(&rt, goes(&rt, &folder, step) == Some(true), step.0);
    }
    let right = is_wrong(&rt, &["build", &folder, "KK", "--limit", "32001"]) == Some(true);
    require(&rt, right);
    for &file in &["KPK.egt", "KK.egt"] {
        require_at(&rt, has_file(&rt, &folder, file) == Some(false), file);
    }
    fs::remove_dir_all(&rt, folder.as_str())?;
    Ok(())
}

#[test]
fn a_folder_that_is_not_there(rt: HostRuntime) -> Result<(), Fail> {
    let folder = folder(&rt, "gone")?;
    fs::remove_dir_all(&rt, folder.as_str())?;
    for &step in &[
        ("build DIR KK", "", 3, "", "error device\n"),
        ("probe DIR KK", "", 1, "", "error check 11 Missing KK\n"),
    ] {
        require_at(&rt, goes(&rt, &folder, step) == Some(true), step.0);
    }
    Ok(())
}

/// Whether the statistics of the class have this part.
fn counts(rt: &HostRuntime, folder: &str, class: &str, part: &str) -> Option<bool> {
    let ran = run_on(rt, &["stats", folder, class], b"")?;
    Some(str::from_utf8(ran.out.bytes()).ok()?.contains(part))
}

/// What builds the classes up to KPK, the first two of them by a limit.
const BUILT: [Step; 7] = [
    ("build DIR KK", "", 0, "built KK entries 1280\n", ""),
    (
        "build DIR KQK --limit 18",
        "",
        1,
        "",
        "error build 2 TooDeep 18\n",
    ),
    (
        "build DIR KQK --limit 20",
        "",
        0,
        "built KQK entries 81920\n",
        "",
    ),
    ("build DIR KRK", "", 0, "built KRK entries 81920\n", ""),
    ("build DIR KBK", "", 0, "built KBK entries 81920\n", ""),
    ("build DIR KNK", "", 0, "built KNK entries 81920\n", ""),
    ("build DIR KPK", "", 0, "built KPK entries 196608\n", ""),
];

/// A FEN, and the line that answers it where all classes up to KPK are there.
const REPORTS: [&str; 9] = [
    "k7/1Q6/1K6/8/8/8/8/8 b - - 0 1: KQK white mates in 0 plies zeroing 0 line -\n",
    "k7/8/1K6/8/8/8/8/3Q4 w - - 0 1: KQK white mates in 1 plies zeroing 1 line d1d8\n",
    "k7/8/1K6/8/8/8/8/3Q4 b - - 0 1: KQK white mates in 2 plies zeroing 2 line a8b8 d1d8\n",
    "3q4/8/8/8/8/1k6/8/K7 b - - 0 1: KQK black mates in 1 plies zeroing 1 line d8d1\n",
    "8/5KPk/8/8/8/8/8/8 w - - 0 1: KPK white mates in 3 plies zeroing 1 line g7g8q h7h6 g8g6\n",
    "k7/2Q5/8/8/8/8/8/4K3 b - - 0 1: KQK draw hold -\n",
    "8/8/8/8/8/8/1kQ5/7K b - - 0 1: KQK draw hold b2c2\n",
    "8/8/8/4k3/8/4K3/8/8 w - - 0 1: KK dead hold e3d2\n",
    "8/8/8/3k4/8/3N4/3K4/8 w - - 0 1: KNK dead hold d2c1\n",
];

/// Whether the FEN of a row is answered by the line behind the colon.
fn is_answered(rt: &HostRuntime, folder: &str, row: &str) -> Option<bool> {
    let (fen, line) = row.split_once(": ")?;
    Some(run_on(rt, &["probe", folder, "KPK"], fen.as_bytes())?.is(0, line, ""))
}

/// What else is told of these classes.
const TOLD: [Step; 4] = [
    (
        "probe DIR KK",
        "k7/8/1K6/8/8/8/8/3Q4 w - - 0 1\n",
        0,
        "error probe 11 Missing KQK\n",
        "",
    ),
    (
        "probe DIR KK",
        "x\r\n\n",
        0,
        "error fen 1 FieldCount\nerror fen 1 FieldCount\n",
        "",
    ),
    ("probe DIR KK", "", 0, "", ""),
    ("check DIR KPK", "", 0, "ok KPK\n", ""),
];

/// A queen mates in at most 10 moves, a rook in at most 16.
const LONGEST_WINS: [(&str, &str); 2] = [
    ("KQK", "\nlongest win 19\n"),
    ("KRK", "\nlongest win 31\n"),
];

/// Whether a line that is too long, one that is not, and one that is answered are reported so.
fn tells_long_lines(rt: &HostRuntime, folder: &str, reports: &str) -> Option<bool> {
    let mut input = vec![in rt.alloc(); b'x'; 1025].ok()?;
    input.push(b'\n').ok()?;
    for _ in 0..1024 {
        input.push(b'x').ok()?;
    }
    input
        .extend_from_slice(b"\n8/8/8/4k3/8/4K3/8/8 w - - 0 1\n")
        .ok()?;
    Some(run_on(rt, &["probe", folder, "KK"], &input)?.is(0, reports, ""))
}

const LONG_REPORTS: &str = "error probe 14 LongLine\nerror fen 1 FieldCount\nKK dead hold e3d2\n";

/// A pawn that has just advanced by two squares, where none can take it: with the target, and without.
const PASSED: [&str; 2] = [
    "8/8/8/8/4P3/8/8/k1K5 b - e3 0 1\n",
    "8/8/8/8/4P3/8/8/k1K5 b - - 0 1\n",
];

/// Whether both are reported alike.
fn are_alike(rt: &HostRuntime, folder: &str) -> Option<bool> {
    let words = ["probe", folder, "KPK"];
    let with = run_on(rt, &words, PASSED[0].as_bytes())?;
    let without = run_on(rt, &words, PASSED[1].as_bytes())?;
    Some(
        with.status == 0
            && with.out.bytes().starts_with(b"KPK ")
            && with.out.bytes() == without.out.bytes(),
    )
}

#[test]
fn from_an_empty_folder_to_a_report(rt: HostRuntime) -> Result<(), Fail> {
    let folder = folder(&rt, "built")?;
    for &step in &BUILT {
        require_at(&rt, goes(&rt, &folder, step) == Some(true), step.0);
        let none = step.2 == 0 || has_file(&rt, &folder, "KQK.egt") == Some(false);
        require_at(&rt, none, step.0);
    }
    for &(class, line) in &LONGEST_WINS {
        require_at(&rt, counts(&rt, &folder, class, line) == Some(true), class);
    }
    for &row in &REPORTS {
        require_at(&rt, is_answered(&rt, &folder, row) == Some(true), row);
    }
    for &step in &TOLD {
        require_at(&rt, goes(&rt, &folder, step) == Some(true), step.0);
    }
    for &words in &[
        ["build", folder.as_str(), "KK"],
        ["probe", folder.as_str(), "KK"],
    ] {
        let device = fails(&rt, &words, (1, 0), 3, "error device\n");
        require_at(&rt, device == Some(true), words[0]);
    }
    require(&rt, are_alike(&rt, &folder) == Some(true));
    let right = tells_long_lines(&rt, &folder, LONG_REPORTS) == Some(true);
    require(&rt, right);
    fs::remove_dir_all(&rt, folder.as_str())?;
    Ok(())
}
