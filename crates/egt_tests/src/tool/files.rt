//! Checks and statistics of tables in files.
use super::{both_print, changed, fails, folder, is_damaged, prints, put, put_kings, run_on};
use crate::asserts::{agree, require, require_at};
use egt_plain::kings::kings_file;
use egt_plain::shelf::file_of;
use egt_plain::{PlainTables, table_of};
use std::fs;
use std::test::Fail;

/// The first bytes of the file of two kings, of version 1.
const HEADER: [u8; 26] = [
    0x45, 0x47, 0x54, 0x42, 1, 0, 1, 0, 0, 0, 2, 0, 0, 5, 0, 0, 0, 0, 0, 0, 0, 0, 0, 0, 1, 0,
];

const STATISTICS: &str =
    "class KK\nentries 1280\nvoid 818\ndraws 462\nwins 0\nlosses 0\nlongest win -\nlongest loss -\ndead -\n";

/// Whether the command prints this of the folder's file of two kings, and tells a device that fails.
fn shows_kings(rt: &HostRuntime, folder: &str, command: &str, out: &str) -> Option<bool> {
    let words = [command, folder, "KK"];
    let shown = prints(rt, &words, 0, out, "")?;
    Some(shown && fails(rt, &words, (1, 0), 3, "error device\n")?)
}

#[test]
fn the_file_of_two_kings(rt: HostRuntime) -> Result<(), Fail> {
    let folder = folder(&rt, "kings")?;
    let file = kings_file(rt.alloc())?;
    agree(&rt, file.len(), 5136);
    require(&rt, file.as_slice().starts_with(&HEADER));
    put(&rt, &folder, "KK.egt", &file)?;
    let right = shows_kings(&rt, &folder, "check", "ok KK\n") == Some(true);
    require(&rt, right);
    let right = shows_kings(&rt, &folder, "stats", STATISTICS) == Some(true);
    require(&rt, right);
    fs::remove_dir_all(&rt, folder.as_str())?;
    Ok(())
}

/// A byte of the file of two kings, another byte in its place, and the line that is printed then.
const CHANGES: [(usize, u8, &str); 24] = [
    (0, 0, "error KK file 3 Magic\n"),
    (1, 0, "error KK file 3 Magic\n"),
    (2, 0, "error KK file 3 Magic\n"),
    (3, 0, "error KK file 3 Magic\n"),
    (4, 2, "error KK file 7 Columns\n"),
    (4, 3, "error KK file 4 Version\n"),
    (5, 1, "error KK file 4 Version\n"),
    (6, 0, "error KK file 5 Layout\n"),
    (7, 1, "error KK file 5 Layout\n"),
    (8, 2, "error KK file 6 Class\n"),
    (9, 1, "error KK file 6 Class\n"),
    (10, 3, "error KK file 7 Columns\n"),
    (11, 1, "error KK file 7 Columns\n"),
    (12, 1, "error KK file 8 Count\n"),
    (13, 4, "error KK file 8 Count\n"),
    (14, 1, "error KK file 8 Count\n"),
    (15, 1, "error KK file 8 Count\n"),
    (16, 1, "error KK check 12 Rejected mate 0 void\n"),
    (24, 0, "error KK check 12 Rejected mate 4 void\n"),
    (24, 2, "error KK check 12 Rejected mate 4 range\n"),
    (24, 4, "error KK check 12 Rejected mate 4 win\n"),
    (24, 3, "error KK check 12 Rejected mate 4 loss\n"),
    (2584, 4, "error KK check 12 Rejected zeroing 4 kind\n"),
    (2584, 2, "error KK check 12 Rejected zeroing 4 range\n"),
];

#[test]
fn damaged_files(rt: HostRuntime) -> Result<(), Fail> {
    let folder = folder(&rt, "damaged")?;
    let file = kings_file(rt.alloc())?;
    for &(place, byte, line) in &CHANGES {
        let bytes = changed(rt.alloc(), &file, place, byte)?;
        require_at(&rt, is_damaged(&rt, &folder, &bytes, line)?, line);
    }
    fs::remove_dir_all(&rt, folder.as_str())?;
    Ok(())
}

#[test]
fn files_of_another_length(rt: HostRuntime) -> Result<(), Fail> {
    let folder = folder(&rt, "lengths")?;
    let mut file = kings_file(rt.alloc())?;
    file.push(0)?;
    let right = is_damaged(&rt, &folder, &file, "error KK file 9 Trailing\n")?;
    require(&rt, right);
    // The first fault ends the run, so the class that is not there is not named.
    let kings = both_print(&rt, &folder, "KQK", 1, "error KK file 9 Trailing\n");
    require(&rt, kings == Some(true));
    file.truncate(5135);
    let right = is_damaged(&rt, &folder, &file, "error KK file 2 Short\n")?;
    require(&rt, right);
    fs::remove_dir_all(&rt, folder.as_str())?;
    Ok(())
}

/// Classes, and the least of those that they rest on of which the folder has no file: where it has none, and where it
/// has that of two kings.
const MISSING: [(&str, &str); 3] = [
    ("KK", "error check 11 Missing KK\n"),
    ("KPKP", "error check 11 Missing KK\n"),
    ("KRK", "error check 11 Missing KK\n"),
];

const MISSING_BESIDE_KINGS: [(&str, &str); 3] = [
    ("KRK", "error check 11 Missing KRK\n"),
    ("KPK", "error check 11 Missing KQK\n"),
    ("KRKN", "error check 11 Missing KRK\n"),
];

#[test]
fn files_that_are_not_there(rt: HostRuntime) -> Result<(), Fail> {
    let folder = folder(&rt, "missing")?;
    for &(class, line) in &MISSING {
        let right = both_print(&rt, &folder, class, 1, line) == Some(true);
        require_at(&rt, right, class);
    }
    put_kings(&rt, &folder)?;
    for &(class, line) in &MISSING_BESIDE_KINGS {
        let right = both_print(&rt, &folder, class, 1, line) == Some(true);
        require_at(&rt, right, class);
    }
    fs::remove_dir_all(&rt, folder.as_str())?;
    Ok(())
}

/// Whether both miss the file of two kings in what of the folder has this name.
fn is_missing_in(rt: &HostRuntime, folder: &str, name: &str) -> Option<bool> {
    let inside = format!(in rt.alloc(); "{folder}/{name}").ok()?;
    both_print(rt, &inside, "KK", 1, "error check 11 Missing KK\n")
}

// A folder that is not there, and a file in its place.
#[test]
fn folders_that_are_not_there(rt: HostRuntime) -> Result<(), Fail> {
    let folder = folder(&rt, "nowhere")?;
    put_kings(&rt, &folder)?;
    for &name in &["nowhere", "KK.egt"] {
        require_at(&rt, is_missing_in(&rt, &folder, name) == Some(true), name);
    }
    fs::remove_dir_all(&rt, folder.as_str())?;
    Ok(())
}

#[test]
fn a_folder_in_the_place_of_a_file(rt: HostRuntime) -> Result<(), Fail> {
    let folder = folder(&rt, "inside")?;
    let inside = format!(in rt.alloc(); "{folder}/KK.egt")?;
    fs::create_dir(&rt, inside.as_str())?;
    let right = both_print(&rt, &folder, "KK", 3, "error device\n") == Some(true);
    require(&rt, right);
    fs::remove_dir_all(&rt, folder.as_str())?;
    Ok(())
}

#[test]
fn words_that_name_no_class(rt: HostRuntime) {
    for &class in &["K", "kk", "KKQ", "KPKPK", "", "KQK "] {
        let both = both_print(&rt, "nowhere", class, 2, "error class\n");
        require_at(&rt, both == Some(true), class);
    }
}

/// Whether a line of the text is this one.
fn has_line(text: &[u8], line: &[u8]) -> bool {
    text.split(|byte| *byte == b'\n').any(|found| found == line)
}

/// Whether the statistics of a class have these lines.
fn tells(rt: &HostRuntime, folder: &str, class: &str, lines: &[&[u8]]) -> Option<bool> {
    let ran = run_on(rt, &["stats", folder, class], b"")?;
    let all = lines.iter().all(|line| has_line(ran.out.bytes(), line));
    Some(all && ran.status == 0 && ran.err.bytes().is_empty())
}

const QUEEN: [&[u8]; 3] = [b"class KQK", b"entries 81920", b"longest win 19"];

const ROOK: [&[u8]; 3] = [b"class KRK", b"entries 81920", b"longest win 31"];

/// Writes the file of a class's plain table, by number, under this name.
fn put_plain(
    rt: &HostRuntime,
    folder: &str,
    name: &str,
    tables: &PlainTables,
    class: u8,
) -> Result<(), Fail> {
    let table = table_of(rt.alloc(), tables, class)?;
    let file = file_of(rt.alloc(), &table)?;
    put(rt, folder, name, &file)
}

// The longest wins of the literature: a queen mates in at most 10 moves and a rook in at most 16.
#[test]
fn a_queen_and_a_rook(rt: HostRuntime) -> Result<(), Fail> {
    let folder = folder(&rt, "pieces")?;
    let tables = PlainTables::solve(rt.alloc(), 3)?;
    for &(name, class) in &[("KK.egt", 0), ("KQK.egt", 1), ("KRK.egt", 2)] {
        put_plain(&rt, &folder, name, &tables, class)?;
    }
    require(&rt, tells(&rt, &folder, "KQK", &QUEEN) == Some(true));
    require(&rt, tells(&rt, &folder, "KRK", &ROOK) == Some(true));
    let right = prints(&rt, &["check", &folder, "KQK"], 0, "ok KQK\n", "") == Some(true);
    require(&rt, right);
    put_plain(&rt, &folder, "KQK.egt", &tables, 2)?;
    let another = both_print(&rt, &folder, "KQK", 1, "error KQK file 6 Class\n");
    require(&rt, another == Some(true));
    fs::remove_dir_all(&rt, folder.as_str())?;
    Ok(())
}
