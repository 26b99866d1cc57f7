//! The program's output, over streams in memory and folders of its own.
mod build;
mod files;
mod list;
mod migrate;
mod moves;
mod pawns;
mod present;
mod saving;
mod search;
mod words;

use egt_plain::kings::{kings_file, whole_kings_file};
use egt_table::{FailingSink, MemorySink, MemorySource};
use egt_tool::run;
use std::alloc::Global;
use std::test::Fail;
use std::{env, fs, process};

/// How many bytes a run may print.
const ROOM: usize = 100_000;

/// Two kings alone.
const KINGS: &str = "8/8/8/4k3/8/4K3/8/8 w - - 0 1\n";

/// The status of a run, and what it printed.
#[derive(Drop)]
struct Ran {
    status: u8,
    out: MemorySink,
    err: MemorySink,
}

impl Ran {
    /// Whether the run ended with this status and printed these texts.
    fn is(&self, status: u8, out: &str, err: &str) -> bool {
        self.status == status
            && self.out.bytes() == out.as_bytes()
            && self.err.bytes() == err.as_bytes()
    }
}

/// Runs the program on the words behind its name, with this on the standard input.
fn run_on(rt: &HostRuntime, words: &[&str], input: &[u8]) -> Option<Ran> {
    let mut all = vec![in rt.alloc(); "egtb"].ok()?;
    all.extend_from_slice(words).ok()?;
    let mut out = MemorySink::new(rt.alloc(), ROOM).ok()?;
    let mut err = MemorySink::new(rt.alloc(), ROOM).ok()?;
    let status = run(rt, &all, &mut MemorySource::new(input), &mut out, &mut err);
    Some(Ran { status, out, err })
}

/// Whether the program ends with this status and prints these texts, with nothing on the standard input.
fn prints(rt: &HostRuntime, words: &[&str], status: u8, out: &str, err: &str) -> Option<bool> {
    Some(run_on(rt, words, b"")?.is(status, out, err))
}

/// Whether the words are wrong: status 2, a usage on the standard error and nothing else.
fn is_wrong(rt: &HostRuntime, words: &[&str]) -> Option<bool> {
    let ran = run_on(rt, words, b"")?;
    Some(ran.status == 2 && ran.out.bytes().is_empty() && !ran.err.bytes().is_empty())
}

/// A run over a folder: the words behind the program's name, where `DIR` stands for the folder, the line on the
/// standard input, the status, and what is printed to the standard output and to the standard error.
type Step = (&'static str, &'static str, u8, &'static str, &'static str);

/// Whether the run is as it says.
fn goes(rt: &HostRuntime, folder: &str, step: Step) -> Option<bool> {
    let (line, input, status, out, err) = step;
    let mut words = Vec::new(rt.alloc());
    for word in line.split(' ') {
        words.push(if word == "DIR" { folder } else { word }).ok()?;
    }
    Some(run_on(rt, &words, input.as_bytes())?.is(status, out, err))
}

/// Runs the program on two kings where the k-th push to the standard output and the j-th to the standard error fail,
/// each counted from 1, none for 0; gives the status and what came to the standard error.
fn run_failing(rt: &HostRuntime, words: &[&str], k: u64, j: u64) -> Option<(u8, MemorySink)> {
    let mut all = vec![in rt.alloc(); "egtb"].ok()?;
    all.extend_from_slice(words).ok()?;
    let mut out = FailingSink::new(MemorySink::new(rt.alloc(), ROOM).ok()?, k);
    let mut err = FailingSink::new(MemorySink::new(rt.alloc(), ROOM).ok()?, j);
    let mut input = MemorySource::new(KINGS.as_bytes());
    let status = run(rt, &all, &mut input, &mut out, &mut err);
    Some((status, err.into_inner()))
}

/// Whether a run with such failing pushes has this status and prints this to the standard error.
fn fails(
    rt: &HostRuntime,
    words: &[&str],
    pushes: (u64, u64),
    status: u8,
    line: &str,
) -> Option<bool> {
    let (found, err) = run_failing(rt, words, pushes.0, pushes.1)?;
    Some(found == status && err.bytes() == line.as_bytes())
}

/// Whether the text has these words, one a line.
fn has_lines(text: &[u8], words: &str) -> bool {
    let mut lines = text.split(|byte| *byte == b'\n');
    for word in words.split(' ') {
        if !word.is_empty() && lines.next() != Some(word.as_bytes()) {
            return false;
        }
    }
    lines.next() == Some(b"") && lines.next().is_none()
}

/// A new folder of this process for one test; what a process of the same number left behind is removed.
fn folder(rt: &HostRuntime, name: &str) -> Result<String, Fail> {
    let process = process::id(rt.process());
    let temp = env::temp_dir(rt)?;
    let temp = temp.as_path().as_str();
    let folder = format!(in rt.alloc(); "{temp}/egtb-{process}-{name}")?;
    let _ = fs::remove_dir_all(rt, folder.as_str());
    fs::create_dir(rt, folder.as_str())?;
    Ok(folder)
}

/// Whether the folder has the file.
fn has_file(rt: &HostRuntime, folder: &str, file: &str) -> Option<bool> {
    let path = format!(in rt.alloc(); "{folder}/{file}").ok()?;
    Some(fs::read(rt, path.as_str()).is_ok())
}

/// Whether the folder's file has these bytes.
fn holds(rt: &HostRuntime, folder: &str, file: &str, bytes: &[u8]) -> Result<bool, Fail> {
    let path = format!(in rt.alloc(); "{folder}/{file}")?;
    let found = fs::read(rt, path.as_str())?;
    Ok(found.as_slice() == bytes)
}

/// Sees that each run is as it says; the first that is not is the failure.
fn all_go(rt: &HostRuntime, folder: &str, steps: &[Step]) -> Result<(), Fail> {
    for step in steps {
        if goes(rt, folder, *step) != Some(true) {
            return Err(Fail::from(step.0));
        }
    }
    Ok(())
}

/// Writes a file of the folder.
fn put(rt: &HostRuntime, folder: &str, file: &str, bytes: &[u8]) -> Result<(), Fail> {
    let path = format!(in rt.alloc(); "{folder}/{file}")?;
    fs::write(rt, path.as_str(), bytes)?;
    Ok(())
}

/// Writes the folder's file of two kings, without the column of the nearest mates.
fn put_kings(rt: &HostRuntime, folder: &str) -> Result<(), Fail> {
    let file = kings_file(rt.alloc())?;
    put(rt, folder, "KK.egt", &file)
}

/// Whether the folder's file of two kings is the one with that column.
fn has_whole_kings(rt: &HostRuntime, folder: &str) -> Result<bool, Fail> {
    let file = whole_kings_file(rt.alloc())?;
    holds(rt, folder, "KK.egt", &file)
}

/// What builds the tables of two kings and of a knight.
const KNIGHT_BUILT: [Step; 2] = [
    ("build DIR KK", "", 0, "built KK entries 1280\n", ""),
    ("build DIR KNK", "", 0, "built KNK entries 81920\n", ""),
];

/// The knight's file of version 2 as one of version 1: without the third column, and with other numbers of the version
/// and of columns.
fn first_version(alloc: Global, file: &[u8]) -> Result<Vec<u8>, Fail> {
    let version = changed(alloc, file, 4, 1)?;
    let mut first = changed(alloc, &version, 10, 2)?;
    first.truncate(327_696);
    Ok(first)
}

/// The bytes with another at one place.
fn changed(alloc: Global, bytes: &[u8], place: usize, byte: u8) -> Result<Vec<u8>, Fail> {
    let mut changed = Vec::new(alloc);
    changed.extend_from_slice(bytes)?;
    if let Some(old) = changed.get_mut(place) {
        *old = byte;
    }
    Ok(changed)
}

/// Whether `check` and `stats` of a class both end with this status and print this line alone, to the standard error.
fn both_print(rt: &HostRuntime, folder: &str, class: &str, status: u8, line: &str) -> Option<bool> {
    let check = prints(rt, &["check", folder, class], status, "", line)?;
    let stats = prints(rt, &["stats", folder, class], status, "", line)?;
    Some(check && stats)
}

/// Whether both print this line of the folder's file of two kings where that has these bytes.
fn is_damaged(rt: &HostRuntime, folder: &str, bytes: &[u8], line: &str) -> Result<bool, Fail> {
    put(rt, folder, "KK.egt", bytes)?;
    Ok(both_print(rt, folder, "KK", 1, line) == Some(true))
}
