//! Tables put into the files of a folder, so that no file is lost where that fails.
use crate::line::entries_line;
use crate::loading::path_of;
use crate::printer::print_line;
use crate::run_fault::RunFault;
use egt_class::{Class, name};
use egt_table::{Sink, Table, ToStd};
use std::alloc::{AllocError, Global};
use std::fs::{self, OpenFile, OpenOptions};
use std::io::{ErrorKind, Write};
use std::path::{Path, PathBuf};
use std::rt::Files;

/// How many names are tried for a new file.
const TRIES: u16 = 1000;

/// The number of the running process as text, or 0 where the system does not tell.
fn process_text<R: Files + AllocGlobal>(rt: &R) -> Result<String, AllocError> {
    match fs::read_link(rt, "/proc/self") {
        Ok(number) => String::from_str(rt.alloc(), number.as_path().as_str()),
        Err(_) => String::from_str(rt.alloc(), "0"),
    }
}

/// The path of a new file beside the class's own, by process and number: `KQK.egt.4711-0.new`. No reader looks for such
/// a name.
fn new_path(
    alloc: Global,
    folder: &str,
    class: Class,
    process: &str,
    number: u16,
) -> Result<PathBuf, AllocError> {
    let class = name(class);
    let file = format!(in alloc; "{class}.egt.{process}-{number}.new")?;
    Path::new(folder).join(alloc, file.as_str())
}

/// Makes a file under the first of the new names that no file has.
fn create<R: Files + AllocGlobal>(
    rt: &R,
    folder: &str,
    class: Class,
) -> Result<(PathBuf, R::File), RunFault> {
    let process = process_text(rt)?;
    for number in 0..TRIES {
        let path = new_path(rt.alloc(), folder, class, process.as_str(), number)?;
        match OpenOptions::new()
            .write(true)
            .create_new(true)
            .open(rt, path.as_path())
        {
            Ok(file) => return Ok((path, file)),
            Err(error) => match error.kind() {
                ErrorKind::AlreadyExists => {}
                ErrorKind::OutOfMemory => return Err(RunFault::NoMemory),
                _ => return Err(RunFault::Device),
            },
        }
    }
    Err(RunFault::Device)
}

/// Writes the table into the file, brings it to the disk and closes it.
fn fill<F: Write + OpenFile + Drop>(file: F, table: &Table) -> Result<(), RunFault> {
    let mut sink = ToStd::new(file);
    if table.write(&mut sink).is_err() {
        return Err(RunFault::Device);
    }
    match sink.into_inner().sync_all() {
        Ok(()) => Ok(()),
        Err(_) => Err(RunFault::Device),
    }
}

/// Fills the new file and puts it in the place of the class's own.
fn replace<R: Files>(
    rt: &R,
    table: &Table,
    file: R::File,
    new: Path<'_>,
    own: Path<'_>,
) -> Result<(), RunFault> {
    fill(file, table)?;
    match fs::rename(rt, new, own) {
        Ok(()) => Ok(()),
        Err(_) => Err(RunFault::Device),
    }
}

/// Puts the table into the file of its class, in place of one that is there. It is written to a new file beside that
/// one, which is renamed once it is whole and on the disk. Where anything fails before, a file that was there is as it
/// was, and the new one is removed.
///
/// # Errors
///
/// `Device` where the new file could not be made, written, brought to the disk or renamed; `NoMemory` where a growth
/// was refused.
pub fn save<R: Files + AllocGlobal>(rt: &R, folder: &str, table: &Table) -> Result<(), RunFault> {
    let own = path_of(rt.alloc(), folder, table.class())?;
    let (new, file) = create(rt, folder, table.class())?;
    let replaced = replace(rt, table, file, new.as_path(), own.as_path());
    if replaced.is_err() {
        let _ = fs::remove_file(rt, new.as_path());
    }
    replaced
}

/// Puts the table into the file of its class, and says so by the line of this word.
pub fn keep<R: Files + AllocGlobal, O: Sink>(
    rt: &R,
    folder: &str,
    word: &str,
    table: &Table,
    out: &mut O,
) -> Result<(), RunFault> {
    save(rt, folder, table)?;
    print_line(out, entries_line(rt.alloc(), word, table.class()))
}
