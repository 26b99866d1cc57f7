//! Files that are replaced, and files that are not since a call of the system failed.
use super::{Step, folder, goes, has_whole_kings, holds, put};
use crate::asserts::{agree, require, require_at};
use egt_plain::kings::kings_file;
use egt_table::{MemorySink, MemorySource};
use egt_tool::run;
use std::alloc::Allocator;
use std::fs::{self, Files, Metadata, OpenFile, OpenOptions};
use std::io::{self, ErrorKind, Read, Seek, SeekFrom, Write};
use std::process;
use std::test::Fail;

/// How many files the folder has.
fn count(rt: &HostRuntime, folder: &str) -> Result<u64, Fail> {
    let mut count = 0u64;
    for entry in fs::read_dir(rt, folder)? {
        let _entry = entry?;
        count = count.saturating_add(1);
    }
    Ok(count)
}

/// What puts a whole table in the place of one of version 1.
const REPLACING: [Step; 2] = [
    ("build DIR KK", "", 0, "built KK entries 1280\n", ""),
    ("migrate DIR KK", "", 0, "migrated KK entries 1280\n", ""),
];

/// Gives the folder's file of two kings a second name.
fn back_up(rt: &HostRuntime, folder: &str) -> Result<(), Fail> {
    let own = format!(in rt.alloc(); "{folder}/KK.egt")?;
    let backup = format!(in rt.alloc(); "{folder}/backup")?;
    fs::hard_link(rt, own.as_str(), backup.as_str())?;
    Ok(())
}

#[test]
fn a_backup_by_a_hard_link(rt: HostRuntime) -> Result<(), Fail> {
    for &step in &REPLACING {
        let folder = folder(&rt, "backup")?;
        let old = kings_file(rt.alloc())?;
        put(&rt, &folder, "KK.egt", &old)?;
        back_up(&rt, &folder)?;
        require_at(&rt, goes(&rt, &folder, step) == Some(true), step.0);
        require_at(&rt, holds(&rt, &folder, "backup", &old)?, step.0);
        require_at(&rt, has_whole_kings(&rt, &folder)?, step.0);
        agree(&rt, count(&rt, &folder)?, 2);
        fs::remove_dir_all(&rt, folder.as_str())?;
    }
    Ok(())
}

#[test]
fn a_new_file_whose_name_is_taken(rt: HostRuntime) -> Result<(), Fail> {
    let folder = folder(&rt, "taken")?;
    let process = process::id(rt.process());
    let name = format!(in rt.alloc(); "KK.egt.{process}-0.new")?;
    put(&rt, &folder, name.as_str(), b"another's")?;
    require(&rt, goes(&rt, &folder, REPLACING[0]) == Some(true));
    require(&rt, holds(&rt, &folder, name.as_str(), b"another's")?);
    require(&rt, has_whole_kings(&rt, &folder)?);
    agree(&rt, count(&rt, &folder)?, 2);
    fs::remove_dir_all(&rt, folder.as_str())?;
    Ok(())
}

/// What a system refuses.
#[derive(Clone, Copy, Debug, PartialEq, Eq)]
enum Refused {
    /// To open a file, for want of memory.
    Memory,
    /// To make a new file.
    NewFiles,
    /// To write more than the first bytes of a file.
    Writes,
    /// To bring a file to the disk.
    Syncs,
    /// To give a file another name.
    Renames,
}

/// A file of such a system.
#[derive(Drop)]
struct RefusingFile {
    file: fs::File,
    refused: Refused,
    written: bool,
}

impl Read for RefusingFile {
    fn read(&mut self, buf: &mut [u8]) -> io::Result<usize> {
        self.file.read(buf)
    }
}

impl Write for RefusingFile {
    fn write(&mut self, buf: &[u8]) -> io::Result<usize> {
        if self.refused == Refused::Writes && self.written {
            return Err(io::Error::from(ErrorKind::StorageFull));
        }
        self.written = true;
        self.file.write(buf)
    }

    fn flush(&mut self) -> io::Result<()> {
        self.file.flush()
    }
}

impl Seek for RefusingFile {
    fn seek(&mut self, to: SeekFrom) -> io::Result<u64> {
        self.file.seek(to)
    }
}

impl OpenFile for RefusingFile {
    fn metadata(&self) -> io::Result<Metadata> {
        self.file.metadata()
    }

    fn set_len(&self, size: u64) -> io::Result<()> {
        self.file.set_len(size)
    }

    fn sync_all(&self) -> io::Result<()> {
        if self.refused == Refused::Syncs {
            return Err(io::Error::from(ErrorKind::QuotaExceeded));
        }
        self.file.sync_all()
    }

    fn sync_data(&self) -> io::Result<()> {
        self.file.sync_data()
    }
}

/// The system, but for what it refuses.
#[derive(Drop)]
struct Refusing<'a> {
    rt: &'a HostRuntime,
    refused: Refused,
}

impl Files for Refusing<'_> {
    type File = RefusingFile;

    type Dir = <HostRuntime as Files>::Dir;

    fn open_file(&self, how: &OpenOptions, path: &str) -> io::Result<RefusingFile> {
        if self.refused == Refused::Memory {
            return Err(io::Error::from(ErrorKind::OutOfMemory));
        }
        if self.refused == Refused::NewFiles && how.asks_create_new() {
            return Err(io::Error::from(ErrorKind::PermissionDenied));
        }
        Ok(RefusingFile {
            file: self.rt.open_file(how, path)?,
            refused: self.refused,
            written: false,
        })
    }

    fn open_dir(&self, path: &str) -> io::Result<Self::Dir> {
        self.rt.open_dir(path)
    }

    fn metadata(&self, path: &str) -> io::Result<Metadata> {
        self.rt.metadata(path)
    }

    fn symlink_metadata(&self, path: &str) -> io::Result<Metadata> {
        self.rt.symlink_metadata(path)
    }

    fn copy(&self, from: &str, to: &str) -> io::Result<u64> {
        self.rt.copy(from, to)
    }

    fn rename(&self, from: &str, to: &str) -> io::Result<()> {
        if self.refused == Refused::Renames {
            return Err(io::Error::from(ErrorKind::ReadOnlyFilesystem));
        }
        self.rt.rename(from, to)
    }

    fn remove_file(&self, path: &str) -> io::Result<()> {
        self.rt.remove_file(path)
    }

    fn create_dir(&self, path: &str) -> io::Result<()> {
        self.rt.create_dir(path)
    }

    fn remove_dir(&self, path: &str) -> io::Result<()> {
        self.rt.remove_dir(path)
    }

    fn remove_dir_all<B: Allocator>(&self, alloc: B, path: &str) -> io::Result<()> {
        self.rt.remove_dir_all(alloc, path)
    }
}

/// Whether the command on two kings ends with this status and prints this line alone, to the standard error, where the
/// system refuses that.
fn ends(
    rt: &HostRuntime,
    folder: &str,
    command: &str,
    refused: Refused,
    status: u8,
    line: &str,
) -> Result<bool, Fail> {
    let mut out = MemorySink::new(rt.alloc(), 100)?;
    let mut err = MemorySink::new(rt.alloc(), 100)?;
    let words = ["egtb", command, folder, "KK"];
    let system = (Refusing { rt, refused }, rt.alloc());
    let found = run(
        &system,
        &words,
        &mut MemorySource::new(b""),
        &mut out,
        &mut err,
    );
    Ok(found == status && out.bytes().is_empty() && err.bytes() == line.as_bytes())
}

/// What ends a command that puts a table into a file.
const ENDINGS: [(Refused, u8, &str); 5] = [
    (Refused::Memory, 4, "error memory\n"),
    (Refused::NewFiles, 3, "error device\n"),
    (Refused::Writes, 3, "error device\n"),
    (Refused::Syncs, 3, "error device\n"),
    (Refused::Renames, 3, "error device\n"),
];

#[test]
fn a_file_that_is_not_replaced(rt: HostRuntime) -> Result<(), Fail> {
    let folder = folder(&rt, "refusing")?;
    let old = kings_file(rt.alloc())?;
    put(&rt, &folder, "KK.egt", &old)?;
    for &(refused, status, line) in &ENDINGS {
        for &command in &["build", "migrate"] {
            let right = ends(&rt, &folder, command, refused, status, line)?;
            require_at(&rt, right, command);
            require_at(&rt, holds(&rt, &folder, "KK.egt", &old)?, command);
            require_at(&rt, count(&rt, &folder)? == 1, command);
        }
    }
    for &command in &["check", "stats", "probe"] {
        let right = ends(&rt, &folder, command, Refused::Memory, 4, "error memory\n")?;
        require_at(&rt, right, command);
    }
    fs::remove_dir_all(&rt, folder.as_str())?;
    Ok(())
}

#[test]
fn a_folder_in_the_place_of_the_file(rt: HostRuntime) -> Result<(), Fail> {
    let folder = folder(&rt, "in-place")?;
    let own = format!(in rt.alloc(); "{folder}/KK.egt")?;
    fs::create_dir(&rt, own.as_str())?;
    let step = ("build DIR KK", "", 3, "", "error device\n");
    require(&rt, goes(&rt, &folder, step) == Some(true));
    agree(&rt, count(&rt, &folder)?, 1);
    fs::remove_dir_all(&rt, folder.as_str())?;
    Ok(())
}
