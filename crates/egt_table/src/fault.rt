//! Why a table was not read.
ghost use Rattle.std.specs.Prelude.{◌≡◌};
ghost use Rattle.egt_table.specs.Fault.{number_of, name_of};
ghost use Rattle.egt_table.specs.declared.fault.FileFault.TheVariants as faults;

use crate::device::Device;
use std::alloc::AllocError;
use thiserror::Error;

/// What kept bytes from being read as a table.
#[derive(Clone, Copy, Debug, PartialEq, Eq, Error)]
pub enum FileFault {
    /// The source failed.
    #[error("the device failed")]
    Device,
    /// The bytes end early.
    #[error("the file ends early")]
    Short,
    /// They do not begin with `EGTB`.
    #[error("the file is no table")]
    Magic,
    /// Another version than 1 and 2.
    #[error("the file is of another version")]
    Version,
    /// Another layout than 1.
    #[error("the file is of another layout")]
    Layout,
    /// Another class than the one asked for.
    #[error("the table is of another class")]
    Class,
    /// Another number of columns than files of the version have.
    #[error("the table has another number of columns")]
    Columns,
    /// Another number of entries than the class has codes.
    #[error("the table has another number of entries")]
    Count,
    /// Bytes after the last entry.
    #[error("bytes follow the last entry")]
    Trailing,
    /// There is no memory for the entries.
    #[error("out of memory")]
    NoMemory,
}

impl FileFault {
    /// The fault's number, from 1 to 10.
    pub fn number(&self) -> u8
        ensures { result ≡ number_of self.now }
    {
        match self {
            FileFault::Device => 1,
            FileFault::Short => 2,
            FileFault::Magic => 3,
            FileFault::Version => 4,
            FileFault::Layout => 5,
            FileFault::Class => 6,
            FileFault::Columns => 7,
            FileFault::Count => 8,
            FileFault::Trailing => 9,
            FileFault::NoMemory => 10,
        }
    }

    /// The fault's name, as it is printed.
    pub fn name(&self) -> &'static str
        ensures { result.now ≡ name_of self.now }
    {
        match self {
            FileFault::Device => "Device",
            FileFault::Short => "Short",
            FileFault::Magic => "Magic",
            FileFault::Version => "Version",
            FileFault::Layout => "Layout",
            FileFault::Class => "Class",
            FileFault::Columns => "Columns",
            FileFault::Count => "Count",
            FileFault::Trailing => "Trailing",
            FileFault::NoMemory => "NoMemory",
        }
    }
}

impl From<Device> for FileFault {
    ghost from_gives = { λ _ fault. fault ≡ faults.Device };

    fn from(_device: Device) -> FileFault {
        FileFault::Device
    }
}

impl From<AllocError> for FileFault {
    ghost from_gives = { λ _ fault. fault ≡ faults.NoMemory };

    fn from(_error: AllocError) -> FileFault {
        FileFault::NoMemory
    }
}
