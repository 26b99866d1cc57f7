//! Why a command ended before all was done: what is printed then, and with which status the run ends.
ghost use Rattle.std.specs.Prelude.{◌≡◌};
ghost use Rattle.egt_commands.specs.Ending.{ends_with};
ghost use Rattle.egt_commands.specs.declared.run_fault.RunFault.TheVariants as faults;

use crate::fault::MovesFault;
use crate::status::Status;
use egt_check::Reject;
use egt_class::{Class, name};
use egt_fen::{FenFault, NoMemory};
use egt_table::{Column, FileFault};
use std::alloc::AllocError;
use std::fmt;

/// What ends a run, but for a table that was not built. Its `Display` is the line that is printed, without the line
/// feed.
#[derive(Clone, Copy, Debug, PartialEq, Eq)]
pub enum RunFault {
    /// The FEN was refused, with its first fault.
    Fen(FenFault),
    /// The word names no class.
    NoSuchClass,
    /// The words are no use of the program.
    Usage,
    /// There is no file of the class's table.
    NoFile(Class),
    /// The file of the class's table was refused.
    File(Class, FileFault),
    /// The class's table was refused.
    Check(Class, Reject),
    /// A file or a stream failed.
    Device,
    /// A growth of memory was refused.
    NoMemory,
}

impl RunFault {
    /// What a fault of the class's file ends a run with.
    pub fn of_file(class: Class, fault: FileFault) -> RunFault {
        match fault {
            FileFault::Device => RunFault::Device,
            FileFault::NoMemory => RunFault::NoMemory,
            _ => RunFault::File(class, fault),
        }
    }

    /// The status of a run that it ends.
    pub fn status(&self) -> Status {
        match self {
            RunFault::Fen(_) | RunFault::NoFile(_) | RunFault::File(_, _) | RunFault::Check(_, _) =>
                Status::Refused,
            RunFault::NoSuchClass | RunFault::Usage => Status::Usage,
            RunFault::Device => Status::Device,
            RunFault::NoMemory => Status::Memory,
        }
    }
}

/// The column's name, as it is printed.
fn column_name(column: Column) -> &'static str {
    match column {
        Column::Mate => "mate",
        Column::Zeroing => "zeroing",
        Column::Reach => "reach",
    }
}

/// Writes a refusal's number and name, and what it tells besides.
fn write_reject<W: fmt::Write>(reject: &Reject, f: &mut fmt::Formatter<W>) -> fmt::Result {
    let number = reject.number();
    let told = reject.name();
    write!(f, "check {number} {told}")?;
    match reject {
        Reject::Missing(child) | Reject::NoReach(child) => {
            let child = name(*child);
            write!(f, " {child}")
        }
        Reject::Rejected {
            column,
            index,
            rule,
        } => {
            let column = column_name(*column);
            let rule = rule.name();
            write!(f, " {column} {index} {rule}")
        }
        Reject::AlreadyThere => Ok(()),
    }
}

impl fmt::Display for RunFault {
    fn fmt<W: fmt::Write>(&self, f: &mut fmt::Formatter<W>) -> fmt::Result {
        match self {
            RunFault::Fen(fault) => {
                let number = fault.number();
                let name = fault.name();
                write!(f, "error fen {number} {name}")
            }
            RunFault::NoFile(class) => {
                f.write_str("error ")?;
                write_reject(&Reject::Missing(*class), f)
            }
            RunFault::File(class, fault) => {
                let class = name(*class);
                let number = fault.number();
                let told = fault.name();
                write!(f, "error {class} file {number} {told}")
            }
            RunFault::Check(class, reject) => {
                let class = name(*class);
                write!(f, "error {class} ")?;
                write_reject(reject, f)
            }
            RunFault::NoSuchClass => f.write_str("error class"),
            RunFault::Usage => f.write_str("error usage"),
            RunFault::Device => f.write_str("error device"),
            RunFault::NoMemory => f.write_str("error memory"),
        }
    }
}

impl From<AllocError> for RunFault {
    ghost from_gives = { λ _ fault. fault ≡ faults.NoMemory };

    fn from(_error: AllocError) -> RunFault {
        RunFault::NoMemory
    }
}

impl From<NoMemory> for RunFault {
    ghost from_gives = { λ _ fault. fault ≡ faults.NoMemory };

    fn from(_error: NoMemory) -> RunFault {
        RunFault::NoMemory
    }
}

impl From<MovesFault> for RunFault {
    ghost from_gives = { λ fault ending. ending ≡ ends_with fault };

    fn from(fault: MovesFault) -> RunFault {
        match fault {
            MovesFault::Fen(fault) => RunFault::Fen(fault),
            MovesFault::NoMemory => RunFault::NoMemory,
        }
    }
}
