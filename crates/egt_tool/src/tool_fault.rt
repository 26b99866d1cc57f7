//! Why a run ended before all was done.
ghost use Rattle.std.specs.Prelude.{◌≡◌, ◌≢◌, ℕ};
ghost use Rattle.egt_commands.specs.declared.run_fault.RunFault.TheVariants as run_faults;
ghost use Rattle.egt_sweep.specs.declared.build_fault.BuildFault.TheVariants as build_faults;
ghost use Rattle.egt_sweep.specs.declared.migrate_fault.MigrateFault.TheVariants as migrate_faults;
ghost use Rattle.egt_tool.specs.declared.tool_fault.ToolFault.TheVariants as faults;

use egt_class::name;
use egt_commands::{RunFault, Status};
use egt_sweep::{BuildFault, MigrateFault};
use std::alloc::AllocError;
use std::fmt;

/// What ends a run. Its `Display` is the line that is printed, without the line feed.
#[derive(Clone, Copy, Debug, PartialEq, Eq)]
pub enum ToolFault {
    /// What ends a run of any command.
    Run(RunFault),
    /// The class's table was not built.
    Build(BuildFault),
}

impl ToolFault {
    /// What a fault of the builder ends a run with.
    pub(crate) fn of_build(fault: BuildFault) -> ToolFault {
        match fault {
            BuildFault::NoMemory => ToolFault::Run(RunFault::NoMemory),
            _ => ToolFault::Build(fault),
        }
    }

    /// What a fault of `migrate` ends a run with, of a table without the column of the nearest mates: it is printed as
    /// one of a build.
    pub fn of_migrate(fault: MigrateFault) -> ToolFault
        requires { fault ≢ migrate_faults.HasReach }
        ensures memory { fault ≡ migrate_faults.NoMemory → result ≡ faults.Run run_faults.NoMemory }
        ensures deep { fault ≡ migrate_faults.TooDeep → result ≡ faults.Build (build_faults.TooDeep 32000) }
        ensures lacking { (child : ℕ) → fault ≡ migrate_faults.NoReach child →
            result ≡ faults.Build (build_faults.NoReach child) }
    {
        match fault {
            MigrateFault::NoMemory => ToolFault::Run(RunFault::NoMemory),
            MigrateFault::NoReach(child) => ToolFault::Build(BuildFault::NoReach(child)),
            MigrateFault::TooDeep => ToolFault::Build(BuildFault::TooDeep(32_000)),
            MigrateFault::HasReach => unreachable!(),
        }
    }

    /// The status of a run that it ends.
    pub(crate) fn status(&self) -> Status {
        match self {
            ToolFault::Run(fault) => fault.status(),
            ToolFault::Build(_) => Status::Refused,
        }
    }
}

/// Writes what a fault of the builder tells besides its number and name: the limit, or the child.
fn write_built<W: fmt::Write>(fault: &BuildFault, f: &mut fmt::Formatter<W>) -> fmt::Result {
    match fault {
        BuildFault::TooDeep(limit) => write!(f, " {limit}"),
        BuildFault::Missing(child) | BuildFault::NoReach(child) => {
            let child = name(*child);
            write!(f, " {child}")
        }
        BuildFault::NoMemory => Ok(()),
    }
}

impl fmt::Display for ToolFault {
    fn fmt<W: fmt::Write>(&self, f: &mut fmt::Formatter<W>) -> fmt::Result {
        match self {
            ToolFault::Run(fault) => write!(f, "{fault}"),
            ToolFault::Build(fault) => {
                let number = fault.number();
                let told = fault.name();
                write!(f, "error build {number} {told}")?;
                write_built(fault, f)
            }
        }
    }
}

impl From<RunFault> for ToolFault {
    ghost from_gives = { λ fault ending. ending ≡ faults.Run fault };

    fn from(fault: RunFault) -> ToolFault {
        ToolFault::Run(fault)
    }
}

impl From<AllocError> for ToolFault {
    ghost from_gives = { λ _ ending. ending ≡ faults.Run run_faults.NoMemory };

    fn from(_error: AllocError) -> ToolFault {
        ToolFault::Run(RunFault::NoMemory)
    }
}
