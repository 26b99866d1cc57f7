//! The table of a class built, and put into its file.
ghost use Rattle.std.specs.Prelude.{◌≤◌};

use crate::tool_fault::ToolFault;
use egt_class::Class;
use egt_commands::RunFault;
use egt_commands::loading::load_below;
use egt_commands::saving::keep;
use egt_sweep::{BuildFault, build};
use egt_table::{Sink, Table};
use std::rt::Files;

/// A file that is not there keeps a class from being built by its own name.
fn of_loading(fault: RunFault) -> ToolFault {
    match fault {
        RunFault::NoFile(child) => ToolFault::Build(BuildFault::Missing(child)),
        other => ToolFault::Run(other),
    }
}

/// The table of the class, from those of the folder that it rests on.
fn built<R: Files + AllocGlobal>(
    rt: &R,
    folder: &str,
    class: Class,
    limit: u16,
) -> Result<Table, ToolFault>
    requires { limit ≤ 32000 }
{
    match load_below(rt, folder, class) {
        Ok(library) => build(rt.alloc(), class, &library, limit).map_err(ToolFault::of_build),
        Err(fault) => Err(of_loading(fault)),
    }
}

/// `egtb build DIR CLASS [--limit N]`, with a limit of at most 32,000. No file is made before the table is built.
pub(crate) fn build_table<R: Files + AllocGlobal, O: Sink>(
    rt: &R,
    folder: &str,
    class: Class,
    limit: u16,
    out: &mut O,
) -> Result<(), ToolFault>
    requires { limit ≤ 32000 }
{
    match built(rt, folder, class, limit) {
        Ok(table) => Ok(keep(rt, folder, "built", &table, out)?),
        Err(fault) => Err(fault),
    }
}
