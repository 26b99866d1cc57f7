//! The table of a class with the column of the nearest mates, in the place of one without.
use crate::tool_fault::ToolFault;
use egt_class::Class;
use egt_commands::check::require_true;
use egt_commands::line::name_line;
use egt_commands::loading::{load_below, read};
use egt_commands::printer::print_line;
use egt_commands::saving::keep;
use egt_sweep::migrate;
use egt_table::{Sink, Table};
use std::rt::Files;

/// The table of the class with the column, or `None` where the file has it.
fn migrated<R: Files + AllocGlobal>(
    rt: &R,
    folder: &str,
    class: Class,
) -> Result<Option<Table>, ToolFault> {
    let library = load_below(rt, folder, class)?;
    let table = read(rt, folder, class)?;
    require_true(class, &table, &library)?;
    if table.has_reach() {
        return Ok(None);
    }
    match migrate(rt.alloc(), table, &library) {
        Ok(table) => Ok(Some(table)),
        Err((_table, fault)) => Err(ToolFault::of_migrate(fault)),
    }
}

/// `egtb migrate DIR CLASS`. No file is made before the column is.
pub(crate) fn migrate_table<R: Files + AllocGlobal, O: Sink>(
    rt: &R,
    folder: &str,
    class: Class,
    out: &mut O,
) -> Result<(), ToolFault> {
    match migrated(rt, folder, class)? {
        Some(table) => Ok(keep(rt, folder, "migrated", &table, out)?),
        None => Ok(print_line(out, name_line(rt.alloc(), "kept", class))?),
    }
}
