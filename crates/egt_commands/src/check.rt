//! The check of a table's file.
ghost use Rattle.std.specs.Prelude.{OnOk};
ghost use Rattle.egt_commands.specs.Prelude.{IsAccepted, table_at};

use crate::line::name_line;
use crate::loading::load_whole;
use crate::present::load_present;
use crate::printer::print_line;
use crate::run_fault::RunFault;
use egt_check::{Library, check};
use egt_class::Class;
use egt_table::{Sink, Table};
use std::rt::Files;

/// Sees that the table is true beside the library.
pub fn require_true(class: Class, table: &Table, library: &Library) -> Result<(), RunFault>
    ensures { OnOk result (IsAccepted (table_at library.now) table.now) }
{
    match check(table, library) {
        Ok(()) => Ok(()),
        Err(reject) => Err(RunFault::Check(class, reject)),
    }
}

/// `egtb check DIR CLASS`.
pub fn check_table<R: Files + AllocGlobal, O: Sink>(
    rt: &R,
    folder: &str,
    class: Class,
    out: &mut O,
) -> Result<(), RunFault> {
    let _library = load_whole(rt, folder, class)?;
    print_line(out, name_line(rt.alloc(), "ok", class))
}

/// `egtb check DIR`: the line of each class whose file is there, in ascending number, up to the first fault.
pub fn check_all<R: Files + AllocGlobal, O: Sink>(
    rt: &R,
    folder: &str,
    out: &mut O,
) -> Result<(), RunFault> {
    let mut library = Library::new(rt.alloc())?;
    for number in 0..36 {
        if load_present(rt, folder, Class::at(number), &mut library)? {
            print_line(out, name_line(rt.alloc(), "ok", Class::at(number)))?;
        }
    }
    Ok(())
}
