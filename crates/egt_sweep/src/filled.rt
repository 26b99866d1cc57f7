//! Tables filled by blocks or by rows, where no game is solved.
ghost use Rattle.std.specs.Prelude.{◌≡◌, IfOk, IfErr, IfSome, IsSome};
ghost use Rattle.egt_sweep.specs.Prelude.{table_at, HasChildren, HasReachChildren, IsTrueTable};
ghost use Rattle.egt_sweep.specs.declared.build_fault.BuildFault.TheVariants as faults;

use crate::build_fault::BuildFault;
use crate::tables::{Reached, filled_reach, filled_values};
use egt_check::Library;
use egt_class::Class;
use egt_table::Table;
use std::alloc::Global;

/// The table of a class with all its columns; none where bytes do not tell of its entries, and where so many rounds of
/// looks are too few.
pub(crate) fn filled(
    alloc: Global,
    class: Class,
    library: &Library,
    rounds: u32,
) -> Result<Option<Table>, BuildFault>
    requires children { HasChildren (table_at library.now) class }
    requires reach_children { HasReachChildren (table_at library.now) class }
    ensures class { IfOk result (λ filled. IfSome filled (λ t. t.class ≡ class)) }
    ensures reach { IfOk result (λ filled. IfSome filled (λ t. IsSome t.reach)) }
    ensures truth { IfOk result (λ filled. IfSome filled IsTrueTable) }
    ensures refused { IfErr result (λ fault. fault ≡ faults.NoMemory) }
{
    let table = match filled_values(alloc, class, library, rounds) {
        Ok(Some((table, _looks))) => table,
        Ok(None) => return Ok(None),
        Err(_refused) => return Err(BuildFault::NoMemory),
    };
    match filled_reach(alloc, table, library, rounds) {
        Reached::Filled(table) => Ok(Some(table)),
        Reached::Untold(_table) => Ok(None),
        Reached::NoMemory(_table) => Err(BuildFault::NoMemory),
    }
}
