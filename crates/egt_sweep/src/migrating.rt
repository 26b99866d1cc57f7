//! Tables without the column of the nearest mates get it.
ghost use Rattle.std.specs.Prelude.{◌≡◌, None, IfOk, IfErr};
ghost use Rattle.egt_sweep.specs.Prelude.{IsAccepted, table_at, HasReachChildren, IsMigrated, IsNotMigrated};

use crate::building::{children_are_true, reach_column};
use crate::laws::laws;
use crate::migrate_fault::MigrateFault;
use crate::ranks::reach_numbers_are_the_nearest_mates;
use crate::{ROUNDS, Reached, filled_reach};
use egt_check::laws::rules_are_kept_by_true_tables_alone;
use egt_check::{Library, first_lacking};
use egt_graph::SolveFault;
use egt_table::Table;
use std::alloc::Global;

/// The table with the column of the nearest mates, which it lacks, as their game is solved by moves backward.
fn solved(alloc: Global, table: Table, library: &Library) -> Result<Table, (Table, MigrateFault)>
    requires accepted { IsAccepted (table_at library.now) table }
    requires lacks { table.reach ≡ None }
    requires reach_children { HasReachChildren (table_at library.now) table.class }
    ensures migrated { IfOk result (IsMigrated (table_at library.now) table) }
    ensures back { IfErr result (λ refused. refused.0 ≡ table) }
    ensures reason { IfErr result (λ refused. IsNotMigrated (table_at library.now) table refused.1) }
{
    laws();
    reach_numbers_are_the_nearest_mates();
    rules_are_kept_by_true_tables_alone();
    let class = table.class();
    children_are_true(class, library);
    match reach_column(alloc, class, library) {
        Ok(nears) => match table.with_reach(nears) {
            Ok(table) => Ok(table),
            Err(_both) => unreachable!(),
        },
        Err(SolveFault::NoMemory) => Err((table, MigrateFault::NoMemory)),
        Err(SolveFault::TooDeep) => Err((table, MigrateFault::TooDeep)),
    }
}

/// The table with the column of the nearest mates, and its other columns as before. `check` accepts it beside the
/// library before and after.
///
/// # Errors
///
/// The table comes back with `HasReach` where it has the column; else with `NoReach` with the least child whose table
/// lacks it; else with `NoMemory` where a growth was refused, and `TooDeep` where the nearest mate of some position is
/// farther away than 32,000 plies.
pub fn migrate(
    alloc: Global,
    table: Table,
    library: &Library,
) -> Result<Table, (Table, MigrateFault)>
    requires { IsAccepted (table_at library.now) table }
    ensures migrated { IfOk result (IsMigrated (table_at library.now) table) }
    ensures back { IfErr result (λ refused. refused.0 ≡ table) }
    ensures reason { IfErr result (λ refused. IsNotMigrated (table_at library.now) table refused.1) }
{
    laws();
    rules_are_kept_by_true_tables_alone();
    if table.has_reach() {
        return Err((table, MigrateFault::HasReach));
    }
    let class = table.class();
    children_are_true(class, library);
    if let Some(child) = first_lacking(class, library) {
        return Err((table, MigrateFault::NoReach(child)));
    }
    match filled_reach(alloc, table, library, ROUNDS) {
        Reached::Filled(table) => {
            let _class = table.class();
            Ok(table)
        }
        Reached::Untold(table) => solved(alloc, table, library),
        Reached::NoMemory(table) => Err((table, MigrateFault::NoMemory)),
    }
}
