//! Whether the mates of a true table are within a limit.
ghost use Rattle.std.specs.Prelude.{◌≡◌, ◌+◌, ◌*◌, ◌≤◌, ◌<◌, ℕ, IfOk, IfErr, IfSome, IfNone};
ghost use Rattle.egt_sweep.specs.Prelude.{entry_at, IsTrueTable, Mate, size_of, AllWithinLimit, SomeAboveLimit};
ghost use Rattle.egt_sweep.specs.declared.build_fault.BuildFault.TheVariants as faults;

use crate::build_fault::BuildFault;
use crate::laws::laws;
use egt_index::size;
use egt_moves::laws::one_value;
use egt_table::{Column, Table};

/// The first index whose mate entry is greater than this one, if there is one.
fn first_above(table: &Table, most: u16) -> Option<u32>
    ensures within { IfSome result (λ i. i < size_of table.now.class) }
    ensures above { IfSome result (λ i. most < entry_at table.now Mate i) }
    ensures none { IfNone result ((i : ℕ) → i < size_of table.now.class → entry_at table.now Mate i ≤ most) }
{
    for index in 0..size(table.class()) {
        if table.entry(Column::Mate, index) > most {
            return Some(index);
        }
    }
    None
}

/// The table, a true one, unless one of its mates takes more plies than the limit.
pub(crate) fn within_limit(table: Table, limit: u16) -> Result<Table, BuildFault>
    requires limit { limit ≤ 32000 }
    requires truth { IsTrueTable table }
    ensures same { IfOk result (λ t. t ≡ table) }
    ensures within { IfOk result (λ _. AllWithinLimit table.class limit) }
    ensures fault { IfErr result (λ fault. fault ≡ faults.TooDeep limit) }
    ensures above { IfErr result (λ _. SomeAboveLimit table.class limit) }
{
    laws();
    one_value();
    let _class = table.class();
    match first_above(&table, 3 + 2 * limit) {
        Some(_index) => Err(BuildFault::TooDeep(limit)),
        None => Ok(table),
    }
}
