//! Tables whose entries have bytes of their own.
ghost use Rattle.std.specs.Prelude.{◌≡◌, true, IsSome};
ghost use Rattle.egt_check.specs.Prelude.{table_in, AreAllAlike, TellsVoids, HasBytes};
ghost use Rattle.egt_check.specs.declared.part.Part.TheVariants as parts;

use crate::voids::tells_voids;
use egt_lanes::alike::columns_are_alike;
use egt_lanes::near::column_is_near;
use egt_table::{Column, Table};

/// Whether at each code both entries are 0, or have bytes of their own, alike in both columns.
pub(crate) fn are_alike(table: &Table) -> bool
    ensures { result ≡ true → AreAllAlike table.now }
{
    let mate = table.entries(Column::Mate);
    let zeroing = table.entries(Column::Zeroing);
    columns_are_alike(mate, zeroing)
}

/// Whether each code that no position has holds 0 in both columns, and each other one entries with a byte of their own,
/// alike in both columns. Of a class with two men beside the kings.
pub fn tells_bytes(table: &Table) -> bool
    ensures { result ≡ true → HasBytes table.now }
{
    are_alike(table) && tells_voids(table)
}

/// Whether the entries of the nearest mates have bytes of their own, and are 0 where the mate entries are.
pub fn tells_reach_bytes(table: &Table) -> bool
    requires there { IsSome table.now.reach }
    requires voids { TellsVoids table.now }
    ensures { result ≡ true → HasBytes (table_in parts.Reach table.now) }
{
    column_is_near(table.entries(Column::Mate), table.entries(Column::Reach))
}
