//! The judgement of the column of the nearest mates, block by block.
ghost use Rattle.std.specs.Prelude.{IfSome, IsSome};
ghost use Rattle.egt_check.specs.Prelude.{size_of, Metric, KeepsBelow, AreRuns, Reach, HasChildren, HasReachChildren};
ghost use Rattle.egt_check.specs.Prelude.{beside, table_at};

use crate::bytes::tells_reach_bytes;
use crate::library::Library;
use crate::lone_runs::runs_by_rows;
use crate::part::Part;
use crate::runs::Runs;
use crate::table_judging::{four_men, right_runs};
use egt_index::shelf_men;
use egt_table::Table;

/// The codes of a class, and of which the entries of that column keep the rules: by blocks where two men stand beside
/// the kings, by rows where one does. `None` of the kings alone, and where a table does not tell it by bytes.
pub(crate) fn reach_runs_by_blocks(table: &Table, library: &Library) -> Option<Runs>
    requires there { IsSome table.now.reach }
    requires children { HasChildren (table_at library.now) table.now.class }
    requires reach_children { HasReachChildren (table_at library.now) table.now.class }
    requires values { (metric : Metric) →
        KeepsBelow (beside (table_at library.now) table.now) table.now metric (size_of table.now.class) }
    ensures { IfSome result (AreRuns Reach (beside (table_at library.now) table.now) table.now) }
{
    let Some(men) = shelf_men(table.class(), 0) else {
        return runs_by_rows(table, library, Part::Reach);
    };
    if !tells_reach_bytes(table) {
        return None;
    }
    let four = four_men(table, library, &men, Part::Reach)?;
    right_runs(&four, &men, Part::Reach)
}
