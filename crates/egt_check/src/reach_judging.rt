//! The judgement of one index's entry of the column of the nearest mates.
ghost use Rattle.std.specs.Prelude.{◌<◌, IsSome};
ghost use Rattle.egt_check.specs.Prelude.{size_of, IsJudgedBy, KeepsReach, IsReachDue, ShowsReachOf, FindsReach};
ghost use Rattle.egt_check.specs.Prelude.{IsInClass, table_at, beside, HasChildren, HasReachChildren};

use crate::library::Library;
use crate::successors::least_reach;
use egt_board::Position;
use egt_entries::rule::Rule;
use egt_index::laws::{codes_spell_one_position, spelled_positions_are_of_the_class};
use egt_index::position;
use egt_moves::{Standing, standing};
use egt_table::{Column, Table};

/// The entry that is due to a position of the table's class.
fn reach_due(table: &Table, library: &Library, position: &Position) -> u16
    requires there { IsSome table.now.reach }
    requires own { IsInClass table.now.class position.now }
    requires children { HasChildren (table_at library.now) table.now.class }
    requires reach_children { HasReachChildren (table_at library.now) table.now.class }
    ensures { IsReachDue (ShowsReachOf (beside (table_at library.now) table.now)) position.now result }
{
    if let Standing::Checkmate = standing(position) {
        return 2;
    }
    match least_reach(table, library, position) {
        Some(plies) => plies + 3,
        None => 1,
    }
}

/// The first rule that an entry of a position breaks beside the one that is due, if it breaks one.
fn judge_entry(entry: u16, due: u16) -> Option<Rule>
    ensures { FindsReach entry due result }
{
    match entry {
        0 => Some(Rule::Void),
        32_003.. => Some(Rule::Range),
        _ if entry == due => None,
        1 => Some(Rule::Dead),
        _ => Some(Rule::Reach),
    }
}

/// The first rule that the entry at an index breaks, if it breaks one.
pub(crate) fn judge_reach(table: &Table, library: &Library, index: u32) -> Option<Rule>
    requires there { IsSome table.now.reach }
    requires inside { index < size_of table.now.class }
    requires children { HasChildren (table_at library.now) table.now.class }
    requires reach_children { HasReachChildren (table_at library.now) table.now.class }
    ensures { IsJudgedBy (KeepsReach (beside (table_at library.now) table.now) table.now index) result }
{
    codes_spell_one_position();
    spelled_positions_are_of_the_class();
    let entry = table.entry(Column::Reach, index);
    match position(table.class(), index) {
        None if entry == 0 => None,
        None => Some(Rule::Void),
        Some(position) => judge_entry(entry, reach_due(table, library, &position)),
    }
}
