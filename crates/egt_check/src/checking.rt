//! The judgement of a whole table.
ghost use Rattle.std.specs.Prelude.{◌≡◌, ◌↔◌, ◌≤◌, IsOk, IfOk, IfErr, IfSome, IfNone, IsSome, IsTrue, true};
ghost use Rattle.egt_check.specs.Prelude.{size_of, Metric, Mate, table_at, beside, HasChildren, HasReachChildren};
ghost use Rattle.egt_check.specs.Prelude.{IsAccepted, IsRefused, IsFirstBreak, IsFirstLacking, IsFirstMissing};
ghost use Rattle.egt_check.specs.Prelude.{LacksReach, ReachesDown, KeepsBelow, KeepsReachBelow, earlier, IsFirstBad};
ghost use Rattle.egt_check.specs.Prelude.{IsFirstBadReach, AreRuns, IsKnownToTell, TellsPart, Reach, Values};
ghost use Rattle.egt_table.specs.declared.column.Column.TheVariants as columns;

use crate::judging::judge;
use crate::library::Library;
use crate::reach_blocks::reach_runs_by_blocks;
use crate::reach_judging::judge_reach;
use crate::runs::{Runs, is_right, runs_or_one};
use crate::shelved::Telling;
use crate::table_judging::runs_by_blocks;
use egt_class::laws::children_have_smaller_numbers;
use egt_class::{Class, children};
use egt_entries::reject::Reject;
use egt_entries::rule::Rule;
use egt_index::size;
use egt_table::{Column, Table};

/// The least child of the class that the library has no table of, if there is one.
pub fn first_missing(class: Class, library: &Library) -> Option<Class>
    ensures some { IfSome result (IsFirstMissing (table_at library.now) class) }
    ensures none { IfNone result (HasChildren (table_at library.now) class) }
{
    children_have_smaller_numbers();
    let children = children(class);
    for child in children.as_slice() {
        if library.get(*child).is_none() {
            return Some(*child);
        }
    }
    None
}

/// Whether the class has a table that lacks the column of the nearest mates.
fn lacks_reach(library: &Library, class: Class) -> bool
    ensures { IsTrue result ↔ LacksReach (table_at library.now class) }
{
    match library.get(class) {
        Some(table) => !table.has_reach(),
        None => false,
    }
}

/// The least child of the class whose table lacks the column of the nearest mates, if there is one.
pub fn first_lacking(class: Class, library: &Library) -> Option<Class>
    ensures some { IfSome result (IsFirstLacking (table_at library.now) class) }
    ensures none { IfNone result (HasReachChildren (table_at library.now) class) }
{
    children_have_smaller_numbers();
    let children = children(class);
    for child in children.as_slice() {
        if lacks_reach(library, *child) {
            return Some(*child);
        }
    }
    None
}

/// The first bad entry and its rule: the one that is known, or that of this index.
fn earlier(known: Option<(u32, Rule)>, index: u32, rule: Option<Rule>) -> Option<(u32, Rule)>
    ensures { result ≡ earlier known index rule }
{
    match known {
        Some(bad) => Some(bad),
        None => match rule {
            Some(rule) => Some((index, rule)),
            None => None,
        },
    }
}

/// Judges the entries of the indexes from `first` on and below `end`, where the mate entries before them keep the rules
/// and the first bad zeroing entry there is known: of the zeroing column up to the first bad one if there is one.
///
/// # Errors
///
/// The first bad entry of the mate column there, and the first rule that it breaks.
fn judge_run(
    table: &Table,
    library: &Library,
    first: u32,
    end: u32,
    known: Option<(u32, Rule)>,
) -> Result<Option<(u32, Rule)>, (u32, Rule)>
    requires children { HasChildren (table_at library.now) table.now.class }
    requires within { (first ≤ end) × (end ≤ size_of table.now.class) }
    requires mate { KeepsBelow (beside (table_at library.now) table.now) table.now Mate first }
    requires zeroing { IsFirstBad (beside (table_at library.now) table.now) table.now first known }
    ensures kept { IfOk result (λ bad. KeepsBelow (beside (table_at library.now) table.now) table.now Mate end) }
    ensures zeroing { IfOk result (IsFirstBad (beside (table_at library.now) table.now) table.now end) }
    ensures broken { IfErr result (λ bad. IsFirstBreak
        (beside (table_at library.now) table.now) table.now columns.Mate bad.0 bad.1) }
{
    let mut bad = known;
    for index in first..end {
        let (mate, zeroing) = judge(table, library, index);
        if let Some(rule) = mate {
            return Err((index, rule));
        }
        bad = earlier(bad, index, zeroing);
    }
    Ok(bad)
}

/// Judges all entries of these columns, those of each run that blocks do not tell to be right one by one.
fn judge_table(
    table: &Table,
    library: &Library,
    runs: &Runs,
) -> Result<Option<(u32, Rule)>, (u32, Rule)>
    requires children { HasChildren (table_at library.now) table.now.class }
    requires runs { AreRuns Values (beside (table_at library.now) table.now) table.now runs.now }
    ensures kept { IfOk result (λ bad. KeepsBelow (beside (table_at library.now) table.now) table.now Mate
        (size_of table.now.class)) }
    ensures zeroing { IfOk result (IsFirstBad (beside (table_at library.now) table.now) table.now
        (size_of table.now.class)) }
    ensures broken { IfErr result (λ bad. IsFirstBreak
        (beside (table_at library.now) table.now) table.now columns.Mate bad.0 bad.1) }
{
    let _size = size(table.class());
    let mut bad = None;
    for run in 0..runs.count {
        if is_right(runs, run) {
            continue;
        }
        let first = run * runs.len;
        bad = judge_run(table, library, first, first + runs.len, bad)?;
    }
    Ok(bad)
}

/// Judges every entry of the mate column and of the zeroing column of a table whose class's children have their tables:
/// the mate column to its first bad entry, and the zeroing column beside it. Whether the table's bytes were found to
/// tell their entries.
fn judge_values(table: &Table, library: &Library) -> Result<bool, Reject>
    requires children { HasChildren (table_at library.now) table.now.class }
    requires down { ReachesDown (table_at library.now) table.now }
    ensures exact { IsOk result ↔ ((metric : Metric) →
        KeepsBelow (beside (table_at library.now) table.now) table.now metric (size_of table.now.class)) }
    ensures reason { IfErr result (IsRefused (table_at library.now) table.now) }
    ensures told { IfOk result (λ tells. tells ≡ true → TellsPart Values table.now) }
{
    let runs = runs_or_one(runs_by_blocks(table, library), table.class());
    match judge_table(table, library, &runs) {
        Err((index, rule)) => Err(Reject::Rejected {
            column: Column::Mate,
            index,
            rule,
        }),
        Ok(Some((index, rule))) => Err(Reject::Rejected {
            column: Column::Zeroing,
            index,
            rule,
        }),
        Ok(None) => Ok(runs.tells),
    }
}

/// The first bad entry of the column of the nearest mates of the indexes from `first` on and below `end`, where those
/// before them keep the rules, and the first rule that it breaks, if there is one.
fn first_bad_reach_in(table: &Table, library: &Library, first: u32, end: u32) -> Option<(u32, Rule)>
    requires there { IsSome table.now.reach }
    requires children { HasChildren (table_at library.now) table.now.class }
    requires reach_children { HasReachChildren (table_at library.now) table.now.class }
    requires within { (first ≤ end) × (end ≤ size_of table.now.class) }
    requires before { KeepsReachBelow (beside (table_at library.now) table.now) table.now first }
    ensures some { IfSome result (λ bad. IsFirstBadReach
        (beside (table_at library.now) table.now) table.now bad.0 bad.1) }
    ensures none { IfNone result (KeepsReachBelow (beside (table_at library.now) table.now) table.now end) }
{
    for index in first..end {
        if let Some(rule) = judge_reach(table, library, index) {
            return Some((index, rule));
        }
    }
    None
}

/// The first bad entry of the column of the nearest mates and the first rule that it breaks, if there is one.
fn first_bad_reach(table: &Table, library: &Library, runs: &Runs) -> Option<(u32, Rule)>
    requires there { IsSome table.now.reach }
    requires children { HasChildren (table_at library.now) table.now.class }
    requires reach_children { HasReachChildren (table_at library.now) table.now.class }
    requires runs { AreRuns Reach (beside (table_at library.now) table.now) table.now runs.now }
    ensures some { IfSome result (λ bad. IsFirstBadReach
        (beside (table_at library.now) table.now) table.now bad.0 bad.1) }
    ensures none { IfNone result (KeepsReachBelow (beside (table_at library.now) table.now) table.now
        (size_of table.now.class)) }
{
    let _size = size(table.class());
    for run in 0..runs.count {
        if is_right(runs, run) {
            continue;
        }
        let first = run * runs.len;
        if let Some(bad) = first_bad_reach_in(table, library, first, first + runs.len) {
            return Some(bad);
        }
    }
    None
}

/// Judges every entry of the column of the nearest mates, where all others keep the rules: those of each run that
/// blocks do not tell to be right one by one. Whether the table's bytes were found to tell its entries.
fn judge_reaches(table: &Table, library: &Library) -> Result<bool, Reject>
    requires there { IsSome table.now.reach }
    requires children { HasChildren (table_at library.now) table.now.class }
    requires reach_children { HasReachChildren (table_at library.now) table.now.class }
    requires values { (metric : Metric) →
        KeepsBelow (beside (table_at library.now) table.now) table.now metric (size_of table.now.class) }
    ensures exact { IsOk result ↔ KeepsReachBelow (beside (table_at library.now) table.now) table.now
        (size_of table.now.class) }
    ensures reason { IfErr result (IsRefused (table_at library.now) table.now) }
    ensures told { IfOk result (λ tells. tells ≡ true → TellsPart Reach table.now) }
{
    let runs = runs_or_one(reach_runs_by_blocks(table, library), table.class());
    match first_bad_reach(table, library, &runs) {
        Some((index, rule)) => Err(Reject::Rejected {
            column: Column::Reach,
            index,
            rule,
        }),
        None => Ok(runs.tells),
    }
}

/// Sees that the children's tables have what the judgement reads.
fn check_children(table: &Table, library: &Library) -> Result<(), Reject>
    ensures exact { IsOk result ↔ (HasChildren (table_at library.now) table.now.class ×
        ReachesDown (table_at library.now) table.now) }
    ensures reason { IfErr result (IsRefused (table_at library.now) table.now) }
{
    if let Some(child) = first_missing(table.class(), library) {
        return Err(Reject::Missing(child));
    }
    if !table.has_reach() {
        return Ok(());
    }
    match first_lacking(table.class(), library) {
        Some(child) => Err(Reject::NoReach(child)),
        None => Ok(()),
    }
}

/// Whether every entry of the table keeps every rule beside the entries of the successors, which stand in the table
/// itself or in those of its children. It takes no memory.
///
/// # Errors
///
/// `Missing` with the least child that the library has no table of; else, where the table has the column of the nearest
/// mates, `NoReach` with the least child whose table lacks it; else `Rejected` with the first column that has a bad
/// entry, mate before zeroing before reach, the least index of one there, and the first rule that it breaks.
pub fn check(table: &Table, library: &Library) -> Result<(), Reject>
    ensures exact { IsOk result ↔ IsAccepted (table_at library.now) table.now }
    ensures reason { IfErr result (IsRefused (table_at library.now) table.now) }
{
    let _telling = checked(table, library)?;
    Ok(())
}

/// What `check` says, and of an accepted table what it found its bytes to tell.
pub(crate) fn checked(table: &Table, library: &Library) -> Result<Telling, Reject>
    ensures exact { IsOk result ↔ IsAccepted (table_at library.now) table.now }
    ensures reason { IfErr result (IsRefused (table_at library.now) table.now) }
    ensures told { IfOk result (λ telling. IsKnownToTell table.now telling.values telling.reach) }
{
    check_children(table, library)?;
    let values = judge_values(table, library)?;
    if table.has_reach() {
        let reach = judge_reaches(table, library)?;
        Ok(Telling { values, reach })
    } else {
        Ok(Telling {
            values,
            reach: false,
        })
    }
}
