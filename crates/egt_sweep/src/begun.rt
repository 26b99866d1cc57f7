//! Entries that are to be found, before any look: all positions are drawn in the part's columns, or dead.
ghost use Rattle.std.specs.Prelude.{◌≡◌, ◌<◌, ℕ, None, length, IfErr, IfOk, IfSome};
ghost use Rattle.egt_sweep.specs.FillPrelude.{IsVoid, size_of, IsTable, HasBytes, IsDrawn};
ghost use Rattle.egt_sweep.specs.FillPrelude.{table_in, AreDrawnOrNone, HasNoVoidScore, IsDrawnIndex, IsWithReach};
ghost use Rattle.egt_check.specs.declared.part.Part.TheVariants as parts;

use egt_check::found::Found;
use egt_check::score_rows::ScoreRows;
use egt_class::Class;
use egt_graph::{Nears, Ranks};
use egt_index::{position, size};
use egt_table::Table;
use std::alloc::{AllocError, Global};

/// Room for a column of the class.
fn column_of_none(alloc: Global, class: Class) -> Result<Vec<u16>, AllocError>
    ensures { IfOk result (λ entries. length entries.items ≡ size_of class) }
{
    let _number = class.number();
    let entries = vec![in alloc; 0; size(class) as usize]?;
    Ok(entries)
}

/// The entry of a draw, or of a dead position, at an index, and of none at a void code.
fn drawn_entry(class: Class, code: u32) -> u16
    ensures void { IsVoid class code → result ≡ 0 }
    ensures index { ¬ IsVoid class code → result ≡ 1 }
{
    match position(class, code) {
        Some(_) => 1,
        None => 0,
    }
}

/// A column of the class in which all positions are drawn, or dead.
pub(crate) fn drawn_column(alloc: Global, class: Class) -> Result<Vec<u16>, AllocError>
    ensures long { IfOk result (λ entries. length entries.items ≡ size_of class) }
    ensures drawn { IfOk result (λ entries. IsDrawn class entries.items) }
{
    let _number = class.number();
    let mut entries = column_of_none(alloc, class)?;
    for code in 0..size(class) {
        entries[code as usize] = drawn_entry(class, code);
    }
    Ok(entries)
}

/// The entries of the class in whose columns of values all positions are drawn. `None` of a class that has not two men
/// beside the kings.
pub(crate) fn begun_values(alloc: Global, class: Class) -> Result<Option<Found>, AllocError>
    ensures class { IfOk result (λ some. IfSome some (λ t. t.class ≡ class)) }
    ensures reach { IfOk result (λ some. IfSome some (λ t. t.reach ≡ None)) }
    ensures table { IfOk result (λ some. IfSome some IsTable) }
    ensures bytes { IfOk result (λ some. IfSome some HasBytes) }
{
    let Some(scores) = ScoreRows::drawn(alloc, class)? else {
        return Ok(None);
    };
    let _scores = scores.class();
    let clocks = scores.copy(alloc)?;
    let mate = Ranks::from_entries(column_of_none(alloc, class)?);
    let zeroing = Ranks::from_entries(column_of_none(alloc, class)?);
    match Table::from_ranks(class, mate, zeroing) {
        Ok(table) => {
            let _class = table.class();
            let found = Found::values(table, scores, clocks);
            let _found = found.class();
            Ok(Some(found))
        }
        Err(_columns) => unreachable!(),
    }
}

/// The table with a column of the nearest mates in which all positions are dead, by these scores of draws.
///
/// # Errors
///
/// The table comes back where a growth was refused.
pub(crate) fn with_drawn_reach(
    alloc: Global,
    table: Table,
    scores: ScoreRows,
) -> Result<Found, Table>
    requires lacks { table.reach ≡ None }
    requires class { scores.class ≡ table.class }
    requires void { HasNoVoidScore scores }
    requires drawn { (code : ℕ) → code < size_of table.class → IsDrawnIndex scores code }
    requires few { AreDrawnOrNone scores }
    ensures with { IfOk result (IsWithReach table) }
    ensures table { IfOk result IsTable }
    ensures bytes { IfOk result (λ t. HasBytes (table_in parts.Reach t)) }
    ensures back { IfErr result (λ t. t ≡ table) }
{
    let Ok(entries) = column_of_none(alloc, table.class()) else {
        return Err(table);
    };
    let _scores = scores.class();
    match table.with_reach(Nears::from_entries(entries)) {
        Ok(table) => {
            let _class = table.class();
            let found = Found::reach(table, scores);
            let _found = found.class();
            Ok(found)
        }
        Err(_both) => unreachable!(),
    }
}
