//! Tables of classes with two men or a piece beside the kings, filled beside those of their children.
ghost use Rattle.std.specs.Prelude.{◌≡◌, ◌*◌, ◌≤◌, None, IfOk, IfSome};
ghost use Rattle.egt_sweep.specs.FillPrelude.{HasChildren, HasReachChildren, table_at, HasTrueChildren, IsTrueTable};
ghost use Rattle.egt_sweep.specs.FillPrelude.{IsLonePiece, IsReached};

use crate::begun::{begun_values, drawn_column, with_drawn_reach};
use crate::filling::filling_of;
use crate::lone_mending::LoneFilling;
use crate::lone_rounds::mend_lone_rows;
use crate::put_due::{Looks, put_due};
use egt_board::{Kind, Man};
use egt_check::Library;
use egt_check::laws::{kept_reaches_are_true, rules_are_kept_by_true_tables_alone};
use egt_check::part::Part;
use egt_check::score_rows::ScoreRows;
use egt_class::laws::children_have_smaller_numbers;
use egt_class::{Class, children};
use egt_graph::{Nears, Ranks};
use egt_index::lone_man;
use egt_table::Table;
use std::alloc::{AllocError, Global};

/// A table that was to get the column of the nearest mates.
#[derive(Drop)]
pub enum Reached {
    /// It has the column.
    Filled(Table),
    /// It is as it was: bytes do not tell the column, or not in so few rounds.
    Untold(Table),
    /// It is as it was: a growth was refused.
    NoMemory(Table),
}

/// The children's tables are true. This does nothing: a library says so of each table that it hands out.
fn children_are_true(class: Class, library: &Library)
    requires { HasChildren (table_at library.now) class }
    ensures { HasTrueChildren (table_at library.now) class }
{
    let children = children(class);
    for child in children.as_slice() {
        let _table = library.get(*child);
    }
}

/// The piece of a class with one beside the kings.
fn lone_piece(class: Class) -> Option<Man>
    ensures { IfSome result (IsLonePiece class) }
{
    let man = lone_man(class)?;
    match man.kind {
        Kind::K | Kind::P => None,
        _ => Some(man),
    }
}

/// As `filled_values`, of a class with one piece beside the kings. `None` of another.
fn values_by_rows(
    alloc: Global,
    class: Class,
    library: &Library,
    rounds: u32,
) -> Result<Option<(Table, Looks)>, AllocError>
    requires children { HasChildren (table_at library.now) class }
    ensures class { IfOk result (λ filled. IfSome filled (λ both. both.0.class ≡ class)) }
    ensures reach { IfOk result (λ filled. IfSome filled (λ both. both.0.reach ≡ None)) }
    ensures truth { IfOk result (λ filled. IfSome filled (λ both. IsTrueTable both.0)) }
    ensures few { IfOk result (λ filled. IfSome filled (λ both. both.1.taken ≤ rounds * both.1.items)) }
{
    rules_are_kept_by_true_tables_alone();
    children_have_smaller_numbers();
    children_are_true(class, library);
    let Some(man) = lone_piece(class) else {
        return Ok(None);
    };
    let mate = drawn_column(alloc, class)?;
    let zeroing = drawn_column(alloc, class)?;
    let (mate, zeroing) = (Ranks::from_entries(mate), Ranks::from_entries(zeroing));
    let Ok(mut table) = Table::from_ranks(class, mate, zeroing) else {
        unreachable!()
    };
    let _begun = table.class();
    let f = LoneFilling {
        library,
        part: Part::Values,
        man,
    };
    let Some(looks) = mend_lone_rows(&f, &mut table, rounds) else {
        return Ok(None);
    };
    let _class = table.class();
    Ok(Some((table, looks)))
}

/// The table of a class with two men or a piece beside the kings, whose children have their tables in the library,
/// without the column of the nearest mates; and the looks that it took. `None` of another class, where bytes do not
/// tell its entries or those of a child, and where more than `rounds` rounds of looks are needed (`ROUNDS` are enough).
///
/// # Errors
///
/// `AllocError` only where a growth was refused.
pub fn filled_values(
    alloc: Global,
    class: Class,
    library: &Library,
    rounds: u32,
) -> Result<Option<(Table, Looks)>, AllocError>
    requires children { HasChildren (table_at library.now) class }
    ensures class { IfOk result (λ filled. IfSome filled (λ both. both.0.class ≡ class)) }
    ensures reach { IfOk result (λ filled. IfSome filled (λ both. both.0.reach ≡ None)) }
    ensures truth { IfOk result (λ filled. IfSome filled (λ both. IsTrueTable both.0)) }
    ensures few { IfOk result (λ filled. IfSome filled (λ both. both.1.taken ≤ rounds * both.1.items)) }
{
    rules_are_kept_by_true_tables_alone();
    children_have_smaller_numbers();
    children_are_true(class, library);
    let Some(filling) = filling_of(library, class, Part::Values) else {
        return values_by_rows(alloc, class, library, rounds);
    };
    let Some(mut found) = begun_values(alloc, class)? else {
        return Ok(None);
    };
    let Some(looks) = put_due(alloc, &filling, &mut found, rounds)? else {
        return Ok(None);
    };
    let table = found.into_table();
    let _class = table.class();
    Ok(Some((table, looks)))
}

/// As `filled_reach`, of a class with one piece beside the kings. Another is not told.
fn reach_by_rows(alloc: Global, table: Table, library: &Library, rounds: u32) -> Reached
    requires truth { IsTrueTable table }
    requires lacks { table.reach ≡ None }
    requires children { HasChildren (table_at library.now) table.class }
    requires reach_children { HasReachChildren (table_at library.now) table.class }
    ensures { IsReached table result }
{
    kept_reaches_are_true();
    children_have_smaller_numbers();
    let class = table.class();
    children_are_true(class, library);
    let Some(man) = lone_piece(class) else {
        return Reached::Untold(table);
    };
    let Ok(entries) = drawn_column(alloc, class) else {
        return Reached::NoMemory(table);
    };
    let Ok(mut table) = table.with_reach(Nears::from_entries(entries)) else {
        unreachable!()
    };
    let _begun = table.class();
    let f = LoneFilling {
        library,
        part: Part::Reach,
        man,
    };
    let told = mend_lone_rows(&f, &mut table, rounds);
    let _class = table.class();
    match told {
        Some(_looks) => Reached::Filled(table),
        None => Reached::Untold(table.without_reach()),
    }
}

/// A true table with the column of the nearest mates too, where bytes tell it within so many rounds of looks; its other
/// columns are as before. Its class's children have their tables in the library, with that column.
pub fn filled_reach(alloc: Global, table: Table, library: &Library, rounds: u32) -> Reached
    requires truth { IsTrueTable table }
    requires lacks { table.reach ≡ None }
    requires children { HasChildren (table_at library.now) table.class }
    requires reach_children { HasReachChildren (table_at library.now) table.class }
    ensures { IsReached table result }
{
    kept_reaches_are_true();
    children_have_smaller_numbers();
    let class = table.class();
    children_are_true(class, library);
    let Some(filling) = filling_of(library, class, Part::Reach) else {
        return reach_by_rows(alloc, table, library, rounds);
    };
    let scores = match ScoreRows::drawn(alloc, class) {
        Ok(Some(scores)) => scores,
        Ok(None) => return Reached::Untold(table),
        Err(_refused) => return Reached::NoMemory(table),
    };
    let mut found = match with_drawn_reach(alloc, table, scores) {
        Ok(found) => found,
        Err(table) => return Reached::NoMemory(table),
    };
    let told = put_due(alloc, &filling, &mut found, rounds);
    let table = found.into_table();
    let _class = table.class();
    match told {
        Ok(Some(_looks)) => Reached::Filled(table),
        Ok(None) => Reached::Untold(table.without_reach()),
        Err(_refused) => Reached::NoMemory(table.without_reach()),
    }
}
