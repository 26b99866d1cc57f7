//! The builder of tables.
ghost use Rattle.std.specs.Prelude.{◌≡◌, ◌≤◌, ℕ, Some, length, IfOk, IfErr, IfSome, IsSome};
ghost use Rattle.egt_sweep.specs.Prelude.{AreNears, AreRanks, size_of, Mate, Zeroing, table_at, beside, HasChildren};
ghost use Rattle.egt_sweep.specs.Prelude.{HasReachChildren, IsTrueTable, AllWithinLimit, IsBuilt, IsNotBuilt};
ghost use Rattle.egt_sweep.specs.Prelude.{HasNoFalseChild, SomeReachesFar, class_game, mate_table, reach_game};

use crate::ROUNDS;
use crate::build_fault::BuildFault;
use crate::filled::filled;
use crate::laws::laws;
use crate::limit::within_limit;
use crate::mate_game::MateGame;
use crate::ranks::{
    mate_ranks_are_values, reach_numbers_are_the_nearest_mates, zeroing_ranks_are_distances,
};
use crate::reach_game::ReachGame;
use crate::zero_game::ZeroGame;
use egt_check::laws::rules_are_kept_by_true_tables_alone;
use egt_check::{Library, first_lacking, first_missing};
use egt_class::{Class, children};
use egt_graph::{Nears, Ranks, SolveFault, nearest, solve};
use egt_index::laws::a_class_without_pawns_has_none;
use egt_moves::laws::one_value;
use egt_table::Table;
use std::alloc::Global;

/// What the children's tables show is true. This does nothing: a library says so of each table that it hands out.
pub(crate) fn children_are_true(class: Class, library: &Library)
    ensures { HasNoFalseChild (table_at library.now) class }
{
    let children = children(class);
    for child in children.as_slice() {
        let _table = library.get(*child);
    }
}

/// The ranks of the class's game of mates.
fn mate_ranks(
    alloc: Global,
    class: Class,
    library: &Library,
    limit: u16,
) -> Result<Ranks, BuildFault>
    requires limit { limit ≤ 32000 }
    requires reach_children { HasReachChildren (table_at library.now) class }
    ensures ranks { IfOk result (AreRanks (class_game (table_at library.now) Mate class) limit) }
    ensures refused { IfErr result (IsNotBuilt (table_at library.now) class limit) }
{
    laws();
    mate_ranks_are_values();
    children_are_true(class, library);
    let _number = class.number();
    let game = match MateGame::new(class, library) {
        Ok(game) => game,
        Err(missing) => return Err(BuildFault::from(missing)),
    };
    match solve(alloc, &game, limit) {
        Ok(ranks) => Ok(ranks),
        Err(SolveFault::NoMemory) => Err(BuildFault::NoMemory),
        Err(SolveFault::TooDeep) => Err(BuildFault::TooDeep(limit)),
    }
}

/// The ranks of its game of zeroing moves. None is above the limit, since none is above the mate rank. Two kings alone
/// have one game, since no move of theirs zeroes.
fn zeroing_ranks<'x>(
    alloc: Global,
    class: Class,
    library: &'x Library,
    mates: &'x Ranks,
    limit: u16,
) -> Result<Ranks, BuildFault>
    requires limit { limit ≤ 32000 }
    requires children { HasChildren (table_at library.now) class }
    requires reach_children { HasReachChildren (table_at library.now) class }
    requires mates { AreRanks (class_game (table_at library.now) Mate class) limit mates.now }
    ensures ranks { IfOk result (AreRanks (class_game
        (beside (table_at library.now) (mate_table class mates.now)) Zeroing class) limit) }
    ensures refused { IfErr result (IsNotBuilt (table_at library.now) class limit) }
{
    laws();
    mate_ranks_are_values();
    zeroing_ranks_are_distances();
    children_are_true(class, library);
    if class.number() == 0 {
        a_class_without_pawns_has_none();
        return match Vec::from_slice(alloc, mates.entries()) {
            Ok(entries) => Ok(Ranks::from_entries(entries)),
            Err(_refused) => Err(BuildFault::NoMemory),
        };
    }
    let game = match ZeroGame::new(class, library, mates) {
        Ok(game) => game,
        Err(missing) => return Err(BuildFault::from(missing)),
    };
    match solve(alloc, &game, limit) {
        Ok(ranks) => Ok(ranks),
        Err(SolveFault::NoMemory) => Err(BuildFault::NoMemory),
        Err(SolveFault::TooDeep) => unreachable!(),
    }
}

/// Both columns of values.
fn value_columns(
    alloc: Global,
    class: Class,
    library: &Library,
    limit: u16,
) -> Result<(Ranks, Ranks), BuildFault>
    requires limit { limit ≤ 32000 }
    requires children { HasChildren (table_at library.now) class }
    requires reach_children { HasReachChildren (table_at library.now) class }
    ensures mates { IfOk result (λ columns. AreRanks (class_game (table_at library.now) Mate class) limit columns.0) }
    ensures zeroing { IfOk result (λ columns. AreRanks
        (class_game (beside (table_at library.now) (mate_table class columns.0)) Zeroing class) limit columns.1) }
    ensures refused { IfErr result (IsNotBuilt (table_at library.now) class limit) }
{
    let mates = mate_ranks(alloc, class, library, limit)?;
    let zeroing = zeroing_ranks(alloc, class, library, &mates, limit)?;
    Ok((mates, zeroing))
}

/// The table of these columns, where each is as long as the class asks.
fn joined(class: Class, mates: Ranks, zeroing: Ranks, nears: Nears) -> Option<Table>
    ensures table { IfSome result (λ t. t ≡ record
        { class = class; mate = mates; zeroing = zeroing; reach = Some nears }) }
    ensures exact { length mates ≡ size_of class → length zeroing ≡ size_of class → length nears ≡ size_of class →
        IsSome result }
{
    let table = Table::from_ranks(class, mates, zeroing).ok()?;
    table.with_reach(nears).ok()
}

/// The column of the nearest mates of a class.
pub(crate) fn reach_column(
    alloc: Global,
    class: Class,
    library: &Library,
) -> Result<Nears, SolveFault>
    requires children { HasChildren (table_at library.now) class }
    requires reach_children { HasReachChildren (table_at library.now) class }
    ensures nears { IfOk result (AreNears (reach_game (table_at library.now) class)) }
    ensures too_deep { result ≡ Err SolveFault.TooDeep → SomeReachesFar class }
{
    laws();
    reach_numbers_are_the_nearest_mates();
    children_are_true(class, library);
    let _number = class.number();
    match ReachGame::new(class, library) {
        Ok(game) => nearest(alloc, &game),
        Err(_lacking) => unreachable!(),
    }
}

/// The column of the nearest mates, as a part of a build whose other columns are made.
fn reach_part(alloc: Global, class: Class, library: &Library) -> Result<Nears, BuildFault>
    requires children { HasChildren (table_at library.now) class }
    requires reach_children { HasReachChildren (table_at library.now) class }
    ensures nears { IfOk result (AreNears (reach_game (table_at library.now) class)) }
    ensures refused { (limit : ℕ) → AllWithinLimit class limit →
        IfErr result (IsNotBuilt (table_at library.now) class limit) }
{
    match reach_column(alloc, class, library) {
        Ok(nears) => Ok(nears),
        Err(SolveFault::NoMemory) => Err(BuildFault::NoMemory),
        Err(SolveFault::TooDeep) => Err(BuildFault::TooDeep(32_000)),
    }
}

/// The table by the class's games, each solved by moves backward.
fn solved(alloc: Global, class: Class, library: &Library, limit: u16) -> Result<Table, BuildFault>
    requires limit { limit ≤ 32000 }
    requires children { HasChildren (table_at library.now) class }
    requires reach_children { HasReachChildren (table_at library.now) class }
    ensures built { IfOk result (IsBuilt (table_at library.now) class limit) }
    ensures refused { IfErr result (IsNotBuilt (table_at library.now) class limit) }
{
    laws();
    mate_ranks_are_values();
    zeroing_ranks_are_distances();
    reach_numbers_are_the_nearest_mates();
    rules_are_kept_by_true_tables_alone();
    one_value();
    children_are_true(class, library);
    let _number = class.number();
    let columns = value_columns(alloc, class, library, limit)?;
    let nears = reach_part(alloc, class, library)?;
    match joined(class, columns.0, columns.1, nears) {
        Some(table) => Ok(table),
        None => unreachable!(),
    }
}

/// The table that was filled, a true one, unless one of its mates takes more plies than the limit.
fn kept(table: Table, class: Class, library: &Library, limit: u16) -> Result<Table, BuildFault>
    requires limit { limit ≤ 32000 }
    requires children { HasChildren (table_at library.now) class }
    requires reach_children { HasReachChildren (table_at library.now) class }
    requires class { table.class ≡ class }
    requires reach { IsSome table.reach }
    requires truth { IsTrueTable table }
    ensures built { IfOk result (IsBuilt (table_at library.now) class limit) }
    ensures refused { IfErr result (IsNotBuilt (table_at library.now) class limit) }
{
    laws();
    rules_are_kept_by_true_tables_alone();
    children_are_true(class, library);
    let _class = table.class();
    within_limit(table, limit)
}

/// As `build`, where a class of two men or a piece beside the kings is filled within so many rounds of looks; where
/// these are too few, it is solved as the others are.
///
/// # Errors
///
/// As those of `build`.
pub fn build_within(
    alloc: Global,
    class: Class,
    library: &Library,
    limit: u16,
    rounds: u32,
) -> Result<Table, BuildFault>
    requires { limit ≤ 32000 }
    ensures built { IfOk result (IsBuilt (table_at library.now) class limit) }
    ensures refused { IfErr result (IsNotBuilt (table_at library.now) class limit) }
{
    if let Some(child) = first_missing(class, library) {
        return Err(BuildFault::Missing(child));
    }
    if let Some(child) = first_lacking(class, library) {
        return Err(BuildFault::NoReach(child));
    }
    match filled(alloc, class, library, rounds)? {
        Some(table) => kept(table, class, library, limit),
        None => solved(alloc, class, library, limit),
    }
}

/// The table of a class whose children have their tables in the library, each with the column of the nearest mates,
/// with no mate distance above `limit`, which is at most 32,000. A class of two men beside the kings is filled by
/// blocks, one of a piece by rows, another by retrograde analysis (Thompson 1986). No check is run, and none is needed:
/// every entry is true, and the library takes the table unless it has one of the class.
///
/// # Errors
///
/// `Missing` with the least child that has no table; else `NoReach` with the least child whose table lacks that column;
/// else `NoMemory` where a growth was refused, and `TooDeep` with the limit where some position of the class has a mate
/// distance above it, or with 32,000 where none has and the nearest mate of some position is farther away than 32,000
/// plies.
pub fn build(
    alloc: Global,
    class: Class,
    library: &Library,
    limit: u16,
) -> Result<Table, BuildFault>
    requires { limit ≤ 32000 }
    ensures built { IfOk result (IsBuilt (table_at library.now) class limit) }
    ensures refused { IfErr result (IsNotBuilt (table_at library.now) class limit) }
{
    build_within(alloc, class, library, limit, ROUNDS)
}
