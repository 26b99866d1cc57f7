//! Positions looked up in tables.
ghost use Rattle.std.specs.Prelude.{◌↔◌, IsOk, IfOk, IfErr, IsSome, MatchBool, Some, is_some};
ghost use Rattle.egt_probe.specs.Prelude.{Setup, IsIndex, Value, HasValue, chess, SameKind, Leads, HasZeroing, Move};
ghost use Rattle.egt_probe.specs.Prelude.{Shows, IsTrueTable, IsLoaded, IsMissing, ShowsValue, loaded_in, IsVerdict};
ghost use Rattle.egt_probe.specs.Prelude.{IsWithin, TellsDead, mate_value, zeroing_value};

use crate::facts::facts;
use crate::outcome::{Missing, Outcome, Verdict};
use egt_board::{Position, Side};
use egt_check::Library;
use egt_class::of;
use egt_index::index;
use egt_moves::{Standing, standing};
use egt_table::{Column, Table};

/// The entry of a dead position in the column of the nearest mates.
const DEAD: u16 = 1;

/// The outcome that the entries of the columns of mates and of zeroing moves show of a position with that side to move.
/// They do not tell which draws are dead.
fn outcome_shown(side: Side, mate: u16, zeroing: u16) -> Outcome
    requires { (v : Value) × (w : Value) × Shows mate v × Shows zeroing w × SameKind v w }
    ensures mate { Shows mate (mate_value side result) }
    ensures zeroing { Shows zeroing (zeroing_value side result) }
    ensures within { IsWithin result }
{
    if mate == 1 {
        return Outcome::Draw;
    }
    let winner = if mate % 2 == 0 { side } else { side.other() };
    Outcome::Decided {
        winner,
        plies: mate / 2 - 1,
        zeroing: zeroing / 2 - 1,
    }
}

/// The outcome of the position, whose index this is, by the two columns that each table has. They do not tell which
/// draws are dead.
fn decided_or_drawn(table: &Table, index: u32, position: &Position) -> Outcome
    requires truth { IsTrueTable table.now }
    requires index { IsIndex table.now.class position.now index }
    ensures mate { HasValue chess position.now (mate_value position.now.side result) }
    ensures zeroing { HasZeroing chess position.now (zeroing_value position.now.side result) }
    ensures within { IsWithin result }
{
    facts();
    let mate = table.entry(Column::Mate, index);
    let zeroing = table.entry(Column::Zeroing, index);
    outcome_shown(position.side(), mate, zeroing)
}

/// Whether the position, whose index this is, is dead and has a legal move, as far as the table tells: `false` where it
/// lacks the column of the nearest mates.
fn is_dead(table: &Table, index: u32, position: &Position) -> bool
    requires truth { IsTrueTable table.now }
    requires index { IsIndex table.now.class position.now index }
    ensures { let column = Some (is_some table.now.reach) in
        MatchBool result (TellsDead column position.now Outcome.Dead) (TellsDead column position.now Outcome.Draw) }
{
    facts();
    let _side = position.side();
    if !table.has_reach() {
        return false;
    }
    if table.entry(Column::Reach, index) != DEAD {
        return false;
    }
    matches!(standing(position), Standing::HasMove)
}

/// The outcome of the position, whose index this is, by all columns of the table.
fn outcome_at(table: &Table, index: u32, position: &Position) -> Outcome
    requires truth { IsTrueTable table.now }
    requires index { IsIndex table.now.class position.now index }
    ensures mate { HasValue chess position.now (mate_value position.now.side result) }
    ensures zeroing { HasZeroing chess position.now (zeroing_value position.now.side result) }
    ensures dead { TellsDead (Some (is_some table.now.reach)) position.now result }
    ensures within { IsWithin result }
{
    let shown = decided_or_drawn(table, index, position);
    if let Outcome::Decided { .. } = shown {
        return shown;
    }
    if is_dead(table, index, position) {
        Outcome::Dead
    } else {
        Outcome::Draw
    }
}

/// The class of the position and its outcome: who forces checkmate, in how many plies, and in how many a capture, a
/// move of a pawn or checkmate, or that nobody does. Where the table has the column of the nearest mates, it also tells
/// which draws with a legal move are dead. It takes no memory.
///
/// # Errors
///
/// `Missing` with the position's class where the library has no table of it.
pub fn verdict(library: &Library, position: &Position) -> Result<Verdict, Missing>
    ensures verdict { IfOk result (λ v. IsVerdict (loaded_in library.now) position.now v) }
    ensures within { IfOk result (λ v. IsWithin v.value) }
    ensures there { IfOk result (λ v. IsSome (loaded_in library.now v.class)) }
    ensures missing { IfErr result (λ missing. IsMissing (loaded_in library.now) position.now missing.class) }
    ensures exact { IsOk result ↔ IsLoaded (loaded_in library.now) position.now }
{
    facts();
    let (class, _) = of(position);
    let _number = class.number();
    let Some(table) = library.get(class) else {
        return Err(Missing { class });
    };
    let index = index(class, position);
    let value = outcome_at(table, index, position);
    Ok(Verdict { class, value })
}

/// The entry of a position in the mate column of its class.
pub(crate) fn mate_entry(library: &Library, position: &Position) -> u16
    requires { IsLoaded (loaded_in library.now) position.now }
    ensures { ShowsValue position.now result }
{
    facts();
    let (class, _) = of(position);
    let _number = class.number();
    let _side = position.side();
    let table = library.get(class).unwrap();
    let index = index(class, position);
    table.entry(Column::Mate, index)
}

/// Each move leads to a position whose class is loaded too.
pub(crate) fn moves_stay_loaded(library: &Library, position: &Position)
    requires { IsLoaded (loaded_in library.now) position.now }
    ensures { (m : Move) (q : Setup) → Leads position.now m q → IsLoaded (loaded_in library.now) q }
{
    facts();
    let (class, _) = of(position);
    let _number = class.number();
    let _side = position.side();
    let _table = library.get(class).unwrap();
}
