//! The squares to which legal moves go: FIDE Laws of Chess 2023, articles 3.1 to 3.9.
ghost use Rattle.std.specs.Prelude.{◌≡◌, ◌≢◌, ℕ, ◌<◌, ◌≤◌, ◌↔◌, Some, IsTrue, IfSome, IfNone};
ghost use Rattle.egt_moves.specs.Prelude.{IsAttacked, IsInCheck, IsOccupancy, other_side, Stands, IsKeptFrom};
ghost use Rattle.egt_moves.specs.Prelude.{IsAdmissible, IsKingOn, Has, size_of, K, P, Man, Goes, men_after, plain};
ghost use Rattle.egt_moves.specs.Prelude.{most_goals, IsLegalTarget, IsSafeGoal};
ghost use Rattle.std.specs.FinMap as map;

use crate::going::{is_safe, targets};
use egt_board::safety::{attacks_pass_over_no_occupant, kings_attack_each_other};
use egt_board::{Kind, Man, Occupancy, Position, Square, SquareSet};

/// The squares that the enemy attacks once the man on `from`, one of the side to move, is lifted.
fn danger(position: &Position, occupancy: Occupancy, from: Square) -> SquareSet
    requires occupancy { IsOccupancy position.now occupancy }
    requires mine { (man : Man) → Stands position.now.men from man → man.side ≡ position.now.side }
    ensures attacked { (t : ℕ) → t < 64 →
        Has result t ↔ IsAttacked (map.remove position.now.men from) t (other_side position.now.side) }
    ensures admissible { IsAdmissible position.now }
{
    let enemy = position.side().other();
    position
        .board()
        .danger_without(enemy, from, occupancy.occupied())
}

/// Is this the only square of the camp?
fn is_lone(camp: SquareSet, king: Square) -> bool
    ensures { IsTrue result → (t : ℕ) → Has camp t → t ≡ king }
{
    camp.without(king).is_empty()
}

/// The squares to which this man, lifted from `from`, may come so that the enemy does not attack `king`: all of them
/// where the enemy has his king alone.
fn shelter(
    position: &Position,
    occupancy: Occupancy,
    man: Man,
    from: Square,
    king: Square,
) -> SquareSet
    requires occupancy { IsOccupancy position.now occupancy }
    requires stands { Stands position.now.men from man }
    requires mine { man.side ≡ position.now.side }
    requires home { IsKingOn position.now.men position.now.side king }
    ensures kept { (t : ℕ) → t < 64 → Has result t ↔ IsKeptFrom (map.remove position.now.men from) t man king
        (other_side position.now.side) }
    ensures admissible { IsAdmissible position.now }
{
    let enemy = position.side().other();
    if is_lone(occupancy.enemy, position.king(enemy)) {
        kings_attack_each_other();
        return SquareSet::ALL;
    }
    position
        .board()
        .shelter_without(king, enemy, from, occupancy.occupied())
}

/// Of these squares the ones to which the king on `from` may go without being attacked there.
fn king_goals(
    position: &Position,
    occupancy: Occupancy,
    man: Man,
    from: Square,
    goals: SquareSet,
) -> SquareSet
    requires occupancy { IsOccupancy position.now occupancy }
    requires stands { Stands position.now.men from man }
    requires mine { man.side ≡ position.now.side }
    requires king { man.kind ≡ K }
    requires goes { (t : ℕ) → Has goals t ↔ Goes position.now man from t }
    ensures safe { (t : ℕ) → Has result t ↔ IsSafeGoal position.now man from t }
    ensures few { size_of result ≤ size_of goals }
{
    attacks_pass_over_no_occupant();
    goals.difference(danger(position, occupancy, from))
}

/// The target, where the man goes there as a pawn that takes in passing.
fn passing_goal(position: &Position, man: Man, goals: SquareSet) -> Option<Square>
    ensures some { IfSome result (λ t. (man.kind ≡ P) × (position.now.target ≡ Some t) × Has goals t) }
    ensures none { IfNone result ((t : ℕ) → Has goals t → man.kind ≡ P → position.now.target ≢ Some t) }
{
    let target = position.target()?;
    match man.kind {
        Kind::P => {
            if goals.contains(target) {
                Some(target)
            } else {
                None
            }
        }
        _ => None,
    }
}

/// The squares where the man that went there from `from` shields its king, or there is nothing to be shielded from.
fn shields(
    position: &Position,
    occupancy: Occupancy,
    man: Man,
    from: Square,
    goals: SquareSet,
) -> SquareSet
    requires occupancy { IsOccupancy position.now occupancy }
    requires stands { Stands position.now.men from man }
    requires mine { man.side ≡ position.now.side }
    requires other { man.kind ≡ K → ⊥ }
    requires goes { (t : ℕ) → Has goals t ↔ Goes position.now man from t }
    ensures { (t : ℕ) → Goes position.now man from t →
        Has result t ↔ ¬ IsInCheck (men_after position.now man (plain from t)) position.now.side }
{
    let shelter = shelter(position, occupancy, man, from, position.king(man.side));
    let Some(target) = passing_goal(position, man, goals) else {
        return shelter;
    };
    // The pawn that has just passed is gone too, so this one move is played out.
    shelter.set(target, is_safe(position, man, from, target))
}

/// The squares to which the man on `from`, one of the side to move, legally goes.
pub(crate) fn legal_goals(
    position: &Position,
    occupancy: Occupancy,
    man: Man,
    from: Square,
) -> SquareSet
    requires occupancy { IsOccupancy position.now occupancy }
    requires stands { Stands position.now.men from man }
    requires mine { man.side ≡ position.now.side }
    ensures safe { (t : ℕ) → Has result t ↔ IsSafeGoal position.now man from t }
    ensures few { size_of result ≤ most_goals man.kind }
{
    let goals = targets(position, occupancy, man, from);
    if man.kind == Kind::K {
        king_goals(position, occupancy, man, from, goals)
    } else {
        goals.intersection(shields(position, occupancy, man, from, goals))
    }
}

/// The squares to which a legal move of the man on `from` goes, one of the side to move: what `legal_targets` answers,
/// where the caller knows the man and the squares of either side's men.
pub fn legal_targets_of(
    position: &Position,
    occupancy: Occupancy,
    man: Man,
    from: Square,
) -> SquareSet
    requires occupancy { IsOccupancy position.now occupancy }
    requires stands { Stands position.now.men from man }
    requires mine { man.side ≡ position.now.side }
    ensures legal { (t : ℕ) → Has result t ↔ IsLegalTarget position.now from t }
    ensures few { size_of result ≤ most_goals man.kind }
{
    let _side = position.side();
    legal_goals(position, occupancy, man, from)
}

/// The squares to which a legal move goes from this one; none where no man of the side to move stands.
pub fn legal_targets(position: &Position, from: Square) -> SquareSet
    ensures legal { (t : ℕ) → Has result t ↔ IsLegalTarget position.now from t }
    ensures few { (man : Man) → Stands position.now.men from man → size_of result ≤ most_goals man.kind }
{
    let Some(man) = position.at(from) else {
        return SquareSet::EMPTY;
    };
    if man.side == position.side() {
        legal_goals(position, position.occupancy(), man, from)
    } else {
        SquareSet::EMPTY
    }
}
