//! Which squares a side attacks, and where a man shields another from attacks: FIDE Laws of Chess 2023, articles
//! 3.1.3 and 3.9.
ghost use Rattle.std.specs.Prelude.{◌≡◌, ◌≢◌, ℕ, ◌<◌, ◌↔◌};
ghost use Rattle.egt_board.specs.Prelude.{bit_at, IsAttacked, AttacksFrom, king_of, IsOccupied, Reaches, Placement};
ghost use Rattle.egt_board.specs.Prelude.{Stands, IsFree, IsKeptFrom, IsSeenAs, StopsSlot, Has, Man, Side};
ghost use Rattle.std.specs.FinMap as map;

use crate::attack_lines;
use crate::board::{Board, Slot};
use crate::man::{Man, Side};
use crate::square::Square;
use crate::square_set::SquareSet;

/// What the slot's man attacks, if it is that side's, where these squares are occupied.
fn attacked_by(slot: &Slot, side: Side, occupied: SquareSet) -> SquareSet
    ensures { (t : ℕ) → t < 64 → Has result t ↔ AttacksFrom (λ u. bit_at occupied.bits u ≡ 0) side t slot.now }
{
    let Some(placed) = slot else {
        return SquareSet::EMPTY;
    };
    if placed.1.side == side {
        attack_lines::reach(placed.1, placed.0, occupied)
    } else {
        SquareSet::EMPTY
    }
}

/// The squares to which a man of the other side may come so that the slot's man, if it is that side's, does not attack
/// `to`: all where it does not attack it now, else its own square and those between.
fn stops(slot: &Slot, side: Side, to: Square, occupied: SquareSet) -> SquareSet
    ensures { (t : ℕ) → t < 64 → Has result t ↔ StopsSlot occupied.bits side to t slot.now }
{
    let Some(placed) = slot else {
        return SquareSet::ALL;
    };
    if placed.1.side == side {
        attack_lines::stops(placed.1, placed.0, to, occupied)
    } else {
        SquareSet::ALL
    }
}

impl Board {
    /// The squares that men of that side attack once the man on `lifted`, if there is one, is taken off: none of
    /// theirs. All men stand on the squares of `all`.
    pub fn danger_without(&self, side: Side, lifted: Square, all: SquareSet) -> SquareSet
        requires lifted { (man : Man) → Stands self.now lifted man → man.side ≢ side }
        requires all { IsOccupied self.now all }
        ensures { (t : ℕ) → t < 64 → Has result t ↔ IsAttacked (map.remove self.now lifted) t side }
    {
        let occupied = all.without(lifted);
        let first = attacked_by(&self.first, side, occupied);
        let second = attacked_by(&self.second, side, occupied);
        let third = attacked_by(&self.third, side, occupied);
        let fourth = attacked_by(&self.fourth, side, occupied);
        first.union(second).union(third.union(fourth))
    }

    /// The squares to which a man of the other side may come so that no man of that side attacks `to`, where these
    /// squares are occupied.
    fn shelter_among(&self, to: Square, side: Side, occupied: SquareSet) -> SquareSet
        ensures { (men : Placement) → IsSeenAs self.now side occupied.bits men →
            (t : ℕ) (newcomer : Man) → t < 64 → newcomer.side ≢ side →
            Has result t ↔ IsKeptFrom men t newcomer to side }
    {
        let first = stops(&self.first, side, to, occupied);
        let second = stops(&self.second, side, to, occupied);
        let third = stops(&self.third, side, to, occupied);
        let fourth = stops(&self.fourth, side, to, occupied);
        first
            .intersection(second)
            .intersection(third.intersection(fourth))
    }

    /// The squares to which a man of the other side may come so that no man of that side attacks `to`.
    pub fn shelter(&self, to: Square, side: Side) -> SquareSet
        ensures { (t : ℕ) (newcomer : Man) → t < 64 → newcomer.side ≢ side →
            Has result t ↔ IsKeptFrom self.now t newcomer to side }
    {
        let occupied = self.occupied();
        self.shelter_among(to, side, occupied)
    }

    /// The squares to which a man of the other side may come so that no man of that side attacks `to`, once the man on
    /// `lifted`, none of that side's, is taken off. All men stand on the squares of `all`.
    pub fn shelter_without(
        &self,
        to: Square,
        side: Side,
        lifted: Square,
        all: SquareSet,
    ) -> SquareSet
        requires lifted { (man : Man) → Stands self.now lifted man → man.side ≢ side }
        requires all { IsOccupied self.now all }
        ensures { (t : ℕ) (newcomer : Man) → t < 64 → newcomer.side ≢ side →
            Has result t ↔ IsKeptFrom (map.remove self.now lifted) t newcomer to side }
    {
        self.shelter_among(to, side, all.without(lifted))
    }
}

/// Whether a side attacks a square does not depend on what of the other side's stands there. This function does
/// nothing: a caller calls it to know what it ensures.
pub fn attacks_pass_over_no_occupant()
    ensures { (men : Placement) (t : ℕ) (side : Side) (occupant : Man) → occupant.side ≢ side
        → IsAttacked (map.insert men t occupant) t side ↔ IsAttacked men t side }
{}

/// A king attacks another's square exactly where that one attacks his: kings are next to each other or not. This
/// function does nothing: a caller calls it to know what it ensures.
#[tactic(auto, using(crate::proofs::TouchingKings::reached_back))]
pub fn kings_attack_each_other()
    ensures { (men others : Placement) (side other : Side) (s t : ℕ) → s < 64
        → Reaches (IsFree men) (king_of side) s t → Reaches (IsFree others) (king_of other) t s }
{}

/// Whether a man attacks a square does not depend on what stands there. This function does nothing: a caller calls it
/// to know what it ensures.
pub fn reach_passes_over_its_end()
    ensures { (men : Placement) (man occupant : Man) (s t : ℕ)
        → Reaches (IsFree (map.insert men t occupant)) man s t ↔ Reaches (IsFree men) man s t }
{}
