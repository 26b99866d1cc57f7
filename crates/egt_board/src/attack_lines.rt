//! Attacks of a man past the men on the board: FIDE Laws of Chess 2023, articles 3.2 to 3.8.
ghost use Rattle.std.specs.Prelude.{◌≡◌, ℕ, ◌<◌, ◌≤◌, ◌↔◌, IsTrue};
ghost use Rattle.egt_board.specs.Prelude.{bit_at, IsBetween, Reaches, Rides, Stops, Has, size_of, most_reached};

use crate::lookup::{behind, between, lone_reach};
use crate::man::Man;
use crate::square::Square;
use crate::square_set::SquareSet;
use crate::step::Step;

/// The squares along one step from `from`, at most `most` times and up to the first occupied square.
pub(crate) fn ride(from: Square, step: Step, most: u8, occupied: SquareSet) -> SquareSet
    requires wide { step.wide < 8 }
    requires high { step.high < 8 }
    requires most { most < 8 }
    ensures { (t : ℕ) → t < 64 → Has result t ↔ Rides (λ u. bit_at occupied.bits u ≡ 0) most from t step }
{
    let mut reached = SquareSet::EMPTY;
    let mut at = from;
    for _count in 0..most {
        let Some(next) = at.stepped(step) else {
            return reached;
        };
        reached = reached.with(next);
        if occupied.contains(next) {
            return reached;
        }
        at = next;
    }
    reached
}

/// Of these squares the ones that no man on an occupied one of them hides from `from`.
fn seen(from: Square, squares: SquareSet, occupied: SquareSet) -> SquareSet
    ensures { (t : ℕ) → Has result t ↔ (Has squares t ×
        ((u : ℕ) → Has squares u → Has occupied u → ¬ IsBetween from t u)) }
{
    let mut left = squares;
    let mut blockers = squares.intersection(occupied);
    while let Some(blocker) = blockers.pop_first() {
        left = left.difference(behind(from, blocker));
    }
    left
}

/// The squares that this man on `from` attacks where these squares are occupied.
pub(crate) fn reach(man: Man, from: Square, occupied: SquareSet) -> SquareSet
    ensures { (t : ℕ) → t < 64 → Has result t ↔ Reaches (λ u. bit_at occupied.bits u ≡ 0) man from t }
{
    seen(from, lone_reach(man, from), occupied)
}

/// The squares that this man on `from` attacks where these squares are occupied; a man attacks but so many.
pub fn reach_past(man: Man, from: Square, occupied: SquareSet) -> SquareSet
    ensures reached { (t : ℕ) → t < 64 → Has result t ↔ Reaches (λ u. bit_at occupied.bits u ≡ 0) man from t }
    ensures few { size_of result ≤ most_reached man.kind }
{
    reach(man, from, occupied)
}

/// Whether this man on `from` attacks `to` where these squares are occupied.
pub(crate) fn attacks(man: Man, from: Square, to: Square, occupied: SquareSet) -> bool
    ensures { IsTrue result ↔ Reaches (λ u. bit_at occupied.bits u ≡ 0) man from to }
{
    lone_reach(man, from).contains(to) && between(from, to).intersection(occupied).is_empty()
}

/// The squares to which a man may come so that this man on `from`, which it takes or whose line it crosses, does not
/// attack `to` where these squares are occupied.
pub fn stops(man: Man, from: Square, to: Square, occupied: SquareSet) -> SquareSet
    ensures { (t : ℕ) → t < 64 → Has result t ↔ Stops occupied.bits man from to t }
{
    if attacks(man, from, to, occupied) {
        between(from, to).with(from)
    } else {
        SquareSet::ALL
    }
}
