//! Laws of moves backwards. These functions do nothing: a caller calls one to know what it ensures.
ghost use Rattle.std.specs.Prelude.{◌≡◌, ◌<◌, ℕ, Bool};
ghost use Rattle.egt_unmoves.specs.Prelude.{AreImages, Setup, IsAdmissible, KeepsPlay, IsTurnedBy, Move, ComesBy};
ghost use Rattle.egt_unmoves.specs.Prelude.{IsUnmove, Unmove};

use egt_board::laws::{
    images_are_turns, images_keep_men, images_settle_alike, positions_settle_once, turns_make_one,
};
use egt_moves::laws::{images_keep_steps, moves_lead_to_one};

/// The unmoves of an image of a position are the images of the position's unmoves: each unmove, turned as the position
/// is, is one of the image's. Since a position is an image of its image, there are no others.
pub fn images_have_like_unmoves()
    ensures turns { (n : ℕ) (flipped : Bool) (q q' : Setup) (u : Unmove) → n < 8 → KeepsPlay n q.men →
        IsTurnedBy n flipped q q' → IsUnmove q u →
        (w : Unmove) × IsUnmove q' w × IsTurnedBy n flipped u.before w.before × (w.pawn ≡ u.pawn) }
    ensures images { (q q' : Setup) (u : Unmove) → IsAdmissible q → AreImages q q' → IsUnmove q u →
        (w : Unmove) × IsUnmove q' w × AreImages u.before w.before × (w.pawn ≡ u.pawn) }
{
    images_are_turns();
    turns_make_one();
    images_keep_men();
    positions_settle_once();
    images_settle_alike();
    images_keep_steps();
    moves_lead_to_one();
}

/// No position comes to another by two moves, and an unmove takes one back.
pub fn unmoves_take_one_move_back()
    ensures one { (b q : Setup) (m n : Move) → ComesBy b m q → ComesBy b n q → m ≡ n }
    ensures within { (b q : Setup) (m : Move) → ComesBy b m q → (m.from < 64) × (m.to < 64) }
{}
