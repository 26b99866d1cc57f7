//! How many of each man stand on a board. These functions do nothing: a caller calls one to know what it ensures.
ghost use Rattle.std.specs.Prelude.{◌≡◌, ◌+◌, ◌<◌, ℕ, Some, count_by};
ghost use Rattle.egt_board.specs.Prelude.{Side, Man, Placement, Stands, king_of, IsKingOn, count_of, stands_here};
ghost use Rattle.egt_board.specs.Prelude.{is_man};
ghost use Rattle.std.specs.FinMap as placement;

/// The men on the board's squares are those of its list.
pub fn listed_men_are_counted()
    ensures { (men : Placement) → ((s : ℕ) (man : Man) → Stands men s man → s < 64) → (man : Man) →
        count_of men man ≡ count_by (is_man man) (placement.values men) }
{}

/// What comes to a square is one man more, and what stood there one less.
pub fn one_square_changes()
    ensures put { (men : Placement) (s : ℕ) (other man : Man) → s < 64 →
        count_of (placement.insert men s other) man + stands_here man (placement.get men s)
        ≡ count_of men man + stands_here man (Some other) }
    ensures cleared { (men : Placement) (s : ℕ) (man : Man) → s < 64 →
        count_of (placement.remove men s) man + stands_here man (placement.get men s) ≡ count_of men man }
{}

/// A side with one king has one.
#[tactic(auto, using(crate::proofs::ManCounts::king_counted))]
pub fn one_king_is_counted()
    ensures { (men : Placement) (side : Side) (s : ℕ) → s < 64 → IsKingOn men side s → count_of men (king_of side) ≡ 1 }
{}
