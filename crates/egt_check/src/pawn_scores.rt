//! The greatest scores of the moves of pawns beside two kings who stand on two squares.
ghost use Rattle.std.specs.Prelude.{◌≡◌, ◌<◌, ℕ, false, true, IfSome};
ghost use Rattle.egt_check.specs.Prelude.{AreMenOf, at, HasColumn, men_after, AreStill, AreAdvanceScores};
ghost use Rattle.egt_check.specs.Prelude.{AreOwnPawnMoves, ArePromotionScores, ArePromotionsOf, IsBestPromotion};
ghost use Rattle.egt_check.specs.Prelude.{IsPromotionOf, IsPromotionScore, ScoresNoVoids, column_score};

use crate::own::Own;
use crate::table_scores::TableScores;
use egt_blocks::advance_blocks::{leap_block, promoting_block, promotion_block, step_block};
use egt_blocks::blocks::nothing;
use egt_blocks::men::{are_equal, men_swapped};
use egt_blocks::own_men::{is_of, is_pawn, is_pawn_of};
use egt_board::{Kind, Man, Side};
use egt_index::ShelfMen;
use egt_index::men::has_equal_sides;
use egt_lanes::Block;
use egt_lanes::block::{raise_to_max, raise_transposed};
use egt_table::{Column, Table};

/// The tables of the classes that a pawn's promotion to one kind leads to, each with whether colours are exchanged
/// there.
#[derive(Clone, Copy)]
pub struct Promotion<'t> {
    pub kind: Kind,
    /// Where the other man stays.
    pub both: &'t Table,
    pub both_flips: bool,
    /// Whether that class names the pawn's new man before the other one.
    pub before: bool,
    /// Where the other man was taken.
    pub alone: &'t Table,
    pub alone_flips: bool,
}

/// The promotion to each kind.
#[derive(Clone, Copy)]
pub struct Promotions<'t> {
    pub queen: Promotion<'t>,
    pub rook: Promotion<'t>,
    pub bishop: Promotion<'t>,
    pub knight: Promotion<'t>,
}

/// Raises the scores to those of the positions after a promotion of the last man, a pawn of that side. False where a
/// table does not tell.
fn raise_promotion(
    promotion: &Promotion,
    column: Column,
    men: &ShelfMen,
    side: Side,
    out: &mut Block,
) -> bool
    requires of { IsPromotionOf column promotion.now men.now }
    requires mine { men.now.last.side ≡ side }
    ensures { result ≡ true → (a b : ℕ) → a < 64 → b < 64 →
        IsPromotionScore column promotion.now men.now side a b (at out.old a b) (at out.new a b) }
{
    let man = Man {
        side,
        kind: promotion.kind,
    };
    let mut scores = nothing();
    if !promotion_block(
        &TableScores {
            table: promotion.both,
        },
        column,
        promotion.before,
        promotion.both_flips,
        men,
        man,
        &mut scores,
    ) {
        return false;
    }
    raise_to_max(out, &scores);
    if !promoting_block(
        &TableScores {
            table: promotion.alone,
        },
        column,
        promotion.alone_flips,
        men,
        man,
        &mut scores,
    ) {
        return false;
    }
    raise_to_max(out, &scores);
    true
}

/// Raises the scores to those of the positions after all promotions of the last man, a pawn of that side. False where a
/// table does not tell.
fn raise_promotions(
    promotions: &Promotions,
    column: Column,
    men: &ShelfMen,
    side: Side,
    out: &mut Block,
) -> bool
    requires of { ArePromotionsOf column promotions.now men.now }
    requires mine { men.now.last.side ≡ side }
    ensures { result ≡ true → (a b : ℕ) → a < 64 → b < 64 →
        ArePromotionScores column promotions.now men.now side a b (at out.old a b) (at out.new a b) }
{
    if !raise_promotion(&promotions.queen, column, men, side, out) {
        return false;
    }
    if !raise_promotion(&promotions.rook, column, men, side, out) {
        return false;
    }
    if !raise_promotion(&promotions.bishop, column, men, side, out) {
        return false;
    }
    raise_promotion(&promotions.knight, column, men, side, out)
}

/// The greatest scores of the positions after all promotions of the last man, where he is a pawn of that side. False
/// where a table does not tell.
pub(crate) fn promotions_block(
    promotions: &Option<Promotions>,
    column: Column,
    men: &ShelfMen,
    side: Side,
    out: &mut Block,
) -> bool
    requires { IfSome promotions.now (λ p. ArePromotionsOf column p men.now) }
    ensures { result ≡ true → (a b : ℕ) → a < 64 → b < 64 →
        IsBestPromotion column promotions.now men.now side a b (at out.new a b) }
{
    *out = nothing();
    if !is_pawn(men.last) || !is_of(men.last, side) {
        return true;
    }
    let Some(of_kinds) = promotions else {
        return false;
    };
    raise_promotions(of_kinds, column, men, side, out)
}

/// The greatest scores of the positions after all advances without promotion of the last man, who is its class's first
/// where `first`. False where the table does not tell.
fn advances_block(
    own: &Own,
    column: Column,
    first: bool,
    men: &ShelfMen,
    side: Side,
    still: &Block,
    out: &mut Block,
) -> bool
    requires there { HasColumn column own.now }
    requires voids { ScoresNoVoids own.now.class (column_score own.now column) }
    requires men { AreMenOf own.now.class (men_after first false men.now men.now.last) }
    requires still { AreStill own.now.class (column_score own.now column) first men.now side still.now }
    ensures { result ≡ true → (a b : ℕ) → a < 64 → b < 64 →
        AreAdvanceScores column own.now first men.now side a b (at out.new a b) }
{
    step_block(own, column, first, men, side, still, out);
    let mut leaps = nothing();
    if !leap_block(own, column, first, men, side, &mut leaps) {
        return false;
    }
    raise_to_max(out, &leaps);
    true
}

/// The greatest scores of the positions after all advances without promotion of both men, as far as they are pawns of
/// that side; `still` are the scores of the men where they stand, the other side to move. False where the table does
/// not tell.
pub fn own_pawn_moves(
    own: &Own,
    column: Column,
    men: &ShelfMen,
    side: Side,
    still: &Block,
    out: &mut Block,
) -> bool
    requires there { HasColumn column own.now }
    requires voids { ScoresNoVoids own.now.class (column_score own.now column) }
    requires men { AreMenOf own.now.class men.now }
    requires still { AreStill own.now.class (column_score own.now column) false men.now side still.now }
    ensures { result ≡ true → (a b : ℕ) → a < 64 → b < 64 →
        AreOwnPawnMoves column own.now men.now side a b (at out.new a b) }
{
    if !advances_block(own, column, false, men, side, still, out) {
        return false;
    }
    if !is_pawn_of(men.first, side) {
        return true;
    }
    // Equal men advance alike: in either order of the two the codes are the same.
    if are_equal(men) && !has_equal_sides(own.class()) {
        let copy = *out;
        raise_transposed(out, &copy);
        return true;
    }
    let mut still_across = nothing();
    raise_transposed(&mut still_across, still);
    let mut across = nothing();
    if !advances_block(
        own,
        column,
        true,
        &men_swapped(men),
        side,
        &still_across,
        &mut across,
    ) {
        return false;
    }
    raise_transposed(out, &across);
    true
}
