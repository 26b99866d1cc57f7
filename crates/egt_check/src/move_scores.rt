//! The greatest scores of the moves of a side with two men beside the kings, who stand on two squares.
ghost use Rattle.std.specs.Prelude.{◌≡◌, ◌<◌, max, ℕ, false, true};
ghost use Rattle.egt_check.specs.Prelude.{P, other_side, AreMenOf, at, IsRaised, zeroing_score, HasColumn, AreKept};
ghost use Rattle.egt_check.specs.Prelude.{ScoresNoVoids, AreChildren, AreFourMenTables, AreMoveScores};
ghost use Rattle.egt_check.specs.Prelude.{HoldsExits, HoldsPassing, AreOwnPawnMoves, IsBestPromotion, AreLeftCodes};
ghost use Rattle.egt_check.specs.Prelude.{men_swapped, column_score, ArePassingScores};
ghost use Rattle.egt_table.specs.declared.column.Column.TheVariants as columns;

use crate::found::Found;
use crate::own::Own;
use crate::part::Part;
use crate::pawn_scores::{Promotions, own_pawn_moves, promotions_block};
use crate::table_scores::TableScores;
use egt_blocks::blocks::nothing;
use egt_blocks::kept_blocks::{BlockKey, raise_kept};
use egt_blocks::men::{are_equal, men_swapped};
use egt_blocks::own_men::{is_of, is_pawn_of};
use egt_blocks::passing_blocks::passing_block;
use egt_blocks::quiet_blocks::quiet_block;
use egt_blocks::taken_blocks::taken_block;
use egt_board::Side;
use egt_index::ShelfMen;
use egt_lanes::Block;
use egt_lanes::block::{raise_to_max, raise_transposed};
use egt_lanes::row::greater;
use egt_lanes::score::zeroed;
use egt_table::{Column, Table};

/// The tables of the classes that captures and promotions of two men beside the kings lead to, each with whether
/// colours are exchanged there.
#[derive(Clone, Copy)]
pub struct Children<'t> {
    /// Where the first man is left.
    pub first: &'t Table,
    pub first_flips: bool,
    /// Where the last man is left.
    pub last: &'t Table,
    pub last_flips: bool,
    /// Where the first man, a pawn, is promoted.
    pub first_pawn: Option<Promotions<'t>>,
    /// Where the last man, a pawn, is promoted.
    pub last_pawn: Option<Promotions<'t>>,
}

/// The table of a class of two men beside the kings, and those of the classes that moves lead to which leave it.
#[derive(Drop)]
pub struct FourMenTables<'o, 't> {
    pub own: Own<'o>,
    pub children: Children<'t>,
}

/// The moves of a side with these men, and of which part their scores are asked.
#[derive(Clone, Copy)]
pub struct Moves<'m, 'o, 't> {
    pub four: &'m FourMenTables<'o, 't>,
    pub men: &'m ShelfMen,
    pub side: Side,
    pub part: Part,
}

/// The table of the class beside those of its children.
pub fn beside_own<'o, 't>(own: &'o Table, children: &Children<'t>) -> FourMenTables<'o, 't>
    ensures own { result.own ≡ own.now }
    ensures children { result.children ≡ children.now }
{
    FourMenTables {
        own: Own::of_table(own),
        children: *children,
    }
}

/// The entries that are being found beside the tables of the children.
pub fn beside_found<'o, 't>(own: &'o Found, children: &Children<'t>) -> FourMenTables<'o, 't>
    ensures own { result.own ≡ own.now }
    ensures children { result.children ≡ children.now }
{
    FourMenTables {
        own: Own::of_found(own),
        children: *children,
    }
}

/// Raises each score to what the move zeroes that leads to this one.
fn raise_zeroed(out: &mut Block, mates: &Block)
    ensures { (a b : ℕ) → a < 64 → b < 64 → at out.new a b ≡ max (at out.old a b) (zeroing_score (at mates.now a b)) }
{
    for i in 0..64 {
        out[i] = greater(out[i], zeroed(mates[i]));
    }
}

/// Raises the scores to those of captures of the first man that promote no pawn, where he is of the other side. False
/// where a table does not tell.
fn raise_first_taken(
    children: &Children,
    column: Column,
    men: &ShelfMen,
    side: Side,
    out: &mut Block,
) -> bool
    requires { AreChildren column children.now men.now }
    ensures { result ≡ true → (a b : ℕ) → a < 64 → b < 64 → (taken : ℕ) ×
        IsRaised 0 (AreLeftCodes children.now.last.now.class children.now.last_flips (men_swapped men.now) side b a)
        (column_score children.now.last.now column) taken × (at out.new a b ≡ max (at out.old a b) taken) }
{
    if !is_of(men.first, side.other()) {
        return true;
    }
    let mut across = nothing();
    if !taken_block(
        &TableScores {
            table: children.last,
        },
        column,
        children.last_flips,
        &men_swapped(men),
        side,
        &mut across,
    ) {
        return false;
    }
    raise_transposed(out, &across);
    true
}

/// Whether that side has a pawn.
pub(crate) fn has_pawn(men: &ShelfMen, side: Side) -> bool
    ensures last { result ≡ false → ¬ ((men.now.last.kind ≡ P) × (men.now.last.side ≡ side)) }
    ensures one { result ≡ false → ¬ ((men.now.first.kind ≡ P) × (men.now.first.side ≡ side)) }
{
    is_pawn_of(men.first, side) || is_pawn_of(men.last, side)
}

/// Raises the scores to those of promotions of both men, where that side has a pawn. False where a table does not tell.
fn raise_pawns_promoted(
    children: &Children,
    column: Column,
    men: &ShelfMen,
    side: Side,
    out: &mut Block,
) -> bool
    requires { AreChildren column children.now men.now }
    ensures { result ≡ true → (a b : ℕ) → a < 64 → b < 64 →
        (last first : ℕ) × IsBestPromotion column children.now.last_pawn men.now side a b last ×
        IsBestPromotion column children.now.first_pawn (men_swapped men.now) side b a first ×
        (at out.new a b ≡ max (at out.old a b) (max last first)) }
{
    if !has_pawn(men, side) {
        return true;
    }
    let mut promoted = nothing();
    if !promotions_block(&children.last_pawn, column, men, side, &mut promoted) {
        return false;
    }
    raise_to_max(out, &promoted);
    // What equal men are promoted to is told once.
    if are_equal(men) {
        raise_transposed(out, &promoted);
        return true;
    }
    if !promotions_block(
        &children.first_pawn,
        column,
        &men_swapped(men),
        side,
        &mut promoted,
    ) {
        return false;
    }
    raise_transposed(out, &promoted);
    true
}

/// The greatest scores in the column of the moves of that side that leave the class, but captures in passing: they
/// depend on the tables of the children alone. False where a table does not tell.
pub fn exits(
    children: &Children,
    column: Column,
    men: &ShelfMen,
    side: Side,
    out: &mut Block,
) -> bool
    requires { AreChildren column children.now men.now }
    ensures { result ≡ true → HoldsExits column children.now men.now side out.new }
{
    if !taken_block(
        &TableScores {
            table: children.first,
        },
        column,
        children.first_flips,
        men,
        side,
        out,
    ) {
        return false;
    }
    raise_first_taken(children, column, men, side, out)
        && raise_pawns_promoted(children, column, men, side, out)
}

/// The greatest scores in the column of pawns' advances within the class. False where the table does not tell.
pub(crate) fn advances(
    own: &Own,
    column: Column,
    men: &ShelfMen,
    side: Side,
    keys: &mut [Option<BlockKey>],
    blocks: &mut [Block],
    out: &mut Block,
) -> bool
    requires there { HasColumn column own.now }
    requires voids { ScoresNoVoids own.now.class (column_score own.now column) }
    requires men { AreMenOf own.now.class men.now }
    requires kept { AreKept own.now.class (column_score own.now) men.now (other_side side) keys.old blocks.old }
    ensures kept { result ≡ true →
        AreKept own.now.class (column_score own.now) men.now (other_side side) keys.new blocks.new }
    ensures scores { result ≡ true → (a b : ℕ) → a < 64 → b < 64 →
        AreOwnPawnMoves column own.now men.now side a b (at out.new a b) }
{
    let mut still = nothing();
    if !raise_kept(own, column, men, side.other(), keys, blocks, &mut still) {
        return false;
    }
    own_pawn_moves(own, column, men, side, &still, out)
}

/// The greatest scores in the column of the captures in passing. False where a table does not tell.
pub fn passing_captures(
    children: &Children,
    column: Column,
    men: &ShelfMen,
    side: Side,
    out: &mut Block,
) -> bool
    requires { AreChildren column children.now men.now }
    ensures { result ≡ true → HoldsPassing column children.now men.now side out.new }
{
    if !passing_block(
        &TableScores {
            table: children.last,
        },
        column,
        children.last_flips,
        men,
        side,
        out,
    ) {
        return false;
    }
    let mut across = nothing();
    let swapped = men_swapped(men);
    if !passing_block(
        &TableScores {
            table: children.first,
        },
        column,
        children.first_flips,
        &swapped,
        side,
        &mut across,
    ) {
        return false;
    }
    raise_transposed(out, &across);
    true
}

/// The greatest scores of all those moves but captures in passing, in the mate column and in the zeroing column, by
/// those of the exits. False where a table does not tell.
pub fn move_scores(
    moves: &Moves,
    leaving: &Block,
    keys: &mut [Option<BlockKey>],
    blocks: &mut [Block],
    mates: &mut Block,
    zeroing: &mut Block,
) -> bool
    requires men { AreFourMenTables columns.Mate moves.now.four.now moves.now.men.now }
    requires leaving { HoldsExits columns.Mate moves.now.four.now.children moves.now.men.now moves.now.side
        leaving.now }
    requires kept { AreKept moves.now.four.now.own.class (column_score moves.now.four.now.own) moves.now.men.now
        (other_side moves.now.side) keys.old blocks.old }
    ensures kept { result ≡ true → AreKept moves.now.four.now.own.class
        (column_score moves.now.four.now.own) moves.now.men.now (other_side moves.now.side) keys.new blocks.new }
    ensures scores { result ≡ true → (a b : ℕ) → a < 64 → b < 64 →
        AreMoveScores moves.now.four.now moves.now.men.now moves.now.side a b (at mates.new a b) (at zeroing.new a b) }
{
    let (four, men, side) = (moves.four, moves.men, moves.side);
    if !quiet_block(&four.own, Column::Mate, men, side, keys, blocks, mates) {
        return false;
    }
    if !quiet_block(&four.own, Column::Zeroing, men, side, keys, blocks, zeroing) {
        return false;
    }
    raise_to_max(mates, leaving);
    raise_zeroed(zeroing, leaving);
    if !has_pawn(men, side) {
        return true;
    }
    let mut pawns = nothing();
    if !advances(&four.own, Column::Mate, men, side, keys, blocks, &mut pawns) {
        return false;
    }
    raise_to_max(mates, &pawns);
    raise_zeroed(zeroing, &pawns);
    true
}

/// Raises those to the scores of captures in passing, which are these: then they are of all moves where there is a
/// target. The contract alone reads the tables and the men.
pub fn raise_passing(
    four: &FourMenTables,
    men: &ShelfMen,
    side: Side,
    passing: &Block,
    mates: &mut Block,
    zeroing: &mut Block,
)
    requires { HoldsPassing columns.Mate four.now.children men.now side passing.now }
    ensures { (a b : ℕ) → a < 64 → b < 64 →
        AreMoveScores four.now men.now side a b (at mates.old a b) (at zeroing.old a b) →
        ArePassingScores four.now men.now side a b (at mates.new a b) (at zeroing.new a b) }
{
    raise_to_max(mates, passing);
    raise_zeroed(zeroing, passing);
}
