//! The greatest scores, in the column of the nearest mates, of the moves of a side with two men beside the kings, who
//! stand on two squares. That of a move is the less the more plies it is from there to a checkmate, and least where
//! there is none.
ghost use Rattle.std.specs.Prelude.{◌≡◌, ◌<◌, ℕ, true};
ghost use Rattle.egt_check.specs.Prelude.{other_side, at, AreKept, AreFourMenTables, HoldsExits, HoldsPassing};
ghost use Rattle.egt_check.specs.Prelude.{ArePassingReachScores, AreReachScores, column_score};
ghost use Rattle.egt_table.specs.declared.column.Column.TheVariants as columns;

use crate::move_scores::{FourMenTables, advances, has_pawn};
use crate::table_scores::TableScores;
use egt_blocks::blocks::nothing;
use egt_blocks::kept_blocks::BlockKey;
use egt_blocks::quiet_blocks::quiet_block;
use egt_board::Side;
use egt_index::ShelfMen;
use egt_lanes::Block;
use egt_lanes::block::raise_to_max;
use egt_table::Column;

/// The greatest scores of all moves of that side but captures in passing, by those of its exits. False where a table
/// does not tell.
pub fn reach_scores(
    four: &FourMenTables,
    men: &ShelfMen,
    side: Side,
    leaving: &Block,
    keys: &mut [Option<BlockKey>],
    blocks: &mut [Block],
    out: &mut Block,
) -> bool
    requires men { AreFourMenTables columns.Reach four.now men.now }
    requires leaving { HoldsExits columns.Reach four.now.children men.now side leaving.now }
    requires kept { AreKept four.now.own.class (column_score four.now.own) men.now
        (other_side side) keys.old blocks.old }
    ensures kept { result ≡ true → AreKept four.now.own.class (column_score four.now.own) men.now
        (other_side side) keys.new blocks.new }
    ensures scores { result ≡ true → (a b : ℕ) → a < 64 → b < 64 →
        AreReachScores four.now men.now side a b (at out.new a b) }
{
    if !quiet_block(&four.own, Column::Reach, men, side, keys, blocks, out) {
        return false;
    }
    raise_to_max(out, leaving);
    if !has_pawn(men, side) {
        return true;
    }
    let mut pawns = nothing();
    if !advances(
        &four.own,
        Column::Reach,
        men,
        side,
        keys,
        blocks,
        &mut pawns,
    ) {
        return false;
    }
    raise_to_max(out, &pawns);
    true
}

/// Raises those to the scores of captures in passing, which are these: then they are of all moves where there is a
/// target. The contract alone reads the tables and the men.
pub fn raise_passing_reach(
    four: &FourMenTables,
    men: &ShelfMen,
    side: Side,
    passing: &Block,
    out: &mut Block,
)
    requires { HoldsPassing columns.Reach four.now.children men.now side passing.now }
    ensures { (a b : ℕ) → a < 64 → b < 64 → AreReachScores four.now men.now side a b (at out.old a b) →
        ArePassingReachScores four.now men.now side a b (at out.new a b) }
{
    raise_to_max(out, passing);
}
