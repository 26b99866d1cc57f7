//! The scores of the positions after each step of a king.
ghost use Rattle.std.specs.Prelude.{◌≡◌, ◌↔◌, ◌<◌, ℕ, true};
ghost use Rattle.egt_blocks.specs.Prelude.{other_side, Has, AreMenOf, at, IsRaised, IsBesideKing, king_of_men};
ghost use Rattle.egt_blocks.specs.Prelude.{with_king, AreKingCodes, AreKept, ScoresNoVoids};

use crate::blocks::nothing;
use crate::kept_blocks::{BlockKey, raise_kept};
use crate::men::{king_of_men, with_king};
use crate::scored::ShelfScores;
use egt_board::attack_lines::reach_past;
use egt_board::{Kind, Man, Side, Square, SquareSet};
use egt_index::ShelfMen;
use egt_lanes::Block;
use egt_table::Column;

/// The squares beside that side's king.
pub fn beside_king(men: &ShelfMen, side: Side) -> SquareSet
    ensures { (k : ℕ) → k < 64 → Has result k ↔ IsBesideKing men.now side k }
{
    let king = Man {
        side,
        kind: Kind::K,
    };
    reach_past(king, king_of_men(men, side), SquareSet::EMPTY)
}

/// The scores of the positions after each step of that side's king, the other side to move. False where the source does
/// not tell.
pub fn king_block<S: ShelfScores>(
    source: &S,
    column: Column,
    men: &ShelfMen,
    side: Side,
    keys: &mut [Option<BlockKey>],
    blocks: &mut [Block],
    out: &mut Block,
) -> bool
    requires there { S.has source.now column }
    requires voids { ScoresNoVoids (S.number source.now) (S.worth source.now column) }
    requires men { AreMenOf (S.number source.now) men.now }
    requires kept { AreKept (S.number source.now) (S.worth source.now) men.now (other_side side) keys.old blocks.old }
    ensures kept { AreKept (S.number source.now) (S.worth source.now) men.now (other_side side) keys.new blocks.new }
    ensures raised { result ≡ true → (a b : ℕ) → a < 64 → b < 64 →
        IsRaised 0 (AreKingCodes (S.number source.now) men.now side (IsBesideKing men.now side) a b)
        (S.worth source.now column) (at out.new a b) }
{
    *out = nothing();
    let mut rest = beside_king(men, side);
    while let Some(to) = rest.pop_first() {
        let stepped = with_king(men, side, to);
        if !raise_kept(source, column, &stepped, side.other(), keys, blocks, out) {
            return false;
        }
    }
    true
}
