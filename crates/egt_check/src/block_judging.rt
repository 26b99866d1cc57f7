//! The judgement of all entries with the kings on two squares, in classes with two men beside the kings.
ghost use Rattle.std.specs.Prelude.{◌≡◌, ◌+◌, ◌<◌, ℕ, true, false};
ghost use Rattle.egt_check.specs.Prelude.{other_side, code_of, kind_digits, kind_less, AreMenOf, number_in, at};
ghost use Rattle.egt_check.specs.Prelude.{HasColumn, men_on, AreKept, AreFourMenTables, AreTablesOf, HoldsExits};
ghost use Rattle.egt_check.specs.Prelude.{HoldsPassing, column_of, four_in, tables_in, AreAllScoresOf, AreJudged};
ghost use Rattle.egt_check.specs.Prelude.{IsRightLane, Tables, column_score};

use crate::blank::side_is_blank;
use crate::move_scores::{Moves, exits, move_scores, passing_captures, raise_passing};
use crate::part::{Part, column_of};
use crate::part_laws::entries_due_to_all_moves_are_right;
use crate::reach_scores::{raise_passing_reach, reach_scores};
use crate::row_judging::row_is_right;
use crate::shelf::Shelf;
use egt_blocks::blocks::{begin_with, nothing};
use egt_blocks::digits::{digits_of, first_square};
use egt_blocks::kept_blocks::BlockKey;
use egt_blocks::men::men_on;
use egt_board::Square;
use egt_index::laws::{a_code_is_an_index_or_void, numbers_stand_for_codes};
use egt_index::void_by_kings::is_void_after;
use egt_lanes::Block;
use egt_table::Table;

/// The greatest scores of all moves but captures in passing, by those of the exits, in the part's column, and of
/// `Values` in the zeroing column too. False where a table does not tell.
pub fn part_scores(
    moves: &Moves,
    leaving: &Block,
    keys: &mut [Option<BlockKey>],
    blocks: &mut [Block],
    scores: &mut Block,
    zeroing: &mut Block,
) -> bool
    requires men { AreFourMenTables (column_of moves.now.part) moves.now.four.now moves.now.men.now }
    requires leaving { HoldsExits (column_of moves.now.part) moves.now.four.now.children moves.now.men.now
        moves.now.side leaving.now }
    requires kept { AreKept moves.now.four.now.own.class (column_score moves.now.four.now.own) moves.now.men.now
        (other_side moves.now.side) keys.old blocks.old }
    ensures kept { result ≡ true → AreKept moves.now.four.now.own.class
        (column_score moves.now.four.now.own) moves.now.men.now (other_side moves.now.side) keys.new blocks.new }
    ensures scores { result ≡ true → (a b : ℕ) → a < 64 → b < 64 →
        AreAllScoresOf moves.now.part false moves.now.four.now moves.now.men.now moves.now.side a b (at scores.new a b)
        (at zeroing.new a b) }
{
    match moves.part {
        Part::Values => move_scores(moves, leaving, keys, blocks, scores, zeroing),
        Part::Reach => reach_scores(
            moves.four, moves.men, moves.side, leaving, keys, blocks, scores,
        ),
    }
}

/// Raises those to the scores of captures in passing, which are these: then they are of all moves where there is a
/// target.
pub fn raise_part_passing(moves: &Moves, passing: &Block, scores: &mut Block, zeroing: &mut Block)
    requires { HoldsPassing (column_of moves.now.part) moves.now.four.now.children moves.now.men.now moves.now.side
        passing.now }
    ensures { (a b : ℕ) → a < 64 → b < 64 →
        AreAllScoresOf moves.now.part false moves.now.four.now moves.now.men.now moves.now.side a b
        (at scores.old a b) (at zeroing.old a b) →
        AreAllScoresOf moves.now.part true moves.now.four.now moves.now.men.now moves.now.side a b (at scores.new a b)
        (at zeroing.new a b) }
{
    let (four, men, side) = (moves.four, moves.men, moves.side);
    match moves.part {
        Part::Values => raise_passing(four, men, side, passing, scores, zeroing),
        Part::Reach => raise_passing_reach(four, men, side, passing, scores),
    }
}

/// Whether the part's entries of the shelves from this one on, which are to be those of its men by the first one's
/// digit, are due to the greatest scores.
fn shelves_are_right(
    table: &Table,
    part: Part,
    shelves: &Shelf,
    scores: &Block,
    zeroing: &Block,
) -> bool
    requires there { HasColumn (column_of part) table.now }
    requires men { AreMenOf table.now.class shelves.now.men }
    requires room { shelves.now.number + 64 < 4294967296 }
    ensures { result ≡ true → (x y : ℕ) → x < kind_digits shelves.now.men.first.kind →
        y < kind_digits shelves.now.men.last.kind →
        IsRightLane part shelves.now.targeted table.now shelves.now.men shelves.now.side
        (x + kind_less shelves.now.men.first.kind) (y + kind_less shelves.now.men.last.kind)
        (code_of table.now.class (number_in table.now.class (shelves.now.number + x) shelves.now.side y))
        (at scores.now (x + kind_less shelves.now.men.first.kind) (y + kind_less shelves.now.men.last.kind))
        (at zeroing.now (x + kind_less shelves.now.men.first.kind) (y + kind_less shelves.now.men.last.kind)) }
{
    numbers_stand_for_codes();
    if !begin_with(
        table.class(),
        &shelves.men,
        shelves.targeted,
        shelves.number,
    ) {
        return false;
    }
    let from = first_square(shelves.men.first);
    for digit in 0..digits_of(shelves.men.first) {
        let square = from + digit;
        let row = square as usize;
        let shelf = Shelf {
            number: shelves.number + u32::from(digit),
            men: men_on(&shelves.men, Square::at(square)),
            ..*shelves
        };
        if !row_is_right(table, part, &shelf, scores[row], zeroing[row]) {
            return false;
        }
    }
    true
}

/// Whether all entries of the part keep the rules, of those shelves with that side to move and of those `half` further
/// on, whose positions have a target; 0 in a class without targets. Both have the same scores but for captures in
/// passing.
pub(crate) fn block_is_right(
    moves: &Moves,
    first: u32,
    half: u32,
    keys: &mut [Option<BlockKey>],
    blocks: &mut [Block],
    scores: &mut Block,
    zeroing: &mut Block,
) -> bool
    requires men { AreFourMenTables (column_of moves.now.part) moves.now.four.now moves.now.men.now }
    requires room { first + half + 64 < 4294967296 }
    requires kept { AreKept moves.now.four.now.own.class (column_score moves.now.four.now.own) moves.now.men.now
        (other_side moves.now.side) keys.old blocks.old }
    ensures kept { result ≡ true → AreKept moves.now.four.now.own.class
        (column_score moves.now.four.now.own) moves.now.men.now (other_side moves.now.side) keys.new blocks.new }
    ensures judged { result ≡ true → (tables : Tables) →
        AreTablesOf (tables_in moves.now.part tables) (four_in moves.now.part moves.now.four.now) moves.now.men.now →
        AreJudged moves.now.part tables moves.now.four.now.own moves.now.men.now first moves.now.side ×
        AreJudged moves.now.part tables moves.now.four.now.own moves.now.men.now (first + half) moves.now.side }
{
    entries_due_to_all_moves_are_right();
    a_code_is_an_index_or_void();
    let (four, men, side) = (moves.four, moves.men, moves.side);
    let column = column_of(moves.part);
    // Elsewhere some entry has a score, and its row need not be read to see that.
    if is_void_after(four.own.class(), men.white, men.black, 0)
        && side_is_blank(&four.own, column, men, first, half, side)
    {
        return true;
    }
    let Some(table) = four.own.table() else {
        return false;
    };
    let mut leaving = nothing();
    if !exits(&four.children, column, men, side, &mut leaving) {
        return false;
    }
    if !part_scores(moves, &leaving, keys, blocks, scores, zeroing) {
        return false;
    }
    let plain = Shelf {
        number: first,
        men: *men,
        side,
        targeted: false,
    };
    if !shelves_are_right(table, moves.part, &plain, scores, zeroing) {
        return false;
    }
    if half == 0 {
        return true;
    }
    let mut passing = nothing();
    if !passing_captures(&four.children, column, men, side, &mut passing) {
        return false;
    }
    raise_part_passing(moves, &passing, scores, zeroing);
    let targeted = Shelf {
        number: first + half,
        targeted: true,
        ..plain
    };
    shelves_are_right(table, moves.part, &targeted, scores, zeroing)
}
