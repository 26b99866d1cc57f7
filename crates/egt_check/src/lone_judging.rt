//! The judgement of entries of a class with one man beside the kings: these on two squares, and one side to move.
ghost use Rattle.std.specs.Prelude.{◌≡◌, ◌+◌, ◌*◌, ◌<◌, ℕ, true};
ghost use Rattle.egt_check.specs.Prelude.{bit_at, Has, side_number, kind_digits, kind_less, size_of, HasColumn};
ghost use Rattle.egt_check.specs.Prelude.{IsLoneRow, NoneZeroes, AreThreeMen, IsDueAlone, IsJudgedRow, KeepsCode};
ghost use Rattle.egt_check.specs.Prelude.{column_score, column_of};
ghost use Rattle.egt_check.specs.declared.part.Part.TheVariants as parts;
ghost use Rattle.egt_table.specs.declared.column.Column.TheVariants as columns;

use crate::judging::judge;
use crate::lane_sets::unlike;
use crate::library::Library;
use crate::lone_laws::entries_due_to_quiet_steps_are_right;
use crate::part::{Part, column_of};
use crate::reach_judging::judge_reach;
use crate::row_judging::due_in;
use crate::table_scores::TableScores;
use egt_blocks::digits::digit_on;
use egt_blocks::king_blocks::beside_king;
use egt_blocks::lone_quiet::quiet_row;
use egt_blocks::own_men::{is_of, is_pawn};
use egt_blocks::scored::LoneScores;
use egt_board::{Side, SquareSet};
use egt_index::laws::codes_tell_turned_men;
use egt_index::{ShelfMen, size};
use egt_lanes::Row;
use egt_lanes::sets::lanes_of;
use egt_table::{Column, Table};
use std::simd::prelude::*;

/// The table of a class with one man beside the kings, the library of its children's, and the part that is judged.
#[derive(Clone, Copy)]
pub struct ThreeMen<'t> {
    pub table: &'t Table,
    pub library: &'t Library,
    /// The kings on their squares, and the man, the last one: the first is nobody's.
    pub men: ShelfMen,
    pub part: Part,
}

/// Whether the part's entries at the code keep the rules, judged alone.
fn keeps_alone(three: &ThreeMen, code: u32) -> bool
    requires three { AreThreeMen three.now }
    requires below { code < size_of three.now.table.now.class }
    ensures { result ≡ true → KeepsCode three.now code }
{
    match three.part {
        Part::Values => {
            let (mate, zeroing) = judge(three.table, three.library, code);
            mate.is_none() && zeroing.is_none()
        }
        Part::Reach => judge_reach(three.table, three.library, code).is_none(),
    }
}

/// Whether they do at the codes of these squares of the man, every other one from his first digit's on.
fn keep_alone(three: &ThreeMen, first: u32, squares: SquareSet) -> bool
    requires three { AreThreeMen three.now }
    requires codes { (digit : ℕ) → digit < kind_digits three.now.men.last.kind →
        first + 2 * digit < size_of three.now.table.now.class }
    ensures { result ≡ true → (digit : ℕ) → digit < kind_digits three.now.men.last.kind →
        Has squares (digit + kind_less three.now.men.last.kind) → KeepsCode three.now (first + 2 * digit) }
{
    let _size = size(three.table.class());
    let mut rest = squares;
    while let Some(square) = rest.pop_first() {
        let Some(digit) = digit_on(three.men.last, square) else {
            return false;
        };
        if !keeps_alone(three, first + 2 * digit) {
            return false;
        }
    }
    true
}

/// The squares of the man where no move of that side zeroes.
fn quiet_lanes(men: &ShelfMen, side: Side) -> SquareSet
    ensures { (s : ℕ) → s < 64 → Has result s → NoneZeroes men.now side s }
{
    if !is_of(men.last, side) {
        return SquareSet::ALL.difference(beside_king(men, side));
    }
    if is_pawn(men.last) {
        SquareSet::EMPTY
    } else {
        SquareSet::ALL
    }
}

/// The first of the codes with that side to move.
pub fn first_code(first: u32, side: Side) -> u32
    requires { first + 1 < 4294967296 }
    ensures { result ≡ first + side_number side }
{
    match side {
        Side::White => first,
        Side::Black => first + 1,
    }
}

/// The squares of the man where the column has scores at the codes from this one on, with that side to move, those
/// where they are due to the greatest after quiet steps, and these.
#[inline(always)]
pub fn due_lanes(
    three: &ThreeMen,
    column: Column,
    first: u32,
    side: Side,
) -> (SquareSet, SquareSet, Row)
    requires three { AreThreeMen three.now }
    requires there { HasColumn column three.now.table.now }
    requires row { IsLoneRow three.now.table.now.class first three.now.men.white three.now.men.black
        three.now.men.last }
    ensures none { (digit : ℕ) → digit < kind_digits three.now.men.last.kind →
        bit_at result.0.bits (digit + kind_less three.now.men.last.kind) ≡ 0 →
        column_score three.now.table.now column (first + side_number side + 2 * digit) ≡ 0 }
    ensures due { (digit : ℕ) → digit < kind_digits three.now.men.last.kind →
        Has result.1 (digit + kind_less three.now.men.last.kind) →
        IsDueAlone three.now column side (digit + kind_less three.now.men.last.kind)
        (first + side_number side + 2 * digit) }
{
    codes_tell_turned_men();
    let men = &three.men;
    let source = TableScores { table: three.table };
    let own = source.lone_row(column, men.last, men.white, men.black, first, side);
    let mut scores = Row::splat(0);
    if !quiet_row(&source, column, men, side, &mut scores) {
        return (lanes_of(own), SquareSet::EMPTY, Row::splat(0));
    }
    let other = unlike(own, due_in(three.part, scores), Row::splat(1));
    (
        lanes_of(own),
        lanes_of(scores).difference(lanes_of(other)),
        scores,
    )
}

/// The squares of the man where the zeroing scores, judged with the mate scores, are due; all where they are not
/// judged.
#[inline(always)]
fn clock_lanes(three: &ThreeMen, first: u32, side: Side) -> SquareSet
    requires three { AreThreeMen three.now }
    requires row { IsLoneRow three.now.table.now.class first three.now.men.white three.now.men.black
        three.now.men.last }
    ensures { three.now.part ≡ parts.Values → (digit : ℕ) → digit < kind_digits three.now.men.last.kind →
        Has result (digit + kind_less three.now.men.last.kind) →
        IsDueAlone three.now columns.Zeroing side (digit + kind_less three.now.men.last.kind)
        (first + side_number side + 2 * digit) }
{
    match three.part {
        Part::Values => due_lanes(three, Column::Zeroing, first, side).1,
        Part::Reach => SquareSet::ALL,
    }
}

/// Whether the part's entries of the codes from this one on, with that side to move, are due to the greatest scores
/// after quiet steps, or keep the rules judged alone: where a move may zero, and where none scores.
pub fn lone_row_is_right(three: &ThreeMen, first: u32, side: Side) -> bool
    requires three { AreThreeMen three.now }
    requires row { IsLoneRow three.now.table.now.class first three.now.men.white three.now.men.black
        three.now.men.last }
    ensures { result ≡ true → IsJudgedRow three.now first side }
{
    entries_due_to_quiet_steps_are_right();
    let _size = size(three.table.class());
    let (some, due, _scores) = due_lanes(three, column_of(three.part), first, side);
    let quiet = quiet_lanes(&three.men, side).intersection(clock_lanes(three, first, side));
    let rest = some.difference(due.intersection(quiet));
    keep_alone(three, first_code(first, side), rest)
}
