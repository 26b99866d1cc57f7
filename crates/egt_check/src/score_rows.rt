//! The scores of all codes of a class with two men beside the kings, kept as rows of bytes.
ghost use Rattle.std.specs.Prelude.{◌≡◌, ◌+◌, ◌*◌, ◌<◌, ◌≤◌, ◌⊎◌, ℕ, IfOk, IfSome, length, slice_index, true};
ghost use Rattle.egt_check.specs.Prelude.{bit_at, side_number, Has, P, code_of, places, kind_digits, kind_less};
ghost use Rattle.egt_check.specs.Prelude.{HasTwoBeside, IsShelf, IsWithin, number_in, size_of, IsShelfRow};
ghost use Rattle.egt_check.specs.Prelude.{AreDrawnOrNone, HasNoVoidScore, IsDrawnIndex, IsLaneIn, IsMaskOf};

use crate::lane_sets::{chosen, mask_of};
use egt_blocks::own_men::is_pawn;
use egt_board::{Man, Side, SquareSet};
use egt_class::Class;
use egt_index::laws::numbers_stand_for_codes;
use egt_index::{ShelfMen, indexes_of, last_digits, shelf_men, size};
use egt_lanes::Row;
use std::alloc::{AllocError, Global};
use std::marker::Model;
use std::simd::prelude::*;

/// A score for each code of a class with two men beside the kings, in bytes: a row for each shelf and side to move, a
/// lane for each square of the last man.
#[derive(Drop)]
pub struct ScoreRows {
    class: Class,
    /// The man by whose squares a row goes.
    last: Man,
    /// How many shelves the class has.
    shelves: usize,
    /// The rows with White to move come first.
    rows: Vec<Row>,
}

impl Model for ScoreRows {
    ghost use Rattle.egt_index.specs.Scales.{kind_less};
    ghost use Rattle.egt_check.specs.ScoreRows.{AreWholeRows, CodeScores, scores_in};

    ghost Value = { CodeScores };

    ghost view = { λ r. record {
      class = r.class;
      scores = scores_in r.class
          (kind_less r.last.kind) r.shelves r.rows.items;
    } };

    ghost invariant = { λ r. AreWholeRows r.class r.last r.shelves r.rows.items };
}

/// Where the row of a shelf stands with that side to move.
fn row_place(shelves: usize, shelf: u32, side: Side) -> usize
    requires within { shelf < shelves }
    requires few { shelves < 4294967296 }
    ensures is { result ≡ side_number side * shelves + shelf }
    ensures within { result < 2 * shelves }
{
    match side {
        Side::White => shelf as usize,
        Side::Black => shelves + shelf as usize,
    }
}

/// The squares of the man's digits.
fn squares_of(man: Man, digits: u64) -> SquareSet
    requires { (k : ℕ) → kind_digits man.kind ≤ k → bit_at digits k ≡ 0 }
    ensures digits { (k : ℕ) → k < kind_digits man.kind →
        bit_at result.bits (k + kind_less man.kind) ≡ bit_at digits k }
    ensures edges { man.kind ≡ P → (s : ℕ) → s < 64 → (s < 8) ⊎ (56 ≤ s) → bit_at result.bits s ≡ 0 }
{
    let bits = if is_pawn(man) { digits << 8 } else { digits };
    SquareSet { bits }
}

impl ScoreRows {
    /// A score of 0 for each code. `None` of a class that has not two men beside the kings.
    ///
    /// # Errors
    ///
    /// `AllocError` only where a growth was refused.
    pub fn none(alloc: Global, class: Class) -> Result<Option<ScoreRows>, AllocError>
        ensures class { IfOk result (λ some. IfSome some (λ rows. rows.class ≡ class)) }
        ensures none { IfOk result (λ some. IfSome some (λ rows. (code : ℕ) → slice_index rows.scores code ≡ 0)) }
    {
        let _number = class.number();
        let Some(men) = shelf_men(class, 0) else {
            return Ok(None);
        };
        let shelves = (size(class) / (2 * last_digits(class))) as usize;
        let rows = vec![in alloc; Row::splat(0); 2 * shelves]?;
        Ok(Some(ScoreRows {
            class,
            last: men.last,
            shelves,
            rows,
        }))
    }

    /// Puts the score of a draw at the shelf's codes that are indexes. False where it is no shelf of the class.
    fn draw_shelf(&mut self, shelf: u32) -> bool
        requires within { IsWithin self.old.class shelf }
        requires void { HasNoVoidScore self.old }
        ensures class { self.new.class ≡ self.old.class }
        ensures void { HasNoVoidScore self.new }
        ensures kept { (code : ℕ) → slice_index self.old.scores code ≡ 128 → slice_index self.new.scores code ≡ 128 }
        ensures drawn { result ≡ true → (side : Side) (k : ℕ) → k < places self.old.class →
            IsDrawnIndex self.new (code_of self.old.class (number_in self.old.class shelf side k)) }
        ensures few { AreDrawnOrNone self.old → AreDrawnOrNone self.new }
    {
        let Some(men) = shelf_men(self.class, shelf) else {
            return false;
        };
        let indexes = indexes_of(self.class, shelf);
        let drawn = Row::splat(128);
        let white = squares_of(men.last, indexes.white);
        self.put(&men, shelf, Side::White, white, mask_of(white), drawn);
        let black = squares_of(men.last, indexes.black);
        self.put(&men, shelf, Side::Black, black, mask_of(black), drawn);
        true
    }

    /// The score of a draw for each code that is an index, and 0 for each void one. `None` of a class that has not two
    /// men beside the kings.
    ///
    /// # Errors
    ///
    /// `AllocError` only where a growth was refused.
    pub fn drawn(alloc: Global, class: Class) -> Result<Option<ScoreRows>, AllocError>
        ensures class { IfOk result (λ some. IfSome some (λ rows. rows.class ≡ class)) }
        ensures void { IfOk result (λ some. IfSome some HasNoVoidScore) }
        ensures drawn { IfOk result (λ some. IfSome some
            (λ rows. (code : ℕ) → code < size_of class → IsDrawnIndex rows code)) }
        ensures few { IfOk result (λ some. IfSome some AreDrawnOrNone) }
    {
        numbers_stand_for_codes();
        let _number = class.number();
        let Some(mut rows) = ScoreRows::none(alloc, class)? else {
            return Ok(None);
        };
        for shelf in 0..size(class) / (2 * last_digits(class)) {
            if !rows.draw_shelf(shelf) {
                return Ok(None);
            }
        }
        Ok(Some(rows))
    }

    /// The class.
    pub fn class(&self) -> Class
        ensures is { result ≡ self.now.class }
        ensures known { self.now.class < 36 }
        ensures two { HasTwoBeside self.now.class }
        ensures size { length self.now.scores ≡ size_of self.now.class }
    {
        self.class
    }

    /// The scores of the shelf's codes with that side to move, by the last man's square. The contract alone reads the
    /// men.
    #[inline(always)]
    pub fn row(&self, men: &ShelfMen, shelf: u32, side: Side) -> Row
        requires shelf { IsShelf self.now.class shelf men.now }
        requires within { IsWithin self.now.class shelf }
        ensures { IsShelfRow self.now.class (slice_index self.now.scores) men.now shelf side result }
    {
        numbers_stand_for_codes();
        let _size = size(self.class);
        self.rows[row_place(self.shelves, shelf, side)]
    }

    /// Puts these scores at the shelf's codes with that side to move and the last man on one of these squares, where
    /// the mask is not 0. The contract alone reads the men and the squares.
    #[inline(always)]
    pub fn put(
        &mut self,
        men: &ShelfMen,
        shelf: u32,
        side: Side,
        lanes: SquareSet,
        mask: Row,
        scores: Row,
    )
        requires shelf { IsShelf self.old.class shelf men.now }
        requires within { IsWithin self.old.class shelf }
        requires mask { IsMaskOf lanes mask }
        requires edges { men.now.last.kind ≡ P → (s : ℕ) → s < 64 → (s < 8) ⊎ (56 ≤ s) → bit_at lanes.bits s ≡ 0 }
        ensures class { self.new.class ≡ self.old.class }
        ensures long { length self.new.scores ≡ size_of self.old.class }
        ensures put { (digit : ℕ) → digit < kind_digits men.now.last.kind →
            Has lanes (digit + kind_less men.now.last.kind) →
            slice_index self.new.scores (code_of self.old.class (number_in self.old.class shelf side digit)) ≡
            slice_index scores (digit + kind_less men.now.last.kind) }
        ensures others { (code : ℕ) → (slice_index self.new.scores code ≡ slice_index self.old.scores code) ⊎
            IsLaneIn self.old.class men.now shelf side lanes code }
    {
        numbers_stand_for_codes();
        let _size = size(self.class);
        let place = row_place(self.shelves, shelf, side);
        self.rows[place] = chosen(mask, scores, self.rows[place]);
    }

    /// A copy.
    ///
    /// # Errors
    ///
    /// `AllocError` only where a growth was refused.
    pub fn copy(&self, alloc: Global) -> Result<ScoreRows, AllocError>
        ensures { IfOk result (λ rows. rows ≡ self.now) }
    {
        let mut rows = Vec::with_capacity(alloc, self.rows.len())?;
        rows.extend_from_slice(&self.rows)?;
        Ok(ScoreRows {
            class: self.class,
            last: self.last,
            shelves: self.shelves,
            rows,
        })
    }
}
