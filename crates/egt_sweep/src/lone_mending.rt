//! Entries of a class with one piece beside the kings that are put where they are not due: a row of the kings on two
//! squares, with one side to move.
ghost use Rattle.std.specs.Prelude.{◌≡◌, ◌+◌, ◌*◌, ◌-◌, ◌%◌, ◌<◌, ℕ, true, Err, IfOk};
ghost use Rattle.egt_sweep.specs.FillPrelude.{bit_at, size_of, HasColumn, column_of, table_in, HasBytes, IsMendedAt};
ghost use Rattle.egt_sweep.specs.FillPrelude.{Side, side_number, kind_digits, AreThreeMen, IsLoneRow, IsDueRow};
ghost use Rattle.egt_sweep.specs.FillPrelude.{IsLoneFilling};
ghost use Rattle.egt_sweep.specs.declared.mending.Mended.TheVariants as mends;

use crate::ends::end_score;
use crate::mending::Mended;
use egt_blocks::king_blocks::beside_king;
use egt_blocks::own_men::is_of;
use egt_board::{Man, Side, Square, SquareSet};
use egt_check::Library;
use egt_check::lane_sets::{chosen, mask_of};
use egt_check::lone_judging::{ThreeMen, due_lanes, first_code, lone_row_is_right};
use egt_check::part::{Part, column_of};
use egt_check::row_judging::due_in;
use egt_check::told_rows::told_row;
use egt_class::Class;
use egt_index::{ShelfMen, lone_row, size};
use egt_lanes::Row;
use egt_lanes::score::Entries;
use egt_lanes::sets::lanes_of;
use egt_table::{Column, Table};
use std::simd::prelude::*;

/// A part of the table of a class with this one piece beside the kings, which is filled by rows.
#[derive(Clone, Copy)]
pub(crate) struct LoneFilling<'t> {
    pub(crate) library: &'t Library,
    pub(crate) part: Part,
    pub(crate) man: Man,
}

/// The squares of the kings.
#[derive(Clone, Copy)]
pub(crate) struct Kings {
    pub(crate) white: Square,
    pub(crate) black: Square,
}

/// What is to be put at the codes of a row, from its first one on, with the piece on these squares.
#[derive(Clone, Copy)]
struct Wrong {
    first: u32,
    lanes: SquareSet,
    entries: Entries,
}

/// Puts the entry at the code, in both columns of values: no move of the side that wins zeroes. False where bytes do
/// not tell it, and where the code is no index: then all stays as it is.
fn put_code(table: &mut Table, part: Part, code: u32, entry: u16) -> bool
    requires there { HasColumn (column_of part) table.old }
    requires bytes { HasBytes (table_in part table.old) }
    requires within { code < size_of table.old.class }
    ensures { IsMendedAt part (λ i. Unit {0}) table.old table.new }
{
    if entry == 0 || table.entry(column_of(part), code) == 0 {
        return false;
    }
    match part {
        Part::Values => {
            if entry == 2 || entry >= 254 {
                return false;
            }
            table.put(Column::Mate, code, &[entry]);
            table.put(Column::Zeroing, code, &[entry]);
        }
        Part::Reach => {
            if entry >= 128 {
                return false;
            }
            table.put(Column::Reach, code, &[entry]);
        }
    }
    true
}

/// Puts what is to be put in a row. False where bytes do not tell some of it.
fn put_row(table: &mut Table, part: Part, wrong: &Wrong) -> bool
    requires there { HasColumn (column_of part) table.old }
    requires bytes { HasBytes (table_in part table.old) }
    requires within { wrong.now.first + 126 < size_of table.old.class }
    ensures { IsMendedAt part (λ i. Unit {0}) table.old table.new }
{
    let _size = size(table.class());
    let mut rest = wrong.lanes;
    while let Some(square) = rest.pop_first() {
        let lane = usize::from(square.number());
        let code = wrong.first + 2 * u32::from(square.number());
        if !put_code(table, part, code, wrong.entries[lane]) {
            return false;
        }
    }
    true
}

/// The squares of these at which the row's position is checkmate.
fn mated_lanes(class: Class, first: u32, squares: SquareSet) -> SquareSet
    requires { first + 126 < size_of class }
{
    let _size = size(class);
    let mut mated = SquareSet::EMPTY;
    let mut rest = squares;
    while let Some(square) = rest.pop_first() {
        if let Some(255) = end_score(class, first + 2 * u32::from(square.number())) {
            mated = mated.with(square);
        }
    }
    mated
}

/// The squares where the quiet steps are taken to tell what is due: a king who may take the piece draws. Nothing rests
/// on it, since in the end all moves are judged.
fn told_lanes(men: &ShelfMen, part: Part, side: Side) -> SquareSet {
    match part {
        Part::Values if !is_of(men.last, side) => {
            let loose = beside_king(men, side).difference(beside_king(men, side.other()));
            SquareSet::ALL.difference(loose)
        }
        _ => SquareSet::ALL,
    }
}

/// What the quiet steps tell to be due where the entries are not; and, where all moves are looked at, checkmates.
fn wrong_in(three: &ThreeMen, first: u32, side: Side, all: bool) -> Wrong
    requires three { AreThreeMen three.now }
    requires row { IsLoneRow three.now.table.now.class first three.now.men.white three.now.men.black
        three.now.men.last }
    requires piece { kind_digits three.now.men.last.kind ≡ 64 }
    ensures { result.first + 126 < size_of three.now.table.now.class }
{
    let class = three.table.class();
    let _size = size(class);
    let column = column_of(three.part);
    let (some, due, scores) = due_lanes(three, column, first, side);
    let first = first_code(first, side);
    let moving = lanes_of(scores);
    let mated = if all {
        mated_lanes(class, first, some.difference(moving))
    } else {
        SquareSet::EMPTY
    };
    let told = told_lanes(&three.men, three.part, side).intersection(moving);
    let put = chosen(mask_of(mated), Row::splat(255), due_in(three.part, scores));
    Wrong {
        first,
        lanes: some.intersection(told).difference(due).union(mated),
        entries: told_row(column, put),
    }
}

/// The side to move in a row. The kings on two squares have two rows, the first with Black to move: White's wins rest
/// on Black's losses.
fn side_of(row: u32) -> Side
    ensures { side_number result ≡ 1 - row % 2 }
{
    if row % 2 == 0 {
        Side::Black
    } else {
        Side::White
    }
}

/// What is to be put in the row; else that it is due, or not told. Where all moves are looked at, it is due only where
/// its entries keep the rules.
fn row_seen(
    table: &Table,
    f: &LoneFilling,
    kings: Kings,
    row: u32,
    all: bool,
) -> Result<Wrong, Mended>
    requires filling { IsLoneFilling f.now table.now }
    ensures within { IfOk result (λ wrong. wrong.first + 126 < size_of table.now.class) }
    ensures due { result ≡ Err mends.Due → all ≡ true → IsDueRow f.now table.now row }
{
    let side = side_of(row);
    let Kings { white, black } = kings;
    let Some(first) = lone_row(table.class(), f.man, white, black) else {
        return Err(Mended::Untold);
    };
    if first / 128 != row / 2 || first % 128 != 0 {
        return Err(Mended::Untold);
    }
    let three = ThreeMen {
        table,
        library: f.library,
        men: ShelfMen {
            white,
            black,
            first: f.man,
            on: white,
            last: f.man,
        },
        part: f.part,
    };
    if all && lone_row_is_right(&three, first, side) {
        return Err(Mended::Due);
    }
    let wrong = wrong_in(&three, first, side, all);
    if !wrong.lanes.is_empty() {
        return Ok(wrong);
    }
    if all {
        Err(Mended::Untold)
    } else {
        Err(Mended::Due)
    }
}

/// Puts what is due in the row, as far as its quiet steps tell it; where all moves are looked at, it is due only where
/// its entries keep the rules.
pub(crate) fn mend_lone_row(
    table: &mut Table,
    f: &LoneFilling,
    kings: Kings,
    row: u32,
    all: bool,
) -> Mended
    requires filling { IsLoneFilling f.now table.old }
    ensures mended { IsMendedAt f.now.part (λ i. Unit {0}) table.old table.new }
    ensures same { result ≡ mends.Due → table.new ≡ table.old }
    ensures due { result ≡ mends.Due → all ≡ true → IsDueRow f.now table.new row }
{
    match row_seen(table, f, kings, row, all) {
        Err(mended) => mended,
        Ok(wrong) => {
            if put_row(table, f.part, &wrong) {
                Mended::Put
            } else {
                Mended::Untold
            }
        }
    }
}
