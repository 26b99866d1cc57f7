//! The judgement of a whole table of a class with one man beside the kings, by the squares of the kings.
ghost use Rattle.std.specs.Prelude.{◌≡◌, ◌≢◌, ◌*◌, ◌<◌, ℕ, false, true, IfSome, get_or};
ghost use Rattle.egt_check.specs.Prelude.{K, kind_digits, column_of, HasColumn, AreThreeMen, IsJudgedRow, TellsVoids};
ghost use Rattle.egt_check.specs.Prelude.{size_of, table_in, HasBytes, AreRuns, MayJudge, TellsVoid, beside, table_at};
ghost use Rattle.egt_check.specs.declared.part.Part.TheVariants as parts;

use crate::bytes::{are_alike, tells_reach_bytes};
use crate::library::Library;
use crate::lone_judging::{ThreeMen, lone_row_is_right};
use crate::pairs::MOST_PAIRS;
use crate::part::Part;
use crate::runs::Runs;
use egt_blocks::digits::digits_of;
use egt_board::{Kind, Man, Side, Square};
use egt_index::{ShelfMen, lone_man, lone_row, position, size};
use egt_table::{Column, Table};

/// Whether the man is a king.
pub(crate) fn is_king(man: Man) -> bool
    ensures { result ≡ false → man.kind ≢ K }
{
    matches!(man.kind, Kind::K)
}

/// Whether the mate entry is 0 exactly where the code is no position's index.
fn tells_void(table: &Table, code: u32) -> bool
    requires { code < size_of table.now.class }
    ensures { result ≡ true → TellsVoid table.now code }
{
    let entry = table.entry(Column::Mate, code);
    match position(table.class(), code) {
        Some(_) => entry != 0,
        None => entry == 0,
    }
}

/// Whether each mate entry is.
fn tells_each_void(table: &Table) -> bool
    ensures { result ≡ true → TellsVoids table.now }
{
    for code in 0..size(table.class()) {
        if !tells_void(table, code) {
            return false;
        }
    }
    true
}

/// Whether the table's bytes tell its entries of the part.
fn tells_part(table: &Table, part: Part) -> bool
    requires there { HasColumn (column_of part) table.now }
    requires voids { part ≡ parts.Reach → TellsVoids table.now }
    ensures { result ≡ true → HasBytes (table_in part table.now) }
{
    match part {
        Part::Values => are_alike(table) && tells_each_void(table),
        Part::Reach => tells_reach_bytes(table),
    }
}

/// The run of codes with the kings on these squares, if its entries with that side to move were found to keep the
/// rules.
fn right_run(three: &ThreeMen, side: Side) -> Option<usize>
    requires { AreThreeMen three.now }
    ensures few { IfSome result (λ run. run < 2048) }
    ensures right { IfSome result (λ run. IsJudgedRow three.now
        (run * (2 * kind_digits three.now.men.last.kind)) side) }
{
    let men = &three.men;
    let first = lone_row(three.table.class(), men.last, men.white, men.black)?;
    let len = 2 * u32::from(digits_of(men.last));
    let run = first / len;
    if first % len == 0 && run < 2048 && lone_row_is_right(three, first, side) {
        Some(run as usize)
    } else {
        None
    }
}

/// The runs of which all entries of the part with that side to move were found to keep the rules.
fn right_rows(three: &ThreeMen, side: Side) -> [bool; MOST_PAIRS]
    requires { AreThreeMen three.now }
    ensures { (run : ℕ) → get_or result run false ≡ true →
        IsJudgedRow three.now (run * (2 * kind_digits three.now.men.last.kind)) side }
{
    let mut right = [false; MOST_PAIRS];
    for kings in 0..4096u16 {
        let there = ThreeMen {
            men: ShelfMen {
                white: Square::at((kings / 64) as u8),
                black: Square::at((kings % 64) as u8),
                ..three.men
            },
            ..*three
        };
        let Some(run) = right_run(&there, side) else {
            continue;
        };
        right[run] = true;
    }
    right
}

/// The codes of a class with one man beside the kings, and of which the part's entries keep the rules beside those of
/// the successors. `None` of any other class, and where the table does not tell it by bytes.
pub(crate) fn runs_by_rows(table: &Table, library: &Library, part: Part) -> Option<Runs>
    requires may { MayJudge part (table_at library.now) table.now }
    requires there { HasColumn (column_of part) table.now }
    requires voids { part ≡ parts.Reach → TellsVoids table.now }
    ensures { IfSome result (AreRuns part (beside (table_at library.now) table.now) table.now) }
{
    let man = lone_man(table.class())?;
    let len = 2 * u32::from(digits_of(man));
    let codes = size(table.class());
    if is_king(man) || codes % len != 0 || codes / len > 2048 || !tells_part(table, part) {
        return None;
    }
    let first = Square::at(0);
    let men = ShelfMen {
        white: first,
        black: first,
        first: man,
        on: first,
        last: man,
    };
    let three = ThreeMen {
        table,
        library,
        men,
        part,
    };
    Some(Runs {
        len,
        count: codes / len,
        white: right_rows(&three, Side::White),
        black: right_rows(&three, Side::Black),
        tells: true,
    })
}
