//! Rounds of looks at the rows of a class with one piece beside the kings, until all entries are due.
ghost use Rattle.std.specs.Prelude.{◌≡◌, ◌*◌, ◌<◌, ◌≤◌, ℕ, true, IfSome};
ghost use Rattle.egt_sweep.specs.FillPrelude.{size_of, IsLoneMan, IsLoneFilling, IsMendedAt, KeepsPart, beside};
ghost use Rattle.egt_sweep.specs.FillPrelude.{table_at};
ghost use Rattle.egt_sweep.specs.declared.mending.Mended.TheVariants as mends;

use crate::lone_mending::{Kings, LoneFilling, mend_lone_row};
use crate::mending::Mended;
use crate::put_due::Looks;
use egt_board::{Man, Square};
use egt_check::pairs::MOST_PAIRS;
use egt_class::Class;
use egt_index::{lone_row, size};
use egt_table::Table;

/// The squares of the kings by the number of their codes, 128 of which follow one another.
fn all_kings(class: Class, man: Man) -> [Kings; MOST_PAIRS]
    requires { IsLoneMan class man }
{
    let corner = Square::at(0);
    let mut all = [Kings {
        white: corner,
        black: corner,
    }; MOST_PAIRS];
    for squares in 0..4096u16 {
        let white = Square::at((squares / 64) as u8);
        let black = Square::at((squares % 64) as u8);
        if let Some(first) = lone_row(class, man, white, black) {
            let pair = first as usize / 128;
            if pair < MOST_PAIRS {
                all[pair] = Kings { white, black };
            }
        }
    }
    all
}

/// Looks at all rows; where at all moves, all entries are due only where they keep the rules.
fn look_at_rows(
    table: &mut Table,
    f: &LoneFilling,
    kings: &[Kings; MOST_PAIRS],
    all: bool,
) -> Mended
    requires filling { IsLoneFilling f.now table.old }
    ensures mended { IsMendedAt f.now.part (λ i. Unit {0}) table.old table.new }
    ensures due { result ≡ mends.Due → all ≡ true → (i : ℕ) → i < size_of table.new.class →
        KeepsPart f.now.part (beside (table_at f.now.library.now) table.new) table.new i }
{
    let codes = size(table.class());
    if codes % 128 != 0 || codes / 128 > 2048 {
        return Mended::Untold;
    }
    let mut found = Mended::Due;
    for row in 0..codes / 64 {
        let _class = table.class();
        match mend_lone_row(table, f, kings[row as usize / 2], row, all) {
            Mended::Due => {}
            Mended::Put => found = Mended::Put,
            Mended::Untold => return Mended::Untold,
        }
    }
    found
}

/// Puts what is due at all codes of the part, until all entries are: a round of looks at quiet steps follows one that
/// put something, and one of looks at all moves one that did not. `None` where bytes do not tell that, and where so
/// many rounds are too few.
pub(crate) fn mend_lone_rows(f: &LoneFilling, table: &mut Table, rounds: u32) -> Option<Looks>
    requires filling { IsLoneFilling f.now table.old }
    ensures mended { IsMendedAt f.now.part (λ i. Unit {0}) table.old table.new }
    ensures few { IfSome result (λ looks. looks.taken ≤ rounds * looks.items) }
    ensures right { IfSome result (λ looks. (i : ℕ) → i < size_of table.new.class →
        KeepsPart f.now.part (beside (table_at f.now.library.now) table.new) table.new i) }
{
    let class = table.class();
    let items = size(class) as usize / 64;
    let kings = all_kings(class, f.man);
    let mut all = true;
    for round in 0..rounds {
        let _class = table.class();
        match look_at_rows(table, f, &kings, all) {
            Mended::Put => all = false,
            Mended::Due if all => {
                let taken = (round as usize + 1) * items;
                return Some(Looks { items, taken });
            }
            Mended::Due => all = true,
            Mended::Untold => return None,
        }
    }
    None
}
