//! Whole tables whose entries are due with the kings on all squares: of those that were looked at they are, and of the
//! rest all are of no position.
ghost use Rattle.std.specs.Prelude.{◌≡◌, ◌+◌, ◌<◌, ℕ, true, Contains};
ghost use Rattle.egt_sweep.specs.FillPrelude.{All, size_of, Item};
ghost use Rattle.egt_sweep.specs.FillPrelude.{IsOwnTable, KeepsPart, AreAllJudged, IsDueItem, tables_with, IsFilling};

use crate::filling::Filling;
use crate::items::Item;
use crate::stamps::stamp_place;
use egt_board::{Side, Square};
use egt_check::blank::side_is_blank;
use egt_check::found::Found;
use egt_check::own::Own;
use egt_check::pairs::{judged_pairs_hold_all_codes, pairs_of};
use egt_check::part::column_of;
use egt_check::part_laws::entries_due_to_all_moves_are_right;
use egt_check::table_judging::with_kings;
use egt_index::laws::a_code_is_an_index_or_void;
use egt_index::shelf_men;

/// Whether there is an item of these shelves, at the place of the kings who stand there.
fn has_item(
    items: &[Item],
    places: &[u32],
    first: u32,
    white: Square,
    black: Square,
    side: Side,
) -> bool
    ensures { result ≡ true → (item : Item) × Contains items.now item × (item.first ≡ first) × (item.side ≡ side) }
{
    let Some(&place) = places.get(stamp_place(side, white, black)) else {
        return false;
    };
    match items.get(place as usize) {
        Some(item) => item.first == first && item.side == side,
        None => false,
    }
}

/// Whether all entries of the shelves from this one on with that side to move, and of those `half` further on, are of
/// no position or those of an item.
pub(crate) fn pair_is_covered(
    filling: &Filling,
    table: &Found,
    first: u32,
    side: Side,
    items: &[Item],
    places: &[u32],
) -> bool
    requires filling { IsFilling filling.now }
    requires own { IsOwnTable filling.now.part filling.now.class filling.now.men table.now }
    requires due { All (IsDueItem filling.now table.now) items.now }
    requires room { first + filling.now.half + 64 < 4294967296 }
    ensures { result ≡ true → AreAllJudged filling.now table.now first side }
{
    a_code_is_an_index_or_void();
    entries_due_to_all_moves_are_right();
    let Some(here) = shelf_men(filling.class, first) else {
        return false;
    };
    let there = with_kings(&filling.men, here.white, here.black);
    let own = Own::of_found(table);
    if side_is_blank(
        &own,
        column_of(filling.part),
        &there,
        first,
        filling.half,
        side,
    ) {
        return true;
    }
    has_item(items, places, first, here.white, here.black, side)
}

/// Whether the entries of all shelves are due, with either side to move: then all entries of the part keep the rules.
pub(crate) fn all_are_covered(
    filling: &Filling,
    table: &Found,
    items: &[Item],
    places: &[u32],
) -> bool
    requires filling { IsFilling filling.now }
    requires own { IsOwnTable filling.now.part filling.now.class filling.now.men table.now }
    requires due { All (IsDueItem filling.now table.now) items.now }
    ensures { result ≡ true → (i : ℕ) → i < size_of table.now.class →
        KeepsPart filling.now.part (tables_with filling.now table.now) table.now i }
{
    judged_pairs_hold_all_codes();
    let Some(pairs) = pairs_of(filling.class, &filling.men) else {
        return false;
    };
    if pairs.half != filling.half {
        return false;
    }
    for pair in 0..64 * pairs.kings {
        let first = pair * pairs.step;
        if !pair_is_covered(filling, table, first, Side::White, items, places)
            || !pair_is_covered(filling, table, first, Side::Black, items, places)
        {
            return false;
        }
    }
    true
}
