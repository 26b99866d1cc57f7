//! The items that looks begin with, one for each pair of kings' squares and side to move with entries of positions, and
//! where the number of each stands.
ghost use Rattle.std.specs.Prelude.{◌≡◌, ◌≢◌, ◌+◌, ◌*◌, ◌<◌, ◌≤◌, ℕ, false, true, IfOk, IfSome, length, slice_index_or};
ghost use Rattle.egt_sweep.specs.FillPrelude.{All, AreMenOf, IsItem, no_squares};
ghost use Rattle.egt_sweep.specs.FillPrelude.{AreShelvesOf, with_kings, IsOwnTable, TableValue, AreNumbered, IsFilling};

use crate::filling::Filling;
use crate::items::Item;
use crate::stamps::{PLACES, stamp_place};
use egt_blocks::blocks::{begin_with, nothing};
use egt_board::{Side, SquareSet};
use egt_check::blank::side_is_blank;
use egt_check::found::Found;
use egt_check::move_scores::exits;
use egt_check::own::Own;
use egt_check::pair_order::nth_pair;
use egt_check::pairs::{Pairs, pairs_of};
use egt_check::part::column_of;
use egt_check::table_judging::with_kings;
use egt_index::{ShelfMen, shelf_men};
use std::alloc::{AllocError, Global};

/// Whether the shelves of the men begin with this one, and those with a target `half` further on.
fn begin_at(f: &Filling, men: &ShelfMen, first: u32) -> bool
    requires men { AreMenOf f.now.class men.now }
    requires room { first + f.now.half < 4294967296 }
    ensures plain { result ≡ true → AreShelvesOf false f.now.class men.now first }
    ensures targeted { result ≡ true → f.now.half ≢ 0 → AreShelvesOf true f.now.class men.now (first + f.now.half) }
{
    if !begin_with(f.class, men, false, first) {
        return false;
    }
    if f.half == 0 {
        return true;
    }
    begin_with(f.class, men, true, first + f.half)
}

/// No squares of ends, by the first man's square.
fn no_ends() -> [SquareSet; 64]
    ensures { (s : ℕ) → slice_index_or result s no_squares ≡ no_squares }
{
    [SquareSet::EMPTY; 64]
}

/// The item of the shelves from this one on, of these men with that side to move, before its first look. `None` where
/// the shelves are those of other men, and where the table of a child does not tell.
fn item_of(
    alloc: Global,
    f: &Filling,
    men: &ShelfMen,
    first: u32,
    side: Side,
) -> Result<Option<Item>, AllocError>
    requires filling { IsFilling f.now }
    requires men { men.now ≡ with_kings f.now.men men.now.white men.now.black }
    requires room { first + f.now.half + 64 < 4294967296 }
    ensures item { IfOk result (λ some. IfSome some (λ item. (t : TableValue) → IsItem f.now t item)) }
    ensures looked { IfOk result (λ some. IfSome some (λ item. item.looked ≡ 0)) }
{
    if !begin_at(f, men, first) {
        return Ok(None);
    }
    let mut leaving = nothing();
    if !exits(&f.children, column_of(f.part), men, side, &mut leaving) {
        return Ok(None);
    }
    Ok(Some(Item {
        first,
        white: men.white,
        black: men.black,
        side,
        looked: 0,
        ended: no_ends(),
        targeted_ended: no_ends(),
        leaving: Box::new(alloc, leaving)?,
    }))
}

/// Adds the item of the shelves from this one on with that side to move, or none where no entries are of positions.
/// False where the shelves do not go by pairs, and where the table of a child does not tell.
fn begin_pair(
    alloc: Global,
    f: &Filling,
    table: &Found,
    first: u32,
    side: Side,
    items: &mut Vec<Item>,
) -> Result<bool, AllocError>
    requires filling { IsFilling f.now }
    requires table { IsOwnTable f.now.part f.now.class f.now.men table.now }
    requires room { first + f.now.half + 64 < 4294967296 }
    requires items { All (IsItem f.now table.now) items.old.items }
    requires looked { All (λ item. item.looked ≡ 0) items.old.items }
    ensures items { All (IsItem f.now table.now) items.new.items }
    ensures looked { All (λ item. item.looked ≡ 0) items.new.items }
{
    let Some(here) = shelf_men(f.class, first) else {
        return Ok(false);
    };
    let men = with_kings(&f.men, here.white, here.black);
    let own = Own::of_found(table);
    if side_is_blank(&own, column_of(f.part), &men, first, f.half, side) {
        return Ok(true);
    }
    let Some(item) = item_of(alloc, f, &men, first, side)? else {
        return Ok(false);
    };
    items.push(item)?;
    Ok(true)
}

/// Adds the items of all pairs with that side to move. False where the shelves do not go by pairs, and where the table
/// of a child does not tell.
fn begin_side(
    alloc: Global,
    f: &Filling,
    table: &Found,
    pairs: &Pairs,
    side: Side,
    items: &mut Vec<Item>,
) -> Result<bool, AllocError>
    requires filling { IsFilling f.now }
    requires table { IsOwnTable f.now.part f.now.class f.now.men table.now }
    requires few { 64 * pairs.now.kings < 4294967296 }
    requires room { 64 * pairs.now.kings * pairs.now.step + f.now.half + 64 < 4294967296 }
    requires items { All (IsItem f.now table.now) items.old.items }
    requires looked { All (λ item. item.looked ≡ 0) items.old.items }
    ensures items { All (IsItem f.now table.now) items.new.items }
    ensures looked { All (λ item. item.looked ≡ 0) items.new.items }
{
    for n in 0..64 * pairs.kings {
        let first = nth_pair(side, n, pairs.kings) * pairs.step;
        if !begin_pair(alloc, f, table, first, side, items)? {
            return Ok(false);
        }
    }
    Ok(true)
}

/// The items of all pairs, with either side to move, before their first looks. `None` where the class's shelves do not
/// go by pairs, and where the table of a child does not tell.
pub(crate) fn begun_items(
    alloc: Global,
    f: &Filling,
    table: &Found,
) -> Result<Option<Vec<Item>>, AllocError>
    requires filling { IsFilling f.now }
    requires table { IsOwnTable f.now.part f.now.class f.now.men table.now }
    ensures items { IfOk result (λ some. IfSome some (λ items. All (IsItem f.now table.now) items.items)) }
    ensures looked { IfOk result (λ some. IfSome some (λ items. All (λ item. item.looked ≡ 0) items.items)) }
{
    let Some(pairs) = pairs_of(f.class, &f.men) else {
        return Ok(None);
    };
    if pairs.half != f.half {
        return Ok(None);
    }
    let mut items = Vec::new(alloc);
    if !begin_side(alloc, f, table, &pairs, Side::White, &mut items)?
        || !begin_side(alloc, f, table, &pairs, Side::Black, &mut items)?
    {
        return Ok(None);
    }
    Ok(Some(items))
}

/// Writes the number of each item at its place.
fn write_numbers(items: &[Item], places: &mut [u32])
    requires few { length items.now ≤ 8192 }
    requires places { length places.old ≡ 8192 }
{
    for (number, item) in items.iter().enumerate() {
        places[stamp_place(item.side, item.white, item.black)] = number as u32;
    }
}

/// Whether the number of each item stands at its place.
fn are_numbered(items: &[Item], places: &[u32]) -> bool
    requires { length places.now ≡ 8192 }
    ensures { result ≡ true → AreNumbered items.now places.now }
{
    for (number, item) in items.iter().enumerate() {
        if places[stamp_place(item.side, item.white, item.black)] as usize != number {
            return false;
        }
    }
    true
}

/// Where the number of each item stands, by the place of its kings and side. `None` where two items have the same.
pub(crate) fn places_of(alloc: Global, items: &[Item]) -> Result<Option<Vec<u32>>, AllocError>
    ensures few { IfOk result (λ some. IfSome some (λ places. length items.now ≤ 8192)) }
    ensures length { IfOk result (λ some. IfSome some (λ places. length places.items ≡ 8192)) }
    ensures numbers { IfOk result (λ some. IfSome some (λ places. AreNumbered items.now places.items)) }
{
    if items.len() > PLACES {
        return Ok(None);
    }
    let mut places = vec![in alloc; u32::MAX; PLACES]?;
    write_numbers(items, &mut places);
    if are_numbered(items, &places) {
        Ok(Some(places))
    } else {
        Ok(None)
    }
}
