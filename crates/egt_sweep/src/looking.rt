//! A look at an item: what is due to the greatest scores of all moves is put in its entries.
ghost use Rattle.std.specs.Prelude.{◌≡◌, ◌≢◌, ◌<◌, ℕ, true};
ghost use Rattle.egt_sweep.specs.FillPrelude.{other_side, IsOwnTable, AreAllKept, AreItemScores, IsItem};
ghost use Rattle.egt_sweep.specs.FillPrelude.{IsRightItem, IsSameItem, IsSeenItem, men_of, IsMended, IsFilling};
ghost use Rattle.egt_sweep.specs.declared.mending.Mended.TheVariants as mends;

use crate::filling::Filling;
use crate::items::Item;
use crate::kept::{Near, Scores};
use crate::mending::{Mended, mend_shelves};
use egt_blocks::blocks::nothing;
use egt_check::block_judging::{part_scores, raise_part_passing};
use egt_check::found::Found;
use egt_check::move_scores::{Moves, beside_found, passing_captures};
use egt_check::part::column_of;
use egt_check::shelf::Shelf;
use egt_check::table_judging::with_kings;
use egt_index::ShelfMen;
use egt_index::laws::numbers_stand_for_codes;

/// The greatest scores of all moves from the item's positions. False where a table does not tell.
fn item_scores(
    f: &Filling,
    table: &Found,
    item: &Item,
    men: &ShelfMen,
    read: &mut Near,
    out: &mut Scores,
) -> bool
    requires filling { IsFilling f.now }
    requires table { IsOwnTable f.now.part f.now.class f.now.men table.now }
    requires item { IsItem f.now table.now item.now }
    requires men { men.now ≡ men_of f.now item.now }
    requires kept { AreAllKept f.now table.now (other_side item.now.side) read.old }
    ensures kept { result ≡ true → AreAllKept f.now table.now (other_side item.now.side) read.new }
    ensures scores { result ≡ true → AreItemScores f.now table.now men.now item.now.side out.new }
{
    let side = item.side;
    let four = beside_found(table, &f.children);
    let moves = Moves {
        four: &four,
        men,
        side,
        part: f.part,
    };
    if !part_scores(
        &moves,
        &item.leaving,
        &mut read.keys,
        &mut read.blocks,
        &mut out.plain,
        &mut out.clocks,
    ) {
        return false;
    }
    if f.half == 0 {
        return true;
    }
    let mut passing = nothing();
    if !passing_captures(&f.children, column_of(f.part), men, side, &mut passing) {
        return false;
    }
    *out.targeted = *out.plain;
    *out.targeted_clocks = *out.clocks;
    raise_part_passing(
        &moves,
        &passing,
        &mut out.targeted,
        &mut out.targeted_clocks,
    );
    true
}

/// Of what two looks came to, what they come to together.
fn together(one: Mended, other: Mended) -> Mended
    ensures due { result ≡ mends.Due → (one ≡ mends.Due) × (other ≡ mends.Due) }
    ensures told { result ≢ mends.Untold → (one ≢ mends.Untold) × (other ≢ mends.Untold) }
{
    match (one, other) {
        (Mended::Untold, _) | (_, Mended::Untold) => Mended::Untold,
        (Mended::Due, Mended::Due) => Mended::Due,
        _ => Mended::Put,
    }
}

/// Puts what is due to the scores in the item's entries.
fn mend_item(
    f: &Filling,
    table: &mut Found,
    item: &mut Item,
    men: &ShelfMen,
    scores: &Scores,
) -> Mended
    requires filling { IsFilling f.now }
    requires table { IsOwnTable f.now.part f.now.class f.now.men table.old }
    requires item { IsItem f.now table.old item.old }
    requires men { men.now ≡ men_of f.now item.old }
    ensures mended { IsMended f.now.part item.old.white item.old.black item.old.side table.old table.new }
    ensures due { result ≡ mends.Due → table.new ≡ table.old }
    ensures same { IsSameItem item.old item.new }
    ensures item { result ≢ mends.Untold → IsItem f.now table.new item.new }
    ensures right { result ≢ mends.Untold → IsRightItem f.now table.new item.new scores.now }
{
    let plain = Shelf {
        number: item.first,
        men: *men,
        side: item.side,
        targeted: false,
    };
    let lower = mend_shelves(
        table,
        f.part,
        &plain,
        &scores.plain,
        &scores.clocks,
        &mut item.ended,
    );
    if f.half == 0 {
        return lower;
    }
    let targeted = Shelf {
        number: item.first + f.half,
        men: *men,
        side: item.side,
        targeted: true,
    };
    let upper = mend_shelves(
        table,
        f.part,
        &targeted,
        &scores.targeted,
        &scores.targeted_clocks,
        &mut item.targeted_ended,
    );
    together(lower, upper)
}

/// Looks at the item's positions: puts what is due to the greatest scores of all moves.
pub(crate) fn look(
    f: &Filling,
    table: &mut Found,
    item: &mut Item,
    read: &mut Near,
    scores: &mut Scores,
) -> Mended
    requires filling { IsFilling f.now }
    requires table { IsOwnTable f.now.part f.now.class f.now.men table.old }
    requires item { IsItem f.now table.old item.old }
    requires kept { AreAllKept f.now table.old (other_side item.old.side) read.old }
    ensures mended { IsMended f.now.part item.old.white item.old.black item.old.side table.old table.new }
    ensures due { result ≡ mends.Due → table.new ≡ table.old }
    ensures same { IsSameItem item.old item.new }
    ensures item { result ≢ mends.Untold → IsItem f.now table.new item.new }
    ensures seen { result ≢ mends.Untold → IsSeenItem f.now table.old table.new item.new }
    ensures kept { result ≢ mends.Untold → AreAllKept f.now table.old (other_side item.old.side) read.new }
{
    numbers_stand_for_codes();
    let men = with_kings(&f.men, item.white, item.black);
    if !item_scores(f, table, item, &men, read, scores) {
        return Mended::Untold;
    }
    mend_item(f, table, item, &men, scores)
}
