//! Rounds of looks: an item is looked at where something that it reads has changed since it was, until nothing has.
ghost use Rattle.std.specs.Prelude.{◌≡◌, ◌≢◌, ◌*◌, ◌≤◌, length, Some, IfSome};
ghost use Rattle.egt_sweep.specs.FillPrelude.{All, other_side, IsOwnTable, IsDueItem, IsItem, IsMended, IsMendedAt};
ghost use Rattle.egt_sweep.specs.FillPrelude.{AreAllKept, AreBothKept, AreFreshItems, IsFreshItem, IsUntouched};
ghost use Rattle.egt_sweep.specs.FillPrelude.{IsFilling, IsLookedAt, IsStamped, IsUnderWay};
ghost use Rattle.egt_sweep.specs.declared.rounds.Visited.TheVariants as visits;

use crate::filling::Filling;
use crate::forgetting::forget_read;
use crate::items::Item;
use crate::kept::{Kept, Near, Scores};
use crate::looking::look;
use crate::mending::Mended;
use crate::stamps::{Marks, needs_look, stamp_place};
use egt_board::Side;
use egt_check::found::Found;
use egt_check::table_judging::with_kings;

/// How many rounds are enough: a distance in bytes needs fewer.
pub const ROUNDS: u32 = 256;

/// What a visit came to.
#[derive(Clone, Copy)]
enum Visited {
    /// Nothing that the item reads has changed.
    Left,
    /// It was looked at.
    Looked,
    /// Its entries are not told.
    Untold,
}

/// Looks at the item where something that it reads has changed since it was looked at; where entries were put, that is
/// stamped, and what was read from them is forgotten. Blocks are kept of positions with the other side to move, which
/// are read, and of those with the item's own.
fn visit_with(
    f: &Filling,
    table: &mut Found,
    item: &mut Item,
    marks: &mut Marks,
    read: &mut Near,
    own: &mut Near,
    scores: &mut Scores,
) -> Visited
    requires filling { IsFilling f.now }
    requires table { IsOwnTable f.now.part f.now.class f.now.men table.old }
    requires item { IsItem f.now table.old item.old }
    requires long { length marks.old.stamps.items ≡ 8192 }
    requires read { AreAllKept f.now table.old (other_side item.old.side) read.old }
    requires own { AreAllKept f.now table.old item.old.side own.old }
    ensures mended { IsMended f.now.part item.old.white item.old.black item.old.side table.old table.new }
    ensures left { result ≡ visits.Left →
        IsUntouched table.old table.new item.old item.new marks.old marks.new × IsFreshItem f.now marks.old item.old }
    ensures looked { result ≡ visits.Looked → IsLookedAt f.now table.old table.new item.old item.new marks.old.tick }
    ensures stamped { result ≡ visits.Looked → IsStamped item.old table.old table.new marks.old marks.new }
    ensures read { result ≢ visits.Untold → AreAllKept f.now table.new (other_side item.old.side) read.new }
    ensures own { result ≢ visits.Untold → AreAllKept f.now table.new item.old.side own.new }
{
    let men = with_kings(&f.men, item.white, item.black);
    if !needs_look(f.class, &men, item.side, &marks.stamps, item.looked) {
        return Visited::Left;
    }
    item.looked = marks.tick;
    match look(f, table, item, read, scores) {
        Mended::Untold => Visited::Untold,
        Mended::Due => Visited::Looked,
        Mended::Put => {
            let Some(later) = marks.tick.checked_add(1) else {
                return Visited::Untold;
            };
            marks.tick = later;
            marks.stamps[stamp_place(item.side, item.white, item.black)] = later;
            forget_read(
                f.class,
                item.white,
                item.black,
                &mut own.keys,
                &mut read.keys,
            );
            Visited::Looked
        }
    }
}

/// Visits the item with what is kept of both sides.
fn visit(
    f: &Filling,
    table: &mut Found,
    item: &mut Item,
    marks: &mut Marks,
    kept: &mut Kept,
) -> Visited
    requires filling { IsFilling f.now }
    requires table { IsOwnTable f.now.part f.now.class f.now.men table.old }
    requires item { IsItem f.now table.old item.old }
    requires long { length marks.old.stamps.items ≡ 8192 }
    requires kept { AreBothKept f.now table.old kept.old }
    ensures mended { IsMended f.now.part item.old.white item.old.black item.old.side table.old table.new }
    ensures left { result ≡ visits.Left →
        IsUntouched table.old table.new item.old item.new marks.old marks.new × IsFreshItem f.now marks.old item.old }
    ensures looked { result ≡ visits.Looked → IsLookedAt f.now table.old table.new item.old item.new marks.old.tick }
    ensures stamped { result ≡ visits.Looked → IsStamped item.old table.old table.new marks.old marks.new }
    ensures kept { result ≢ visits.Untold → AreBothKept f.now table.new kept.new }
{
    let Kept {
        white,
        black,
        scores,
    } = kept;
    match item.side {
        Side::White => visit_with(f, table, item, marks, black, white, scores),
        Side::Black => visit_with(f, table, item, marks, white, black, scores),
    }
}

/// Visits all items. How many were looked at; `None` where entries of one are not told.
fn round(
    f: &Filling,
    table: &mut Found,
    items: &mut [Item],
    marks: &mut Marks,
    kept: &mut Kept,
) -> Option<usize>
    requires filling { IsFilling f.now }
    requires table { IsOwnTable f.now.part f.now.class f.now.men table.old }
    requires under { IsUnderWay f.now table.old items.old marks.old }
    requires kept { AreBothKept f.now table.old kept.old }
    ensures mended { IsMendedAt f.now.part (λ i. Unit {0}) table.old table.new }
    ensures under { IfSome result (λ looks. IsUnderWay f.now table.new items.new marks.new) }
    ensures kept { IfSome result (λ looks. AreBothKept f.now table.new kept.new) }
    ensures few { IfSome result (λ looks. looks ≤ length items.old) }
    ensures fresh { result ≡ Some 0 → AreFreshItems f.now marks.new items.new (length items.new) }
{
    let mut looks = 0;
    for i in 0..items.len() {
        let _class = table.class();
        match visit(f, table, &mut items[i], marks, kept) {
            Visited::Left => {}
            Visited::Looked => looks += 1,
            Visited::Untold => return None,
        }
    }
    Some(looks)
}

/// Looks at items until nothing that one reads has changed since it was looked at: then all entries are due. How many
/// looks were taken; `None` where entries are not told, and where so many rounds are too few.
pub(crate) fn mend_items(
    f: &Filling,
    table: &mut Found,
    items: &mut [Item],
    marks: &mut Marks,
    kept: &mut Kept,
    rounds: u32,
) -> Option<usize>
    requires filling { IsFilling f.now }
    requires table { IsOwnTable f.now.part f.now.class f.now.men table.old }
    requires few { length items.old ≤ 8192 }
    requires under { IsUnderWay f.now table.old items.old marks.old }
    requires kept { AreBothKept f.now table.old kept.old }
    ensures mended { IsMendedAt f.now.part (λ i. Unit {0}) table.old table.new }
    ensures few { IfSome result (λ taken. taken ≤ rounds * length items.old) }
    ensures fresh { IfSome result (λ taken. AreFreshItems f.now marks.new items.new (length items.new)) }
    ensures due { IfSome result (λ taken. All (IsDueItem f.now table.new) items.new) }
{
    let mut taken = 0;
    for _round in 0..rounds {
        let _class = table.class();
        let looks = round(f, table, items, marks, kept)?;
        if looks == 0 {
            return Some(taken);
        }
        taken += looks;
    }
    None
}
