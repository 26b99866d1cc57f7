//! Entries that are put until all are due.
ghost use Rattle.std.specs.Prelude.{◌≡◌, ◌*◌, ◌<◌, ◌≤◌, ℕ, length, IfOk, IfSome};
ghost use Rattle.egt_sweep.specs.FillPrelude.{size_of, Column, beside, table_at, table_in, HasBytes, IsFilling};
ghost use Rattle.egt_sweep.specs.FillPrelude.{HasColumn, IsOwnTable, KeepsPart, IsMendedAt, AreBothKept, IsUnderWay};
ghost use Rattle.egt_check.specs.declared.part.Part.TheVariants as parts;

use crate::beginning::{begun_items, places_of};
use crate::covering::all_are_covered;
use crate::filling::Filling;
use crate::items::Item;
use crate::kept::{Kept, nothing_kept};
use crate::rounds::mend_items;
use crate::stamps::{Marks, no_marks};
use egt_blocks::kept_blocks::RANK_PLACES;
use egt_check::found::Found;
use egt_class::Class;
use egt_index::men::has_pawns;
use std::alloc::{AllocError, Global};

/// How a part was filled.
#[derive(Clone, Copy)]
pub struct Looks {
    /// How many items there are: each was begun once.
    pub items: usize,
    /// How many looks at them were taken.
    pub taken: usize,
}

/// How many blocks are kept of the positions with one side to move: one for each pair of kings and column. The white
/// king stands on one of the first five files, and in a class without pawns on one of the first five ranks.
fn places_for(class: Class) -> usize
    ensures { 12 < result }
{
    let ranks = if has_pawns(class) { 8 } else { 5 };
    ranks * RANK_PLACES
}

/// Looks at the items until all that is due is put, and sees that they are of all codes. How many looks were taken;
/// `None` where so many rounds do not do.
fn put_all_due(
    f: &Filling,
    table: &mut Found,
    items: &mut [Item],
    places: &[u32],
    marks: &mut Marks,
    kept: &mut Kept,
    rounds: u32,
) -> Option<usize>
    requires filling { IsFilling f.now }
    requires table { IsOwnTable f.now.part f.now.class f.now.men table.old }
    requires few { length items.old ≤ 8192 }
    requires under { IsUnderWay f.now table.old items.old marks.old }
    requires kept { AreBothKept f.now table.old kept.old }
    ensures mended { IsMendedAt f.now.part (λ i. Unit {0}) table.old table.new }
    ensures few { IfSome result (λ taken. taken ≤ rounds * length items.old) }
    ensures right { IfSome result (λ taken. (i : ℕ) → i < size_of table.new.class →
        KeepsPart f.now.part (beside (table_at f.now.library.now) table.new) table.new i) }
{
    let taken = mend_items(f, table, items, marks, kept, rounds)?;
    let _class = table.class();
    if all_are_covered(f, table, items, places) {
        Some(taken)
    } else {
        None
    }
}

/// Puts what is due at all codes of the part, until all entries are. `None` where that is not told by bytes, and where
/// so many rounds of looks are too few.
pub(crate) fn put_due(
    alloc: Global,
    f: &Filling,
    table: &mut Found,
    rounds: u32,
) -> Result<Option<Looks>, AllocError>
    requires filling { IsFilling f.now }
    requires table { IsOwnTable f.now.part f.now.class f.now.men table.old }
    ensures class { table.new.class ≡ table.old.class }
    ensures there { (column : Column) → HasColumn column table.old → HasColumn column table.new }
    ensures mate { f.now.part ≡ parts.Reach → table.new.mate ≡ table.old.mate }
    ensures zeroing { f.now.part ≡ parts.Reach → table.new.zeroing ≡ table.old.zeroing }
    ensures reach { f.now.part ≡ parts.Values → table.new.reach ≡ table.old.reach }
    ensures bytes { HasBytes (table_in f.now.part table.new) }
    ensures few { IfOk result (λ told. IfSome told (λ looks. looks.taken ≤ rounds * looks.items)) }
    ensures right { IfOk result (λ told. IfSome told
        (λ looks. (i : ℕ) → i < size_of table.new.class →
        KeepsPart f.now.part (beside (table_at f.now.library.now) table.new) table.new i)) }
{
    let Some(mut items) = begun_items(alloc, f, table)? else {
        return Ok(None);
    };
    let Some(places) = places_of(alloc, &items)? else {
        return Ok(None);
    };
    let mut marks = no_marks(alloc)?;
    let mut kept = nothing_kept(alloc, places_for(f.class))?;
    let many = items.len();
    match put_all_due(f, table, &mut items, &places, &mut marks, &mut kept, rounds) {
        Some(taken) => Ok(Some(Looks { items: many, taken })),
        None => Ok(None),
    }
}
