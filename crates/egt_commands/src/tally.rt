//! How many entries of a table show something, and the most plies.
ghost use Rattle.std.specs.Prelude.{◌≡◌, length, count_by, max, option_map, unwrap_or};
ghost use Rattle.egt_commands.specs.Prelude.{HasColumn, entries_of, Mate, shows, plies_of, IsLongest};
ghost use Rattle.egt_commands.specs.declared.tally.Shown.TheVariants as kinds;

use egt_index::size;
use egt_table::{Column, Table};

/// What an entry shows.
#[derive(Clone, Copy)]
pub(crate) enum Shown {
    /// There is no position.
    Void,
    Draw,
    /// A win of the side to move.
    Win,
    /// A loss of the side to move.
    Loss,
}

/// The greatest entry, a loss in 32,000 plies.
const GREATEST: u16 = 64_003;

/// Whether the entry shows this.
fn shows(shown: Shown, entry: u16) -> bool
    ensures { result ≡ shows shown entry }
{
    match shown {
        Shown::Void => entry == 0,
        Shown::Draw => entry == 1,
        Shown::Win => 4 <= entry && entry < GREATEST && entry % 2 == 0,
        Shown::Loss => 3 <= entry && entry <= GREATEST && entry % 2 == 1,
    }
}

/// How many entries of the column show this.
pub(crate) fn count(table: &Table, column: Column, shown: Shown) -> u32
    requires { HasColumn column table.now }
    ensures { result ≡ count_by (shows shown) (entries_of column table.now) }
{
    let mut count = 0;
    for index in 0..size(table.class()) {
        if shows(shown, table.entry(column, index)) {
            count += 1;
        }
    }
    count
}

/// How many positions are dead, where the table has the column of the nearest mates: their entry there is that of a
/// draw elsewhere.
pub(crate) fn dead(table: &Table) -> Option<u32>
    ensures { result ≡ option_map (count_by (shows kinds.Draw)) table.now.reach }
{
    if table.has_reach() {
        Some(count(table, Column::Reach, Shown::Draw))
    } else {
        None
    }
}

/// The plies of the entry, or those that are known already where they are more.
fn longer(known: Option<u16>, entry: u16) -> u16
    ensures { result ≡ unwrap_or (option_map (λ most. max most (plies_of entry)) known) (plies_of entry) }
{
    let plies = (entry / 2).saturating_sub(1);
    match known {
        Some(most) => most.max(plies),
        None => plies,
    }
}

/// The most plies of the mate entries that show this, if any does.
pub(crate) fn longest(table: &Table, shown: Shown) -> Option<u16>
    ensures { IsLongest (shows shown) (entries_of Mate table.now) (length (entries_of Mate table.now)) result }
{
    let mut longest = None;
    for index in 0..size(table.class()) {
        let entry = table.entry(Column::Mate, index);
        if shows(shown, entry) {
            longest = Some(longer(longest, entry));
        }
    }
    longest
}
