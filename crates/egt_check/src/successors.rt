//! The best of a position's steps.
ghost use Rattle.std.specs.Prelude.{◌≡◌, ◌↔◌, ◌<◌, ◌≤◌, max, ℕ, Some, None, IsTrue, IsSome, IfSome, IfNone};
ghost use Rattle.egt_check.specs.Prelude.{option_map, Setup, IsAdmissible, size_of, EachMove, NoMove, IsLeast, chess};
ghost use Rattle.egt_check.specs.Prelude.{Zeroes, Leads, IsLegal, Metric, nearer, IsPlaceOf, HasReachAt, AreRaised};
ghost use Rattle.egt_check.specs.Prelude.{HasReachEntry, ShowsReach, ShowsReachOf, number_at, greater, Scores, IsBest};
ghost use Rattle.egt_check.specs.Prelude.{IsInClass, shown_by, table_at, beside, entry_at, HasEntry, HasChildren};
ghost use Rattle.egt_check.specs.Prelude.{HasReachChildren};
ghost use Rattle.egt_moves.specs.AllMen.{AreMenOf};

use crate::library::Library;
use egt_board::Position;
use egt_class::{Class, of};
use egt_entries::by_metric::ByMetric;
use egt_entries::outcome::{mate_score, zeroing_score};
use egt_index::{index, indexed_by_men};
use egt_moves::{Men, Move, is_without_en_passant, legal_moves, play_legal, zeroing};
use egt_steps::facts::facts;
use egt_table::{Column, Table};

/// A table's entries at an index.
pub(crate) fn entries_at(table: &Table, index: u32) -> ByMetric
    requires { index < size_of table.now.class }
    ensures { (metric : Metric) → number_at result metric ≡ entry_at table.now metric index }
{
    ByMetric {
        mate: table.entry(Column::Mate, index),
        zeroing: table.entry(Column::Zeroing, index),
    }
}

/// Where a position's entries stand: in the table of a class, at an index there.
#[derive(Clone, Copy)]
pub struct Place {
    /// The position's class.
    pub class: Class,
    /// Its index there.
    pub index: u32,
}

/// The table of a class: this one, or one of the library.
fn table_of<'a>(table: &'a Table, library: &'a Library, class: Class) -> &'a Table
    requires { IsSome (beside (table_at library.now) table.now class) }
    ensures found { beside (table_at library.now) table.now class ≡ Some result.now }
    ensures class { result.now.class ≡ class }
{
    if class == table.class() {
        table
    } else {
        library.get(class).unwrap()
    }
}

/// The entries at a place.
fn entries_in(table: &Table, library: &Library, place: Place) -> ByMetric
    requires there { IsSome (beside (table_at library.now) table.now place.class) }
    requires below { place.index < size_of place.class }
    ensures { (metric : Metric) (q : Setup) → IsPlaceOf place q →
        HasEntry (beside (table_at library.now) table.now) metric q (number_at result metric) }
{
    entries_at(table_of(table, library, place.class), place.index)
}

/// The entry of the column of the nearest mates at a place.
fn reach_in(table: &Table, library: &Library, place: Place) -> u16
    requires there { HasReachAt (beside (table_at library.now) table.now) place.class }
    requires below { place.index < size_of place.class }
    ensures { (q : Setup) → IsPlaceOf place q → HasReachEntry (beside (table_at library.now) table.now) q result }
{
    table_of(table, library, place.class).entry(Column::Reach, place.index)
}

/// The place of a position's entries.
fn place_of(position: &Position) -> Place
    ensures { IsPlaceOf result position.now }
{
    let (class, _) = of(position);
    let _number = class.number();
    Place {
        class,
        index: index(class, position),
    }
}

/// The place of the entries of a position without a target, by its men alone.
fn place_by_men(men: &Men) -> Place
    requires { (q : Setup) × IsAdmissible q × AreMenOf q men.now × (q.target ≡ None) }
    ensures { (q : Setup) → IsAdmissible q → AreMenOf q men.now → q.target ≡ None → IsPlaceOf result q }
{
    let (class, index) = indexed_by_men(men.white, men.black, men.first, men.other, men.side);
    let _number = class.number();
    Place { class, index }
}

/// The place of the entries of where a legal move leads. The position there is not made where the men tell the place.
pub fn place_after(position: &Position, men: &Men, chess_move: &Move) -> Place
    requires legal { IsLegal position.now chess_move.now }
    requires men { AreMenOf position.now men.now }
    ensures { (q : Setup) → Leads position.now chess_move.now q → IsPlaceOf result q }
{
    facts();
    let _side = position.side();
    if is_without_en_passant(position, chess_move.from, chess_move.to) {
        let next = men.after(chess_move);
        return place_by_men(&next);
    }
    place_of(&play_legal(position, *chess_move))
}

/// The entries of where a legal move leads.
fn entries_after(
    table: &Table,
    library: &Library,
    position: &Position,
    men: &Men,
    chess_move: &Move,
) -> ByMetric
    requires legal { IsLegal position.now chess_move.now }
    requires own { IsInClass table.now.class position.now }
    requires children { HasChildren (table_at library.now) table.now.class }
    requires men { AreMenOf position.now men.now }
    ensures { (metric : Metric) (q : Setup) → Leads position.now chess_move.now q →
        HasEntry (beside (table_at library.now) table.now) metric q (number_at result metric) }
{
    facts();
    let _side = position.side();
    let _class = table.class();
    entries_in(table, library, place_after(position, men, chess_move))
}

/// The scores of a legal move to a position with these entries.
fn scores(
    table: &Table,
    library: &Library,
    position: &Position,
    chess_move: &Move,
    entries: ByMetric,
    zeroes: bool,
) -> ByMetric
    requires legal { IsLegal position.now chess_move.now }
    requires entries { (metric : Metric) (q : Setup) → Leads position.now chess_move.now q →
        HasEntry (beside (table_at library.now) table.now) metric q (number_at entries metric) }
    requires zeroes { IsTrue zeroes ↔ Zeroes position.now chess_move.now }
    ensures { (metric : Metric) (q : Setup) (leads : Leads position.now chess_move.now q) →
        Scores (shown_by library.now table.now) metric position.now q (chess_move.now, leads)
        (number_at result metric) }
{
    facts();
    let _side = position.side();
    let ByMetric { mate, zeroing } = entries;
    ByMetric {
        mate: mate_score(mate),
        zeroing: zeroing_score(mate, zeroing, zeroes),
    }
}

/// In each column the greater of two scores.
#[inline(always)]
fn higher(best: ByMetric, scores: ByMetric) -> ByMetric
    ensures { (metric : Metric) → number_at result metric ≡ max (number_at best metric) (number_at scores metric) }
{
    ByMetric {
        mate: best.mate.max(scores.mate),
        zeroing: best.zeroing.max(scores.zeroing),
    }
}

/// In each column the greater of two scores, if there are two.
#[inline(always)]
fn raised(best: Option<ByMetric>, scores: ByMetric) -> ByMetric
    ensures { (metric : Metric) →
        number_at result metric ≡ greater (option_map (λ numbers. number_at numbers metric) best)
        (number_at scores metric) }
{
    match best {
        Some(best) => higher(best, scores),
        None => scores,
    }
}

/// The best score so far, and of a legal move.
fn best_after(
    table: &Table,
    library: &Library,
    position: &Position,
    men: &Men,
    chess_move: &Move,
    best: Option<ByMetric>,
) -> Option<ByMetric>
    requires legal { IsLegal position.now chess_move.now }
    requires own { IsInClass table.now.class position.now }
    requires children { HasChildren (table_at library.now) table.now.class }
    requires men { AreMenOf position.now men.now }
    ensures { AreRaised (shown_by library.now table.now) position.now (λ m. m ≡ chess_move.now) best result }
{
    let entries = entries_after(table, library, position, men, chess_move);
    let zeroes = zeroing(position, *chess_move);
    let scores = scores(table, library, position, chess_move, entries, zeroes);
    Some(raised(best, scores))
}

/// The entry of the column of the nearest mates of where a legal move leads.
fn reach_after(
    table: &Table,
    library: &Library,
    position: &Position,
    men: &Men,
    chess_move: &Move,
) -> u16
    requires there { IsSome table.now.reach }
    requires legal { IsLegal position.now chess_move.now }
    requires own { IsInClass table.now.class position.now }
    requires children { HasChildren (table_at library.now) table.now.class }
    requires reach_children { HasReachChildren (table_at library.now) table.now.class }
    requires men { AreMenOf position.now men.now }
    ensures { (q : Setup) → Leads position.now chess_move.now q →
        HasReachEntry (beside (table_at library.now) table.now) q result }
{
    facts();
    let _side = position.side();
    let _class = table.class();
    reach_in(table, library, place_after(position, men, chess_move))
}

/// The number of plies that an entry of the column of the nearest mates shows, if it shows one.
fn reach_shown(entry: u16) -> Option<u16>
    ensures some { IfSome result (λ n. ShowsReach entry (Some n)) }
    ensures none { IfNone result ((n : ℕ) → ¬ ShowsReach entry (Some n)) }
{
    if 2 <= entry && entry <= 32_002 {
        Some(entry - 2)
    } else {
        None
    }
}

/// The less of two numbers, or the one that is there.
fn nearer(one: Option<u16>, other: Option<u16>) -> Option<u16>
    ensures { result ≡ nearer one other }
{
    match (one, other) {
        (Some(one), Some(other)) => Some(one.min(other)),
        (one, None) => one,
        (None, other) => other,
    }
}

/// The least number of plies that the column of the nearest mates shows of where a legal move leads, if one is shown.
pub(crate) fn least_reach(table: &Table, library: &Library, position: &Position) -> Option<u16>
    requires there { IsSome table.now.reach }
    requires own { IsInClass table.now.class position.now }
    requires children { HasChildren (table_at library.now) table.now.class }
    requires reach_children { HasReachChildren (table_at library.now) table.now.class }
    ensures some { IfSome result (λ n. (n ≤ 32000) ×
        IsLeast chess position.now (λ q m k. ShowsReachOf (beside (table_at library.now) table.now) q (Some k)) n) }
    ensures none { IfNone result (EachMove chess position.now
        (λ q. (k : ℕ) → ¬ ShowsReachOf (beside (table_at library.now) table.now) q (Some k))) }
{
    facts();
    let _side = position.side();
    let men = Men::of(position);
    let moves = legal_moves(position);
    let mut least = None;
    for chess_move in moves.as_slice() {
        let reach = reach_after(table, library, position, &men, chess_move);
        least = nearer(least, reach_shown(reach));
    }
    least
}

/// In each column the best score of a legal move, if there is a move.
pub(crate) fn best(table: &Table, library: &Library, position: &Position) -> Option<ByMetric>
    requires own { IsInClass table.now.class position.now }
    requires children { HasChildren (table_at library.now) table.now.class }
    ensures some { IfSome result
        (λ best. (metric : Metric) → IsBest (shown_by library.now table.now) metric position.now
        (number_at best metric)) }
    ensures none { IfNone result (NoMove chess position.now) }
{
    let men = Men::of(position);
    let moves = legal_moves(position);
    let mut best = None;
    for chess_move in moves.as_slice() {
        best = best_after(table, library, position, &men, chess_move, best);
    }
    best
}
