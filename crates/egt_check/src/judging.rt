//! The judgement of one index's entries.
ghost use Rattle.std.specs.Prelude.{◌≡◌, ◌↔◌, ◌<◌, ◌==◌, if◌then◌else◌, Some, None, IsTrue};
ghost use Rattle.egt_check.specs.Prelude.{size_of, NoMove, chess, Metric, Mate, Zeroing, rule_of, IsOfKind, Finds};
ghost use Rattle.egt_check.specs.Prelude.{FindsVoid, IsJudged, number_at, IsAtEnd, IsDue, IsInClass, shown_by};
ghost use Rattle.egt_check.specs.Prelude.{table_at, beside, HasChildren};

use crate::library::Library;
use crate::successors::{best, entries_at};
use egt_board::Position;
use egt_entries::by_metric::ByMetric;
use egt_entries::outcome::{Outcome, entry_before, shown};
use egt_entries::rule::Rule;
use egt_index::laws::{codes_spell_one_position, spelled_positions_are_of_the_class};
use egt_index::position;
use egt_moves::{Standing, standing};
use egt_steps::facts::facts;
use egt_table::Table;

/// The rule for entries that show this.
fn rule_of(outcome: Outcome) -> Rule
    ensures { result ≡ rule_of outcome }
{
    match outcome {
        Outcome::Win(_) => Rule::Win,
        Outcome::Loss(_) => Rule::Loss,
        Outcome::Draw => Rule::Draw,
    }
}

/// Whether the mate entry shows nothing, or a win, a loss or a draw as the other entry does.
fn is_of_kind(mate: Option<Outcome>, outcome: Outcome) -> bool
    ensures { IsTrue result ↔ IsOfKind mate outcome }
{
    match mate {
        Some(Outcome::Win(_)) => matches!(outcome, Outcome::Win(_)),
        Some(Outcome::Loss(_)) => matches!(outcome, Outcome::Loss(_)),
        Some(Outcome::Draw) => matches!(outcome, Outcome::Draw),
        None => true,
    }
}

/// The first rule that an entry breaks where no position has the index, if it breaks one.
fn judge_void(entry: u16) -> Option<Rule>
    ensures { FindsVoid entry result }
{
    if entry == 0 { None } else { Some(Rule::Void) }
}

/// The rule that an entry which shows this breaks where it is not the one that is due.
fn compared(outcome: Outcome, entry: u16, due: u16) -> Option<Rule>
    ensures { result ≡ (if entry == due then None else Some (rule_of outcome)) }
{
    if entry == due {
        None
    } else {
        Some(rule_of(outcome))
    }
}

/// The first rule that the mate entry of a position breaks, if it breaks one.
fn judge_mate(mate: u16, due: u16) -> Option<Rule>
    ensures { Finds Mate mate mate due result }
{
    if mate == 0 {
        return Some(Rule::Void);
    }
    match shown(mate) {
        Some(outcome) => compared(outcome, mate, due),
        None => Some(Rule::Range),
    }
}

/// The first rule that the zeroing entry of a position breaks beside its mate entry, if it breaks one.
fn judge_zeroing(mate: u16, zeroing: u16, due: u16) -> Option<Rule>
    ensures { Finds Zeroing mate zeroing due result }
{
    if zeroing == 0 {
        return Some(Rule::Void);
    }
    let Some(outcome) = shown(zeroing) else {
        return Some(Rule::Range);
    };
    if !is_of_kind(shown(mate), outcome) {
        return Some(Rule::Kind);
    }
    match outcome {
        Outcome::Draw => None,
        _ => compared(outcome, zeroing, due),
    }
}

/// The first rules that the mate entry and the zeroing entry of a position break beside those that are due, if they
/// break one.
fn judge_entries(entries: &ByMetric, due: &ByMetric) -> (Option<Rule>, Option<Rule>)
    ensures mate { Finds Mate entries.now.mate entries.now.mate due.now.mate result.0 }
    ensures zeroing { Finds Zeroing entries.now.mate entries.now.zeroing due.now.zeroing result.1 }
{
    (
        judge_mate(entries.mate, due.mate),
        judge_zeroing(entries.mate, entries.zeroing, due.zeroing),
    )
}

/// The entry of a position without a legal move.
fn entry_at_end(position: &Position) -> u16
    requires { NoMove chess position.now }
    ensures { IsAtEnd position.now result }
{
    match standing(position) {
        Standing::Checkmate => 3,
        _ => 1,
    }
}

/// The entries that are due to a position of the table's class.
fn due(table: &Table, library: &Library, position: &Position) -> ByMetric
    requires own { IsInClass table.now.class position.now }
    requires children { HasChildren (table_at library.now) table.now.class }
    ensures { (metric : Metric) → IsDue (shown_by library.now table.now) metric position.now (number_at result metric) }
{
    facts();
    let _side = position.side();
    match best(table, library, position) {
        Some(best) => ByMetric {
            mate: entry_before(best.mate),
            zeroing: entry_before(best.zeroing),
        },
        None => {
            let entry = entry_at_end(position);
            ByMetric {
                mate: entry,
                zeroing: entry,
            }
        }
    }
}

/// The first rules that the mate entry and the zeroing entry break where no position has the index, if they break one.
fn judge_voids(entries: &ByMetric) -> (Option<Rule>, Option<Rule>)
    ensures mate { FindsVoid entries.now.mate result.0 }
    ensures zeroing { FindsVoid entries.now.zeroing result.1 }
{
    (judge_void(entries.mate), judge_void(entries.zeroing))
}

/// The first rules that the mate entry and the zeroing entry at an index break, if they break one.
pub(crate) fn judge(table: &Table, library: &Library, index: u32) -> (Option<Rule>, Option<Rule>)
    requires inside { index < size_of table.now.class }
    requires children { HasChildren (table_at library.now) table.now.class }
    ensures mate { IsJudged (beside (table_at library.now) table.now) table.now Mate index result.0 }
    ensures zeroing { IsJudged (beside (table_at library.now) table.now) table.now Zeroing index result.1 }
{
    codes_spell_one_position();
    spelled_positions_are_of_the_class();
    let entries = entries_at(table, index);
    match position(table.class(), index) {
        None => judge_voids(&entries),
        Some(position) => {
            let due = due(table, library, &position);
            judge_entries(&entries, &due)
        }
    }
}
