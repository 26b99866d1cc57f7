//! Laws of the entries of either part beside the greatest scores of all moves. This function does nothing: a
//! caller calls it to know what it ensures.
ghost use Rattle.std.specs.Prelude.{◌≡◌, ◌≢◌, ℕ, Bool};
ghost use Rattle.egt_check.specs.Prelude.{K, Side, ShelfMen, Tables, AreTablesOf, four_in, tables_in, AreAllScoresOf};
ghost use Rattle.egt_check.specs.Prelude.{IsRightLane, KeepsPart, FourMenTables, Part};

use crate::laws::{all_scores_give_all_moves, due_bytes_are_right};
use crate::reach_laws::{all_reach_scores_give_all_moves, due_reaches_are_right};
use egt_index::laws::{a_code_is_an_index_or_void, codes_tell_their_men, numbers_stand_for_codes};

/// Entries of a part that are due to the greatest scores of all moves keep the rules, whether or not their code is an
/// index.
pub fn entries_due_to_all_moves_are_right()
    ensures { (part : Part) (tables : Tables) (four : FourMenTables) (men : ShelfMen) (side : Side) (targeted : Bool)
        (a b i score zeroing : ℕ) → AreTablesOf (tables_in part tables) (four_in part four) men → men.first.kind ≢ K →
        men.last.kind ≢ K →
        IsRightLane part targeted four.own men side a b i score zeroing →
        AreAllScoresOf part targeted four men side a b score zeroing → KeepsPart part tables four.own i }
{
    a_code_is_an_index_or_void();
    codes_tell_their_men();
    numbers_stand_for_codes();
    all_scores_give_all_moves();
    all_reach_scores_give_all_moves();
    due_bytes_are_right();
    due_reaches_are_right();
}
