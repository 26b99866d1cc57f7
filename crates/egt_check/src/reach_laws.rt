//! Laws of the column of the nearest mates beside the moves. These functions do nothing: a caller calls one to
//! know what it ensures.
ghost use Rattle.std.specs.Prelude.{◌≡◌, ◌≢◌, ◌<◌, ℕ, Bool, false, None};
ghost use Rattle.egt_check.specs.Prelude.{Setup, K, Side, Spells, IsVoid, HasStand, ShelfMen, reach_due_score};
ghost use Rattle.egt_check.specs.Prelude.{reach_score, NoMove, chess, TableValue, FourMenTables, Reach, stand_on};
ghost use Rattle.egt_check.specs.Prelude.{AreTablesOf, near_entry, near_tables, four_in, AreAllReachScores, IsJudgedBy};
ghost use Rattle.egt_check.specs.Prelude.{KeepsReach, IsAtEnd, Tables, reach_at, AreGiven};

use crate::laws::{all_scores_give_all_moves, due_bytes_are_right};
use egt_index::laws::{
    a_code_is_an_index_or_void, codes_spell_one_position, codes_tell_their_men,
    numbers_stand_for_codes,
};
use egt_steps::facts::facts;

/// Entries of a position that are due to the greatest scores of all moves keep the rules. Where there is no move, so do
/// those that tell checkmate or stalemate.
pub fn due_reaches_are_right()
    ensures due { (tables : Tables) (t : TableValue) (i : ℕ) (p : Setup) (g z : ℕ) → Spells t.class i p →
        ¬ IsVoid t.class i → reach_at t i ≢ 0 → reach_at t i < 128 →
        AreGiven (near_tables tables) p (λ m. Unit {0}) g z → g ≢ 0 → reach_score (reach_at t i) ≡ reach_due_score g →
        IsJudgedBy (KeepsReach tables t i) None }
    ensures end { (tables : Tables) (t : TableValue) (i : ℕ) (p : Setup) (x : ℕ) → Spells t.class i p →
        ¬ IsVoid t.class i → NoMove chess p → IsAtEnd p x → near_entry (reach_at t i) ≡ x →
        IsJudgedBy (KeepsReach tables t i) None }
{
    facts();
    codes_spell_one_position();
}

/// The greatest scores in that column of the codes after all moves are those of the moves, in tables where it is read
/// as a mate column.
pub fn all_reach_scores_give_all_moves()
    ensures { (tables : Tables) (four : FourMenTables) (men : ShelfMen) (side : Side) (targeted : Bool) (a b : ℕ)
        (p : Setup) (reach : ℕ) → AreTablesOf (near_tables tables) (four_in Reach four) men →
        men.first.kind ≢ K → men.last.kind ≢ K → HasStand four.own.class false (stand_on men a b) side targeted p →
        AreAllReachScores targeted four men side a b reach →
        (zeroing : ℕ) × AreGiven (near_tables tables) p (λ m. Unit {0}) reach zeroing }
{
    a_code_is_an_index_or_void();
    all_scores_give_all_moves();
}
