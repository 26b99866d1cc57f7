//! Laws of tables and their rules. These functions do nothing: a caller calls one to know what it ensures.
ghost use Rattle.std.specs.Prelude.{◌≡◌, ◌≢◌, ◌↔◌, ◌<◌, max, ℕ, Bool, false, None, Some, IsSome};
ghost use Rattle.egt_check.specs.Prelude.{is_some, IsOf, Spells, IsIndex, IsVoid, Setup, IsAdmissible, TableValue};
ghost use Rattle.egt_check.specs.Prelude.{IsTable, StepAlike, Zeroes, chess, Side, Metric, K, HasStand, ShelfMen};
ghost use Rattle.egt_check.specs.Prelude.{stand_on, AreQuietCodes, IsPlainCapture, AreAlike, AreGiven, IsJudged};
ghost use Rattle.egt_check.specs.Prelude.{KeepsBelow, KeepsReachBelow, KeepsRules, IsAtEnd, byte_score, due_score};
ghost use Rattle.egt_check.specs.Prelude.{zeroing_score, IsTableOf, AreLeftCodes, men_swapped, AreAllScores, Tables};
ghost use Rattle.egt_check.specs.Prelude.{AreTablesOf, four_in, tables_in, AreAllScoresOf, IsRightLane, KeepsPart};
ghost use Rattle.egt_check.specs.Prelude.{FourMenTables, Part, Mate, Zeroing, HasBytes, score_at, IsRaised, NoMove};
ghost use Rattle.egt_check.specs.Prelude.{entry_at, ReachesDown, HasTrueChildren, HasTrueReachesBelow, HasTrueValues};
ghost use Rattle.egt_check.specs.Prelude.{HasTrueValuesBelow, IsTrueReach, IsTrueTable, size_of};

use crate::pawn_laws::{
    codes_after_advances_beside_pawns_give_them, codes_after_advances_give_the_advances,
    codes_after_captures_in_passing_give_them, codes_after_promoting_captures_give_them,
};
use egt_index::laws::{
    a_code_is_an_index_or_void, codes_spell_one_position, codes_tell_their_men,
    codes_tell_turned_men, numbers_stand_for_codes,
};
use egt_moves::dead::one_reach;
use egt_moves::laws::{one_value, one_zeroing_distance};
use egt_steps::facts::facts;
use egt_steps::laws::{captures_lead_to_three_men, quiet_moves_are_quiet_steps};
use egt_steps::pawn_laws::pawns_moves_are_of_four_kinds;

/// Where a column of the children's tables is true, the entries of that column of a table keep the rules exactly where
/// they are true; so those of the table do, where the columns that it has are true of the children. A child's false
/// column of the nearest mates is nothing to a table without that column.
pub fn columns_are_kept_over_true_ones()
    ensures values { (tables : Tables) (t : TableValue) → IsTable t → tables t.class ≡ Some t →
        HasTrueValuesBelow tables t.class →
        ((metric : Metric) → KeepsBelow tables t metric (size_of t.class)) ↔ HasTrueValues t }
    ensures reach { (tables : Tables) (t : TableValue) → IsTable t → tables t.class ≡ Some t →
        HasTrueReachesBelow tables t.class →
        KeepsReachBelow tables t (size_of t.class) ↔ IsTrueReach t }
    ensures table { (tables : Tables) (t : TableValue) → IsTable t → tables t.class ≡ Some t →
        HasTrueValuesBelow tables t.class →
        (IsSome t.reach → HasTrueReachesBelow tables t.class) → KeepsRules tables t ↔ IsTrueTable t }
{
    facts();
}

/// Where the children's tables are true, the entries of a table keep all rules exactly where the table is true: each
/// entry is the value, the zeroing distance or the distance of the nearest mate of its position, void entries are 0,
/// and no distance is above 32,000.
pub fn rules_are_kept_by_true_tables_alone()
    ensures { (tables : Tables) (t : TableValue) → IsTable t → tables t.class ≡ Some t →
        HasTrueChildren tables t.class →
        ReachesDown tables t → KeepsRules tables t ↔ IsTrueTable t }
{
    columns_are_kept_over_true_ones();
}

/// Where the children's tables are true, the column of the nearest mates of a table is true where its entries keep all
/// rules.
pub fn kept_reaches_are_true()
    ensures { (tables : Tables) (t : TableValue) → IsTable t → tables t.class ≡ Some t →
        HasTrueChildren tables t.class → ReachesDown tables t →
        IsSome t.reach → KeepsReachBelow tables t (size_of t.class) → IsTrueReach t }
{
    columns_are_kept_over_true_ones();
}

/// Two true tables of one class are equal where both have the column of the nearest mates or neither has it: so whoever
/// made them made the same.
pub fn true_tables_of_a_class_are_equal()
    ensures { (t u : TableValue) → IsTable t → IsTable u → t.class ≡ u.class → is_some t.reach ≡ is_some u.reach →
        IsTrueTable t → IsTrueTable u → t ≡ u }
{
    a_code_is_an_index_or_void();
    one_value();
    one_zeroing_distance();
    one_reach();
}

/// A position with an index in a class is of the class.
pub fn an_indexed_position_is_of_the_class()
    ensures { (p : Setup) (c i : ℕ) → IsAdmissible p → IsIndex c p i → (flipped : Bool) × IsOf c flipped p }
{
    facts();
}

/// A position plays like the one that its index spells: each step of the one has its like from the other, to an image.
pub fn a_position_plays_as_its_index_spells()
    ensures { (p q : Setup) (c i : ℕ) → IsAdmissible p → IsIndex c p i → Spells c i q → StepAlike p q }
{
    facts();
    codes_spell_one_position();
}

/// Entries whose bytes are due to the greatest bytes of all moves keep the rules. Where no byte is given by a move,
/// there is none, and the entries keep the rules that tell checkmate or stalemate.
pub fn due_bytes_are_right()
    ensures due { (tables : Tables) (t : TableValue) (i : ℕ) (p : Setup) (g z : ℕ) → Spells t.class i p →
        ¬ IsVoid t.class i → AreAlike (entry_at t Mate i) (entry_at t Zeroing i) →
        AreGiven tables p (λ m. Unit {0}) g z → g ≢ 0 → byte_score (entry_at t Mate i) ≡ due_score g →
        byte_score (entry_at t Zeroing i) ≡ due_score z →
        (metric : Metric) → IsJudged tables t metric i None }
    ensures none { (tables : Tables) (p : Setup) (g z : ℕ) → IsAdmissible p → AreGiven tables p (λ m. Unit {0}) g z →
        g ≡ 0 → NoMove chess p }
    ensures end { (tables : Tables) (t : TableValue) (i : ℕ) (p : Setup) (x : ℕ) → Spells t.class i p →
        ¬ IsVoid t.class i → AreAlike (entry_at t Mate i) (entry_at t Zeroing i) →
        NoMove chess p → IsAtEnd p x → entry_at t Mate i ≡ x → entry_at t Zeroing i ≡ x → (metric : Metric) →
        IsJudged tables t metric i None }
{
    facts();
    codes_spell_one_position();
}

/// The greatest scores of the codes of quiet steps are those of the moves that do not zero.
pub fn quiet_codes_give_the_quiet_moves()
    ensures { (tables : Tables) (t : TableValue) (men : ShelfMen) (side : Side) (targeted : Bool) (a b : ℕ)
        (p : Setup) (mate zeroing : ℕ) → IsTable t → tables t.class ≡ Some t → HasBytes t →
        HasStand t.class false (stand_on men a b) side targeted p →
        IsRaised 0 (AreQuietCodes t.class men side a b) (score_at t Mate) mate →
        IsRaised 0 (AreQuietCodes t.class men side a b) (score_at t Zeroing) zeroing →
        AreGiven tables p (λ m. ¬ Zeroes p m) mate zeroing }
{
    facts();
    codes_tell_turned_men();
    a_code_is_an_index_or_void();
    quiet_moves_are_quiet_steps();
}

/// The greatest bytes of the moves that zero and of those that do not are those of all moves.
pub fn moves_of_either_kind_give_all()
    ensures { (tables : Tables) (p : Setup) (x z y w : ℕ) → AreGiven tables p (λ m. ¬ Zeroes p m) x z →
        AreGiven tables p (Zeroes p) y w → AreGiven tables p (λ m. Unit {0}) (max x y) (max z w) }
{}

/// The greatest scores of the codes after captures, in the classes of the man who is left, are those of the captures
/// that promote no pawn and are not in passing.
pub fn codes_after_captures_give_the_captures()
    ensures { (tables : Tables) (c : ℕ) (men : ShelfMen) (side : Side) (targeted : Bool) (a b : ℕ) (p : Setup)
        (first last : TableValue) (first_flips last_flips : Bool) (u v : ℕ) → c < 36 →
        men.first.kind ≢ K → men.last.kind ≢ K → HasStand c false (stand_on men a b) side targeted p →
        IsTableOf tables first first_flips men.first → IsTableOf tables last last_flips men.last →
        IsRaised 0 (AreLeftCodes first.class first_flips men side a b) (score_at first Mate) u →
        IsRaised 0 (AreLeftCodes last.class last_flips (men_swapped men) side b a) (score_at last Mate) v →
        AreGiven tables p (IsPlainCapture p) (max u v) (zeroing_score (max u v)) }
{
    facts();
    codes_tell_turned_men();
    a_code_is_an_index_or_void();
    captures_lead_to_three_men();
}

/// The greatest scores of the codes after all moves are those of the moves, in both columns.
pub fn all_scores_give_all_moves()
    ensures { (tables : Tables) (four : FourMenTables) (men : ShelfMen) (side : Side) (targeted : Bool) (a b : ℕ)
        (p : Setup) (mate zeroing : ℕ) → AreTablesOf tables four men → men.first.kind ≢ K → men.last.kind ≢ K →
        HasStand four.own.class false (stand_on men a b) side targeted p →
        AreAllScores targeted four men side a b mate zeroing → AreGiven tables p (λ m. Unit {0}) mate zeroing }
{
    quiet_codes_give_the_quiet_moves();
    codes_after_captures_give_the_captures();
    codes_after_advances_give_the_advances();
    codes_after_advances_beside_pawns_give_them();
    codes_after_promoting_captures_give_them();
    codes_after_captures_in_passing_give_them();
    pawns_moves_are_of_four_kinds();
    moves_of_either_kind_give_all();
}
