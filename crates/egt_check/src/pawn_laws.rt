//! The greatest scores of the codes after the moves of pawns. These functions do nothing: a caller calls one to know
//! what it ensures.
ghost use Rattle.std.specs.Prelude.{◌≡◌, ◌≢◌, ◌<◌, ◌⊎◌, ℕ, max, Bool, true, false, Option, None, IsSome};
ghost use Rattle.egt_check.specs.Prelude.{Setup, Kind, K, Side, IsRaised, arriving, Mate, AreGiven, stand_in, score_at};
ghost use Rattle.egt_check.specs.Prelude.{P, zeroing_score, AreLeapCodes, AreStepCodes, IsPassingFrom, IsAdvanceFrom};
ghost use Rattle.egt_check.specs.Prelude.{HasStand, ShelfMen, TableValue, officer_of, IsTableAfter, IsTableOf, Tables};
ghost use Rattle.egt_check.specs.Prelude.{ArePassingCodes, AreAdvancedCodes, ArePromotedCodes, IsPromotingCaptureFrom};

use egt_index::laws::{a_code_is_an_index_or_void, codes_tell_turned_men, numbers_stand_for_codes};
use egt_steps::facts::facts;
use egt_steps::pawn_laws::{
    advances_lead_to_the_men_after, captures_in_passing_lead_to_three_men,
    promoting_captures_lead_to_three_men,
};

/// Where the pawn is promoted, or the first man is no pawn of the other side, the greatest score of the codes after
/// such advances, by the promotion or without one, is that of these moves.
pub fn codes_after_advances_give_the_advances()
    ensures { (tables : Tables) (c : ℕ) (men : ShelfMen) (first : Bool) (side : Side) (targeted : Bool) (a b : ℕ)
        (p : Setup) (promo : Option Kind) (t : TableValue) (before flips : Bool) (w : ℕ) → c < 36 →
        men.first.kind ≢ K → IsSome promo ⊎ (men.first.kind ≡ P → men.first.side ≡ side) → men.last.kind ≡ P →
        HasStand c false (stand_in first men a b) side targeted p →
        IsTableAfter tables t before flips men.first (arriving men.last promo) →
        IsRaised 0 (AreAdvancedCodes t.class before flips men side promo a b) (score_at t Mate) w →
        AreGiven tables p (IsAdvanceFrom p b promo) w (zeroing_score w) }
{
    facts();
    codes_tell_turned_men();
    a_code_is_an_index_or_void();
    advances_lead_to_the_men_after();
}

/// Where the first man may be a pawn of the other side, of a class that has the men in this order, the greatest scores
/// of the codes after advances that leave no target and of those after advances that leave one are together those of
/// these moves.
pub fn codes_after_advances_beside_pawns_give_them()
    ensures { (tables : Tables) (c : ℕ) (men : ShelfMen) (first : Bool) (side : Side) (targeted : Bool) (a b : ℕ)
        (p : Setup) (t : TableValue) (u v : ℕ) → c < 36 →
        men.first.kind ≢ K → men.last.kind ≡ P → HasStand c false (stand_in first men a b) side targeted p →
        IsTableAfter tables t first false men.first men.last →
        IsRaised 0 (AreStepCodes t.class first men side a b) (score_at t Mate) u →
        IsRaised 0 (AreLeapCodes t.class first men side a b) (score_at t Mate) v →
        AreGiven tables p (IsAdvanceFrom p b None) (max u v) (zeroing_score (max u v)) }
{
    facts();
    codes_tell_turned_men();
    a_code_is_an_index_or_void();
    numbers_stand_for_codes();
    advances_lead_to_the_men_after();
}

/// The greatest score of the codes after such captures, by the kind of the promotion, is that of these moves.
pub fn codes_after_promoting_captures_give_them()
    ensures { (tables : Tables) (c : ℕ) (men : ShelfMen) (first : Bool) (side : Side) (targeted : Bool) (a b : ℕ)
        (p : Setup) (kind : Kind) (t : TableValue) (flips : Bool) (w : ℕ) → c < 36 →
        men.first.kind ≢ K → men.last.kind ≡ P → HasStand c false (stand_in first men a b) side targeted p →
        IsTableOf tables t flips (officer_of side kind) →
        IsRaised 0 (ArePromotedCodes t.class flips men side kind a b) (score_at t Mate) w →
        AreGiven tables p (IsPromotingCaptureFrom p b kind) w (zeroing_score w) }
{
    facts();
    codes_tell_turned_men();
    a_code_is_an_index_or_void();
    promoting_captures_lead_to_three_men();
}

/// The greatest score of the codes after such a capture is that of these moves.
pub fn codes_after_captures_in_passing_give_them()
    ensures { (tables : Tables) (c : ℕ) (men : ShelfMen) (first : Bool) (side : Side) (a b : ℕ) (p : Setup)
        (t : TableValue) (flips : Bool) (w : ℕ) → c < 36 →
        men.first.kind ≢ K → men.last.kind ≡ P → HasStand c false (stand_in first men a b) side true p →
        IsTableOf tables t flips men.last →
        IsRaised 0 (ArePassingCodes t.class flips men side a b) (score_at t Mate) w →
        AreGiven tables p (IsPassingFrom p b) w (zeroing_score w) }
{
    facts();
    codes_tell_turned_men();
    a_code_is_an_index_or_void();
    captures_in_passing_lead_to_three_men();
}
