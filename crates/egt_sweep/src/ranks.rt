//! The meaning of the ranks of games. These functions do nothing: a caller calls one to know what it ensures.
ghost use Rattle.std.specs.Prelude.{ℕ, ◌<◌, Option, IsTrue};
ghost use Rattle.egt_sweep.specs.Prelude.{Setup, IsAdmissible, IsIndex, Value, HasValue, chess, HasReach, HasZeroing};
ghost use Rattle.egt_sweep.specs.Prelude.{HasNear, SomeFar, decided_within, HasRank, SomeAbove, Mate, Zeroing};
ghost use Rattle.egt_sweep.specs.Prelude.{TableValue, Tables, beside, HasTrueReachesBelow, HasTrueValuesBelow};
ghost use Rattle.egt_sweep.specs.Prelude.{IsWithinLimit, SomeAboveLimit, SomeReachesFar, class_game, ShowsValues};
ghost use Rattle.egt_sweep.specs.Prelude.{exit_of, reach_game, Plies};

use crate::laws::laws;
use egt_moves::dead::{more_plies_reach_more, one_reach, reach_is_kept};
use egt_moves::laws::{
    all_images_are_alike, halves_meet, least_plies, more_plies, one_value, zeroes_in_time,
};

/// What holds of forced mates, of zeroing moves and of images.
fn plies()
    ensures { Plies }
{
    more_plies();
    halves_meet();
    least_plies();
    one_value();
    zeroes_in_time();
    all_images_are_alike();
}

/// Where the children's columns of wins and losses are true, the ranks of the game of mates over a class are the values
/// of its positions; and where some rank is above a limit, some position's mate distance is.
pub fn mate_ranks_are_values()
    ensures values { (tables : Tables) (c i : ℕ) (p : Setup) (v : Value) → c < 36 → HasTrueValuesBelow tables c →
        IsAdmissible p → IsIndex c p i → HasRank (class_game tables Mate c) i (exit_of Mate v) → HasValue chess p v }
    ensures above { (tables : Tables) (c limit : ℕ) → c < 36 → HasTrueValuesBelow tables c →
        SomeAbove (class_game tables Mate c) limit →
        SomeAboveLimit c limit }
{
    laws();
    plies();
}

/// Where the children's columns of wins and losses are true and mate entries show the values of the class's positions,
/// the ranks of the game of zeroing moves over the class are the zeroing distances; and a node that is won or lost is
/// so within the mate distance of its positions.
pub fn zeroing_ranks_are_distances()
    ensures distances { (tables : Tables) (t : TableValue) (i : ℕ) (p : Setup) (v : Value) → t.class < 36 →
        HasTrueValuesBelow tables t.class → ShowsValues t →
        IsAdmissible p → IsIndex t.class p i →
        HasRank (class_game (beside tables t) Zeroing t.class) i (exit_of Mate v) → HasZeroing chess p v }
    ensures in_time { (tables : Tables) (t : TableValue) (n limit i : ℕ) (p : Setup) (v : Value) → t.class < 36 →
        HasTrueValuesBelow tables t.class → ShowsValues t →
        IsAdmissible p → IsIndex t.class p i → HasValue chess p v → IsWithinLimit limit v →
        IsTrue (decided_within (class_game (beside tables t) Zeroing t.class) n i) →
        IsTrue (decided_within (class_game (beside tables t) Zeroing t.class) limit i) }
{
    laws();
    plies();
}

/// Where the children have true columns of the nearest mates, the numbers of the game of the nearest mates over a class
/// are how far the nearest checkmates are from its positions; and where some number is greater than an entry can hold,
/// so far away is that of some position.
pub fn reach_numbers_are_the_nearest_mates()
    ensures numbers { (tables : Tables) (c i : ℕ) (p : Setup) (number : Option ℕ) → c < 36 →
        HasTrueReachesBelow tables c →
        IsAdmissible p → IsIndex c p i → HasNear (reach_game tables c) i number → HasReach chess p number }
    ensures far { (tables : Tables) (c : ℕ) → c < 36 → HasTrueReachesBelow tables c → SomeFar (reach_game tables c) →
        SomeReachesFar c }
{
    laws();
    more_plies_reach_more();
    one_reach();
    reach_is_kept();
}
