//! Laws of entries of classes of three men. This function does nothing: a caller calls it to know what it
//! ensures.
ghost use Rattle.std.specs.Prelude.{◌≡◌, ◌<◌, ℕ, false};
ghost use Rattle.egt_check.specs.Prelude.{Side, column_of, size_of, TellsMen, NoneZeroes, stand_alone, column_score};
ghost use Rattle.egt_check.specs.Prelude.{AreThreeMen, IsDueAlone, KeepsCode, ThreeMen};
ghost use Rattle.egt_check.specs.declared.part.Part.TheVariants as parts;
ghost use Rattle.egt_table.specs.declared.column.Column.TheVariants as columns;

use crate::laws::due_bytes_are_right;
use crate::reach_laws::due_reaches_are_right;
use egt_index::laws::{
    a_code_is_an_index_or_void, codes_tell_their_men, codes_tell_turned_men,
    numbers_stand_for_codes,
};
use egt_steps::facts::facts;
use egt_steps::laws::quiet_moves_of_three_men_are_quiet_steps;

/// Where no move zeroes, entries due to the greatest scores after quiet steps keep the rules; so do those without one.
pub fn entries_due_to_quiet_steps_are_right()
    ensures due { (three : ThreeMen) (side : Side) (s i : ℕ) → AreThreeMen three → i < size_of three.table.now.class →
        TellsMen false three.table.now.class i (stand_alone three.men s) side → NoneZeroes three.men side s →
        IsDueAlone three (column_of three.part) side s i →
        (three.part ≡ parts.Values → IsDueAlone three columns.Zeroing side s i) → KeepsCode three i }
    ensures none { (three : ThreeMen) (i : ℕ) → AreThreeMen three → i < size_of three.table.now.class →
        column_score three.table.now (column_of three.part) i ≡ 0 → KeepsCode three i }
{
    facts();
    a_code_is_an_index_or_void();
    codes_tell_their_men();
    codes_tell_turned_men();
    numbers_stand_for_codes();
    quiet_moves_of_three_men_are_quiet_steps();
    due_bytes_are_right();
    due_reaches_are_right();
}
