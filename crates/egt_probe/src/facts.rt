//! The laws of the crates below that probing rests on.
ghost use Rattle.egt_probe.specs.Facts.{Facts};

use egt_class::laws::{a_position_has_one_class, children_have_smaller_numbers};
use egt_fen::{one_fault, one_meaning};
use egt_index::laws::every_position_has_one_index;
use egt_moves::laws::{
    halves_meet, more_plies, moves_lead_to_one, one_value, one_zeroing_distance, play_goes_on,
};
use egt_steps::class_moves::moves_lead_into_the_class_or_a_child;

/// What holds of play, texts and classes.
pub(crate) fn facts()
    ensures { Facts }
{
    one_value();
    one_zeroing_distance();
    one_fault();
    one_meaning();
    halves_meet();
    more_plies();
    play_goes_on();
    moves_lead_to_one();
    a_position_has_one_class();
    moves_lead_into_the_class_or_a_child();
    children_have_smaller_numbers();
    every_position_has_one_index();
}
