//! The laws of the crates below that the rules rest on.
ghost use Rattle.egt_steps.specs.Facts.{Facts};

use crate::class_moves::moves_lead_into_the_class_or_a_child;
use egt_board::laws::{
    images_form_classes, images_keep_men, images_settle_alike, positions_settle_once,
};
use egt_class::laws::{
    a_position_has_one_class, children_have_smaller_numbers, every_position_has_a_class,
    images_keep_the_class, settling_keeps_the_class,
};
use egt_index::laws::{
    an_index_spells_a_position_of_it, every_position_has_one_index, one_index_for_all_images,
    spelled_positions_are_of_the_class,
};
use egt_moves::dead::reach_entries_are_true;
use egt_moves::laws::{
    entries_are_true, images_keep_steps, moves_lead_to_one, settling_keeps_steps, true_entries_fit,
};

/// What holds of play, images, classes and indexes.
pub fn facts()
    ensures { Facts }
{
    images_form_classes();
    images_keep_men();
    images_settle_alike();
    positions_settle_once();
    images_keep_steps();
    settling_keeps_steps();
    moves_lead_to_one();
    entries_are_true();
    true_entries_fit();
    reach_entries_are_true();
    every_position_has_a_class();
    a_position_has_one_class();
    settling_keeps_the_class();
    images_keep_the_class();
    moves_lead_into_the_class_or_a_child();
    children_have_smaller_numbers();
    spelled_positions_are_of_the_class();
    every_position_has_one_index();
    one_index_for_all_images();
    an_index_spells_a_position_of_it();
}
