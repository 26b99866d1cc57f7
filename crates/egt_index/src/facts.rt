//! The laws of the crates below that codes rest on.
ghost use Rattle.egt_index.specs.Facts.{Facts};

use egt_board::laws::{
    images_are_turns, images_form_classes, images_keep_men, positions_settle_once, turns_make_one,
};
use egt_class::laws::{a_position_has_one_class, every_position_has_a_class};

/// What holds of images and classes.
pub fn facts()
    ensures { Facts }
{
    images_form_classes();
    images_keep_men();
    images_are_turns();
    turns_make_one();
    positions_settle_once();
    every_position_has_a_class();
    a_position_has_one_class();
}
