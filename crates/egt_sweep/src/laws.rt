//! The laws of the crates below that the games rest on.
ghost use Rattle.egt_sweep.specs.Laws.{Laws};

use egt_board::laws::{
    images_are_turns, images_form_classes, images_keep_men, positions_settle_once,
};
use egt_check::laws::{a_position_plays_as_its_index_spells, an_indexed_position_is_of_the_class};
use egt_index::laws::{a_code_is_an_index_or_void, codes_spell_one_position};
use egt_moves::laws::{moves_are_listed, moves_lead_to_one};
use egt_steps::class_moves::moves_lead_into_the_class_or_a_child;
use egt_steps::facts::facts;
use egt_unmoves::laws::images_have_like_unmoves;

/// What holds of play, images, classes and indexes.
pub(crate) fn laws()
    ensures { Laws }
{
    facts();
    positions_settle_once();
    images_are_turns();
    images_keep_men();
    images_form_classes();
    codes_spell_one_position();
    a_code_is_an_index_or_void();
    moves_are_listed();
    moves_lead_to_one();
    an_indexed_position_is_of_the_class();
    a_position_plays_as_its_index_spells();
    moves_lead_into_the_class_or_a_child();
    images_have_like_unmoves();
}
