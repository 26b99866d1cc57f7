//! Positions without a move.
ghost use Rattle.std.specs.Prelude.{◌≡◌, ◌<◌, ℕ, IfSome};
ghost use Rattle.egt_sweep.specs.FillPrelude.{size_of, IsEndScore};

use egt_check::row_judging::entry_without_move;
use egt_class::Class;
use egt_index::laws::codes_spell_one_position;
use egt_index::position;

/// The score of the code's position, checkmate or stalemate, in all columns. `None` where it has a move, and of a void
/// code.
pub(crate) fn end_score(class: Class, code: u32) -> Option<u8>
    requires { code < size_of class }
    ensures { IfSome result (IsEndScore class code) }
{
    codes_spell_one_position();
    let position = position(class, code)?;
    match entry_without_move(&position)? {
        3 => Some(255),
        1 => Some(128),
        _ => None,
    }
}
