//! How many digits men have.
ghost use Rattle.std.specs.Prelude.{◌≡◌, ◌*◌, ◌%◌, ◌<◌, ◌≤◌};
ghost use Rattle.egt_index.specs.Prelude.{places, kind_digits, size_of};

use crate::men::non_kings;
use egt_board::{Kind, Man};
use egt_class::Class;

/// How many digits a man beside the white king has.
pub(crate) fn digits_of(man: Man) -> u32
    ensures is { result ≡ kind_digits man.kind }
    ensures some { 0 < result }
    ensures few { result ≤ 64 }
{
    match man.kind {
        Kind::P => 48,
        _ => 64,
    }
}

/// How many digits the last man of the class has; 1 where fewer than two men stand beside the kings.
pub fn last_digits(class: Class) -> u32
    ensures is { result ≡ places class }
    ensures some { 0 < result }
    ensures few { result ≤ 64 }
    ensures whole { size_of class % (2 * places class) ≡ 0 }
{
    let _number = class.number();
    match non_kings(class).1 {
        Some(man) => digits_of(man),
        None => 1,
    }
}
