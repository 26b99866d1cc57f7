//! Numbers of positions, and the codes that they stand for: the codes without a target come first, then those with one.
//! A shelf of numbers is behind a prefix, whose men stand before the last one.
ghost use Rattle.std.specs.Prelude.{◌≡◌, ℕ, ◌<◌, ◌+◌, ◌*◌, ◌≤◌, IfNone, IfSome};
ghost use Rattle.egt_index.specs.Prelude.{code_of, half_of, places, IsShelfBehind, IsWithin, size_of};

use crate::men::has_target;
use crate::shelf::last_digits;
use egt_class::{Class, size};

/// How many numbers of the class have no target.
fn half(class: Class) -> u32
    ensures { result ≡ half_of class }
{
    if has_target(class) {
        size(class) / 2
    } else {
        size(class)
    }
}

/// How many shelves of the class have no target.
fn prefixes(class: Class) -> u32
    ensures whole { result * (2 * places class) ≡ half_of class }
    ensures few { result < 268435456 }
{
    let _number = class.number();
    // A division by a constant is a multiplication, and this is asked of each row of a table that is checked.
    match last_digits(class) {
        64 => half(class) / 128,
        48 => half(class) / 96,
        digits => half(class) / (2 * digits),
    }
}

/// The code that the number stands for.
#[inline(always)]
pub fn code_of(class: Class, number: u32) -> u32
    requires { number < size_of class }
    ensures is { result ≡ code_of class number }
    ensures within { result < size_of class }
{
    let _number = class.number();
    if !has_target(class) {
        return number;
    }
    let half = half(class);
    if number < half {
        2 * number
    } else {
        2 * (number - half) + 1
    }
}

/// The number of the shelf's prefix, which the men before the last one have, and whether the positions of the shelf
/// have a target. `None` past the last shelf.
pub(crate) fn prefix_number(class: Class, shelf: u32) -> Option<(u32, bool)>
    ensures behind { IfSome result (λ found. IsShelfBehind found.1 class shelf found.0) }
    ensures past { IfNone result (size_of class ≤ shelf * (2 * places class)) }
{
    let _number = class.number();
    let prefixes = prefixes(class);
    if shelf < prefixes {
        return Some((shelf, false));
    }
    if !has_target(class) {
        return None;
    }
    let prefix = shelf - prefixes;
    if prefix < prefixes {
        Some((prefix, true))
    } else {
        None
    }
}

/// The number of the shelf behind the prefix, of positions with a target where one was passed. `None` past the last
/// prefix, and where the class has no targets but one was passed.
pub(crate) fn shelf_behind(class: Class, prefix: u32, targeted: bool) -> Option<u32>
    ensures behind { IfSome result (λ shelf. IsShelfBehind targeted class shelf prefix) }
    ensures within { IfSome result (IsWithin class) }
    ensures none { IfNone result ((shelf : ℕ) → ¬ IsShelfBehind targeted class shelf prefix) }
{
    let _number = class.number();
    let prefixes = prefixes(class);
    if prefix >= prefixes {
        return None;
    }
    if !targeted {
        return Some(prefix);
    }
    if has_target(class) {
        Some(prefix + prefixes)
    } else {
        None
    }
}
