//! The order of equal men: the one on the lesser square is the first, so that their position has one code.
ghost use Rattle.std.specs.Prelude.{◌≡◌, ◌<◌, ◌%◌, ◌/◌, ◌==◌, true, false};
ghost use Rattle.egt_index.specs.Prelude.{IsInOrder, IsOrdered, AreExchanged, IsStandAfter};

use crate::stand::{Stand, turned};

/// Whether the men beside the kings are equal and the last stands on the lesser square.
fn is_behind(stand: &Stand) -> bool
    ensures behind { result ≡ true → AreExchanged stand.now.first stand.now.last }
    ensures in_order { result ≡ false → IsInOrder stand.now.first stand.now.last }
{
    match (stand.first, stand.last) {
        (Some(first), Some(second)) => first.0 == second.0 && second.1.number() < first.1.number(),
        _ => false,
    }
}

/// The men on their squares, of two equal men the one on the lesser square first.
pub(crate) fn ordered(stand: &Stand) -> Stand
    ensures white { result.white ≡ stand.now.white }
    ensures black { result.black ≡ stand.now.black }
    ensures both { IsOrdered stand.now.first stand.now.last result.first result.last }
    ensures in_order { IsInOrder result.first result.last }
{
    if is_behind(stand) {
        Stand {
            white: stand.white,
            black: stand.black,
            first: stand.last,
            last: stand.first,
        }
    } else {
        Stand {
            white: stand.white,
            black: stand.black,
            first: stand.first,
            last: stand.last,
        }
    }
}

/// Where the turn takes the men, of two equal men the one on the lesser square first.
pub(crate) fn stand_after(stand: &Stand, turn: u8) -> Stand
    requires { turn < 16 }
    ensures { IsStandAfter (turn % 8) (turn / 8 == 1) stand.now result }
{
    ordered(&turned(stand, turn))
}
