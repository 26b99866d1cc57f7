//! Where the turns take squares.
ghost use Rattle.std.specs.Prelude.{◌≡◌, ◌<◌, ◌==◌, ◌/◌, ◌%◌, slice_index};
ghost use Rattle.egt_index.specs.Prelude.{turned_square};

use egt_board::{Square, of_squares, turned_number};

/// The square that each turn makes of each square: 64 for every turn, in order of their numbers.
static TURNED: [u8; 1024] = of_squares!(turned_number; 0 1 2 3 4 5 6 7 8 9 10 11 12 13 14 15);

/// The table's entry.
fn entry(at: usize) -> u8
    requires { at < 1024 }
    ensures { result ≡ slice_index TURNED at }
{
    TURNED[at]
}

/// Where the turn takes the square.
pub fn turned_square(turn: u8, square: Square) -> Square
    requires { turn < 16 }
    ensures { result ≡ turned_square (turn % 8) (turn / 8 == 1) square }
{
    let number = entry(64 * usize::from(turn) + usize::from(square.number()));
    Square::at(number)
}
