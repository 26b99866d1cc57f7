//! The moves that go on, backwards.
ghost use Rattle.std.specs.Prelude.{◌≡◌, ◌↔◌, ◌+◌, ◌≤◌, ◌<◌, ◌⊎◌, ℕ, Bool, IsTrue};
ghost use Rattle.egt_sweep.specs.Prelude.{Contains, IsStrictlyIncreasing, array_vec_len, IsOf, IsSettled, IsAt};
ghost use Rattle.egt_sweep.specs.Prelude.{GoesBack, ComesFrom, Connects};

use crate::ascending::put;
use crate::laws::laws;
use arrayvec::ArrayVec;
use egt_board::Position;
use egt_check::Metric;
use egt_class::Class;
use egt_index::index;
use egt_unmoves::{Unmove, unmoves};

/// Whether the move that the unmove takes back goes on in the game.
fn goes_back(metric: Metric, unmove: &Unmove) -> bool
    ensures { IsTrue result ↔ GoesBack metric unmove.now }
{
    match metric {
        Metric::Mate => true,
        Metric::Zeroing => !unmove.pawn,
    }
}

/// Adds the index from which the unmove came, if its move goes on.
fn add_source(metric: Metric, class: Class, unmove: &Unmove, list: &mut ArrayVec<u32, 128>)
    requires of { (flipped : Bool) × IsOf class flipped unmove.now.before }
    requires ascending { IsStrictlyIncreasing list.old.items }
    requires room { array_vec_len list.old < 128 }
    ensures ascending { IsStrictlyIncreasing list.new.items }
    ensures members { (k : ℕ) → Contains list.new.items k ↔
        (Contains list.old.items k ⊎ ComesFrom metric class unmove.now k) }
    ensures few { array_vec_len list.new ≤ array_vec_len list.old + 1 }
{
    laws();
    let _side = unmove.before.side();
    if goes_back(metric, unmove) {
        put(list, index(class, &unmove.before));
    }
}

/// The indexes from which moves that go on lead to the settled position at an index.
pub(crate) fn sources(metric: Metric, class: Class, position: &Position) -> ArrayVec<u32, 128>
    requires of { (flipped : Bool) × IsOf class flipped position.now }
    requires settled { IsSettled position.now }
    ensures ascending { IsStrictlyIncreasing result.items }
    ensures exact { (j : ℕ) → IsAt class j position.now → (k : ℕ) →
        Contains result.items k ↔ Connects metric class k j }
{
    laws();
    let _number = class.number();
    let _side = position.side();
    let unmoves = unmoves(position);
    let mut list = ArrayVec::new();
    for unmove in unmoves.as_slice() {
        add_source(metric, class, unmove, &mut list);
    }
    list
}
