//! The moves that go on in a class's game.
ghost use Rattle.std.specs.Prelude.{◌≡◌, ◌↔◌, ◌+◌, ◌≤◌, ◌<◌, ◌⊎◌, ℕ, Bool, IsTrue};
ghost use Rattle.egt_sweep.specs.Prelude.{Contains, IsStrictlyIncreasing, array_vec_len, AreMenOf, Setup, IsOf, Leads};
ghost use Rattle.egt_sweep.specs.Prelude.{IsLegal, IsAt, GoesOn, LeadsOn, Connects};

use crate::ascending::put;
use crate::laws::laws;
use arrayvec::ArrayVec;
use egt_board::Position;
use egt_check::Metric;
use egt_check::successors::place_after;
use egt_class::Class;
use egt_moves::{Men, Move, legal_moves, zeroing};

/// Whether the move from a position of the class to one of the class `after` goes on in the game: it stays in the
/// class, or does not zero. One that does not zero stays in the class.
pub(crate) fn goes_on(
    metric: Metric,
    class: Class,
    position: &Position,
    chess_move: &Move,
    after: Class,
) -> bool
    requires { (flipped : Bool) × IsOf class flipped position.now }
    ensures on { (q : Setup) (flipped : Bool) → Leads position.now chess_move.now q → IsOf after flipped q →
        IsTrue result ↔ GoesOn metric class position.now chess_move.now q }
    ensures class { (q : Setup) (flipped : Bool) → Leads position.now chess_move.now q → IsOf after flipped q →
        IsTrue result → after ≡ class }
{
    laws();
    let _side = position.side();
    let _number = class.number();
    let _number_after = after.number();
    match metric {
        Metric::Mate => after == class,
        Metric::Zeroing => !zeroing(position, *chess_move),
    }
}

/// Adds the index to which the move leads, if it goes on.
fn add_edge(
    metric: Metric,
    class: Class,
    position: &Position,
    men: &Men,
    chess_move: &Move,
    list: &mut ArrayVec<u32, 64>,
)
    requires of { (flipped : Bool) × IsOf class flipped position.now }
    requires men { AreMenOf position.now men.now }
    requires legal { IsLegal position.now chess_move.now }
    requires ascending { IsStrictlyIncreasing list.old.items }
    requires room { array_vec_len list.old < 64 }
    ensures ascending { IsStrictlyIncreasing list.new.items }
    ensures members { (k : ℕ) → Contains list.new.items k ↔
        (Contains list.old.items k ⊎ LeadsOn metric class position.now chess_move.now k) }
    ensures few { array_vec_len list.new ≤ array_vec_len list.old + 1 }
{
    laws();
    let _side = position.side();
    let place = place_after(position, men, chess_move);
    let after = place.class;
    let index = place.index;
    if goes_on(metric, class, position, chess_move, after) {
        put(list, index);
    }
}

/// The indexes that moves which go on lead to from the position at the index.
pub(crate) fn edges(metric: Metric, class: Class, position: &Position) -> ArrayVec<u32, 64>
    requires { (flipped : Bool) × IsOf class flipped position.now }
    ensures ascending { IsStrictlyIncreasing result.items }
    ensures exact { (i : ℕ) → IsAt class i position.now → (k : ℕ) →
        Contains result.items k ↔ Connects metric class i k }
{
    laws();
    let _side = position.side();
    let men = Men::of(position);
    let moves = legal_moves(position);
    let mut list = ArrayVec::new();
    for chess_move in moves.as_slice() {
        add_edge(metric, class, position, &men, chess_move, &mut list);
    }
    list
}
