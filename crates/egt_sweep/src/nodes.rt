//! The nodes of a class's game.
ghost use Rattle.std.specs.Prelude.{◌≡◌, not, IsFalse};
ghost use Rattle.egt_sweep.specs.Prelude.{is_some, size_of, passing_below, table_at, HasChildren, metric_of, known};
ghost use Rattle.egt_sweep.specs.Prelude.{Knows, IsAt, position_at, is_mated, connects, exits_at};

use crate::edges::edges;
use crate::exits::exits_of;
use crate::laws::laws;
use crate::objective::Objective;
use crate::sources::sources;
use arrayvec::ArrayVec;
use egt_board::Position;
use egt_check::{Library, Metric};
use egt_class::Class;
use egt_graph::Exit;
use egt_index::laws::a_class_without_pawns_has_none;
use egt_index::{position, position_of};
use egt_moves::{Standing, standing};

/// Whether no position has the index.
pub(crate) fn is_void(class: Class, index: u32) -> bool
    ensures { result ≡ not (is_some (position_at class index)) }
{
    laws();
    let _number = class.number();
    position(class, index).is_none()
}

/// The position at a node.
fn node(class: Class, index: u32) -> Position
    requires { IsFalse (not (is_some (position_at class index))) }
    ensures { IsAt class index result }
{
    laws();
    position_of(class, index)
}

/// Whether the side to move at a node is checkmated.
pub(crate) fn is_mated(class: Class, index: u32) -> bool
    requires { IsFalse (not (is_some (position_at class index))) }
    ensures { result ≡ is_mated (position_at class index) }
{
    laws();
    let position = node(class, index);
    let side = position.side();
    if !position.board().is_in_check(position.king(side), side) {
        return false;
    }
    match standing(&position) {
        Standing::Checkmate => true,
        Standing::Stalemate | Standing::HasMove => false,
    }
}

/// The nodes that moves which go on lead to from a node.
pub(crate) fn successors(metric: Metric, class: Class, index: u32) -> ArrayVec<u32, 64>
    requires { IsFalse (not (is_some (position_at class index))) }
    ensures { result.items ≡ passing_below (size_of class) (λ j. connects metric class index j) }
{
    laws();
    let _number = class.number();
    let position = node(class, index);
    edges(metric, class, &position)
}

/// The nodes from which moves that go on lead to a node.
pub(crate) fn predecessors(metric: Metric, class: Class, index: u32) -> ArrayVec<u32, 128>
    requires { IsFalse (not (is_some (position_at class index))) }
    ensures { result.items ≡ passing_below (size_of class) (λ i. connects metric class i index) }
{
    laws();
    let _number = class.number();
    let position = node(class, index);
    sources(metric, class, &position)
}

/// What the moves that leave the game from a node are worth, in the order of moves.
pub(crate) fn exits(
    objective: &Objective<'_>,
    class: Class,
    library: &Library,
    index: u32,
) -> ArrayVec<Exit, 64>
    requires node { IsFalse (not (is_some (position_at class index))) }
    requires knows { Knows (table_at library.now) class objective.now }
    requires children { HasChildren (table_at library.now) class }
    ensures { result.items ≡ exits_at (known (table_at library.now) class objective.now)
        (metric_of objective.now) class index }
{
    laws();
    // Two kings alone have no move that zeroes, and so none that leaves a game.
    if class.number() == 0 {
        a_class_without_pawns_has_none();
        return ArrayVec::new();
    }
    let position = node(class, index);
    exits_of(objective, class, library, &position)
}
