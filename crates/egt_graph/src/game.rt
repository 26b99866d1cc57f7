//! A finite game: nodes, the moves between them, and the moves that leave it.
ghost use Rattle.std.specs.Prelude.{◌≡◌, ◌<◌, ◌≤◌, length};
ghost use Rattle.egt_graph.specs.Prelude.{Graph, IsNode, IsGame};

use arrayvec::ArrayVec;

/// The value of a position outside the game, for the player who is to move there. Numbers are plies, at most 32,000.
#[derive(Clone, Copy, PartialEq, Eq, Debug, Default)]
pub enum Exit {
    /// The mover wins in that many plies.
    Win(u16),
    /// The mover loses in that many plies; in 0 where it is checkmated.
    Loss(u16),
    #[default]
    Draw,
}

/// A game over the nodes from 0 up to `size`. Some of the numbers may be void: they are no nodes.
/// Lists of nodes ascend, without doubles. A node has at most 64 moves to others and 64 that leave the game.
pub trait Game {
    ghost graph: { Self → Graph };

    /// One more than the last number.
    fn size(&self) -> u32
        ensures { result ≡ (graph self.now).size };

    /// Is the number no node?
    fn void(&self, i: u32) -> bool
        requires { i < (graph self.now).size }
        ensures { result ≡ (graph self.now).void i };

    /// Is the mover of the node checkmated?
    fn mated(&self, i: u32) -> bool
        requires { IsNode (graph self.now) i }
        ensures { result ≡ (graph self.now).mated i };

    /// The nodes that a move from `i` leads to.
    fn out(&self, i: u32) -> ArrayVec<u32, 64>
        requires { IsNode (graph self.now) i }
        ensures { result.items ≡ (graph self.now).out i };

    /// How many nodes `out` lists, at most 64.
    fn degree(&self, i: u32) -> usize
        requires { IsNode (graph self.now) i }
        ensures value { result ≡ length ((graph self.now).out i) }
        ensures few { result ≤ 64 };

    /// The nodes from which a move leads to `j`.
    fn into(&self, j: u32) -> ArrayVec<u32, 128>
        requires { IsNode (graph self.now) j }
        ensures { result.items ≡ (graph self.now).into j };

    /// The values of the positions outside that a move from `i` leads to.
    fn exits(&self, i: u32) -> ArrayVec<Exit, 64>
        requires { IsNode (graph self.now) i }
        ensures { result.items ≡ (graph self.now).exits i };

    ghost lawful: { (game : Self) → IsGame (graph game) };
}
