//! The work of one block in one round.
ghost use Rattle.std.specs.Prelude.{◌≡◌, ◌<◌, length, slice_index, All, IfOk};
ghost use Rattle.egt_graph.specs.Prelude.{IsStrictlyIncreasing, IsNode, blocks_of};

use crate::game::Game;
use std::alloc::{AllocError, Global};
use std::marker::Model;

/// Nodes of one block, with the nodes that a move leads from to each of them. It borrows the game and no run, so it may
/// be made beside others and posted in any order.
#[derive(Drop)]
pub struct Batch<'g, G: Game> {
    game: &'g G,
    round: u16,
    block: u32,
    nodes: Vec<u32>,
    targets: Vec<u32>,
    starts: Vec<usize>,
}

impl<'g, G: Game> Model for Batch<'g, G> {
    ghost use Rattle.egt_graph.specs.Batch.{Work, IsBatch};

    ghost Value = { Work G };

    ghost view = { λ b. record { game = b.game.now; round = b.round; block = b.block; nodes = b.nodes.items } };

    ghost invariant = { λ b. IsBatch (G.graph b.game.now) b.block b.nodes.items b.targets.items b.starts.items };
}

impl<'g, G: Game> Batch<'g, G> {
    /// The nodes with the moves into them, for which the game is asked once a node.
    pub(crate) fn new(
        alloc: Global,
        game: &'g G,
        round: u16,
        block: u32,
        nodes: Vec<u32>,
    ) -> Result<Self, AllocError>
        requires a_block { block < blocks_of (G.graph game.now).size }
        requires are_nodes { All (IsNode (G.graph game.now)) nodes.items }
        requires ascending { IsStrictlyIncreasing nodes.items }
        ensures { IfOk result
            (λ batch. (batch.game ≡ game.now) × (batch.round ≡ round) × (batch.block ≡ block) ×
            (batch.nodes ≡ nodes.items)) }
    {
        let mut targets = Vec::new(alloc);
        let mut starts = Vec::with_capacity(alloc, nodes.len() + 1)?;
        starts.push(0)?;
        for node in &nodes {
            let sources = game.into(*node);
            targets.extend_from_slice(sources.as_slice())?;
            starts.push(targets.len())?;
        }
        Ok(Batch {
            game,
            round,
            block,
            nodes,
            targets,
            starts,
        })
    }

    /// The round of its making.
    pub fn round(&self) -> u16
        ensures { result ≡ self.now.round }
    {
        self.round
    }

    /// The block of its making.
    pub fn block(&self) -> u32
        ensures value { result ≡ self.now.block }
        ensures bound { result < blocks_of (G.graph self.now.game).size }
    {
        self.block
    }

    /// The nodes listed, ascending.
    pub fn nodes(&self) -> &[u32]
        ensures value { result.now ≡ self.now.nodes }
        ensures are_nodes { All (IsNode (G.graph self.now.game)) result.now }
        ensures ascending { IsStrictlyIncreasing result.now }
    {
        &self.nodes
    }

    /// The nodes that a move leads from to the node at place `k` of `nodes`.
    pub fn targets(&self, k: usize) -> &[u32]
        requires { k < length self.now.nodes }
        ensures { result.now ≡ (G.graph self.now.game).into (slice_index self.now.nodes k) }
    {
        &self.targets[self.starts[k]..self.starts[k + 1]]
    }
}
