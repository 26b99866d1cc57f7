//! Ranks by rounds: in round r the nodes of rank r are taken back, block by block, in any order.
ghost use Rattle.std.specs.Prelude.{◌≡◌, ◌≢◌, ◌↔◌, ℕ, ◌+◌, ◌<◌, ◌≤◌, true, false, List, length, slice_index};
ghost use Rattle.std.specs.Prelude.{slice_index_or, All, IsTrue, IfOk, MatchResult, MatchBool, replicate};
ghost use Rattle.egt_graph.specs.Prelude.{IsStrictlyIncreasing, IsAlike, IsNode, AreRanks, blocks_of, begun, listed};
ghost use Rattle.egt_graph.specs.Prelude.{is_posted, IsCurrent, Posts, Closes, ClosesRunning};
ghost use Rattle.egt_graph.specs.declared.answer.Phase.TheVariants.{Running, Finished as IsOver};

use crate::answer::{Close, Phase, Post};
use crate::batch::Batch;
use crate::begin::{Columns, begin};
use crate::game::Game;
use crate::ranks::Ranks;
use crate::scan::{BLOCK, block_nodes, is_block_front};
use crate::schedule::Schedule;
use crate::step::{all_set, clear, fall_due, take_in};
use std::alloc::{AllocError, Global};
use std::marker::Model;

/// A run over a game. Each round, every block is expanded and its batch posted, by whomever and in any order, and the
/// round closed.
#[derive(Drop)]
pub struct Rounds<'g, G: Game> {
    game: &'g G,
    limit: u16,
    round: u16,
    phase: Phase,
    /// Which blocks were posted in this round.
    posted: Vec<bool>,
    entries: Vec<u16>,
    /// For each node the moves and exits that it waits for: at first all, and one less for each that is found won.
    waits: Vec<u8>,
    /// For each node the exits into positions won for the opponent that have not fallen due.
    later: Vec<u8>,
    /// Has the node an exit into a position lost for the opponent?
    lost: Vec<bool>,
    lost_due: Schedule,
    won_due: Schedule,
}

impl<'g, G: Game> Model for Rounds<'g, G> {
    ghost use Rattle.egt_graph.specs.Run.{Run, IsRun};

    ghost Value = { Run G };

    ghost view = { λ s. record {
      game = s.game.now;
      state = record { limit = s.limit; round = s.round; phase = s.phase; posted = s.posted.items };
    } };

    ghost invariant = { λ s. IsRun (G.graph s.game.now)
        (record { limit = s.limit; round = s.round; phase = s.phase; posted = s.posted.items })
        s.entries.items s.waits.items s.later.items s.lost.items s.lost_due s.won_due };
}

impl<'g, G: Game> Rounds<'g, G> {
    /// Round 0, with no block posted. Ranks above `limit`, which is at most 32,000, are not looked for. `NoMemory` only
    /// where a growth was refused.
    pub fn new(alloc: Global, game: &'g G, limit: u16) -> Result<Self, AllocError>
        requires { limit ≤ 32000 }
        ensures { IfOk result (λ rounds. (rounds.game ≡ game.now) × (rounds.state ≡ begun (G.graph game.now) limit)) }
    {
        let Columns {
            entries,
            waits,
            later,
            lost,
            lost_due,
            won_due,
        } = begin(alloc, game)?;
        let blocks = (game.size() as usize + (BLOCK - 1)) / BLOCK;
        let posted = vec![in alloc; false; blocks]?;
        Ok(Rounds {
            game,
            limit,
            round: 0,
            phase: Phase::Running,
            posted,
            entries,
            waits,
            later,
            lost,
            lost_due,
            won_due,
        })
    }

    /// The round, from 0.
    pub fn round(&self) -> u16
        ensures { result ≡ self.now.state.round }
    {
        self.round
    }

    /// How many blocks of 4,096 nodes the game has. The last may be shorter.
    pub fn blocks(&self) -> u32
        ensures value { result ≡ blocks_of (G.graph self.now.game).size }
        ensures flags { length self.now.state.posted ≡ result }
    {
        self.posted.len() as u32
    }

    /// Was the block posted in this round? Once the run has ended each block was.
    pub fn posted(&self, block: u32) -> bool
        requires { block < blocks_of (G.graph self.now.game).size }
        ensures { IsTrue result ↔ IsTrue (is_posted self.now.state block) }
    {
        match self.phase {
            Phase::Running => self.posted[block as usize],
            Phase::Finished | Phase::TooDeep => true,
        }
    }

    /// The nodes of the block whose rank is the round, with the moves into them. After the end there are none.
    pub fn expand(&self, alloc: Global, block: u32) -> Result<Batch<'g, G>, AllocError>
        requires { block < blocks_of (G.graph self.now.game).size }
        ensures { IfOk result
            (λ batch. (batch.game ≡ self.now.game) × (batch.round ≡ self.now.state.round) × (batch.block ≡ block)
            × (batch.nodes ≡ listed (G.graph self.now.game) self.now.state block)) }
    {
        let nodes = self.listed_nodes(alloc, block)?;
        Batch::new(alloc, self.game, self.round, block, nodes)
    }

    fn listed_nodes(&self, alloc: Global, block: u32) -> Result<Vec<u32>, AllocError>
        requires { block < blocks_of (G.graph self.now.game).size }
        ensures listed { IfOk result (λ nodes. nodes.items ≡ listed (G.graph self.now.game) self.now.state block) }
        ensures nodes { IfOk result (λ nodes. All (IsNode (G.graph self.now.game)) nodes.items) }
        ensures ascending { IfOk result (λ nodes. IsStrictlyIncreasing nodes.items) }
    {
        match self.phase {
            Phase::Running => block_nodes(alloc, &self.entries, block, self.round),
            Phase::Finished | Phase::TooDeep => Ok(Vec::new(alloc)),
        }
    }

    /// Takes in the batch of a block. A batch of another round, or one that does not list the block's nodes of this
    /// round, is stale; a block that was posted is not taken in again. The batch's game is this one, or one whose calls
    /// all answer alike.
    pub fn post(&mut self, batch: Batch<'_, G>) -> Post
        requires { IsAlike (G.graph self.old.game) (G.graph batch.game) }
        ensures same_game { self.new.game ≡ self.old.game }
        ensures posts { Posts (G.graph self.old.game) self.old.state batch.entry.round batch.entry.block
            batch.entry.nodes result self.new.state }
    {
        if !self.is_current(&batch) {
            return Post::Stale;
        }
        if self.posted[batch.block() as usize] {
            return Post::Repeat;
        }
        take_in(
            self.game,
            &mut self.entries,
            &mut self.waits,
            &mut self.posted,
            &batch,
            self.round,
        );
        Post::Posted
    }

    fn is_current(&self, batch: &Batch<'_, G>) -> bool
        requires { IsAlike (G.graph self.now.game) (G.graph batch.now.game) }
        ensures { IsTrue result
            ↔ IsCurrent (G.graph self.now.game) self.now.state batch.now.round batch.now.block batch.now.nodes }
    {
        if self.phase != Phase::Running || batch.round() != self.round {
            return false;
        }
        is_block_front(&self.entries, batch.block(), self.round, batch.nodes())
    }

    /// Ends the round once each block was posted: the exits of its number fall due, and either the next round begins,
    /// or the run has ended. It has where no node has a rank above the round, or where the round is the limit.
    pub fn close(&mut self) -> Close
        ensures same_game { self.new.game ≡ self.old.game }
        ensures closes { Closes (G.graph self.old.game) self.old.state result self.new.state }
    {
        match self.phase {
            Phase::Running => self.close_round(),
            Phase::Finished => Close::Finished,
            Phase::TooDeep => Close::TooDeep,
        }
    }

    fn close_round(&mut self) -> Close
        requires { self.old.state.phase ≡ Running }
        ensures same_game { self.new.game ≡ self.old.game }
        ensures closes { ClosesRunning (G.graph self.old.game) self.old.state result self.new.state }
    {
        if !all_set(&self.posted) {
            return Close::NotAll;
        }
        let unsettled = fall_due(
            &mut self.entries,
            &mut self.waits,
            &mut self.later,
            &self.lost,
            self.lost_due.due(self.round),
            self.won_due.due(self.round),
            self.round,
        );
        if !unsettled {
            self.phase = Phase::Finished;
            return Close::Finished;
        }
        if self.round == self.limit {
            self.phase = Phase::TooDeep;
            return Close::TooDeep;
        }
        self.round += 1;
        clear(&mut self.posted);
        Close::Next
    }

    /// The ranks of a finished run, or the run as it was.
    pub fn into_ranks(self) -> Result<Ranks, Self>
        ensures { MatchResult result
            (λ ranks. (self.entry.state.phase ≡ IsOver) ×
            AreRanks (G.graph self.entry.game) self.entry.state.limit ranks)
            (λ rounds. (self.entry.state.phase ≢ IsOver) × (rounds ≡ self.entry)) }
    {
        if self.phase == Phase::Finished {
            Ok(Ranks::from_entries(self.entries))
        } else {
            Err(self)
        }
    }
}
