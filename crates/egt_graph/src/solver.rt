//! A whole game by one worker.
ghost use Rattle.std.specs.Prelude.{◌≡◌, ◌≢◌, ◌≤◌, true, length, IfOk, OnOk};
ghost use Rattle.egt_graph.specs.Prelude.{AreRanks, SomeAbove, AllPosted, State, Running, NoMemory};

use crate::answer::Close;
use crate::game::Game;
use crate::ranks::Ranks;
use crate::rounds::Rounds;
use std::alloc::{AllocError, Global};

/// Why a game was not solved.
#[derive(PartialEq, Eq, Debug, Drop)]
pub enum SolveFault {
    /// A growth was refused. Nothing is said of the game.
    NoMemory,
    /// Some node has a rank above the limit.
    TooDeep,
}

impl SolveFault {
    ghost use Rattle.std.specs.Prelude.{◌≡◌};
    ghost use Rattle.egt_graph.specs.Fault.{number_of, name_of};

    pub fn number(&self) -> u8
        ensures { result ≡ number_of self.now }
    {
        match self {
            SolveFault::NoMemory => 1,
            SolveFault::TooDeep => 2,
        }
    }

    pub fn name(&self) -> &'static str
        ensures { result.now ≡ name_of self.now }
    {
        match self {
            SolveFault::NoMemory => "NoMemory",
            SolveFault::TooDeep => "TooDeep",
        }
    }
}

impl From<AllocError> for SolveFault {
    ghost from_gives = { λ _ fault. fault ≡ NoMemory };

    fn from(_error: AllocError) -> SolveFault {
        SolveFault::NoMemory
    }
}

/// The rank of every node, where none is above `limit`, which is at most 32,000. The game is asked for the moves into a
/// node once, and for no moves out of one.
pub fn solve<G: Game>(alloc: Global, game: &G, limit: u16) -> Result<Ranks, SolveFault>
    requires { limit ≤ 32000 }
    ensures ok { IfOk result (AreRanks (G.graph game.now) limit) }
    ensures too_deep { result ≡ Err SolveFault.TooDeep → SomeAbove (G.graph game.now) limit }
{
    let mut rounds = Rounds::new(alloc, game, limit)?;
    'rounds: loop {
        post_all(alloc, &mut rounds)?;
        match rounds.close() {
            Close::Next => {}
            Close::Finished => break,
            Close::TooDeep => return Err(SolveFault::TooDeep),
            Close::NotAll => unreachable!(),
        }
    }
    match rounds.into_ranks() {
        Ok(ranks) => Ok(ranks),
        Err(_rounds) => unreachable!(),
    }
}

/// Expands and posts every block, from 0 up.
fn post_all<G: Game>(alloc: Global, rounds: &mut Rounds<'_, G>) -> Result<(), AllocError>
    requires { rounds.old.state.phase ≡ Running }
    ensures same_game { rounds.new.game ≡ rounds.old.game }
    ensures same_round { OnOk result (rounds.new.state ≡ record rounds.old.state { posted = rounds.new.state.posted }) }
    ensures posted { OnOk result (AllPosted rounds.new.state) }
{
    for block in 0..rounds.blocks() {
        let batch = rounds.expand(alloc, block)?;
        rounds.post(batch);
    }
    Ok(())
}
