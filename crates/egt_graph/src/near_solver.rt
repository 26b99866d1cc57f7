//! How far the nearest mate is, of each node of a game.
ghost use Rattle.std.specs.Prelude.{◌≡◌, ◌≤◌, IfOk, IsTrue};
ghost use Rattle.egt_graph.specs.Prelude.{AreNears, AreTold, IsOver, SomeFar};

use crate::game::Game;
use crate::nearing::{Nearing, any_found, begin_nearing, step_back, tell};
use crate::nears::Nears;
use crate::solver::SolveFault;
use std::alloc::Global;

/// The most plies that an entry can hold.
const FARTHEST: u16 = 32_000;

/// Is no number above the round, which is the last whose sources were looked for?
fn is_over(run: &Nearing, round: u16) -> bool
    requires { round ≤ 32000 }
    ensures { IsTrue result → IsOver run.now round }
{
    !any_found(&run.entries, round + 1)
        && !run.lost_due.goes_past(round)
        && !run.won_due.goes_past(round)
}

/// The entries of a run as they are answered.
fn nears_of(run: Nearing) -> Nears
    ensures { AreTold run.entries.items result }
{
    let Nearing {
        mut entries,
        lost_due: _lost_due,
        won_due: _won_due,
    } = run;
    tell(&mut entries);
    Nears::from_entries(entries)
}

/// How far the nearest mate is from every node by moves of both sides; a mated node has 0, and a position outside
/// counts as the number of its value. It goes backward from the mates, ply by ply: the game is asked for the moves into
/// a node once, and for no moves out of one.
///
/// # Errors
///
/// `NoMemory` where a growth was refused, `TooDeep` only where the least number of some node is above 32,000.
pub fn nearest<G: Game>(alloc: Global, game: &G) -> Result<Nears, SolveFault>
    ensures ok { IfOk result (AreNears (G.graph game.now)) }
    ensures too_deep { result ≡ Err SolveFault.TooDeep → SomeFar (G.graph game.now) }
{
    let mut run = begin_nearing(alloc, game)?;
    for round in 0..FARTHEST {
        step_back(alloc, game, &mut run, round)?;
        if is_over(&run, round) {
            return Ok(nears_of(run));
        }
    }
    step_back(alloc, game, &mut run, FARTHEST)?;
    if any_found(&run.entries, FARTHEST + 1) {
        return Err(SolveFault::TooDeep);
    }
    Ok(nears_of(run))
}
