//! The columns as a run begins.
ghost use Rattle.std.specs.Prelude.{◌≡◌, ℕ, ◌+◌, ◌<◌, ◌≤◌, ◌^◌, length, count_by, [], ◌∷◌, OnOk, IfOk};
ghost use Rattle.egt_graph.specs.Prelude.{list_any, outs, leaves, entry_at, is_loss, is_win_from, is_win_of};
ghost use Rattle.egt_graph.specs.Prelude.{is_loss_of, Adds, IsBegun};

use crate::columns::DRAW;
use crate::game::{Exit, Game};
use crate::schedule::Schedule;
use arrayvec::ArrayVec;
use std::alloc::{AllocError, Global};

/// The columns of a run, and the nodes by the numbers of their exits.
#[derive(Drop)]
pub(crate) struct Columns {
    pub(crate) entries: Vec<u16>,
    pub(crate) waits: Vec<u8>,
    pub(crate) later: Vec<u8>,
    pub(crate) lost: Vec<bool>,
    pub(crate) lost_due: Schedule,
    pub(crate) won_due: Schedule,
}

/// The columns before the first round. Each node's moves are counted, and none is asked for.
pub(crate) fn begin<G: Game>(alloc: Global, game: &G) -> Result<Columns, AllocError>
    ensures { IfOk result (λ columns. IsBegun (G.graph game.now) (G.graph game.now).size
        columns.entries.items columns.waits.items columns.later.items columns.lost.items columns.lost_due
        columns.won_due) }
{
    let size = game.size();
    let mut columns = Columns {
        entries: Vec::with_capacity(alloc, size as usize)?,
        waits: Vec::with_capacity(alloc, size as usize)?,
        later: Vec::with_capacity(alloc, size as usize)?,
        lost: Vec::with_capacity(alloc, size as usize)?,
        lost_due: Schedule::new(alloc),
        won_due: Schedule::new(alloc),
    };
    for node in 0..size {
        push_node(alloc, game, node, &mut columns)?;
    }
    Ok(columns)
}

fn push_node<G: Game>(
    alloc: Global,
    game: &G,
    node: u32,
    columns: &mut Columns,
) -> Result<(), AllocError>
    requires in_range { node < (G.graph game.now).size }
    requires begun { IsBegun (G.graph game.now) node columns.old.entries.items columns.old.waits.items
        columns.old.later.items columns.old.lost.items columns.old.lost_due columns.old.won_due }
    ensures { OnOk result (IsBegun (G.graph game.now) (node + 1) columns.new.entries.items columns.new.waits.items
        columns.new.later.items columns.new.lost.items columns.new.lost_due columns.new.won_due) }
{
    let start = start_of(game, node);
    let exits = start.exits.as_slice();
    columns.entries.push(start.entry)?;
    columns.waits.push(start.moves + exits.len() as u8)?;
    columns.later.push(count_wins(exits))?;
    columns.lost.push(any_loss(exits))?;
    schedule_exits(
        alloc,
        exits,
        node,
        &mut columns.lost_due,
        &mut columns.won_due,
    )?;
    Ok(())
}

/// What the game says of a node, or of a number that is none.
#[derive(Drop)]
struct Start {
    entry: u16,
    moves: u8,
    exits: ArrayVec<Exit, 64>,
}

fn start_of<G: Game>(game: &G, node: u32) -> Start
    requires { node < (G.graph game.now).size }
    ensures entry { result.entry ≡ entry_at (G.graph game.now) 0 node }
    ensures moves { result.moves ≡ length (outs (G.graph game.now) node) }
    ensures few_moves { result.moves ≤ 64 }
    ensures exits { result.exits.items ≡ leaves (G.graph game.now) node }
{
    if game.void(node) {
        return Start {
            entry: 0,
            moves: 0,
            exits: ArrayVec::new(),
        };
    }
    Start {
        entry: if game.mated(node) { 3 } else { DRAW },
        moves: game.degree(node) as u8,
        exits: game.exits(node),
    }
}

fn count_wins(exits: &[Exit]) -> u8
    requires { length exits.now ≤ 64 }
    ensures { result ≡ count_by (is_win_from 0) exits.now }
{
    let mut wins = 0;
    for exit in exits {
        if let Exit::Win(_) = exit {
            wins += 1;
        }
    }
    wins
}

fn any_loss(exits: &[Exit]) -> bool
    ensures { result ≡ list_any is_loss exits.now }
{
    for exit in exits {
        if let Exit::Loss(_) = exit {
            return true;
        }
    }
    false
}

#[inline(always)]
pub(crate) fn schedule_exits(
    alloc: Global,
    exits: &[Exit],
    node: u32,
    lost_due: &mut Schedule,
    won_due: &mut Schedule,
) -> Result<(), AllocError>
    ensures losses { OnOk result (Adds is_loss_of lost_due.old lost_due.new node exits.now) }
    ensures wins { OnOk result (Adds is_win_of won_due.old won_due.new node exits.now) }
{
    for exit in exits {
        schedule_exit(alloc, *exit, node, lost_due, won_due)?;
    }
    Ok(())
}

fn schedule_exit(
    alloc: Global,
    exit: Exit,
    node: u32,
    lost_due: &mut Schedule,
    won_due: &mut Schedule,
) -> Result<(), AllocError>
    ensures losses { OnOk result (Adds is_loss_of lost_due.old lost_due.new node (exit ∷ [])) }
    ensures wins { OnOk result (Adds is_win_of won_due.old won_due.new node (exit ∷ [])) }
{
    match exit {
        Exit::Win(plies) => won_due.add(alloc, plies, node),
        Exit::Loss(plies) => lost_due.add(alloc, plies, node),
        Exit::Draw => Ok(()),
    }
}
