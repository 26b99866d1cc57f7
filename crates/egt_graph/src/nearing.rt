//! The nearest mate, backward and breadth first: what is kept, and one ply more.
ghost use Rattle.std.specs.Prelude.{◌≡◌, ◌≢◌, ℕ, ◌+◌, ◌*◌, ◌^◌, ◌<◌, ◌≤◌, length, slice_index, All, IfOk, OnOk};
ghost use Rattle.std.specs.Prelude.{MatchBool};
ghost use Rattle.egt_graph.specs.Prelude.{leaves, IsNode, AreFound, AreTold, Finds, IsNearing, IsNearingTo, found_by};
ghost use Rattle.egt_graph.specs.Prelude.{led_from, near_at, near_of_entry};

use crate::begin::schedule_exits;
use crate::columns::{DRAW, mark_wins};
use crate::game::{Exit, Game};
use crate::schedule::Schedule;
use arrayvec::ArrayVec;
use std::alloc::{AllocError, Global};

/// The numbers that are known so far, each as the entry of a win in so many plies is, and the nodes by the numbers of
/// their exits.
#[derive(Drop)]
pub(crate) struct Nearing {
    pub(crate) entries: Vec<u16>,
    pub(crate) lost_due: Schedule,
    pub(crate) won_due: Schedule,
}

/// The numbers of mated nodes, which are 0.
pub(crate) fn begin_nearing<G: Game>(alloc: Global, game: &G) -> Result<Nearing, AllocError>
    ensures { IfOk result (IsNearing (G.graph game.now) 0) }
{
    let size = game.size();
    let mut run = Nearing {
        entries: Vec::with_capacity(alloc, size as usize)?,
        lost_due: Schedule::new(alloc),
        won_due: Schedule::new(alloc),
    };
    for node in 0..size {
        push_near(alloc, game, node, &mut run)?;
    }
    Ok(run)
}

fn push_near<G: Game>(
    alloc: Global,
    game: &G,
    node: u32,
    run: &mut Nearing,
) -> Result<(), AllocError>
    requires in_range { node < (G.graph game.now).size }
    requires begun { IsNearingTo (G.graph game.now) node run.old }
    ensures { OnOk result (IsNearingTo (G.graph game.now) (node + 1) run.new) }
{
    let exits = exits_of(game, node);
    run.entries.push(near_at_once(game, node))?;
    schedule_exits(
        alloc,
        exits.as_slice(),
        node,
        &mut run.lost_due,
        &mut run.won_due,
    )?;
    Ok(())
}

/// The entry of a number before any but those of mated nodes is known.
fn near_at_once<G: Game>(game: &G, node: u32) -> u16
    requires { node < (G.graph game.now).size }
    ensures { result ≡ near_at (G.graph game.now) 0 node }
{
    if game.void(node) {
        return 0;
    }
    if game.mated(node) { 2 } else { DRAW }
}

/// The exits of a number, none where it is no node.
fn exits_of<G: Game>(game: &G, node: u32) -> ArrayVec<Exit, 64>
    requires { node < (G.graph game.now).size }
    ensures { result.items ≡ leaves (G.graph game.now) node }
{
    if game.void(node) {
        return ArrayVec::new();
    }
    game.exits(node)
}

/// The numbers with an entry of the round.
fn found_in(alloc: Global, entries: &[u16], round: u16) -> Result<Vec<u32>, AllocError>
    requires short { round ≤ 32000 }
    requires few { length entries.now < 2 ^ 32 }
    ensures { IfOk result (λ found. AreFound entries.now round (length entries.now) found.items) }
{
    let mut found = Vec::new(alloc);
    for i in 0..entries.len() {
        if entries[i] == 2 + 2 * round {
            found.push(i as u32)?;
        }
    }
    Ok(found)
}

/// Nodes from which a move leads to one of these are a ply further away, where no number is known of them.
fn mark_sources<G: Game>(game: &G, entries: &mut [u16], found: &[u32], round: u16)
    requires short { round ≤ 32000 }
    requires nodes { All (IsNode (G.graph game.now)) found.now }
    requires long { length entries.old ≡ (G.graph game.now).size }
    ensures { Finds entries.old (led_from (G.graph game.now) found.now) (round + 1) entries.new }
{
    for node in found {
        let sources = game.into(*node);
        mark_wins(entries, sources.as_slice(), round + 1);
    }
}

/// What is one ply further away than the round: sources of what was found, and the nodes of exits that fall due.
fn find_next<G: Game>(
    game: &G,
    entries: &mut [u16],
    found: &[u32],
    lost: &[u32],
    won: &[u32],
    round: u16,
)
    requires short { round ≤ 32000 }
    requires nodes { All (IsNode (G.graph game.now)) found.now }
    requires long { length entries.old ≡ (G.graph game.now).size }
    requires lost_within { All (λ i. i < length entries.old) lost.now }
    requires won_within { All (λ i. i < length entries.old) won.now }
    ensures { Finds entries.old (found_by (G.graph game.now) found.now lost.now won.now) (round + 1) entries.new }
{
    mark_sources(game, entries, found, round);
    mark_wins(entries, lost, round + 1);
    mark_wins(entries, won, round + 1);
}

/// One ply more: the numbers that are one above the round.
pub(crate) fn step_back<G: Game>(
    alloc: Global,
    game: &G,
    run: &mut Nearing,
    round: u16,
) -> Result<(), AllocError>
    requires short { round ≤ 32000 }
    requires known { IsNearing (G.graph game.now) round run.old }
    ensures { OnOk result (IsNearing (G.graph game.now) (round + 1) run.new) }
{
    let _size = game.size();
    let found = found_in(alloc, &run.entries, round)?;
    find_next(
        game,
        &mut run.entries,
        &found,
        run.lost_due.due(round),
        run.won_due.due(round),
        round,
    );
    Ok(())
}

/// Has some number an entry of the round?
pub(crate) fn any_found(entries: &[u16], round: u16) -> bool
    requires { round ≤ 32001 }
    ensures { MatchBool result ((i : ℕ) × (i < length entries.now) × (slice_index entries.now i ≡ 2 + 2 * round))
        ((i : ℕ) → i < length entries.now → slice_index entries.now i ≢ 2 + 2 * round) }
{
    for entry in entries {
        if *entry == 2 + 2 * round {
            return true;
        }
    }
    false
}

/// An entry as it is answered.
fn near_of_entry(entry: u16) -> u16
    ensures { result ≡ near_of_entry entry }
{
    if entry < 2 { entry } else { 1 + entry / 2 }
}

/// All entries as they are answered.
pub(crate) fn tell(entries: &mut [u16])
    ensures { AreTold entries.old entries.new }
{
    for i in 0..entries.len() {
        entries[i] = near_of_entry(entries[i]);
    }
}
