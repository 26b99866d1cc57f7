//! The scan for the nodes of a round.
ghost use Rattle.std.specs.Prelude.{◌≡◌, ◌↔◌, ℕ, ◌+◌, ◌*◌, ◌^◌, ◌<◌, ◌≤◌, length, map, slice_index, All, IsTrue};
ghost use Rattle.std.specs.Prelude.{IsFalse, IfOk};
ghost use Rattle.std.specs.Bool.{OnTrue};
ghost use Rattle.egt_graph.specs.Frontier.{frontier_of, frontier_below, is_entry_of_round, entry_front};

use arrayvec::ArrayVec;
use std::alloc::{AllocError, Global};
use std::simd::prelude::*;

/// The nodes of a block. The last block of a game may have fewer.
pub(crate) const BLOCK: usize = 4096;

/// The entries that are compared at once.
const LANES: usize = 16;

/// The places of the entries that spell a win or a loss in `round` plies, ascending.
#[tactic(auto, using(crate::proofs::Ranges::frontier_quiet))]
pub fn frontier(entries: &[u16], round: u16) -> ArrayVec<u16, 4096>
    requires few { length entries.now ≤ 4096 }
    requires short { round ≤ 32000 }
    ensures { result.items ≡ frontier_of entries.now round }
{
    let mut places = ArrayVec::new();
    let mut from = 0;
    while from + LANES <= entries.len() {
        if !is_quiet(entries, from, round) {
            push_places(entries, from, from + LANES, round, &mut places);
        }
        from += LANES;
    }
    push_places(entries, from, entries.len(), round, &mut places);
    places
}

/// No entry of the load is one of the round. Most loads are quiet, so a load's places are looked for one by one only
/// where it is not.
#[inline(always)]
fn is_quiet(entries: &[u16], from: usize, round: u16) -> bool
    requires within { from + LANES ≤ length entries.now }
    requires short { round ≤ 32000 }
    ensures { OnTrue result
        ((k : ℕ) → from ≤ k → k < from + LANES → IsFalse (is_entry_of_round round (slice_index entries.now k))) }
{
    let load = u16x16::from_slice(&entries[from..]);
    let wins = load.simd_eq(u16x16::splat(2 + 2 * round)).to_bitmask();
    let losses = load.simd_eq(u16x16::splat(3 + 2 * round)).to_bitmask();
    wins == 0 && losses == 0
}

#[tactic(auto, using(crate::proofs::Ranges::length_frontier_below))]
fn push_places(
    entries: &[u16],
    from: usize,
    end: usize,
    round: u16,
    places: &mut ArrayVec<u16, 4096>,
)
    requires few { length entries.now ≤ 4096 }
    requires short { round ≤ 32000 }
    requires ordered { from ≤ end }
    requires within { end ≤ length entries.now }
    requires begun { places.old.items ≡ frontier_below entries.now round from }
    ensures { places.new.items ≡ frontier_below entries.now round end }
{
    for place in from..end {
        if is_of_round(entries[place], round) {
            places.push(place as u16);
        }
    }
}

#[inline(always)]
fn is_of_round(entry: u16, round: u16) -> bool
    requires { round ≤ 32000 }
    ensures { result ≡ is_entry_of_round round entry }
{
    entry == 2 + 2 * round || entry == 3 + 2 * round
}

/// The places of the round's entries within a block.
#[tactic(auto, using(crate::proofs::BlockNodes::block_places_front, crate::proofs::BlockNodes::block_places_within))]
fn block_places(entries: &[u16], block: u32, round: u16) -> ArrayVec<u16, 4096>
    requires short { round ≤ 32000 }
    requires within { 4096 * block ≤ length entries.now }
    ensures nodes { map (λ k. 4096 * block + k) result.items ≡ entry_front entries.now round block }
    ensures within { All (λ k. 4096 * block + k < length entries.now) result.items }
{
    let start = block as usize * BLOCK;
    let end = entries.len().min(start + BLOCK);
    frontier(&entries[start..end], round)
}

/// The nodes of a block whose entries are of the round.
pub(crate) fn block_nodes(
    alloc: Global,
    entries: &[u16],
    block: u32,
    round: u16,
) -> Result<Vec<u32>, AllocError>
    requires short { round ≤ 32000 }
    requires within { 4096 * block ≤ length entries.now }
    requires few { length entries.now < 2 ^ 32 }
    ensures { IfOk result (λ nodes. nodes.items ≡ entry_front entries.now round block) }
{
    let places = block_places(entries, block, round);
    let mut nodes = Vec::with_capacity(alloc, places.len())?;
    for place in places.as_slice() {
        nodes.push(block * BLOCK as u32 + u32::from(*place))?;
    }
    Ok(nodes)
}

/// Are these the nodes of the block whose entries are of the round?
pub(crate) fn is_block_front(entries: &[u16], block: u32, round: u16, nodes: &[u32]) -> bool
    requires short { round ≤ 32000 }
    requires within { 4096 * block ≤ length entries.now }
    ensures { IsTrue result ↔ (nodes.now ≡ entry_front entries.now round block) }
{
    let places = block_places(entries, block, round);
    let places = places.as_slice();
    if places.len() != nodes.len() {
        return false;
    }
    let start = block as usize * BLOCK;
    for k in 0..nodes.len() {
        if nodes[k] as usize != start + places[k] as usize {
            return false;
        }
    }
    true
}
