//! Stairs, and a game that counts what it is asked.
ghost use Rattle.std.specs.Prelude.{◌≡◌, ◌+◌, ◌<◌, ◌≤◌, ◌^◌, length};
ghost use Rattle.egt_checker_tests.specs.Stairs.{stairs, stairs_are_a_game, is_short};

use arrayvec::ArrayVec;
use egt_graph::{Exit, Game, NoMemory, Ranks};
use std::alloc::Global;
use std::cell::Cell;

/// Nodes in steps. Those of the lowest have no move, and each other has one, to the node one step below. Nodes may
/// leave the game besides: an exit is a node and what it leads to. Those of the lowest step that do not leave are
/// checkmates where `mates`, and stalemates where not. The last `voids` numbers are no nodes.
#[derive(Drop)]
pub(super) struct Stairs<'a> {
    pub(super) nodes: u32,
    pub(super) voids: u32,
    pub(super) step: u32,
    pub(super) mates: bool,
    pub(super) exits: &'a [(u32, Exit)],
    ghost small: { nodes + voids < 2 ^ 32 },
    ghost few: { length exits.now ≤ 64 },
}

/// Stairs that no node leaves.
pub(super) fn plain_stairs(nodes: u32, step: u32) -> Stairs<'static> {
    Stairs {
        nodes,
        voids: 0,
        step,
        mates: true,
        exits: &[],
    }
}

/// Five steps of 2,000 nodes over three blocks: a node of step r has rank r.
pub(super) const STAIRS: Stairs<'static> = Stairs {
    nodes: 10_000,
    voids: 0,
    step: 2_000,
    mates: true,
    exits: &[],
};

/// The entry of a node of these stairs: lost on an even step, won on an odd one.
fn stair_entry(node: usize) -> u16 {
    match node / 2_000 {
        0 => 3,
        1 => 4,
        2 => 7,
        3 => 8,
        4 => 11,
        _ => 0,
    }
}

/// Whether these are the ranks of these stairs.
pub(super) fn are_stair_ranks(ranks: &Ranks) -> bool {
    let entries = ranks.entries();
    let mut right = entries.len() == 10_000;
    for (node, entry) in entries.iter().enumerate() {
        right = right && *entry == stair_entry(node);
    }
    right
}

fn short(exit: Exit) -> bool
    ensures { result ≡ is_short exit }
{
    match exit {
        Exit::Win(plies) | Exit::Loss(plies) => plies <= 32_000,
        Exit::Draw => true,
    }
}

impl Game for Stairs<'_> {
    ghost graph = { λ s. stairs s.nodes s.voids s.step s.mates s.exits.now };

    ghost lawful = { λ s. stairs_are_a_game s.nodes s.voids s.step s.mates s.exits.now };

    fn size(&self) -> u32 {
        self.nodes + self.voids
    }

    fn void(&self, i: u32) -> bool {
        self.nodes <= i
    }

    fn mated(&self, i: u32) -> bool {
        self.mates && i < self.step && self.exits(i).is_empty()
    }

    fn out(&self, i: u32) -> ArrayVec<u32, 64> {
        let mut nodes = ArrayVec::new();
        if i >= self.step {
            nodes.push(i - self.step);
        }
        nodes
    }

    fn degree(&self, i: u32) -> usize {
        if i >= self.step { 1 } else { 0 }
    }

    fn into(&self, j: u32) -> ArrayVec<u32, 128> {
        let mut nodes = ArrayVec::new();
        if self.step < self.nodes - j {
            nodes.push(j + self.step);
        }
        nodes
    }

    fn exits(&self, i: u32) -> ArrayVec<Exit, 64> {
        let mut exits = ArrayVec::new();
        for pair in self.exits {
            if pair.0 == i && short(pair.1) {
                exits.push(pair.1);
            }
        }
        exits
    }
}

/// A game that counts how often it is asked for lists of moves.
#[derive(Drop)]
pub(super) struct Counted<'a, G: Game> {
    game: &'a G,
    outs: Cell<u32>,
    /// How often it was asked for the moves into each node.
    intos: Vec<Cell<u32>>,
}

impl<'a, G: Game> Counted<'a, G> {
    pub(super) fn new(alloc: Global, game: &'a G) -> Result<Self, NoMemory> {
        let mut intos = Vec::new(alloc);
        for _node in 0..game.size() {
            intos.push(Cell::new(0))?;
        }
        Ok(Counted {
            game,
            outs: Cell::new(0),
            intos,
        })
    }

    /// How often `out` was asked.
    pub(super) fn outs(&self) -> u32 {
        self.outs.get()
    }

    /// How often `into` was asked, of all nodes together.
    pub(super) fn intos(&self) -> u32 {
        let mut all: u32 = 0;
        for asked in &self.intos {
            all = all.wrapping_add(asked.get());
        }
        all
    }

    /// How often it was asked of the node of which it was asked the most.
    pub(super) fn most(&self) -> u32 {
        let mut most: u32 = 0;
        for asked in &self.intos {
            most = most.max(asked.get());
        }
        most
    }
}

fn count(cell: &Cell<u32>) {
    cell.set(cell.get().wrapping_add(1));
}

impl<'a, G: Game> Game for Counted<'a, G> {
    ghost graph = { λ s. G.graph s.game.now };

    ghost lawful = { λ s. G.lawful s.game.now };

    fn size(&self) -> u32 {
        self.game.size()
    }

    fn void(&self, i: u32) -> bool {
        self.game.void(i)
    }

    fn mated(&self, i: u32) -> bool {
        self.game.mated(i)
    }

    fn out(&self, i: u32) -> ArrayVec<u32, 64> {
        count(&self.outs);
        self.game.out(i)
    }

    fn degree(&self, i: u32) -> usize {
        self.game.degree(i)
    }

    fn into(&self, j: u32) -> ArrayVec<u32, 128> {
        if let Some(asked) = self.intos.get(j as usize) {
            count(asked);
        }
        self.game.into(j)
    }

    fn exits(&self, i: u32) -> ArrayVec<Exit, 64> {
        self.game.exits(i)
    }
}
