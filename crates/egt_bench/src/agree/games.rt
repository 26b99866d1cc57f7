//! The games over a class: what they tell of a node against the position's legal moves, played one by one.
ghost use Rattle.std.specs.Prelude.{IfOk};
ghost use Rattle.egt_entries.specs.Tables.{table_at};
ghost use Rattle.egt_sweep.specs.MateColumn.{AreMateRanks};

use crate::agree::codes::{Spelled, spelling};
use crate::agree::entries::{Value, mate_value, said_by};
use crate::agree::setup::Setup;
use crate::agree::steps::{Step, steps};
use arrayvec::ArrayVec;
use egt_board::Position;
use egt_check::{Library, Metric};
use egt_class::Class;
use egt_graph::{Exit, Game, Ranks, solve};
use egt_sweep::{MateGame, ZeroGame};
use std::alloc::Global;

/// What no game tells.
const UNKNOWN: Exit = Exit::Win(u16::MAX);

/// The game of mates or of zeroing moves over a class, as plain play has it, beside the children's tables and the
/// class's own mate entries.
#[derive(Clone, Copy)]
struct Plain<'l> {
    metric: Metric,
    class: Class,
    library: &'l Library,
    mates: &'l [u16],
}

/// What is to be told of a node: where moves go on to, each once, what the other moves bring, and whether the mover is
/// checkmated.
#[derive(Drop)]
struct Node {
    nodes: ArrayVec<u32, 64>,
    exits: ArrayVec<Exit, 64>,
    mated: bool,
}

impl Plain<'_> {
    /// Whether the move goes on in the game.
    fn goes_on(&self, step: &Step) -> bool {
        match self.metric {
            Metric::Mate => step.class == self.class,
            Metric::Zeroing => !step.zeroes,
        }
    }

    /// What the mate entry says of where the move leads.
    fn said(&self, step: &Step) -> Option<Value> {
        if step.class == self.class {
            said_by(*self.mates.get(step.index as usize)?)
        } else {
            mate_value(self.library, step)
        }
    }

    /// What a move out of the game brings: where moves zero, that is at once.
    fn exit(&self, step: &Step) -> Exit {
        let counts = self.metric == Metric::Mate;
        match self.said(step) {
            Some(Value::Win(plies)) => Exit::Win(if counts { plies } else { 0 }),
            Some(Value::Loss(plies)) => Exit::Loss(if counts { plies } else { 0 }),
            Some(Value::Draw) => Exit::Draw,
            None => UNKNOWN,
        }
    }

    /// The node of a position.
    fn node(&self, position: &Position) -> Node {
        let mut nodes = ArrayVec::<u32, 64>::new();
        let mut exits = ArrayVec::<Exit, 64>::new();
        let steps = steps(position);
        for step in steps.as_slice() {
            if !self.goes_on(step) {
                let _ = exits.try_push(self.exit(step));
            } else if !nodes.as_slice().contains(&step.index) {
                let _ = nodes.try_push(step.index);
            }
        }
        let setup = Setup::of(position);
        let mated = steps.is_empty() && setup.is_in_check(setup.side);
        Node {
            nodes,
            exits,
            mated,
        }
    }

    /// Whether a move leads from the position that the code spells to the node.
    fn leads(&self, code: u32, node: u32) -> bool {
        match spelling(self.class, code) {
            Spelled::Position(before) => self.node(&before).nodes.as_slice().contains(&node),
            _ => false,
        }
    }
}

/// Whether the list ascends, without doubles.
fn ascends(list: &[u32]) -> bool {
    let mut last = None;
    for number in list {
        if last.is_some_and(|before| before >= *number) {
            return false;
        }
        last = Some(*number);
    }
    true
}

/// Whether the list ascends and has these numbers, each of which is there once.
fn are_nodes(list: &[u32], nodes: &[u32]) -> bool {
    for node in nodes {
        if !list.contains(node) {
            return false;
        }
    }
    list.len() == nodes.len() && ascends(list)
}

/// How often the list has the exit.
fn count(list: &[Exit], exit: Exit) -> usize {
    let mut count = 0usize;
    for other in list {
        if *other == exit {
            count = count.wrapping_add(1);
        }
    }
    count
}

/// Whether both lists have the same exits, in whatever order.
fn are_exits(list: &[Exit], exits: &[Exit]) -> bool {
    for exit in exits {
        if count(list, *exit) != count(exits, *exit) {
            return false;
        }
    }
    list.len() == exits.len()
}

/// Whether the game has this node among those from which a move leads to the other.
fn comes_from<G: Game>(game: &G, node: u32, source: u32) -> bool {
    node < game.size() && !game.void(node) && game.into(node).as_slice().contains(&source)
}

/// Whether plain moves lead from each of these to the node.
fn lead(plain: &Plain<'_>, sources: &[u32], node: u32) -> bool {
    for source in sources {
        if !plain.leads(*source, node) {
            return false;
        }
    }
    ascends(sources)
}

/// Whether the game's nodes before this one are those from which moves lead to it, and it is one before those to which
/// moves lead.
fn sources_agree<G: Game>(game: &G, plain: &Plain<'_>, code: u32, nodes: &[u32]) -> bool {
    for next in nodes {
        if !comes_from(game, *next, code) {
            return false;
        }
    }
    if code >= game.size() || game.void(code) {
        return false;
    }
    lead(plain, game.into(code).as_slice(), code)
}

/// Whether what the game tells of a node alone is right.
fn node_agrees<G: Game>(game: &G, code: u32, node: &Node) -> bool {
    if code >= game.size() || game.void(code) {
        return false;
    }
    game.mated(code) == node.mated
        && game.degree(code) == node.nodes.len()
        && are_nodes(game.out(code).as_slice(), node.nodes.as_slice())
        && are_exits(game.exits(code).as_slice(), node.exits.as_slice())
}

/// Whether all that the game tells of the code is right.
fn code_agrees<G: Game>(game: &G, plain: &Plain<'_>, code: u32) -> bool {
    if code >= game.size() {
        return false;
    }
    match spelling(plain.class, code) {
        Spelled::Position(position) => {
            let node = plain.node(&position);
            node_agrees(game, code, &node)
                && sources_agree(game, plain, code, node.nodes.as_slice())
        }
        Spelled::Nothing => game.void(code),
        Spelled::Otherwise => false,
    }
}

/// How many codes at these steps the game tells right of; the first of which it does not.
fn codes_agree<G: Game>(game: &G, plain: &Plain<'_>, step: u32) -> Result<u32, u32> {
    let mut codes = 0u32;
    for code in 0..game.size() {
        if code.checked_rem(step) == Some(0) {
            if !code_agrees(game, plain, code) {
                return Err(code);
            }
            codes = codes.wrapping_add(1);
        }
    }
    Ok(codes)
}

/// At how many codes at these steps the class's game of mates tells right; the first where it does not, and 0 where
/// there is no game.
pub fn mate_game_agrees(class: Class, library: &Library, step: u32) -> Result<u32, u32> {
    let plain = Plain {
        metric: Metric::Mate,
        class,
        library,
        mates: &[],
    };
    match MateGame::new(class, library) {
        Ok(game) => codes_agree(&game, &plain, step),
        Err(_missing) => Err(0),
    }
}

/// The ranks of the class's game of mates; none where a child has no table, and where memory is refused.
pub(crate) fn mate_ranks(alloc: Global, class: Class, library: &Library) -> Result<Ranks, u32>
    ensures { IfOk result (AreMateRanks (table_at library.now) class) }
{
    let Ok(game) = MateGame::new(class, library) else {
        return Err(0);
    };
    match solve(alloc, &game, 32_000) {
        Ok(ranks) => Ok(ranks),
        Err(_fault) => Err(0),
    }
}

/// At how many codes at these steps the game of zeroing moves over these mate ranks tells right; the first where it
/// does not.
fn zero_game_over<'x>(
    class: Class,
    library: &'x Library,
    ranks: &'x Ranks,
    step: u32,
) -> Result<u32, u32>
    requires { AreMateRanks (table_at library.now) class ranks.now }
{
    let plain = Plain {
        metric: Metric::Zeroing,
        class,
        library,
        mates: ranks.entries(),
    };
    match ZeroGame::new(class, library, ranks) {
        Ok(game) => codes_agree(&game, &plain, step),
        Err(_missing) => Err(0),
    }
}

/// At how many codes the class's game of zeroing moves is the plain one, over the ranks of its game of mates, which is
/// solved for it; the first code at which it differs, and 0 where there is no game.
pub fn zero_game_agrees(
    alloc: Global,
    class: Class,
    library: &Library,
    step: u32,
) -> Result<u32, u32> {
    let ranks = mate_ranks(alloc, class, library)?;
    zero_game_over(class, library, &ranks, step)
}
