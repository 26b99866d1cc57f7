//! How far the nearest mate is from each node of a game, by walks forward: along moves alone, from where they begin.
ghost use Rattle.std.specs.Prelude.{◌≡◌, ◌<◌, length};

use egt_graph::{Exit, Game, NoMemory};
use std::alloc::Global;

/// More than any number of a game here.
const NONE: u16 = 60_000;

/// More than any game here has steps of.
const PASSES: u32 = 1_000;

/// One ply more than the nearest mate behind an exit.
fn by_exit(exit: Exit) -> u16 {
    match exit {
        Exit::Win(plies) | Exit::Loss(plies) => plies.saturating_add(1),
        Exit::Draw => NONE,
    }
}

/// How far a mate is by what is known of the nodes that its moves lead to.
fn ahead<G: Game>(game: &G, node: u32, numbers: &[u16]) -> u16
    requires { node < (G.graph game.now).size }
{
    if game.void(node) {
        return NONE;
    }
    if game.mated(node) {
        return 0;
    }
    let mut least = NONE;
    for to in game.out(node).as_slice() {
        if let Some(number) = numbers.get(*to as usize) {
            least = least.min(number.saturating_add(1));
        }
    }
    for exit in game.exits(node).as_slice() {
        least = least.min(by_exit(*exit));
    }
    least
}

/// Walks a ply ahead from each node. Does any turn out nearer?
fn walk<G: Game>(game: &G, numbers: &mut [u16]) -> bool {
    let mut nearer = false;
    for node in 0..game.size() {
        let number = ahead(game, node, numbers);
        if let Some(known) = numbers.get_mut(node as usize) {
            if number < *known {
                *known = number;
                nearer = true;
            }
        }
    }
    nearer
}

/// The entries that `nearest` is to answer.
pub(super) fn walked<G: Game>(alloc: Global, game: &G) -> Result<Vec<u16>, NoMemory> {
    let mut numbers = vec![in alloc; NONE; game.size() as usize]?;
    for _pass in 0..PASSES {
        if !walk(game, &mut numbers) {
            break;
        }
    }
    for node in 0..game.size() {
        if let Some(number) = numbers.get_mut(node as usize) {
            *number = if game.void(node) {
                0
            } else if *number >= NONE {
                1
            } else {
                number.saturating_add(2)
            };
        }
    }
    Ok(numbers)
}
