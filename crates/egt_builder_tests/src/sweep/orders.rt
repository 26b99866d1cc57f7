//! Runs by rounds over the game of mates with a queen, in other orders than that of `solve`.
use super::{built, mates};
use crate::asserts::{agree, require};
use egt_check::Library;
use egt_class::Class;
use egt_graph::{Batch, Close, Game, Post, Ranks, Rounds, solve};
use egt_plain::runs::{Order, expand, played, post_all, post_block, with_held};
use egt_plain::shelf::{file_of, named};
use egt_sweep::{MateGame, ZeroGame};
use egt_table::Table;
use std::alloc::Global;
use std::test::*;

/// The game's blocks from the first to the last, and from the last to the first.
const UP: [u32; 20] = [
    0, 1, 2, 3, 4, 5, 6, 7, 8, 9, 10, 11, 12, 13, 14, 15, 16, 17, 18, 19,
];

const DOWN: [u32; 20] = [
    19, 18, 17, 16, 15, 14, 13, 12, 11, 10, 9, 8, 7, 6, 5, 4, 3, 2, 1, 0,
];

// In the first round block 7 is posted twice, and a batch of block 3 is held until the second; the last block is block
// 0.
#[test]
fn from_the_last_block_to_the_first(rt: HostRuntime) -> Result<(), Fail> {
    let library = built(rt.alloc(), &["KK"])?;
    let Ok(game) = MateGame::new(named("KQK")?, &library) else {
        return Err(Fail::from("two kings are there"));
    };
    agree(&rt, Rounds::new(rt.alloc(), &game, 20)?.blocks(), 20);
    let (answers, late, ranks) = with_held(rt.alloc(), &game, &DOWN, 7, 3)?;
    agree(&rt, answers, (Post::Repeat, Close::NotAll, Post::Posted));
    agree(&rt, late, Post::Stale);
    let want = solve(rt.alloc(), &game, 32_000)?;
    agree(&rt, ranks.entries(), want.entries());
    Ok(())
}

#[test]
fn with_lost_batches_and_in_drawn_orders(rt: HostRuntime) -> Result<(), Fail> {
    let library = built(rt.alloc(), &["KK"])?;
    let Ok(game) = MateGame::new(named("KQK")?, &library) else {
        return Err(Fail::from("two kings are there"));
    };
    let want = solve(rt.alloc(), &game, 32_000)?;
    let lost = played(rt.alloc(), &game, Order::EvenLost(&UP))?;
    agree(&rt, lost.entries(), want.entries());
    let drawn = played(rt.alloc(), &game, Order::Drawn(1))?;
    agree(&rt, drawn.entries(), want.entries());
    Ok(())
}

/// The ranks of the class's game of zeroing moves, by rounds in this order.
fn zeroing(alloc: Global, class: Class, library: &Library, order: &[u32]) -> Result<Ranks, Fail> {
    let mates = mates(alloc, class, library)?;
    match ZeroGame::new(class, library, &mates) {
        Ok(game) => played(alloc, &game, Order::Listed(order)),
        Err(_missing) => Err(Fail::from("two kings are there")),
    }
}

/// The file of the table with a queen, made by rounds in this order.
fn file(alloc: Global, library: &Library, order: &[u32]) -> Result<Vec<u8>, Fail> {
    let class = named("KQK")?;
    let zeroing = zeroing(alloc, class, library, order)?;
    let mate = match MateGame::new(class, library) {
        Ok(game) => played(alloc, &game, Order::Listed(order))?,
        Err(_missing) => return Err(Fail::from("two kings are there")),
    };
    let Ok(table) = Table::from_ranks(class, mate, zeroing) else {
        return Err(Fail::from("not as many entries as codes"));
    };
    file_of(alloc, &table)
}

#[test]
fn opposite_orders_give_one_file(rt: HostRuntime) -> Result<(), Fail> {
    let library = built(rt.alloc(), &["KK"])?;
    let up = file(rt.alloc(), &library, &UP)?;
    let down = file(rt.alloc(), &library, &DOWN)?;
    agree(&rt, up.len(), 327_696);
    agree(&rt, up.as_slice(), down.as_slice());
    Ok(())
}

#[test]
fn two_kings_take_one_round(rt: HostRuntime) -> Result<(), Fail> {
    let library = Library::new(rt.alloc())?;
    let Ok(game) = MateGame::new(named("KK")?, &library) else {
        return Err(Fail::from("two kings have no children"));
    };
    let mut rounds = Rounds::new(rt.alloc(), &game, 0)?;
    agree(&rt, rounds.blocks(), 1);
    agree(&rt, rounds.close(), Close::NotAll);
    agree(&rt, post_block(rt.alloc(), &mut rounds, 0)?, Post::Posted);
    agree(&rt, rounds.close(), Close::Finished);
    agree(&rt, expand(rt.alloc(), &rounds, 0)?.nodes().len(), 0);
    agree(&rt, post_block(rt.alloc(), &mut rounds, 0)?, Post::Stale);
    agree(&rt, rounds.close(), Close::Finished);
    Ok(())
}

#[test]
fn past_the_limit_no_ranks_are_given(rt: HostRuntime) -> Result<(), Fail> {
    let library = built(rt.alloc(), &["KK"])?;
    let Ok(game) = MateGame::new(named("KQK")?, &library) else {
        return Err(Fail::from("two kings are there"));
    };
    let mut rounds = Rounds::new(rt.alloc(), &game, 18)?;
    for _round in 0..18 {
        post_all(rt.alloc(), &mut rounds, &UP)?;
        agree(&rt, rounds.close(), Close::Next);
    }
    post_all(rt.alloc(), &mut rounds, &UP)?;
    agree(&rt, rounds.close(), Close::TooDeep);
    require(&rt, rounds.into_ranks().is_err());
    Ok(())
}

/// The most moves that a batch of the block has into a node, where each node has just those that the game tells.
fn most_targets<G: Game>(batch: &Batch<'_, G>, game: &G) -> Option<usize> {
    let mut most = 0usize;
    for (place, node) in batch.nodes().iter().enumerate() {
        if *node >= game.size() || game.void(*node) {
            return None;
        }
        let sources = game.into(*node);
        if batch.targets(place) != sources.as_slice() {
            return None;
        }
        most = most.max(sources.len());
    }
    Some(most)
}

// King c1, queen b2 and king a1 is checkmate, and the queen came from more than one square.
#[test]
fn targets_of_each_checkmate_of_a_queen(rt: HostRuntime) -> Result<(), Fail> {
    let library = built(rt.alloc(), &["KK"])?;
    let Ok(game) = MateGame::new(named("KQK")?, &library) else {
        return Err(Fail::from("two kings are there"));
    };
    let rounds = Rounds::new(rt.alloc(), &game, 20)?;
    let mut most = 0usize;
    for block in 0..rounds.blocks() {
        let batch = expand(rt.alloc(), &rounds, block)?;
        let targets = most_targets(&batch, &game).ok_or("other moves than the game tells")?;
        most = most.max(targets);
    }
    require(&rt, most > 1);
    Ok(())
}
