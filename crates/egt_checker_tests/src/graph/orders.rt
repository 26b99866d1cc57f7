//! Runs by rounds, in whatever order the blocks are posted.
ghost use Rattle.std.specs.Prelude.{◌≡◌};

use super::games::{Counted, STAIRS, Stairs, are_stair_ranks};
use super::hand_made::STALEMATE;
use crate::asserts::{agree, require};
use egt_graph::{Close, Post, Rounds, solve};
use egt_plain::runs::{Order, expand, is_posted, played, post_all, post_block, with_held};
use std::alloc::Global;
use std::process::Abort;
use std::test::*;

#[test]
fn by_one_worker(rt: HostRuntime) -> Result<(), Fail> {
    let ranks = solve(rt.alloc(), &STAIRS, 4)?;
    require(&rt, are_stair_ranks(&ranks));
    Ok(())
}

#[test]
fn in_any_order(rt: HostRuntime) -> Result<(), Fail> {
    for &order in &[[2, 1, 0], [1, 2, 0], [0, 2, 1]] {
        let ranks = played(rt.alloc(), &STAIRS, Order::Listed(&order))?;
        require(&rt, are_stair_ranks(&ranks));
    }
    Ok(())
}

#[test]
fn repeated_and_late(rt: HostRuntime) -> Result<(), Fail> {
    let (answers, late, ranks) = with_held(rt.alloc(), &STAIRS, &[0, 2, 1], 0, 0)?;
    agree(&rt, answers, (Post::Repeat, Close::NotAll, Post::Posted));
    agree(&rt, late, Post::Stale);
    require(&rt, are_stair_ranks(&ranks));
    Ok(())
}

#[test]
fn lost_and_drawn_at_random(rt: HostRuntime) -> Result<(), Fail> {
    for &order in &[Order::EvenLost(&[0, 1, 2]), Order::Drawn(1)] {
        let ranks = played(rt.alloc(), &STAIRS, order)?;
        require(&rt, are_stair_ranks(&ranks));
    }
    Ok(())
}

/// Posts every block, and closes the round: its number, and what is answered before any block was posted and then.
fn play_round(
    alloc: Global,
    rounds: &mut Rounds<'_, Stairs<'_>>,
) -> Result<(u16, Close, Close), Fail>
    ensures { rounds.new.game ≡ rounds.old.game }
{
    let round = rounds.round();
    let early = rounds.close();
    post_all(alloc, rounds, &[1, 0, 2])?;
    Ok((round, early, rounds.close()))
}

#[test]
fn answers_of_a_run(rt: HostRuntime) -> Result<(), Fail> {
    let mut rounds = Rounds::new(rt.alloc(), &STAIRS, 4)?;
    for round in 0..5 {
        let end = if round == 4 {
            Close::Finished
        } else {
            Close::Next
        };
        let answers = play_round(rt.alloc(), &mut rounds)?;
        agree(&rt, answers, (round, Close::NotAll, end));
    }
    Ok(())
}

/// Posts a batch that a run past its limit made in round 0, and that lists no node, in round 0 of another run.
fn post_from_ended(alloc: Global) -> Result<Post, Fail> {
    let mut ended = Rounds::new(alloc, &STAIRS, 0)?;
    play_round(alloc, &mut ended)?;
    let empty = expand(alloc, &ended, 0)?;
    let mut rounds = Rounds::new(alloc, &STAIRS, 4)?;
    Ok(rounds.post(empty))
}

#[test]
fn from_a_run_that_has_ended(rt: HostRuntime) -> Result<(), Fail> {
    agree(&rt, post_from_ended(rt.alloc())?, Post::Stale);
    Ok(())
}

/// What a run past its limit answers: to a close and a post, and its round and whether a block counts as posted.
fn past_the_limit(
    alloc: Global,
    rounds: &mut Rounds<'_, Stairs<'_>>,
) -> Result<(Close, Post, u16, bool), Fail> {
    let close = rounds.close();
    let post = post_block(alloc, rounds, 0)?;
    Ok((close, post, rounds.round(), is_posted(rounds, 2)))
}

#[test]
fn after_the_end(rt: HostRuntime) -> Result<(), Fail> {
    let mut rounds = Rounds::new(rt.alloc(), &STAIRS, 3)?;
    for _round in 0..4 {
        play_round(rt.alloc(), &mut rounds)?;
    }
    let found = past_the_limit(rt.alloc(), &mut rounds)?;
    agree(&rt, found, (Close::TooDeep, Post::Stale, 3, true));
    require(&rt, rounds.into_ranks().is_err());
    Ok(())
}

/// Which blocks count as posted.
fn posted_blocks(rounds: &Rounds<'_, Stairs<'_>>) -> [bool; 3] {
    [
        is_posted(rounds, 0),
        is_posted(rounds, 1),
        is_posted(rounds, 2),
    ]
}

#[test]
fn a_run_that_is_not_over_comes_back_as_it_was(rt: HostRuntime) -> Result<(), Fail> {
    let mut rounds = Rounds::new(rt.alloc(), &STAIRS, 4)?;
    play_round(rt.alloc(), &mut rounds)?;
    agree(&rt, post_block(rt.alloc(), &mut rounds, 1)?, Post::Posted);
    let Err(mut rounds) = rounds.into_ranks() else {
        return Err(Fail::from("ranks of a run that is not over"));
    };
    agree(&rt, rounds.round(), 1);
    agree(&rt, posted_blocks(&rounds), [false, true, false]);
    agree(&rt, post_block(rt.alloc(), &mut rounds, 1)?, Post::Repeat);
    for _round in 1..5 {
        play_round(rt.alloc(), &mut rounds)?;
    }
    let Ok(ranks) = rounds.into_ranks() else {
        return Err(Fail::from("the run is over"));
    };
    require(&rt, are_stair_ranks(&ranks));
    Ok(())
}

#[test]
fn each_block_counts_as_posted_after_the_end(rt: HostRuntime) -> Result<(), Fail> {
    let mut rounds = Rounds::new(rt.alloc(), &STAIRS, 4)?;
    agree(&rt, posted_blocks(&rounds), [false; 3]);
    for _round in 0..5 {
        play_round(rt.alloc(), &mut rounds)?;
    }
    agree(&rt, rounds.close(), Close::Finished);
    agree(&rt, posted_blocks(&rounds), [true; 3]);
    agree(&rt, post_block(rt.alloc(), &mut rounds, 1)?, Post::Stale);
    agree(&rt, posted_blocks(&rounds), [true; 3]);
    Ok(())
}

#[test]
fn targets_are_the_moves_into_a_node(rt: HostRuntime) -> Result<(), Fail> {
    let rounds = Rounds::new(rt.alloc(), &STAIRS, 4)?;
    assert_eq!(rt; rounds.blocks(), 3);
    let batch = rounds.expand(rt.alloc(), 0)?;
    assert_eq!(rt; batch.round(), 0);
    assert_eq!(rt; batch.block(), 0);
    assert_eq!(rt; batch.nodes().len(), 2_000);
    assert_eq!(rt; batch.nodes().last(), Some(&1_999));
    assert_eq!(rt; batch.targets(1_999), [3_999].as_slice());
    Ok(())
}

/// Works a block off, and looks at what each call asks: `expand` for the moves into each node that it lists, `post` for
/// nothing.
fn work_block(
    rt: &impl Abort,
    alloc: Global,
    game: &Counted<'_, Stairs<'_>>,
    rounds: &mut Rounds<'_, Counted<'_, Stairs<'_>>>,
    block: u32,
) -> Result<(), Fail>
    ensures { rounds.new.game ≡ rounds.old.game }
{
    if block >= rounds.blocks() {
        return Ok(());
    }
    let before = game.intos();
    let batch = rounds.expand(alloc, block)?;
    let listed = batch.nodes().len();
    let found = (game.intos() as usize).wrapping_sub(before as usize);
    agree(rt, found, listed);
    let after = game.intos();
    agree(rt, rounds.post(batch), Post::Posted);
    agree(rt, game.intos(), after);
    Ok(())
}

// The work lies in the batches: a run learns of moves through them alone.
#[test]
fn what_each_call_asks(rt: HostRuntime) -> Result<(), Fail> {
    let game = Counted::new(rt.alloc(), &STAIRS)?;
    let mut rounds = Rounds::new(rt.alloc(), &game, 4)?;
    agree(&rt, game.intos(), 0);
    for round in 0..5 {
        for block in 0..3 {
            work_block(&rt, rt.alloc(), &game, &mut rounds, block)?;
        }
        let before = game.intos();
        let want = if round == 4 {
            Close::Finished
        } else {
            Close::Next
        };
        agree(&rt, rounds.close(), want);
        agree(&rt, game.intos(), before);
    }
    // Every node has a rank here.
    agree(&rt, game.intos(), 10_000);
    agree(&rt, game.most(), 1);
    require(&rt, rounds.into_ranks().is_ok());
    agree(&rt, game.intos(), 10_000);
    agree(&rt, game.outs(), 0);
    Ok(())
}

#[test]
fn what_a_whole_run_asks(rt: HostRuntime) -> Result<(), Fail> {
    let game = Counted::new(rt.alloc(), &STAIRS)?;
    let ranks = solve(rt.alloc(), &game, 4)?;
    agree(&rt, ranks.entries().len(), 10_000);
    agree(&rt, game.most(), 1);
    agree(&rt, game.intos(), 10_000);
    agree(&rt, game.outs(), 0);
    Ok(())
}

// A node without a rank is not asked for.
#[test]
fn what_draws_are_asked(rt: HostRuntime) -> Result<(), Fail> {
    let game = Counted::new(rt.alloc(), &STALEMATE)?;
    let ranks = solve(rt.alloc(), &game, 2)?;
    agree(&rt, ranks.entries(), [1, 4, 1, 7].as_slice());
    agree(&rt, game.most(), 1);
    agree(&rt, game.intos(), 2);
    agree(&rt, game.outs(), 0);
    Ok(())
}
