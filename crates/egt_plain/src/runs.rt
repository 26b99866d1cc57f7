//! Runs by rounds, in whatever order the blocks are posted.
ghost use Rattle.std.specs.Prelude.{◌≡◌, IfOk};

use egt_graph::{Batch, Close, Game, Post, Ranks, Rounds};
use std::alloc::Global;
use std::test::Fail;

/// More rounds than a run here takes.
const ROUNDS: u32 = 100;

/// Expands a block.
pub fn expand<'g, G: Game>(
    alloc: Global,
    rounds: &Rounds<'g, G>,
    block: u32,
) -> Result<Batch<'g, G>, Fail>
    ensures { IfOk result (λ batch. batch.game ≡ rounds.now.game) }
{
    if block >= rounds.blocks() {
        return Err(Fail::from("no such block"));
    }
    Ok(rounds.expand(alloc, block)?)
}

/// Expands a block and posts its batch.
pub fn post_block<G: Game>(
    alloc: Global,
    rounds: &mut Rounds<'_, G>,
    block: u32,
) -> Result<Post, Fail>
    ensures { rounds.new.game ≡ rounds.old.game }
{
    let batch = expand(alloc, rounds, block)?;
    Ok(rounds.post(batch))
}

/// Posts these blocks in their order.
pub fn post_all<G: Game>(
    alloc: Global,
    rounds: &mut Rounds<'_, G>,
    blocks: &[u32],
) -> Result<(), Fail>
    ensures { rounds.new.game ≡ rounds.old.game }
{
    for block in blocks {
        post_block(alloc, rounds, *block)?;
    }
    Ok(())
}

pub fn is_posted<G: Game>(rounds: &Rounds<'_, G>, block: u32) -> bool {
    block < rounds.blocks() && rounds.posted(block)
}

/// Closes a round and answers whether another begins.
fn goes_on<G: Game>(rounds: &mut Rounds<'_, G>) -> Result<bool, Fail>
    ensures { rounds.new.game ≡ rounds.old.game }
{
    match rounds.close() {
        Close::Next => Ok(true),
        Close::Finished => Ok(false),
        Close::NotAll => Err(Fail::from("a block is missing")),
        Close::TooDeep => Err(Fail::from("above the limit")),
    }
}

fn ranks_of<G: Game>(rounds: Rounds<'_, G>) -> Result<Ranks, Fail> {
    Ok(rounds.into_ranks().ok().ok_or("the run is over")?)
}

/// What is answered to a second post of a block, to a close before the last block is posted, and to its post.
fn first_round<G: Game>(
    alloc: Global,
    rounds: &mut Rounds<'_, G>,
    order: &[u32],
    again: u32,
) -> Result<(Post, Close, Post), Fail>
    ensures { rounds.new.game ≡ rounds.old.game }
{
    let Some((last, others)) = order.split_last() else {
        return Err(Fail::from("no blocks"));
    };
    post_all(alloc, rounds, others)?;
    let repeated = post_block(alloc, rounds, again)?;
    let close = rounds.close();
    Ok((repeated, close, post_block(alloc, rounds, *last)?))
}

/// The first rounds of a run that holds a batch: what is answered in the first, and to the batch in the second.
fn hold<G: Game>(
    alloc: Global,
    rounds: &mut Rounds<'_, G>,
    order: &[u32],
    again: u32,
    held: u32,
) -> Result<((Post, Close, Post), Post), Fail> {
    let batch = expand(alloc, rounds, held)?;
    let answers = first_round(alloc, rounds, order, again)?;
    goes_on(rounds)?;
    Ok((answers, rounds.post(batch)))
}

/// What is answered in a run whose first round posts one block a second time, and whose second a batch of the first
/// that was held: to both, to a close before the last block of the first round is posted, and to its post. And the
/// ranks in the end.
pub fn with_held<G: Game>(
    alloc: Global,
    game: &G,
    order: &[u32],
    again: u32,
    held: u32,
) -> Result<((Post, Close, Post), Post, Ranks), Fail> {
    let mut rounds = Rounds::new(alloc, game, 32_000)?;
    let (answers, late) = hold(alloc, &mut rounds, order, again, held)?;
    go_on(alloc, &mut rounds, Order::Listed(order))?;
    Ok((answers, late, ranks_of(rounds)?))
}

/// Expands every block and posts the odd ones; the other batches are lost. Answers whether just the odd ones count as
/// posted.
fn lose_even_batches<G: Game>(
    alloc: Global,
    rounds: &mut Rounds<'_, G>,
    blocks: &[u32],
) -> Result<bool, Fail>
    ensures { rounds.new.game ≡ rounds.old.game }
{
    for block in blocks {
        if block % 2 == 1 {
            post_block(alloc, rounds, *block)?;
        } else {
            let _lost = expand(alloc, rounds, *block)?;
        }
    }
    let mut odd = true;
    for block in blocks {
        odd = odd && is_posted(rounds, *block) == (block % 2 == 1);
    }
    Ok(odd)
}

/// A round with lost batches: just the odd ones count as posted, a close and a second post are answered by that, and
/// then the others are made again.
fn play_with_losses<G: Game>(
    alloc: Global,
    rounds: &mut Rounds<'_, G>,
    blocks: &[u32],
) -> Result<(), Fail>
    ensures { rounds.new.game ≡ rounds.old.game }
{
    let odd = lose_even_batches(alloc, rounds, blocks)?;
    let close = rounds.close();
    let again = post_block(alloc, rounds, 1)?;
    if (odd, close, again) != (true, Close::NotAll, Post::Repeat) {
        return Err(Fail::from("a lost batch counts as posted"));
    }
    for block in blocks {
        if block % 2 == 0 {
            post_block(alloc, rounds, *block)?;
        }
    }
    Ok(())
}

fn are_posted<G: Game>(rounds: &Rounds<'_, G>) -> bool {
    for block in 0..rounds.blocks() {
        if !is_posted(rounds, block) {
            return false;
        }
    }
    true
}

/// The next of the numbers by which blocks are drawn.
fn stepped(x: u64) -> u64 {
    1_103_515_245u64.wrapping_mul(x).wrapping_add(12_345) % 2_147_483_648
}

/// The block that is drawn by the number, of so many.
fn block_of(x: u64, blocks: u32) -> u32 {
    match (x / 65_536).checked_rem(u64::from(blocks)) {
        Some(block) => block as u32,
        None => 0,
    }
}

/// Draws blocks until none is missing, and answers the number that was drawn last.
fn draw_round<G: Game>(alloc: Global, rounds: &mut Rounds<'_, G>, from: u64) -> Result<u64, Fail>
    ensures { rounds.new.game ≡ rounds.old.game }
{
    let mut x = from;
    for _draw in 0..10_000 {
        if are_posted(rounds) {
            return Ok(x);
        }
        x = stepped(x);
        post_block(alloc, rounds, block_of(x, rounds.blocks()))?;
    }
    Err(Fail::from("a block is never drawn"))
}

/// How the blocks of each round are posted.
#[derive(Clone, Copy)]
pub enum Order<'a> {
    /// These, one after the other.
    Listed(&'a [u32]),
    /// These, where the batches of even ones are lost and made again.
    EvenLost(&'a [u32]),
    /// Those that are drawn by this number and the next ones, until none is missing.
    Drawn(u64),
}

fn post_round<G: Game>(
    alloc: Global,
    rounds: &mut Rounds<'_, G>,
    order: &mut Order<'_>,
) -> Result<(), Fail> {
    match order {
        Order::Listed(blocks) => post_all(alloc, rounds, blocks),
        Order::EvenLost(blocks) => play_with_losses(alloc, rounds, blocks),
        Order::Drawn(x) => {
            *x = draw_round(alloc, rounds, *x)?;
            Ok(())
        }
    }
}

/// Goes on from the present round until the run is over. It is lent, so that nothing is left to drop where a call fails:
/// such proofs are short.
fn go_on<G: Game>(
    alloc: Global,
    rounds: &mut Rounds<'_, G>,
    mut order: Order<'_>,
) -> Result<(), Fail> {
    for _round in 0..ROUNDS {
        post_round(alloc, rounds, &mut order)?;
        if !goes_on(rounds)? {
            return Ok(());
        }
    }
    Err(Fail::from("a run without end"))
}

/// The ranks by rounds in which the blocks are posted so.
pub fn played<G: Game>(alloc: Global, game: &G, order: Order<'_>) -> Result<Ranks, Fail> {
    let mut rounds = Rounds::new(alloc, game, 32_000)?;
    go_on(alloc, &mut rounds, order)?;
    ranks_of(rounds)
}
