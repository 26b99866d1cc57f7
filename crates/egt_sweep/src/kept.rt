//! Blocks that looks keep for one another.
ghost use Rattle.std.specs.Prelude.{◌<◌, IfOk};
ghost use Rattle.egt_sweep.specs.FillPrelude.{AreAllKept, AreBothKept, Filling, Side, TableValue};

use egt_blocks::blocks::nothing;
use egt_blocks::kept_blocks::BlockKey;
use egt_lanes::Block;
use std::alloc::{AllocError, Global};

/// The blocks that are kept of positions with one side to move, by their keys.
#[derive(Drop)]
pub(crate) struct Near {
    pub(crate) keys: Vec<Option<BlockKey>>,
    pub(crate) blocks: Vec<Block>,
}

/// The greatest scores of all moves, where there is no target and where there is one; the second of each are of the
/// zeroing column alone.
#[derive(Drop)]
pub(crate) struct Scores {
    pub(crate) plain: Box<Block>,
    pub(crate) clocks: Box<Block>,
    pub(crate) targeted: Box<Block>,
    pub(crate) targeted_clocks: Box<Block>,
}

/// The blocks that are kept, by the side to move, and room for the scores of a look.
#[derive(Drop)]
pub(crate) struct Kept {
    pub(crate) white: Near,
    pub(crate) black: Near,
    pub(crate) scores: Scores,
}

/// Places for so many blocks, none of which is kept.
fn no_blocks(alloc: Global, places: usize) -> Result<Near, AllocError>
    requires { 12 < places }
    ensures { IfOk result (λ near. (f : Filling) (t : TableValue) (side : Side) → AreAllKept f t side near) }
{
    Ok(Near {
        keys: vec![in alloc; None; places]?,
        blocks: vec![in alloc; nothing(); places]?,
    })
}

/// Room for the scores of a look.
fn room(alloc: Global) -> Result<Scores, AllocError> {
    Ok(Scores {
        plain: Box::new(alloc, nothing())?,
        clocks: Box::new(alloc, nothing())?,
        targeted: Box::new(alloc, nothing())?,
        targeted_clocks: Box::new(alloc, nothing())?,
    })
}

/// Places for so many blocks of each side, none of which is kept.
pub(crate) fn nothing_kept(alloc: Global, places: usize) -> Result<Kept, AllocError>
    requires { 12 < places }
    ensures { IfOk result (λ kept. (f : Filling) (t : TableValue) → AreBothKept f t kept) }
{
    Ok(Kept {
        white: no_blocks(alloc, places)?,
        black: no_blocks(alloc, places)?,
        scores: room(alloc)?,
    })
}
