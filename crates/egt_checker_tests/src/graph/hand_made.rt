//! Small games whose values were worked out by hand.
use super::games::{Stairs, plain_stairs};
use crate::asserts::{agree, require};
use egt_graph::{Exit, SolveFault, solve};
use std::test::*;

// 0 leaves for a position lost in 3: a win in 4, found late and through the exit alone. 3 leads to it, and leaves for
// positions won in 0, twice, and in 2: a loss in 5, which waits for the move. 6 leads to 3, and leaves for one lost in
// 1, which wins at once; an exit that falls due late changes nothing. 1 leaves for positions won in 1 and in 6: a loss
// in 7, which waits for the last. 4 leads to it: a win in 8. 7 leads to 4: a loss in 9. 2 leaves for a position won in
// 1 and for a draw, which saves it. 5 and 8 lead there: draws. 9 is void.
const WITH_EXITS: Stairs<'static> = Stairs {
    nodes: 9,
    voids: 1,
    step: 3,
    mates: true,
    exits: &[
        (0, Exit::Loss(3)),
        (1, Exit::Win(1)),
        (1, Exit::Win(6)),
        (2, Exit::Win(1)),
        (2, Exit::Draw),
        (3, Exit::Win(0)),
        (3, Exit::Win(2)),
        (3, Exit::Win(0)),
        (6, Exit::Loss(1)),
        (6, Exit::Win(50)),
    ],
};

const ENTRIES_WITH_EXITS: [u16; 10] = [10, 17, 1, 13, 18, 1, 6, 21, 1, 0];

#[test]
fn exits_that_fall_due(rt: HostRuntime) -> Result<(), Fail> {
    let ranks = solve(rt.alloc(), &WITH_EXITS, 32_000)?;
    agree(&rt, ranks.entries(), ENTRIES_WITH_EXITS.as_slice());
    Ok(())
}

#[test]
fn limit_met_and_passed(rt: HostRuntime) -> Result<(), Fail> {
    let ranks = solve(rt.alloc(), &WITH_EXITS, 9)?;
    agree(&rt, ranks.entries(), ENTRIES_WITH_EXITS.as_slice());
    for &limit in &[8, 0] {
        let found = solve(rt.alloc(), &WITH_EXITS, limit);
        require(&rt, matches!(found, Err(SolveFault::TooDeep)));
    }
    Ok(())
}

// 0 and 1 are checkmates, 2 and 3 lead to them, 4 and 5 to these, 6 to 4. 7 and 8 are void.
#[test]
fn moves_alone(rt: HostRuntime) -> Result<(), Fail> {
    let game = Stairs {
        nodes: 7,
        voids: 2,
        step: 2,
        mates: true,
        exits: &[],
    };
    let ranks = solve(rt.alloc(), &game, 3)?;
    agree(&rt, ranks.entries(), [3, 3, 4, 4, 7, 7, 8, 0, 0].as_slice());
    let right = matches!(solve(rt.alloc(), &game, 2), Err(SolveFault::TooDeep));
    require(&rt, right);
    Ok(())
}

// 0 is a stalemate, to which 2 leads. 1 leaves for a position lost in 0: a win in 1. 3 leads to 1: a loss in 2.
pub(super) const STALEMATE: Stairs<'static> = Stairs {
    nodes: 4,
    voids: 0,
    step: 2,
    mates: false,
    exits: &[(1, Exit::Loss(0))],
};

#[test]
fn no_move_and_no_checkmate(rt: HostRuntime) -> Result<(), Fail> {
    let ranks = solve(rt.alloc(), &STALEMATE, 2)?;
    agree(&rt, ranks.entries(), [1, 4, 1, 7].as_slice());
    Ok(())
}

// Each node leads to itself. 1 leaves for a position lost in 0, and wins in 1. 2 leaves for one won in 0, and need not.
const LOOPS: Stairs<'static> = Stairs {
    nodes: 3,
    voids: 0,
    step: 0,
    mates: true,
    exits: &[(1, Exit::Loss(0)), (2, Exit::Win(0))],
};

#[test]
fn moves_without_end(rt: HostRuntime) -> Result<(), Fail> {
    let ranks = solve(rt.alloc(), &LOOPS, 1)?;
    agree(&rt, ranks.entries(), [1, 4, 1].as_slice());
    Ok(())
}

#[test]
fn no_nodes(rt: HostRuntime) -> Result<(), Fail> {
    let ranks = solve(rt.alloc(), &plain_stairs(0, 1), 0)?;
    agree(&rt, ranks.entries().len(), 0);
    Ok(())
}

// Node i is i moves from the checkmate: lost where i is even, won where it is odd. The last stands in a block of its
// own.
#[test]
fn one_node_more_than_a_block(rt: HostRuntime) -> Result<(), Fail> {
    let ranks = solve(rt.alloc(), &plain_stairs(4097, 1), 4096)?;
    agree(&rt, ranks.entries().len(), 4097);
    for (node, entry) in ranks.entries().iter().enumerate() {
        let wanted = node.wrapping_mul(2).wrapping_add(3).wrapping_sub(node % 2);
        agree(&rt, usize::from(*entry), wanted);
    }
    Ok(())
}

#[test]
fn one_ply_too_few(rt: HostRuntime) {
    let found = solve(rt.alloc(), &plain_stairs(4097, 1), 4095);
    require(&rt, matches!(found, Err(SolveFault::TooDeep)));
}

#[test]
fn faults(rt: HostRuntime) {
    agree(&rt, SolveFault::NoMemory.number(), 1);
    agree(&rt, SolveFault::NoMemory.name(), "NoMemory");
    agree(&rt, SolveFault::TooDeep.number(), 2);
    agree(&rt, SolveFault::TooDeep.name(), "TooDeep");
}
