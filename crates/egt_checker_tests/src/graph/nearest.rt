//! How far the nearest mate is in small games, worked out by hand and by plain walks forward.
use super::games::{STAIRS, Stairs};
use super::walks::walked;
use crate::asserts::require;
use egt_graph::{Exit, Nears, SolveFault, nearest};
use std::test::*;

// A node of step r is r plies from the checkmates below it.
#[test]
fn a_ply_a_step(rt: HostRuntime) -> Result<(), Fail> {
    let mut entries = Vec::new(rt.alloc());
    for node in 0..10_000u16 {
        entries.push(2 + node / 2_000)?;
    }
    let right = nearest(rt.alloc(), &STAIRS)?.entries() == entries.as_slice();
    require(&rt, right);
    Ok(())
}

// 0 is a stalemate, and 1 leads to it: nobody is ever mated. 2 leads there too, and leaves for a position lost in 5: 6
// plies. 3 leads to 2, and leaves for one won in 2, which is nearer: 3 plies. 4 leads to 3: 4 plies. 5 leads to 4, and
// leaves for a draw, which brings nothing nearer. 6 is void.
#[test]
fn exits_of_either_kind(rt: HostRuntime) -> Result<(), Fail> {
    let game = Stairs {
        nodes: 6,
        voids: 1,
        step: 1,
        mates: false,
        exits: &[(2, Exit::Loss(5)), (3, Exit::Win(2)), (5, Exit::Draw)],
    };
    let right = nearest(rt.alloc(), &game)?.entries() == [1, 1, 8, 5, 6, 7, 0].as_slice();
    require(&rt, right);
    Ok(())
}

/// Whether a number is above 32,000.
fn is_too_deep(answer: Result<Nears, SolveFault>) -> bool {
    matches!(answer, Err(SolveFault::TooDeep))
}

// The greatest number that an entry holds, and one more: by an exit, and by a move to a node with the greatest.
#[test]
fn the_greatest_number(rt: HostRuntime) -> Result<(), Fail> {
    let mut game = Stairs {
        nodes: 1,
        voids: 0,
        step: 1,
        mates: false,
        exits: &[(0, Exit::Win(31_999))],
    };
    let right = nearest(rt.alloc(), &game)?.entries() == [32_002].as_slice();
    require(&rt, right);
    game.exits = &[(0, Exit::Loss(32_000))];
    require(&rt, is_too_deep(nearest(rt.alloc(), &game)));
    let longer = Stairs {
        nodes: 2,
        voids: 0,
        step: 1,
        mates: false,
        exits: &[(0, Exit::Loss(31_999))],
    };
    require(&rt, is_too_deep(nearest(rt.alloc(), &longer)));
    Ok(())
}

/// The next of numbers that seem drawn at random.
fn drawn(seed: u32) -> u32 {
    seed.wrapping_mul(1_664_525).wrapping_add(1_013_904_223)
}

/// An exit drawn at random.
fn exit_by(seed: u32) -> Exit {
    let plies = (seed >> 20) as u16 % 40;
    match (seed >> 12) % 4 {
        0 => Exit::Draw,
        1 => Exit::Loss(plies),
        _ => Exit::Win(plies),
    }
}

// Stairs of any height, with or without checkmates, and exits from anywhere.
#[test]
fn stairs_drawn_at_random(rt: HostRuntime) -> Result<(), Fail> {
    let mut seed = 1;
    for _game in 0..200u32 {
        let mut exits = [(0, Exit::Draw); 12];
        for pair in exits.iter_mut() {
            seed = drawn(seed);
            *pair = ((seed >> 6) % 64, exit_by(seed));
        }
        seed = drawn(seed);
        let game = Stairs {
            nodes: 1 + (seed >> 10) % 60,
            voids: (seed >> 16) % 5,
            step: 1 + (seed >> 20) % 9,
            mates: (seed >> 30) % 2 == 0,
            exits: &exits,
        };
        let nears = nearest(rt.alloc(), &game)?;
        let right = nears.entries() == walked(rt.alloc(), &game)?.as_slice();
        require(&rt, right);
    }
    Ok(())
}
