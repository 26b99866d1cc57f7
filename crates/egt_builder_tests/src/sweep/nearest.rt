//! How far the nearest mate is, and the game that tells it.
use super::{built, count};
use crate::asserts::{agree, require};
use egt_check::Library;
use egt_class::Class;
use egt_graph::{Exit, Game, nearest};
use egt_plain::shelf::{library_below, named, whole_library_below};
use egt_sweep::{BuildFault, ReachGame};
use std::test::*;

// Two kings go round for ever, and a queen mates in a ply or two from two worked positions. Nobody is mated once she is
// taken.
#[test]
fn kings_and_a_queen(rt: HostRuntime) -> Result<(), Fail> {
    let library = whole_library_below(rt.alloc(), 1)?;
    let Ok(kings) = ReachGame::new(named("KK")?, &library) else {
        return Err(Fail::from("a child is missing"));
    };
    let nears = nearest(rt.alloc(), &kings)?;
    let counts = (count(nears.entries(), 1), count(nears.entries(), 0));
    agree(&rt, counts, (462, 818));
    agree(&rt, nears.entries().len(), 1_280);
    let Ok(queen) = ReachGame::new(named("KQK")?, &library) else {
        return Err(Fail::from("a child is missing"));
    };
    let nears = nearest(rt.alloc(), &queen)?;
    agree(&rt, nears.entries().get(41_022), Some(&3));
    agree(&rt, nears.entries().get(41_023), Some(&4));
    Ok(())
}

/// Whether one of the exits is a loss.
fn has_loss(exits: &[Exit]) -> bool {
    exits.iter().any(|exit| matches!(exit, Exit::Loss(_)))
}

/// How many nodes of the game have exits, and at how many of them one is a loss.
fn count_leaving<G: Game>(game: &G) -> (u32, u32) {
    let mut leaving = 0u32;
    let mut losing = 0u32;
    for node in 0..game.size() {
        if !game.void(node) {
            let exits = game.exits(node);
            leaving = leaving.wrapping_add(u32::from(!exits.is_empty()));
            losing = losing.wrapping_add(u32::from(has_loss(exits.as_slice())));
        }
    }
    (leaving, losing)
}

// White to move, king f7, pawn g7, black king h7. With a queen on g8, h7h6 and g8g6 lead to mate; with a rook there
// h7h6, g8g1, h6h7 and g1h1. A bishop or a knight mates nobody.
#[test]
fn a_pawn_that_promotes(rt: HostRuntime) -> Result<(), Fail> {
    let library = built(rt.alloc(), &["KK", "KQK", "KRK", "KBK", "KNK"])?;
    let Ok(pawn) = ReachGame::new(named("KPK")?, &library) else {
        return Err(Fail::from("a child is missing"));
    };
    if pawn.size() <= 164_434 || pawn.void(164_434) {
        return Err(Fail::from("no position has the number"));
    }
    let wanted = [Exit::Win(2), Exit::Win(4), Exit::Draw, Exit::Draw];
    agree(&rt, pawn.exits(164_434).as_slice(), wanted.as_slice());
    // No exit is a loss, though who is to move is mated after some: what counts is how far away that is.
    let (leaving, losing) = count_leaving(&pawn);
    require(&rt, leaving > 0 && losing == 0);
    Ok(())
}

/// What the class's game lacks; `None` where there is one.
fn lacked(class: Class, library: &Library) -> Option<BuildFault> {
    match ReachGame::new(class, library) {
        Ok(_game) => None,
        Err(fault) => Some(fault),
    }
}

#[test]
fn children_that_are_wanted(rt: HostRuntime) -> Result<(), Fail> {
    let kings = named("KK")?;
    let empty = Library::new(rt.alloc())?;
    let queen = named("KQK")?;
    agree(&rt, lacked(queen, &empty), Some(BuildFault::Missing(kings)));
    let lacking = library_below(rt.alloc(), 1)?;
    let found = lacked(queen, &lacking);
    agree(&rt, found, Some(BuildFault::NoReach(kings)));
    // A table that is missing is named before one that lacks the column.
    let found = lacked(named("KPK")?, &lacking);
    agree(&rt, found, Some(BuildFault::Missing(queen)));
    Ok(())
}
