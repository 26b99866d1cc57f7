//! Both games of classes of few men, solved.
use super::{built, count, mates};
use crate::asserts::agree;
use egt_check::Library;
use egt_class::Class;
use egt_graph::{Ranks, SolveFault, solve};
use egt_plain::shelf::named;
use egt_sweep::{MateGame, Missing, ZeroGame};
use std::alloc::Global;
use std::test::*;

/// What solving the class's game of mates answers, where none may take a ply.
fn solved_mates(
    alloc: Global,
    class: Class,
    library: &Library,
) -> Result<Result<Ranks, SolveFault>, Fail> {
    match MateGame::new(class, library) {
        Ok(game) => Ok(solve(alloc, &game, 0)),
        Err(_missing) => Err(Fail::from("a child is missing")),
    }
}

/// What solving its game of zeroing moves answers.
fn solved_zeroing(
    alloc: Global,
    class: Class,
    library: &Library,
) -> Result<Result<Ranks, SolveFault>, Fail> {
    let ranks = mates(alloc, class, library)?;
    match ZeroGame::new(class, library, &ranks) {
        Ok(game) => Ok(solve(alloc, &game, 0)),
        Err(_missing) => Err(Fail::from("a child is missing")),
    }
}

#[test]
fn two_kings_draw(rt: HostRuntime) -> Result<(), Fail> {
    let library = Library::new(rt.alloc())?;
    let class = named("KK")?;
    let mate = solved_mates(rt.alloc(), class, &library)??;
    agree(&rt, count(mate.entries(), 1), 462);
    agree(&rt, count(mate.entries(), 0), 818);
    let zeroing = solved_zeroing(rt.alloc(), class, &library)??;
    agree(&rt, count(zeroing.entries(), 1), 462);
    agree(&rt, count(zeroing.entries(), 0), 818);
    Ok(())
}

#[test]
fn a_queen_needs_some_plies(rt: HostRuntime) -> Result<(), Fail> {
    let library = built(rt.alloc(), &["KK"])?;
    let class = named("KQK")?;
    let found = solved_mates(rt.alloc(), class, &library)?.err();
    agree(&rt, found, Some(SolveFault::TooDeep));
    let found = solved_zeroing(rt.alloc(), class, &library)?.err();
    agree(&rt, found, Some(SolveFault::TooDeep));
    Ok(())
}

/// The child that is missing in both games of a class.
fn missing(class: Class, library: &Library, ranks: &Ranks) -> Result<(Missing, Missing), Fail> {
    let Err(in_mates) = MateGame::new(class, library) else {
        return Err(Fail::from("the children are there"));
    };
    let Err(in_zeroing) = ZeroGame::new(class, library, ranks) else {
        return Err(Fail::from("the children are there"));
    };
    Ok((in_mates, in_zeroing))
}

#[test]
fn a_child_without_a_table_is_missing(rt: HostRuntime) -> Result<(), Fail> {
    let library = Library::new(rt.alloc())?;
    let ranks = Ranks::from_entries(Vec::new(rt.alloc()));
    let kings = Missing {
        class: named("KK")?,
    };
    let found = missing(named("KQK")?, &library, &ranks)?;
    agree(&rt, found, (kings, kings));
    Ok(())
}
