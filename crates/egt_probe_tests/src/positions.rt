//! Verdicts, lines and holding moves of single positions.
use crate::asserts::{agree, require};
use egt_board::{Position, Side};
use egt_class::Class;
use egt_fen::read;
use egt_plain::shelf::{library_below, whole_library_below};
use egt_probe::{AnswerFault, HoldFault, LineFault, Outcome, hold, line, verdict};
use std::test::*;

fn position(fen: &str) -> Result<Position, Fail> {
    match read(fen.as_bytes()) {
        Ok(fen) => Ok(fen.position),
        Err(_fault) => Err(Fail::from("no position")),
    }
}

#[test]
fn a_won_position(rt: HostRuntime) -> Result<(), Fail> {
    let library = library_below(rt.alloc(), 2)?;
    let here = position("k7/8/1K6/8/8/8/8/3Q4 b - - 0 1")?;
    let Ok(verdict) = verdict(&library, &here) else {
        return Err(Fail::from("the table is there"));
    };
    agree(&rt, verdict.class, Class::at(1));
    let wanted = Outcome::Decided {
        winner: Side::White,
        plies: 2,
        zeroing: 2,
    };
    agree(&rt, verdict.value, wanted);
    let Ok(moves) = line(rt.alloc(), &library, &here) else {
        return Err(Fail::from("a side mates"));
    };
    assert_eq!(rt; moves.len(), 2);
    require(&rt, moves.as_slice()[0].text().as_str() == "a8b8");
    require(&rt, moves.as_slice()[1].text().as_str() == "d1d8");
    agree(&rt, hold(&library, &here), Err(HoldFault::Decisive));
    Ok(())
}

#[test]
fn a_drawn_position(rt: HostRuntime) -> Result<(), Fail> {
    let library = library_below(rt.alloc(), 2)?;
    let here = position("8/8/8/8/8/8/1kQ5/7K b - - 0 1")?;
    let Ok(verdict) = verdict(&library, &here) else {
        return Err(Fail::from("the table is there"));
    };
    agree(&rt, verdict.value, Outcome::Draw);
    let Ok(Some(held)) = hold(&library, &here) else {
        return Err(Fail::from("a draw with a move"));
    };
    require(&rt, held.text().as_str() == "b2c2");
    let Err(fault) = line(rt.alloc(), &library, &here) else {
        return Err(Fail::from("nobody mates"));
    };
    agree(&rt, fault, LineFault::Drawn);
    let stalemate = position("k7/2Q5/8/8/8/8/8/4K3 b - - 0 1")?;
    agree(&rt, hold(&library, &stalemate), Ok(None));
    Ok(())
}

#[test]
fn a_dead_position(rt: HostRuntime) -> Result<(), Fail> {
    let library = whole_library_below(rt.alloc(), 1)?;
    let here = position("8/8/8/4k3/8/4K3/8/8 w - - 0 1")?;
    let Ok(verdict) = verdict(&library, &here) else {
        return Err(Fail::from("the table is there"));
    };
    agree(&rt, verdict.value, Outcome::Dead);
    let Err(fault) = line(rt.alloc(), &library, &here) else {
        return Err(Fail::from("nobody mates"));
    };
    agree(&rt, fault, LineFault::Drawn);
    let Ok(Some(held)) = hold(&library, &here) else {
        return Err(Fail::from("a draw with a move"));
    };
    require(&rt, held.text().as_str() == "e3d2");
    Ok(())
}

#[test]
fn a_position_of_no_table(rt: HostRuntime) -> Result<(), Fail> {
    let library = library_below(rt.alloc(), 1)?;
    let here = position("k7/8/1K6/8/8/8/8/3Q4 w - - 0 1")?;
    let Err(missing) = verdict(&library, &here) else {
        return Err(Fail::from("there is no table"));
    };
    agree(&rt, missing.class.number(), 1);
    require(&rt, missing.number() == 11 && missing.name() == "Missing");
    let Err(fault) = hold(&library, &here) else {
        return Err(Fail::from("there is no table"));
    };
    agree(&rt, fault.name(), "Missing");
    let Err(fault) = line(rt.alloc(), &library, &here) else {
        return Err(Fail::from("there is no table"));
    };
    agree(&rt, fault.name(), "Missing");
    Ok(())
}

#[test]
fn faults_by_number_and_name(rt: HostRuntime) {
    let class = Class::at(0);
    for &(fault, number, name) in &[
        (LineFault::NoMemory, 10, "NoMemory"),
        (LineFault::Missing(class), 11, "Missing"),
        (LineFault::Drawn, 15, "Drawn"),
    ] {
        require(&rt, fault.number() == number && fault.name() == name);
    }
    for &(fault, number, name) in &[
        (HoldFault::Missing(class), 11, "Missing"),
        (HoldFault::Decisive, 16, "Decisive"),
    ] {
        require(&rt, fault.number() == number && fault.name() == name);
    }
    for &(fault, number, name) in &[
        (AnswerFault::Device, 1, "Device"),
        (AnswerFault::NoMemory, 10, "NoMemory"),
    ] {
        require(&rt, fault.number() == number && fault.name() == name);
    }
}
