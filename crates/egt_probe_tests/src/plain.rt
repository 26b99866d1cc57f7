//! The verdicts of all positions of the first six classes, against plain tables, with the column of the nearest mates
//! and without.
use crate::asserts::{agree, require};
use egt_board::{Position, Side};
use egt_check::Library;
use egt_plain::shelf::{library_of, whole_library_of};
use egt_plain::{PlainPosition, PlainTables, THIRD, position_of};
use egt_probe::{Outcome, verdict};
use egt_table::Column;
use std::test::*;

/// Whether the side to move has a legal move. A move that leaves its king in check leads to no position.
fn has_move(plain: PlainPosition) -> bool {
    plain
        .successors()
        .as_slice()
        .iter()
        .any(|next| next.position.is_position())
}

/// What entries of a position tell, with that side to move.
fn outcome(mover: Side, mate: u16, zeroing: u16, dead: bool) -> Outcome {
    if mate <= 1 {
        return if dead { Outcome::Dead } else { Outcome::Draw };
    }
    Outcome::Decided {
        winner: if mate % 2 == 0 { mover } else { mover.other() },
        plies: mate / 2 - 1,
        zeroing: if zeroing > 1 { zeroing / 2 - 1 } else { 0 },
    }
}

/// Whether the verdict is of the class with that number, and this.
fn is_judged(library: &Library, position: &Position, class: u8, outcome: Outcome) -> bool {
    match verdict(library, position) {
        Ok(verdict) => verdict.class.number() == class && verdict.value == outcome,
        Err(_missing) => false,
    }
}

/// Whether the verdict on a position, as it stands and with colours exchanged, is what its entries tell; dead positions
/// are told where `whole`. `None` where the squares are no position.
fn is_told(
    library: &Library,
    class: u8,
    plain: PlainPosition,
    entries: (u16, u16, u16),
    whole: bool,
) -> Option<bool> {
    let position = position_of(plain)?;
    let turned = position.flip_colours();
    let (mate, zeroing, reach) = entries;
    let dead = whole && reach == 1 && has_move(plain);
    let here = outcome(position.side(), mate, zeroing, dead);
    let there = outcome(turned.side(), mate, zeroing, dead);
    Some(is_judged(library, &position, class, here) && is_judged(library, &turned, class, there))
}

/// How many positions of the class have another verdict than the plain tables give, and how many there are.
fn compared(library: &Library, tables: &PlainTables, class: u8, whole: bool) -> (u32, u32) {
    let number = usize::from(class);
    let third = THIRD.get(number).copied().flatten();
    let mates = tables.entries(number, Column::Mate).iter();
    let zeroings = tables.entries(number, Column::Zeroing);
    let reaches = tables.entries(number, Column::Reach);
    let mut unlike = 0u32;
    let mut positions = 0u32;
    for (code, ((mate, zeroing), reach)) in mates.zip(zeroings).zip(reaches).enumerate() {
        let plain = PlainPosition::of_code(third, code);
        if let Some(told) = is_told(library, class, plain, (*mate, *zeroing, *reach), whole) {
            unlike = unlike.saturating_add(u32::from(!told));
            positions = positions.saturating_add(1);
        }
    }
    (unlike, positions)
}

#[test]
fn every_position_of_three_men(rt: HostRuntime) -> Result<(), Fail> {
    let tables = PlainTables::solve(rt.alloc(), 6)?;
    let library = whole_library_of(rt.alloc(), &tables, 6)?;
    let (unlike, kings) = compared(&library, &tables, 0, true);
    agree(&rt, unlike, 0);
    agree(&rt, kings, 7224);
    for class in 1..6u8 {
        let (unlike, positions) = compared(&library, &tables, class, true);
        agree(&rt, unlike, 0);
        require(&rt, positions > 300_000);
    }
    Ok(())
}

#[test]
fn every_position_without_the_column(rt: HostRuntime) -> Result<(), Fail> {
    let tables = PlainTables::solve(rt.alloc(), 2)?;
    let library = library_of(rt.alloc(), &tables, 2)?;
    agree(&rt, compared(&library, &tables, 0, false), (0, 7224));
    let (unlike, positions) = compared(&library, &tables, 1, false);
    agree(&rt, unlike, 0);
    require(&rt, positions > 300_000);
    Ok(())
}
