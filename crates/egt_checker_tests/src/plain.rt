//! The plain codes and tables beside numbers from outside.
ghost use Rattle.std.specs.Prelude.{◌<◌};

use crate::asserts::{agree, require_at};
use egt_board::{Kind, Man, Position, Side, Square};
use egt_plain::{PlainPosition, PlainTables, plain_code};
use egt_table::Column;
use std::test::*;

/// A man on the square of that number.
fn on(side: Side, kind: Kind, number: u8) -> (Man, Square)
    requires { number < 64 }
{
    (Man { side, kind }, Square::at(number))
}

/// The class and the plain code of a position.
fn code(men: &[(Man, Square)], side: Side) -> Result<Option<(usize, usize)>, Fail> {
    Ok(plain_code(&Position::new(men, side, None)?))
}

// White: king b6, queen d1, Black: king a8; the same with colours exchanged; and White: king f7, pawn g7, Black: king
// h7.
#[test]
fn worked_codes(rt: HostRuntime) -> Result<(), Fail> {
    let queen = [
        on(Side::White, Kind::K, 41),
        on(Side::White, Kind::Q, 3),
        on(Side::Black, Kind::K, 56),
    ];
    agree(&rt, code(&queen, Side::White)?, Some((1, 343_046)));
    agree(&rt, code(&queen, Side::Black)?, Some((1, 343_047)));
    let flipped = [
        on(Side::White, Kind::K, 0),
        on(Side::Black, Kind::K, 17),
        on(Side::Black, Kind::Q, 59),
    ];
    agree(&rt, code(&flipped, Side::Black)?, Some((1, 343_046)));
    let pawn = [
        on(Side::White, Kind::K, 53),
        on(Side::White, Kind::P, 54),
        on(Side::Black, Kind::K, 55),
    ];
    agree(&rt, code(&pawn, Side::White)?, Some((5, 441_324)));
    Ok(())
}

// Of the 4,096 pairs of squares 3,612 are of kings that do not touch (each with either side to move), and all are
// drawn.
#[test]
fn two_kings_are_drawn(rt: HostRuntime) -> Result<(), Fail> {
    let tables = PlainTables::solve(rt.alloc(), 1)?;
    for column in Column::ALL {
        let entries = tables.entries(0, column);
        agree(&rt, entries.len(), 8192);
        let found = entries.iter().filter(|entry| **entry == 1).count();
        agree(&rt, found, 7224);
        let found = entries.iter().filter(|entry| **entry == 0).count();
        agree(&rt, found, 968);
    }
    Ok(())
}

/// The greatest even entry, that of the longest win, as plies.
fn longest_win(entries: &[u16]) -> u16 {
    let mut longest = 0u16;
    for entry in entries {
        if entry % 2 == 0 {
            longest = longest.max(*entry);
        }
    }
    (longest / 2).saturating_sub(1)
}

/// How many entries show a win or a loss.
fn decided(entries: &[u16]) -> usize {
    entries.iter().filter(|entry| **entry > 1).count()
}

// The longest wins of the literature: a queen mates in 10 moves, a rook in 16, and a pawn in 28 from any position that
// is won.
#[test]
fn longest_wins(rt: HostRuntime) -> Result<(), Fail> {
    let tables = PlainTables::solve(rt.alloc(), 6)?;
    agree(&rt, longest_win(tables.entries(1, Column::Mate)), 19);
    agree(&rt, longest_win(tables.entries(2, Column::Mate)), 31);
    agree(&rt, decided(tables.entries(3, Column::Mate)), 0);
    agree(&rt, decided(tables.entries(4, Column::Mate)), 0);
    agree(&rt, longest_win(tables.entries(5, Column::Mate)), 55);
    for class in 0..6 {
        let mate = tables.entries(class, Column::Mate);
        let zeroing = tables.entries(class, Column::Zeroing);
        for (plies, sooner) in mate.iter().zip(zeroing) {
            require_at(&rt, sooner <= plies && sooner % 2 == plies % 2, class);
        }
    }
    Ok(())
}

#[test]
fn codes_spell_what_they_are_made_of(rt: HostRuntime) {
    for &(third, codes) in &[(None, 8192), (Some(Kind::N), 524_288)] {
        for code in 0..codes {
            agree(&rt, PlainPosition::of_code(third, code).code(), code);
        }
    }
}
