//! The first man's moves: the rows of the squares that he reaches, raised into the row of his own. A lane is a square
//! of the last man, and so each lane has its own way. A rook on a1 with a king on a4, in the lane of d1:
//!
//!     4  K . . . . . . .     the rows of a2, a3 and a4 count, and no row behind a king;
//!     3  x . . . . . . .
//!     2  x . . . . . . .     the rows of b1, c1 and d1 count, and none behind the last man,
//!     1  R x x L . . . .     but in the lanes of squares off this rank all up to h1
ghost use Rattle.std.specs.Prelude.{◌≡◌, ℕ, ◌<◌, Bool, if◌then◌else◌, ◌-◌, slice_index};
ghost use Rattle.egt_lanes.specs.Prelude.{All, OneOf, Reaches, Rides, diagonal_steps, knight_steps, straight_steps};
ghost use Rattle.egt_lanes.specs.Prelude.{Away, at, IsOpen, IsPiece, IsRaised, IsRay};

use crate::block::Block;
use crate::row::{Row, greater};
use crate::sets::without_lane;
use crate::shift::step;
use egt_board::{Kind, Man, Square, SquareSet, Step, Way};
use std::simd::prelude::*;

/// A knight's.
const KNIGHT: [Step; 8] = [
    Step {
        files: Way::Up,
        wide: 1,
        ranks: Way::Up,
        high: 2,
    },
    Step {
        files: Way::Up,
        wide: 1,
        ranks: Way::Down,
        high: 2,
    },
    Step {
        files: Way::Down,
        wide: 1,
        ranks: Way::Up,
        high: 2,
    },
    Step {
        files: Way::Down,
        wide: 1,
        ranks: Way::Down,
        high: 2,
    },
    Step {
        files: Way::Up,
        wide: 2,
        ranks: Way::Up,
        high: 1,
    },
    Step {
        files: Way::Up,
        wide: 2,
        ranks: Way::Down,
        high: 1,
    },
    Step {
        files: Way::Down,
        wide: 2,
        ranks: Way::Up,
        high: 1,
    },
    Step {
        files: Way::Down,
        wide: 2,
        ranks: Way::Down,
        high: 1,
    },
];

/// What is reached along the steps from a square: the row of the next one, and what is reached from there on; up to a
/// king, and in each lane not past the last man, who stands there.
#[inline(always)]
fn reached_from(
    reached: &Block,
    rows: &Block,
    from: Square,
    step: Step,
    upward: bool,
    kings: SquareSet,
) -> Row
    requires ray { IsRay step upward }
    requires next { (n b : ℕ) → Away step 1 from n → b < 64 →
        IsRaised 0 (λ t. Rides (IsOpen kings.bits b) 7 n t step) (λ t. at rows.now t b) (at reached.now n b) }
    ensures { (b : ℕ) → b < 64 → IsRaised 0 (λ t. Rides (IsOpen kings.bits b) 7 from t step) (λ t. at rows.now t b)
        (slice_index result b) }
{
    let Some(next) = from.stepped(step) else {
        return Row::splat(0);
    };
    let place = next.number() as usize;
    if kings.contains(next) {
        return rows[place];
    }
    greater(rows[place], without_lane(reached[place], next))
}

/// The k-th square from the last rank down, or from the first rank up.
#[inline(always)]
fn nth_square(down: bool, k: u8) -> Square
    requires { k < 64 }
    ensures { result ≡ (if down then 63 - k else k) }
{
    Square::at(if down { 63 - k } else { k })
}

/// Raises each row by the rows along one step. What is reached from a square is known once it is known of the next one:
/// so where the step leads upward, the squares come from the last one down.
#[inline(always)]
fn raise_ray(out: &mut Block, rows: &Block, step: Step, upward: bool, kings: SquareSet)
    requires { IsRay step upward }
    ensures { (a b : ℕ) → a < 64 → b < 64 →
        IsRaised (at out.old a b) (λ t. Rides (IsOpen kings.bits b) 7 a t step) (λ t. at rows.now t b)
        (at out.new a b) }
{
    let mut reached = [Row::splat(0); 64];
    for k in 0..64_u8 {
        let from = nth_square(upward, k);
        let place = from.number() as usize;
        let row = reached_from(&reached, rows, from, step, upward, kings);
        out[place] = greater(out[place], row);
        reached[place] = row;
    }
}

/// Raises each row by the rows along files and ranks.
fn raise_straight(out: &mut Block, rows: &Block, kings: SquareSet)
    ensures { (a b : ℕ) → a < 64 → b < 64 →
        IsRaised (at out.old a b) (λ t. OneOf (Rides (IsOpen kings.bits b) 7 a t) straight_steps)
        (λ t. at rows.now t b) (at out.new a b) }
{
    raise_ray(out, rows, step(Way::Still, 0, Way::Down, 1), false, kings);
    raise_ray(out, rows, step(Way::Still, 0, Way::Up, 1), true, kings);
    raise_ray(out, rows, step(Way::Down, 1, Way::Still, 0), false, kings);
    raise_ray(out, rows, step(Way::Up, 1, Way::Still, 0), true, kings);
}

/// Raises each row by the rows along diagonals.
fn raise_diagonal(out: &mut Block, rows: &Block, kings: SquareSet)
    ensures { (a b : ℕ) → a < 64 → b < 64 →
        IsRaised (at out.old a b) (λ t. OneOf (Rides (IsOpen kings.bits b) 7 a t) diagonal_steps)
        (λ t. at rows.now t b) (at out.new a b) }
{
    raise_ray(out, rows, step(Way::Down, 1, Way::Down, 1), false, kings);
    raise_ray(out, rows, step(Way::Down, 1, Way::Up, 1), true, kings);
    raise_ray(out, rows, step(Way::Up, 1, Way::Down, 1), false, kings);
    raise_ray(out, rows, step(Way::Up, 1, Way::Up, 1), true, kings);
}

/// `low` raised by the row of the square one step further.
#[inline(always)]
fn hopped(low: Row, rows: &Block, from: Square, step: Step) -> Row
    requires wide { step.wide < 8 }
    requires high { step.high < 8 }
    ensures { (b : ℕ) → b < 64 → IsRaised (slice_index low b) (λ t. Away step 1 from t) (λ t. at rows.now t b)
        (slice_index result b) }
{
    match from.stepped(step) {
        Some(next) => greater(low, rows[next.number() as usize]),
        None => low,
    }
}

/// `low` raised by the rows of the squares one of these steps further.
#[inline(always)]
fn hopped_along(low: Row, rows: &Block, from: Square, steps: &[Step]) -> Row
    requires { All (λ d. (d.wide < 8) × (d.high < 8)) steps.now }
    ensures { (b : ℕ) → b < 64 → IsRaised (slice_index low b) (λ t. OneOf (λ d. Away d 1 from t) steps.now)
        (λ t. at rows.now t b) (slice_index result b) }
{
    let mut best = low;
    for step in steps {
        best = hopped(best, rows, from, *step);
    }
    best
}

/// Raises each row by the rows a knight's step further.
fn raise_hops(out: &mut Block, rows: &Block)
    ensures { (a b : ℕ) → a < 64 → b < 64 →
        IsRaised (at out.old a b) (λ t. OneOf (λ d. Away d 1 a t) knight_steps) (λ t. at rows.now t b)
        (at out.new a b) }
{
    for a in 0..64_u8 {
        let place = a as usize;
        out[place] = hopped_along(out[place], rows, Square::at(a), &KNIGHT);
    }
}

/// Raises each row of `out`, for the first man's square, by the rows of `from` where he attacks from there: past
/// squares on which neither a king stands nor, in that lane, the last man.
pub fn raise_rows(out: &mut Block, from: &Block, man: Man, kings: SquareSet)
    requires { IsPiece man.kind }
    ensures { (a b : ℕ) → a < 64 → b < 64 →
        IsRaised (at out.old a b) (λ t. Reaches (IsOpen kings.bits b) man a t) (λ t. at from.now t b) (at out.new a b) }
{
    match man.kind {
        Kind::Q => {
            raise_diagonal(out, from, kings);
            raise_straight(out, from, kings);
        }
        Kind::R => raise_straight(out, from, kings),
        Kind::B => raise_diagonal(out, from, kings),
        Kind::N => raise_hops(out, from),
        Kind::P | Kind::K => {}
    }
}
