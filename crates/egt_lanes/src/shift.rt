//! Rows moved by the steps of men: to each square comes what stands a step further, for all squares at once. Of a rook
//! that goes to the right, on a rank of three squares:
//!
//!     row             5 2 7
//!     one step        2 7 0     `shifted`
//!     two steps       7 0 0     `shifted` twice; nothing comes over a square that is not free
//!     the greatest    7 7 0     `ridden`
ghost use Rattle.std.specs.Prelude.{◌≡◌, ℕ, ◌<◌, ◌≤◌, ◌==◌, slice_index, if◌then◌else◌};
ghost use Rattle.egt_lanes.specs.Prelude.{bit_at, OneOf, Reaches, Rides, straight_steps, diagonal_steps, knight_steps};
ghost use Rattle.egt_lanes.specs.Prelude.{Advances, forward, home_rank, rank_of, Away, AdvancesBy, beside, beyond};
ghost use Rattle.egt_lanes.specs.Prelude.{IsPiece, IsRaised};
ghost use Rattle.egt_board.specs.AttackLines.{step as the_step};

use crate::row::{Row, greater};
use crate::sets::{kept, rank_squares};
use egt_board::{Kind, Man, Side, SquareSet, Step, Way, of_squares};

/// The square on the same rank whose number is greater by so much; 64 where there is none.
macro_rules! further_on_rank {
    ($square:literal $by:literal) => {
        if (8 + $square + $by) / 8 == 1 + $square / 8 { ($square + $by) as usize } else { 64 }
    };
}

/// The square whose number is greater by so much; 64 where there is none.
macro_rules! further_on_file {
    ($square:literal $by:literal) => {
        if 0 <= $square + $by && $square + $by < 64 { ($square + $by) as usize } else { 64 }
    };
}

/// Of each square the one one file further right; 64 where there is none.
const RIGHT: [usize; 64] = of_squares!(further_on_rank; 1);

/// Of each square the one two files further right; 64 where there is none.
const TWO_RIGHT: [usize; 64] = of_squares!(further_on_rank; 2);

/// Of each square the one one file further left; 64 where there is none.
const LEFT: [usize; 64] = of_squares!(further_on_rank; -1);

/// Of each square the one two files further left; 64 where there is none.
const TWO_LEFT: [usize; 64] = of_squares!(further_on_rank; -2);

/// Of each square the one one rank further up; 64 where there is none.
const UP: [usize; 64] = of_squares!(further_on_file; 8);

/// Of each square the one two ranks further up; 64 where there is none.
const TWO_UP: [usize; 64] = of_squares!(further_on_file; 16);

/// Of each square the one one rank further down; 64 where there is none.
const DOWN: [usize; 64] = of_squares!(further_on_file; -8);

/// Of each square the one two ranks further down; 64 where there is none.
const TWO_DOWN: [usize; 64] = of_squares!(further_on_file; -16);

/// At each square what stands `wide` files further on its rank; 0 where that is off the board.
#[inline(always)]
fn along_rank(row: Row, way: Way, wide: u8) -> Row
    requires { wide ≤ 2 }
    ensures { (s : ℕ) → s < 64 → slice_index result s ≡ slice_index row (beside way wide s) }
{
    let nothing = Row::splat(0);
    match (way, wide) {
        (Way::Up, 1) => row.shuffle(nothing, RIGHT),
        (Way::Up, 2) => row.shuffle(nothing, TWO_RIGHT),
        (Way::Down, 1) => row.shuffle(nothing, LEFT),
        (Way::Down, 2) => row.shuffle(nothing, TWO_LEFT),
        _ => row,
    }
}

/// At each square what stands `high` ranks further on its file; 0 where that is off the board.
#[inline(always)]
fn along_file(row: Row, way: Way, high: u8) -> Row
    requires { high ≤ 2 }
    ensures { (s : ℕ) → s < 64 → slice_index result s ≡ slice_index row (beyond way high s) }
{
    let nothing = Row::splat(0);
    match (way, high) {
        (Way::Up, 1) => row.shuffle(nothing, UP),
        (Way::Up, 2) => row.shuffle(nothing, TWO_UP),
        (Way::Down, 1) => row.shuffle(nothing, DOWN),
        (Way::Down, 2) => row.shuffle(nothing, TWO_DOWN),
        _ => row,
    }
}

/// At each square what stands one step further; 0 where that is off the board.
#[inline(always)]
pub fn shifted(row: Row, step: Step) -> Row
    requires wide { step.wide ≤ 2 }
    requires high { step.high ≤ 2 }
    ensures moved { (s t : ℕ) → s < 64 → Away step 1 s t → slice_index result s ≡ slice_index row t }
    ensures off_board { (s : ℕ) → s < 64 → ((t : ℕ) → ¬ Away step 1 s t) → slice_index result s ≡ 0 }
{
    along_rank(
        along_file(row, step.ranks, step.high),
        step.files,
        step.wide,
    )
}

/// At each square the greatest of what stands there on the way along the steps, up to the first square that is not
/// free.
#[inline(always)]
pub fn ridden(row: Row, free: SquareSet, step: Step) -> Row
    requires wide { step.wide ≤ 2 }
    requires high { step.high ≤ 2 }
    ensures { (s : ℕ) → s < 64 → IsRaised 0 (λ t. Rides (λ u. bit_at free.bits u ≡ 1) 7 s t step)
        (λ t. slice_index row t) (slice_index result s) }
{
    let mut last = shifted(row, step);
    let mut best = last;
    for _steps in 1..7_u8 {
        last = shifted(kept(last, free), step);
        best = greater(best, last);
    }
    best
}

/// The step of so many files and so many ranks.
#[inline(always)]
pub(crate) fn step(files: Way, wide: u8, ranks: Way, high: u8) -> Step
    ensures { result ≡ the_step files wide ranks high }
{
    Step {
        files,
        wide,
        ranks,
        high,
    }
}

/// `low` raised by what stands along the steps.
#[inline(always)]
fn ray_raised(low: Row, row: Row, free: SquareSet, step: Step) -> Row
    requires wide { step.wide ≤ 2 }
    requires high { step.high ≤ 2 }
    ensures { (s : ℕ) → s < 64 → IsRaised (slice_index low s) (λ t. Rides (λ u. bit_at free.bits u ≡ 1) 7 s t step)
        (λ t. slice_index row t) (slice_index result s) }
{
    greater(low, ridden(row, free, step))
}

/// `low` raised by what stands one step further.
#[inline(always)]
fn step_raised(low: Row, row: Row, step: Step) -> Row
    requires wide { step.wide ≤ 2 }
    requires high { step.high ≤ 2 }
    ensures { (s : ℕ) → s < 64 → IsRaised (slice_index low s) (λ t. Away step 1 s t) (λ t. slice_index row t)
        (slice_index result s) }
{
    greater(low, shifted(row, step))
}

/// `low` raised by what stands along files and ranks.
#[inline(always)]
fn straight_raised(low: Row, row: Row, free: SquareSet) -> Row
    ensures { (s : ℕ) → s < 64 → IsRaised (slice_index low s)
        (λ t. OneOf (Rides (λ u. bit_at free.bits u ≡ 1) 7 s t) straight_steps) (λ t. slice_index row t)
        (slice_index result s) }
{
    let down = ray_raised(low, row, free, step(Way::Still, 0, Way::Down, 1));
    let up = ray_raised(down, row, free, step(Way::Still, 0, Way::Up, 1));
    let left = ray_raised(up, row, free, step(Way::Down, 1, Way::Still, 0));
    ray_raised(left, row, free, step(Way::Up, 1, Way::Still, 0))
}

/// `low` raised by what stands along diagonals.
#[inline(always)]
fn diagonal_raised(low: Row, row: Row, free: SquareSet) -> Row
    ensures { (s : ℕ) → s < 64 → IsRaised (slice_index low s)
        (λ t. OneOf (Rides (λ u. bit_at free.bits u ≡ 1) 7 s t) diagonal_steps) (λ t. slice_index row t)
        (slice_index result s) }
{
    let down_left = ray_raised(low, row, free, step(Way::Down, 1, Way::Down, 1));
    let up_left = ray_raised(down_left, row, free, step(Way::Down, 1, Way::Up, 1));
    let down_right = ray_raised(up_left, row, free, step(Way::Up, 1, Way::Down, 1));
    ray_raised(down_right, row, free, step(Way::Up, 1, Way::Up, 1))
}

/// `low` raised by what stands a knight's step further.
#[inline(always)]
fn knight_raised(low: Row, row: Row) -> Row
    ensures { (s : ℕ) → s < 64 → IsRaised (slice_index low s) (λ t. OneOf (λ d. Away d 1 s t) knight_steps)
        (λ t. slice_index row t) (slice_index result s) }
{
    let left_down = step_raised(low, row, step(Way::Down, 2, Way::Down, 1));
    let left_up = step_raised(left_down, row, step(Way::Down, 2, Way::Up, 1));
    let right_down = step_raised(left_up, row, step(Way::Up, 2, Way::Down, 1));
    let right_up = step_raised(right_down, row, step(Way::Up, 2, Way::Up, 1));
    let down_left = step_raised(right_up, row, step(Way::Down, 1, Way::Down, 2));
    let up_left = step_raised(down_left, row, step(Way::Down, 1, Way::Up, 2));
    let down_right = step_raised(up_left, row, step(Way::Up, 1, Way::Down, 2));
    step_raised(down_right, row, step(Way::Up, 1, Way::Up, 2))
}

/// `low` raised at each square by what stands where this man attacks from there past free squares.
#[inline(always)]
pub fn last_man_raised(low: Row, row: Row, free: SquareSet, man: Man) -> Row
    requires { IsPiece man.kind }
    ensures { (s : ℕ) → s < 64 → IsRaised (slice_index low s) (λ t. Reaches (λ u. bit_at free.bits u ≡ 1) man s t)
        (λ t. slice_index row t) (slice_index result s) }
{
    match man.kind {
        Kind::Q => straight_raised(diagonal_raised(low, row, free), row, free),
        Kind::R => straight_raised(low, row, free),
        Kind::B => diagonal_raised(low, row, free),
        Kind::N => knight_raised(low, row),
        Kind::P | Kind::K => low,
    }
}

/// One rank forward for that side.
#[inline(always)]
fn one_ahead(side: Side) -> Step
    ensures { result ≡ forward side }
{
    match side {
        Side::White => step(Way::Still, 0, Way::Up, 1),
        Side::Black => step(Way::Still, 0, Way::Down, 1),
    }
}

/// The squares on which that side's pawns begin.
#[inline(always)]
fn pawn_homes(side: Side) -> SquareSet
    ensures { (s : ℕ) → s < 64 → bit_at result.bits s ≡ (if rank_of s == home_rank side then 1 else 0) }
{
    match side {
        Side::White => rank_squares(1),
        Side::Black => rank_squares(6),
    }
}

/// `low` raised at each square by what stands where a pawn of that side advances by one square.
#[inline(always)]
pub fn advanced_by_one(low: Row, row: Row, free: SquareSet, side: Side) -> Row
    ensures { (s : ℕ) → s < 64 → IsRaised (slice_index low s)
        (λ t. AdvancesBy 1 (λ u. bit_at free.bits u ≡ 1) side s t) (λ t. slice_index row t) (slice_index result s) }
{
    greater(low, shifted(kept(row, free), one_ahead(side)))
}

/// `low` raised at each square by what stands where a pawn of that side advances by two squares.
#[inline(always)]
pub fn advanced_by_two(low: Row, row: Row, free: SquareSet, side: Side) -> Row
    ensures { (s : ℕ) → s < 64 → IsRaised (slice_index low s)
        (λ t. AdvancesBy 2 (λ u. bit_at free.bits u ≡ 1) side s t) (λ t. slice_index row t) (slice_index result s) }
{
    let ahead = one_ahead(side);
    let near = shifted(kept(row, free), ahead);
    let far = shifted(kept(near, free), ahead);
    greater(low, kept(far, pawn_homes(side)))
}

/// `low` raised at each square by what stands where a pawn of that side advances from there: one square forward, or two
/// from its original rank, all of them free.
#[inline(always)]
pub fn advanced(low: Row, row: Row, free: SquareSet, side: Side) -> Row
    ensures { (s : ℕ) → s < 64 → IsRaised (slice_index low s) (λ t. Advances (λ u. bit_at free.bits u ≡ 1) side s t)
        (λ t. slice_index row t) (slice_index result s) }
{
    let near = advanced_by_one(low, row, free, side);
    advanced_by_two(near, row, free, side)
}
