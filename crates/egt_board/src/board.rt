//! A board with at most four men on it, and what they attack: FIDE Laws of Chess 2023, articles 3.1 to 3.9.
ghost use Rattle.std.specs.Prelude.{◌≡◌, ℕ, ◌<◌, ◌≤◌, ◌↔◌, ◌∷◌, ◌++◌, nat_lt, IfSome, IfNone, if◌then◌else◌};
ghost use Rattle.egt_board.specs.Prelude.{bit_at, option_map, is_some, king_of, place, man_on, marks, takes, lesser};
ghost use Rattle.egt_board.specs.Prelude.{greater, Has};
ghost use Rattle.std.specs.FinMap as map;

use crate::man::{Kind, Man, Side};
use crate::square::Square;
use crate::square_set::SquareSet;
use std::marker::Model;

/// A man and its square, or nothing.
pub(crate) type Slot = Option<(Square, Man)>;

/// At most four men and their squares, seen as the map from squares to men.
///
/// They may be any men anywhere. What the rules of play admit is a `Position`. The men are in the first slots, in
/// order of square, so that a map has one form.
#[derive(Clone, Copy)]
pub struct Board {
    pub(crate) first: Slot,
    pub(crate) second: Slot,
    pub(crate) third: Slot,
    pub(crate) fourth: Slot,
}

impl Model for Board {
    ghost use Rattle.std.specs.Coded.{coded_ℕ};
    ghost use Rattle.std.specs.FinMap as map;
    ghost use Rattle.egt_board.specs.contracts.man.Man as man;
    ghost use Rattle.egt_board.specs.Placement.{Placement};
    ghost use Rattle.egt_board.specs.Board.{placed, AreKept};
    ghost use Rattle.egt_board.specs.Slots.{slots_of, fields_of, fields_of-placed};

    ghost Value = { Placement };

    ghost coded = { map.code coded_ℕ man.the_row.coded };

    ghost view = { λ a. placed (slots_of a) };

    ghost invariant = { λ a. AreKept (slots_of a) };

    ghost inverse = { fields_of };

    ghost inverse_ok = { fields_of-placed };
}

/// The man of the slot, if it stands on the square.
fn man_on(square: Square, slot: Slot) -> Option<Man>
    ensures { result ≡ man_on square slot }
{
    let placed = slot?;
    if square.number() == placed.0.number() {
        Some(placed.1)
    } else {
        None
    }
}

/// Whether the slot's man stands on the square.
fn is_on(square: Square, slot: &Slot) -> bool
    ensures { result ≡ is_some (man_on square slot.now) }
{
    match slot {
        Some(placed) => square.number() == placed.0.number(),
        None => false,
    }
}

/// The one slot or the other.
fn either<'a>(first: bool, one: &'a Slot, other: &'a Slot) -> &'a Slot
    ensures { result.now ≡ (if first then one.now else other.now) }
{
    if first { one } else { other }
}

/// The square of the slot's man, if it is that side's.
fn occupied_by(slot: Slot, side: Side) -> SquareSet
    ensures { (t : ℕ) → bit_at result.bits t ≡ marks side slot t }
{
    let Some(placed) = slot else {
        return SquareSet::EMPTY;
    };
    if placed.1.side == side {
        SquareSet::EMPTY.with(placed.0)
    } else {
        SquareSet::EMPTY
    }
}

/// The square of the slot's man, if there is one.
fn taken(slot: &Slot) -> SquareSet
    ensures { (t : ℕ) → bit_at result.bits t ≡ takes slot.now t }
{
    match slot {
        Some(placed) => SquareSet::EMPTY.with(placed.0),
        None => SquareSet::EMPTY,
    }
}

/// The number of the square of the slot's man, and 64 of none, which comes behind every square.
fn place(slot: &Slot) -> u8
    ensures { result ≡ place slot.now }
{
    match slot {
        Some(placed) => placed.0.number(),
        None => 64,
    }
}

/// Whether the slot's man stands ahead of a new man, on a square of a lesser number.
fn is_ahead(slot: &Slot, new: &Slot) -> bool
    ensures { result ≡ nat_lt (place slot.now) (place new.now) }
{
    place(slot) < place(new)
}

/// What stands first of a new man and what is in a slot; on one square it is the new man.
fn lesser(new: &Slot, slot: &Slot) -> Slot
    ensures { result ≡ lesser new.now slot.now }
{
    if place(slot) < place(new) {
        *slot
    } else {
        *new
    }
}

/// What is left over of the two: the one that stands behind the other; nothing on one square.
fn greater(new: &Slot, slot: &Slot) -> Slot
    ensures { result ≡ greater new.now slot.now }
{
    if place(slot) < place(new) {
        *new
    } else if place(new) < place(slot) {
        *slot
    } else {
        None
    }
}

impl Board {
    ghost use Rattle.egt_board.specs.SquareSet.{Has, size_of};
    ghost use Rattle.egt_board.specs.Corners.{corners};
    ghost use Rattle.egt_board.specs.Placement.{IsOccupiedBy};
    ghost use Rattle.egt_board.specs.Placement.{IsFree, Stands};
    ghost use Rattle.egt_board.specs.Listed.{men_of};
    ghost use Rattle.std.specs.Option.{option_to_list};

    /// The board with no man on it.
    pub fn new() -> Board
        ensures { result ≡ map.empty }
    {
        Board {
            first: None,
            second: None,
            third: None,
            fourth: None,
        }
    }

    /// The board with White's king on a1, Black's on h8, and no other man.
    pub fn of_kings_in_corners() -> Board
        ensures { result ≡ corners }
    {
        Board {
            first: filled(Square::at(0), king(Side::White)),
            second: filled(Square::at(63), king(Side::Black)),
            third: None,
            fourth: None,
        }
    }

    /// The man on the square. His slot is chosen without a jump: which it is cannot be guessed.
    pub fn at(&self, square: Square) -> Option<Man>
        ensures { result ≡ map.get self.now square }
    {
        let by_first = is_on(square, &self.first);
        let by_second = is_on(square, &self.second);
        let by_third = is_on(square, &self.third);
        let front = either(by_first, &self.first, &self.second);
        let back = either(by_third, &self.third, &self.fourth);
        man_on(square, *either(by_first | by_second, front, back))
    }

    /// Puts a man on the square, in place of any that stands there, where there are fewer than four men.
    pub fn put(&mut self, square: Square, man: Man)
        requires { map.len self.old < 4 }
        ensures { self.new ≡ map.insert self.old square man }
    {
        self.clear(square);
        *self = self.with_man(square, man);
    }

    /// The board with the man on the square, which is free, where there are fewer than four men.
    #[inline(always)]
    pub fn with_man(&self, square: Square, man: Man) -> Board
        requires free { IsFree self.now square }
        requires room { map.len self.now < 4 }
        ensures { result ≡ map.insert self.now square man }
    {
        let new = filled(square, man);
        if !is_ahead(&self.first, &new) {
            return Board {
                first: new,
                second: self.first,
                third: self.second,
                fourth: self.third,
            };
        }
        if !is_ahead(&self.second, &new) {
            return Board {
                first: self.first,
                second: new,
                third: self.second,
                fourth: self.third,
            };
        }
        if !is_ahead(&self.third, &new) {
            return Board {
                first: self.first,
                second: self.second,
                third: new,
                fourth: self.third,
            };
        }
        Board {
            first: self.first,
            second: self.second,
            third: self.third,
            fourth: new,
        }
    }

    /// Takes the man off the square, if one stands there.
    pub fn clear(&mut self, square: Square)
        ensures { self.new ≡ map.remove self.old square }
    {
        let by_first = man_on(square, self.first).is_some();
        let by_second = by_first | man_on(square, self.second).is_some();
        let by_third = by_second | man_on(square, self.third).is_some();
        let by_fourth = by_third | man_on(square, self.fourth).is_some();
        *self = Board {
            first: chosen(by_first, self.second, self.first),
            second: chosen(by_second, self.third, self.second),
            third: chosen(by_third, self.fourth, self.third),
            fourth: chosen(by_fourth, None, self.fourth),
        };
    }

    /// The squares of that side's men.
    pub fn of(&self, side: Side) -> SquareSet
        ensures { (t : ℕ) → Has result t ↔ IsOccupiedBy self.now t side }
    {
        let front = occupied_by(self.first, side).union(occupied_by(self.second, side));
        let back = occupied_by(self.third, side).union(occupied_by(self.fourth, side));
        front.union(back)
    }

    /// The squares of all men.
    pub fn occupied(&self) -> SquareSet
        ensures free { (t : ℕ) → (bit_at result.bits t ≡ 0) ↔ IsFree self.now t }
        ensures on_board { (s : ℕ) (man : Man) → Stands self.now s man → s < 64 }
        ensures few { size_of result ≤ map.len self.now }
    {
        let front = taken(&self.first).union(taken(&self.second));
        let back = taken(&self.third).union(taken(&self.fourth));
        front.union(back)
    }

    /// A copy of the board.
    pub fn copied(&self) -> Board
        ensures { result ≡ self.now }
    {
        *self
    }
}

/// The king of that side.
fn king(side: Side) -> Man
    ensures { result ≡ king_of side }
{
    Man {
        side,
        kind: Kind::K,
    }
}

/// The slot of a man on that square.
fn filled(square: Square, man: Man) -> Slot
    ensures { result ≡ Some (record { 0 = square; 1 = man }) }
{
    Some((square, man))
}

/// The one slot or the other.
fn chosen(first: bool, one: Slot, other: Slot) -> Slot
    ensures { result ≡ (if first then one else other) }
{
    if first { one } else { other }
}
