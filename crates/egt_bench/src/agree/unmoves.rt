//! Moves backwards: those of the product against all positions before that there can be, each man tried on each square.
use crate::agree::setup::Setup;
use egt_board::{Kind, Man, Position, Side};
use egt_unmoves::{Unmove, unmoves};

/// What is found one after another, held against a list.
#[derive(Clone, Copy)]
struct Matching<'l> {
    list: &'l [Unmove],
    count: usize,
    same: bool,
}

impl Matching<'_> {
    /// The next of the list is to be this position before, from which a pawn moves or not.
    fn found(&mut self, before: &Setup, pawn: bool) {
        match self.list.get(self.count) {
            Some(unmove) => {
                let same = unmove.pawn == pawn && before.is_like(&Setup::of(&unmove.before));
                self.same = self.same && same;
            }
            None => self.same = false,
        }
        self.count = self.count.wrapping_add(1);
    }
}

/// Whether a pawn of the side that waits may just have passed the square.
fn may_have_been_passed(setup: &Setup, target: u8) -> bool {
    let (rank, left, arrived) = match setup.side {
        Side::White => (5, target.wrapping_add(8), target.wrapping_sub(8)),
        Side::Black => (2, target.wrapping_sub(8), target.wrapping_add(8)),
    };
    let pawn = Man {
        side: setup.side.other(),
        kind: Kind::P,
    };
    target / 8 == rank
        && setup.at(target).is_none()
        && setup.at(left).is_none()
        && setup.at(arrived) == Some(pawn)
}

/// Whether it is a settled position: no pawn stands on the first rank or the last, the king of the side that waits is
/// not attacked, and a target is one that a pawn may take.
pub(crate) fn is_settled_position(setup: &Setup) -> bool {
    let edges = (0..8u8).chain(56..64u8);
    for square in edges {
        if setup.at(square).is_some_and(|man| man.kind == Kind::P) {
            return false;
        }
    }
    if let Some(target) = setup.target
        && !may_have_been_passed(setup, target)
    {
        return false;
    }
    setup.settled().target == setup.target && !setup.is_in_check(setup.side.other())
}

/// Whether a legal move between these squares leads to the setup, once that is settled.
fn leads(before: &Setup, from: u8, to: u8, setup: &Setup) -> bool {
    let Some(man) = before.at(from) else {
        return false;
    };
    if !before.goes(man, from, to, &before.attacked_from(man, from)) {
        return false;
    }
    let after = before.played(from, to, None);
    !after.is_in_check(man.side) && after.settled().is_like(setup)
}

/// Finds those positions before in which the man stood on the other square.
fn find_from(setup: &Setup, man: Man, from: u8, to: u8, matching: &mut Matching<'_>) {
    let mut before = *setup;
    before.put(to, None);
    before.put(from, Some(man));
    before.side = man.side;
    before.target = None;
    if is_settled_position(&before) && leads(&before, from, to, setup) {
        matching.found(&before, man.kind == Kind::P);
    }
    for target in 0..64u8 {
        before.target = Some(target);
        if may_have_been_passed(&before, target)
            && is_settled_position(&before)
            && leads(&before, from, to, setup)
        {
            matching.found(&before, man.kind == Kind::P);
        }
    }
}

/// Finds those in which the man stood on another square.
fn find_to(setup: &Setup, man: Man, to: u8, matching: &mut Matching<'_>) {
    for from in 0..64u8 {
        if setup.at(from).is_none() {
            find_from(setup, man, from, to, matching);
        }
    }
}

/// Whether the product's unmoves of the position are those that are found plainly, in order.
pub fn unmoves_agree(position: &Position) -> bool {
    let settled = position.settle();
    let setup = Setup::of(&settled);
    let list = unmoves(&settled);
    let mut matching = Matching {
        list: list.as_slice(),
        count: 0,
        same: true,
    };
    for to in 0..64u8 {
        if let Some(man) = setup.at(to)
            && man.side != setup.side
        {
            find_to(&setup, man, to, &mut matching);
        }
    }
    matching.same && matching.count == list.len()
}
