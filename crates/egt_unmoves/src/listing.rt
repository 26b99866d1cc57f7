//! The list of moves backwards.
ghost use Rattle.std.specs.Prelude.{◌≡◌, ◌+◌, ◌*◌, ◌<◌, ◌≤◌, ◌↔◌, ◌⊎◌, None};
ghost use Rattle.egt_unmoves.specs.Prelude.{Contains, array_vec_len, Stands, other_side, Setup, IsSettled, Move, plain};
ghost use Rattle.egt_unmoves.specs.Prelude.{most_goals, ComesBy, MayComeFrom, MayHaveLeft, IsUnmove, men_before};
ghost use Rattle.egt_unmoves.specs.Prelude.{setup_before, IsInOrder, ListsBelow, target_place, Unmove};
ghost use Rattle.std.specs.FinMap as map;

use crate::sources::sources;
use crate::taking_back::{before, is_pawn, went};
use crate::targets::{is_settled_target, target_before};
use crate::unmove::Unmove;
use arrayvec::ArrayVec;
use egt_board::{Board, Man, Position, Square};

/// Adds the position with this target from which the man came. On the board the man is back on `from`.
fn push_before(
    position: &Position,
    board: &Board,
    man: Man,
    from: Square,
    to: Square,
    target: Option<Square>,
    list: &mut ArrayVec<Unmove, 128>,
)
    requires may { MayComeFrom position.now man to from }
    requires board { board.now ≡ men_before position.now.men man to from }
    requires comes { ComesBy (setup_before position.now man to from target) (plain from to) position.now }
    requires only { (b : Setup) → ComesBy b (plain from to) position.now → target_place b.target ≡ target_place target →
        b.target ≡ target }
    requires room { array_vec_len list.old < 128 }
    requires listed { ListsBelow position.now ((to * 64 + from) * 2 + target_place target) list.old.items }
    ensures listed { ListsBelow position.now ((to * 64 + from) * 2 + target_place target + 1) list.new.items }
    ensures few { array_vec_len list.new ≡ array_vec_len list.old + 1 }
{
    let before = before(position, board, man, from, to, target);
    list.push(Unmove {
        before,
        pawn: is_pawn(man),
    });
}

/// Adds the positions from which the man came from `from`: without a target, and with the one that it may have had.
fn push_from(
    position: &Position,
    left: &Board,
    man: Man,
    from: Square,
    to: Square,
    target: &Option<Square>,
    list: &mut ArrayVec<Unmove, 128>,
)
    requires may { MayComeFrom position.now man to from }
    requires source { MayHaveLeft position.now man to from }
    requires left { left.now ≡ map.remove position.now.men to }
    requires target { (b : Setup) (m : Move) → ComesBy b m position.now → (b.target ≡ None) ⊎ (b.target ≡ target.now) }
    requires room { array_vec_len list.old + 2 ≤ 128 }
    requires listed { ListsBelow position.now ((to * 64 + from) * 2) list.old.items }
    ensures listed { ListsBelow position.now ((to * 64 + from + 1) * 2) list.new.items }
    ensures few { array_vec_len list.new ≤ array_vec_len list.old + 2 }
{
    let _side = position.side();
    let board = left.with_man(from, man);
    if !went(position, &board, man, from, to) {
        return;
    }
    push_before(position, &board, man, from, to, None, list);
    if let Some(passed) = target {
        if is_settled_target(&board, man.side, *passed) {
            push_before(position, &board, man, from, to, Some(*passed), list);
        }
    }
}

/// Adds the positions from which the man on `to` came, in order of its square before.
fn push_to(
    position: &Position,
    man: Man,
    to: Square,
    target: &Option<Square>,
    list: &mut ArrayVec<Unmove, 128>,
)
    requires stands { Stands position.now.men to man }
    requires theirs { man.side ≡ other_side position.now.side }
    requires target { (b : Setup) (m : Move) → ComesBy b m position.now → (b.target ≡ None) ⊎ (b.target ≡ target.now) }
    requires room { array_vec_len list.old + 2 * most_goals man.kind ≤ 128 }
    requires listed { ListsBelow position.now (to * 128) list.old.items }
    ensures listed { ListsBelow position.now ((to + 1) * 128) list.new.items }
    ensures few { array_vec_len list.new ≤ array_vec_len list.old + 2 * most_goals man.kind }
{
    let mut left = position.board().copied();
    left.clear(to);
    let mut rest = sources(position, &left, man, to);
    while let Some(from) = rest.pop_first() {
        push_from(position, &left, man, from, to, target, list);
    }
}

/// The settled positions of the same men from which a legal move that neither captures nor promotes leads to a
/// position that settles to this one, each once, and whether a pawn makes that move: in order of the square on which
/// the moved man stands now, then of the square that it left, then without a target ahead of with one.
///
/// A side of at most three men has at most 64 such moves, and each at most two such positions.
pub fn unmoves(position: &Position) -> ArrayVec<Unmove, 128>
    requires { IsSettled position.now }
    ensures exact { (u : Unmove) → Contains result.items u ↔ IsUnmove position.now u }
    ensures ordered { IsInOrder position.now result.items }
{
    let waiting = position.side().other();
    let target = target_before(position);
    let mut list = ArrayVec::new();
    let mut rest = position.of(waiting);
    while let Some(to) = rest.pop_first() {
        let man = position.at(to).unwrap();
        push_to(position, man, to, &target, &mut list);
    }
    list
}
