//! Moves with what they lead to, as C reads them.
ghost use Rattle.std.specs.Prelude.{◌≡◌, ◌≤◌, length, map, take};
ghost use Rattle.egt_c.specs.Prelude.{shown_root};

use crate::moves::EgtbMove;
use crate::verdict::EgtbAnswer;
use egt_probe::RootMove;

/// The text of a legal move, and the verdict of the position that it leads to.
#[repr(C)]
#[derive(Clone, Copy, Debug, PartialEq, Eq)]
pub struct EgtbRootMove {
    pub chess_move: EgtbMove,
    pub after: EgtbAnswer,
}

/// The first `count` of these moves.
#[repr(C)]
#[derive(Clone, Copy)]
pub struct EgtbRootMoves {
    pub count: u8,
    pub moves: [EgtbRootMove; 64],
}

impl EgtbRootMove {
    fn none() -> EgtbRootMove {
        EgtbRootMove {
            chess_move: EgtbMove::none(),
            after: EgtbAnswer::none(),
        }
    }

    fn of(root_move: &RootMove) -> EgtbRootMove
        ensures { result ≡ shown_root root_move.now }
    {
        EgtbRootMove {
            chess_move: EgtbMove::of(&root_move.chess_move),
            after: EgtbAnswer::of(&root_move.verdict),
        }
    }
}

impl EgtbRootMoves {
    pub(crate) fn of(moves: &[RootMove]) -> EgtbRootMoves
        requires { length moves.now ≤ 64 }
        ensures count { result.count ≡ length moves.now }
        ensures moves { take (length moves.now) result.moves ≡ map shown_root moves.now }
    {
        let mut listed = [EgtbRootMove::none(); 64];
        let mut count = 0;
        for root_move in moves {
            listed[usize::from(count)] = EgtbRootMove::of(root_move);
            count += 1;
        }
        EgtbRootMoves {
            count,
            moves: listed,
        }
    }
}
