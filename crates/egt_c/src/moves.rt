//! Moves as texts that C reads.
ghost use Rattle.std.specs.Prelude.{◌≡◌, ◌≤◌, length, map, take};
ghost use Rattle.egt_c.specs.Prelude.{written, written_or_none, zeros};

use egt_moves::Move;

/// The text of a move, as `d1d8` or `g7g8q`, with zeros behind it; zeros alone where there is no move.
#[repr(C)]
#[derive(Clone, Copy, Debug, PartialEq, Eq)]
pub struct EgtbMove {
    pub text: [u8; 6],
}

/// The first `count` of these moves.
#[repr(C)]
#[derive(Clone, Copy)]
pub struct EgtbMoves {
    pub count: u8,
    pub moves: [EgtbMove; 64],
}

impl EgtbMove {
    pub(crate) fn none() -> EgtbMove
        ensures { result.text ≡ zeros }
    {
        EgtbMove { text: [0; 6] }
    }

    pub(crate) fn of(chess_move: &Move) -> EgtbMove
        ensures { result ≡ written chess_move.now }
    {
        let text = chess_move.text();
        let mut bytes = [0; 6];
        bytes[..text.len()].copy_from_slice(text.as_bytes());
        EgtbMove { text: bytes }
    }

    pub(crate) fn of_option(chess_move: Option<Move>) -> EgtbMove
        ensures { result ≡ written_or_none chess_move }
    {
        match chess_move {
            Some(chess_move) => EgtbMove::of(&chess_move),
            None => EgtbMove::none(),
        }
    }
}

impl EgtbMoves {
    pub(crate) fn of(moves: &[Move]) -> EgtbMoves
        requires { length moves.now ≤ 64 }
        ensures count { result.count ≡ length moves.now }
        ensures moves { take (length moves.now) result.moves ≡ map written moves.now }
    {
        let mut listed = [EgtbMove::none(); 64];
        let mut count = 0;
        for chess_move in moves {
            listed[usize::from(count)] = EgtbMove::of(chess_move);
            count += 1;
        }
        EgtbMoves {
            count,
            moves: listed,
        }
    }
}
