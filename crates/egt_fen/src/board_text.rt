//! The placement as it is written.
ghost use Rattle.std.specs.Prelude.{◌≡◌, ◌<◌, ◌≤◌, ◌++◌, OnOk};
ghost use Rattle.egt_fen.specs.Prelude.{gap_text, rank_text, placement_text};

use crate::letter::letter_of;
use egt_board::{Board, Square};
use std::alloc::AllocError;

/// Appends the placement, from the eighth rank to the first.
pub fn push_placement(text: &mut Vec<u8>, board: &Board) -> Result<(), AllocError>
    ensures { OnOk result (text.new.items ≡ text.old.items ++ placement_text board.now) }
{
    let mut rank = 7;
    push_rank(text, board, rank)?;
    while rank > 0 {
        rank -= 1;
        text.push(b'/')?;
        push_rank(text, board, rank)?;
    }
    Ok(())
}

/// Appends a rank, from the a-file to the h-file.
fn push_rank(text: &mut Vec<u8>, board: &Board, rank: u8) -> Result<(), AllocError>
    requires { rank < 8 }
    ensures { OnOk result (text.new.items ≡ text.old.items ++ rank_text board.now rank) }
{
    let mut gap = 0;
    for file in 0..8 {
        let square = Square::new(8 * rank + file).unwrap();
        match board.at(square) {
            None => gap += 1,
            Some(man) => {
                push_gap(text, gap)?;
                text.push(letter_of(man))?;
                gap = 0;
            }
        }
    }
    push_gap(text, gap)
}

/// Appends the digit of a run of empty squares, where there are any.
fn push_gap(text: &mut Vec<u8>, gap: u8) -> Result<(), AllocError>
    requires { gap ≤ 8 }
    ensures { OnOk result (text.new.items ≡ text.old.items ++ gap_text gap) }
{
    if gap > 0 {
        text.push(b'0' + gap)?;
    }
    Ok(())
}
