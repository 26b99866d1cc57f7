//! The game of the nearest mates over a class.
ghost use Rattle.std.specs.Prelude.{◌≡◌, map};
ghost use Rattle.egt_sweep.specs.Prelude.{table_at, HasChildren, HasReachChildren, reach_children_prop, as_win};
ghost use Rattle.egt_sweep.specs.Prelude.{reach_game, reach_game_is_lawful};

use crate::build_fault::BuildFault;
use crate::nodes::{exits, is_mated, is_void, predecessors, successors};
use crate::objective::Objective;
use arrayvec::ArrayVec;
use egt_check::{Library, Metric, first_lacking, first_missing};
use egt_class::Class;
use egt_graph::{Exit, Game};
use egt_index::size;

/// The game whose nodes are the indexes of a class, whose edges are the moves that stay in it, and whose exits are the
/// others: a win in as many plies as the nearest checkmate is away from where they lead, or a draw where there is none
/// (FIDE Laws of Chess 2023, article 5.2.2).
#[derive(Drop)]
pub struct ReachGame<'l> {
    pub(crate) class: Class,
    pub(crate) library: &'l Library,
    ghost children: { HasChildren (table_at library.now) class },
    ghost reach_children: { HasReachChildren (table_at library.now) class } by { reach_children_prop (table_at library.now) class },
}

impl<'l> ReachGame<'l> {
    ghost use Rattle.std.specs.Prelude.{◌≡◌, ◌↔◌, IsOk, IfOk, IfErr};
    ghost use Rattle.egt_sweep.specs.Built.{IsNoGame};

    /// The game over a class whose children have their tables in the library, each with the column of the nearest
    /// mates. It takes no memory.
    ///
    /// # Errors
    ///
    /// `Missing` with the least child that has no table; else `NoReach` with the least child whose table lacks the
    /// column.
    pub fn new(class: Class, library: &'l Library) -> Result<ReachGame<'l>, BuildFault>
        ensures exact { IsOk result ↔ (HasChildren (table_at library.now) class ×
            HasReachChildren (table_at library.now) class) }
        ensures class { IfOk result (λ g. g.class ≡ class) }
        ensures library { IfOk result (λ g. g.library.now ≡ library.now) }
        ensures refused { IfErr result (IsNoGame (table_at library.now) class) }
    {
        if let Some(child) = first_missing(class, library) {
            return Err(BuildFault::Missing(child));
        }
        if let Some(child) = first_lacking(class, library) {
            return Err(BuildFault::NoReach(child));
        }
        Ok(ReachGame { class, library })
    }
}

/// The exit as a win in as many plies.
fn as_win(exit: Exit) -> Exit
    ensures { result ≡ as_win exit }
{
    match exit {
        Exit::Win(plies) | Exit::Loss(plies) => Exit::Win(plies),
        Exit::Draw => Exit::Draw,
    }
}

/// The exits, in order, as wins.
fn as_wins(exits: &ArrayVec<Exit, 64>) -> ArrayVec<Exit, 64>
    ensures { result.items ≡ map as_win exits.now.items }
{
    let mut wins = ArrayVec::new();
    for exit in exits.as_slice() {
        wins.push(as_win(*exit));
    }
    wins
}

impl Game for ReachGame<'_> {
    ghost graph = { λ g. reach_game (table_at g.library.now) g.class };

    ghost lawful = { λ g. reach_game_is_lawful (table_at g.library.now) g.class };

    fn size(&self) -> u32 {
        size(self.class)
    }

    fn void(&self, i: u32) -> bool {
        is_void(self.class, i)
    }

    fn mated(&self, i: u32) -> bool {
        is_mated(self.class, i)
    }

    fn out(&self, i: u32) -> ArrayVec<u32, 64> {
        successors(Metric::Mate, self.class, i)
    }

    fn degree(&self, i: u32) -> usize {
        self.out(i).len()
    }

    fn into(&self, j: u32) -> ArrayVec<u32, 128> {
        predecessors(Metric::Mate, self.class, j)
    }

    fn exits(&self, i: u32) -> ArrayVec<Exit, 64> {
        as_wins(&exits(&Objective::Reach, self.class, self.library, i))
    }
}
