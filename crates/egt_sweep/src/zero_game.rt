//! The game of zeroing moves over a class.
ghost use Rattle.std.specs.Prelude.{◌≡◌, ◌≢◌, ◌<◌, ◌≤◌, ℕ, true, length, slice_index};
ghost use Rattle.egt_sweep.specs.Prelude.{is_some, table_at, beside, HasChildren, Zeroing, class_game};
ghost use Rattle.egt_sweep.specs.Prelude.{class_game_is_lawful, mate_table, IsMateColumn};

use crate::missing::Missing;
use crate::nodes::{exits, is_mated, is_void, predecessors, successors};
use crate::objective::Objective;
use arrayvec::ArrayVec;
use egt_check::{Library, Metric, first_missing};
use egt_class::Class;
use egt_graph::{Exit, Game, Ranks};
use egt_index::size;

/// The game whose nodes are the indexes of a class, whose edges are the moves that do not zero, and whose exits are the
/// others: a win or a loss in 0 or a draw, as where they lead is won, lost or drawn for the side to move there.
#[derive(Drop)]
pub struct ZeroGame<'l> {
    pub(crate) class: Class,
    pub(crate) library: &'l Library,
    pub(crate) mates: &'l Ranks,
    ghost children: { HasChildren (table_at library.now) class },
    ghost shows: { IsMateColumn class mates.now },
}

impl<'l> ZeroGame<'l> {
    ghost use Rattle.std.specs.Prelude.{◌≡◌, ◌↔◌, IsOk, IfOk, IfErr};
    ghost use Rattle.egt_entries.specs.Library.{IsFirstMissing};
    ghost use Rattle.egt_sweep.specs.MateColumn.{AreMateRanks};

    /// The game over a class whose children have their tables in the library. `mates` are the ranks of its game of
    /// mates, by which moves of pawns that stay in the class are judged.
    ///
    /// # Errors
    ///
    /// `Missing` with the least child that has none.
    pub fn new(
        class: Class,
        library: &'l Library,
        mates: &'l Ranks,
    ) -> Result<ZeroGame<'l>, Missing>
        requires ranks { HasChildren (table_at library.now) class →
            AreMateRanks (table_at library.now) class mates.now }
        ensures exact { IsOk result ↔ HasChildren (table_at library.now) class }
        ensures class { IfOk result (λ g. g.class ≡ class) }
        ensures library { IfOk result (λ g. g.library.now ≡ library.now) }
        ensures mates { IfOk result (λ g. g.mates.now ≡ mates.now) }
        ensures missing { IfErr result (λ missing. IsFirstMissing (table_at library.now) class missing.class) }
    {
        if let Some(child) = first_missing(class, library) {
            return Err(Missing { class: child });
        }
        Ok(ZeroGame {
            class,
            library,
            mates,
        })
    }
}

impl Game for ZeroGame<'_> {
    ghost graph = { λ g. class_game (beside (table_at g.library.now) (mate_table g.class g.mates.now)) Zeroing
        g.class };

    ghost lawful = { λ g. class_game_is_lawful (beside (table_at g.library.now) (mate_table g.class g.mates.now))
        Zeroing g.class };

    fn size(&self) -> u32 {
        size(self.class)
    }

    fn void(&self, i: u32) -> bool {
        is_void(self.class, i)
    }

    fn mated(&self, i: u32) -> bool {
        is_mated(self.class, i)
    }

    fn out(&self, i: u32) -> ArrayVec<u32, 64> {
        successors(Metric::Zeroing, self.class, i)
    }

    fn degree(&self, i: u32) -> usize {
        self.out(i).len()
    }

    fn into(&self, j: u32) -> ArrayVec<u32, 128> {
        predecessors(Metric::Zeroing, self.class, j)
    }

    fn exits(&self, i: u32) -> ArrayVec<Exit, 64> {
        exits(&Objective::Zeroing(self.mates), self.class, self.library, i)
    }
}
