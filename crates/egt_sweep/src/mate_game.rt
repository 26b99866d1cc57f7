//! The game of mates over a class.
ghost use Rattle.egt_sweep.specs.Prelude.{table_at, HasChildren, Mate, class_game, class_game_is_lawful};

use crate::missing::Missing;
use crate::nodes::{exits, is_mated, is_void, predecessors, successors};
use crate::objective::Objective;
use arrayvec::ArrayVec;
use egt_check::{Library, Metric, first_missing};
use egt_class::Class;
use egt_graph::{Exit, Game};
use egt_index::size;

/// The game whose nodes are the indexes of a class, whose edges are the moves that stay in it, and whose exits are the
/// others, with the mate value of where they lead.
#[derive(Drop)]
pub struct MateGame<'l> {
    pub(crate) class: Class,
    pub(crate) library: &'l Library,
    ghost children: { HasChildren (table_at library.now) class },
}

impl<'l> MateGame<'l> {
    ghost use Rattle.std.specs.Prelude.{◌≡◌, ◌↔◌, IsOk, IfOk, IfErr};
    ghost use Rattle.egt_entries.specs.Library.{IsFirstMissing};

    /// The game over a class whose children have their tables in the library.
    ///
    /// # Errors
    ///
    /// `Missing` with the least child that has none.
    pub fn new(class: Class, library: &'l Library) -> Result<MateGame<'l>, Missing>
        ensures exact { IsOk result ↔ HasChildren (table_at library.now) class }
        ensures class { IfOk result (λ g. g.class ≡ class) }
        ensures library { IfOk result (λ g. g.library.now ≡ library.now) }
        ensures missing { IfErr result (λ missing. IsFirstMissing (table_at library.now) class missing.class) }
    {
        if let Some(child) = first_missing(class, library) {
            return Err(Missing { class: child });
        }
        Ok(MateGame { class, library })
    }
}

impl Game for MateGame<'_> {
    ghost graph = { λ g. class_game (table_at g.library.now) Mate g.class };

    ghost lawful = { λ g. class_game_is_lawful (table_at g.library.now) Mate g.class };

    fn size(&self) -> u32 {
        size(self.class)
    }

    fn void(&self, i: u32) -> bool {
        is_void(self.class, i)
    }

    fn mated(&self, i: u32) -> bool {
        is_mated(self.class, i)
    }

    fn out(&self, i: u32) -> ArrayVec<u32, 64> {
        successors(Metric::Mate, self.class, i)
    }

    fn degree(&self, i: u32) -> usize {
        self.out(i).len()
    }

    fn into(&self, j: u32) -> ArrayVec<u32, 128> {
        predecessors(Metric::Mate, self.class, j)
    }

    fn exits(&self, i: u32) -> ArrayVec<Exit, 64> {
        exits(&Objective::Mate, self.class, self.library, i)
    }
}
