//! Laws of the texts. These functions call nothing and answer nothing: their contracts are the laws.
ghost use Rattle.std.specs.Prelude.{◌≡◌, ℕ, List};
ghost use Rattle.egt_fen.specs.Prelude.{IsAdmissible, canonical, Fen, PosFault, number_of, name_of, fault_of, FenFault};
ghost use Rattle.egt_fen.specs.Prelude.{Spells, IsFirstFault};
ghost use Rattle.egt_board.specs.Fault as setup;

/// The text that is written for a position with its clocks spells it: what was written is read again.
pub fn written_is_read()
    ensures { (fen : Fen) → IsAdmissible fen.position → Spells (canonical fen) fen }
{}

/// No bytes spell two.
pub fn one_meaning()
    ensures { (text : List ℕ) (one other : Fen) → Spells text one → Spells text other → one ≡ other }
{}

/// A text has one first fault at most, and none where it spells a position.
pub fn one_fault()
    ensures only { (text : List ℕ) (one other : FenFault) → IsFirstFault text one → IsFirstFault text other →
        one ≡ other }
    ensures none { (text : List ℕ) (fen : Fen) (fault : FenFault) → Spells text fen → IsFirstFault text fault → ⊥ }
{}

/// A fault of the setup keeps its number and its name as a fault of the text.
pub fn faults_keep_numbers()
    ensures number { (fault : PosFault) → number_of (fault_of fault) ≡ setup.number_of fault }
    ensures name { (fault : PosFault) → name_of (fault_of fault) ≡ setup.name_of fault }
{}
