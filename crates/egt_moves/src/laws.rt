//! Laws of the rules of play alone. These functions do nothing: a caller calls one to know what it
//! ensures.

ghost use Rattle.std.specs.Prelude.{◌≡◌, ◌↔◌, ◌⊎◌, ℕ, suc, ◌<◌, ◌≤◌, Bool, IsTrue, Option};
ghost use Rattle.egt_moves.specs.Prelude.{Contains, AreImages, SettlesTo, Setup, IsAdmissible, Mirror, KeepsPlay};
ghost use Rattle.egt_moves.specs.Prelude.{IsTurnedBy, Move, Value, Win, Loss, SomeMove, EachMove, HasValue};
ghost use Rattle.egt_moves.specs.Prelude.{IsMatedWithin, MatesWithin, AvoidsMateFor, CannotMateWithin, AnswersWithin};
ghost use Rattle.egt_moves.specs.Prelude.{chess, Zeroes, Leads, IsLegal, moves_of, played, IsInOrder, IsCheckmate};
ghost use Rattle.egt_moves.specs.Prelude.{turned_move, JudgedOver, ZeroingJudgedOver, IsMirror, AreMirrored};
ghost use Rattle.egt_moves.specs.Prelude.{HasZeroing, ZeroesLosingWithin, ZeroesWinningWithin};

use egt_board::laws::{images_are_turns, images_come_by_mirrors, turns_come_by_mirrors};

/// A forced mate is forced within any greater number of plies, and a defence lasts for any lesser one.
pub fn more_plies()
    ensures mated { (m n : ℕ) (p : Setup) → m ≤ n → IsMatedWithin chess m p → IsMatedWithin chess n p }
    ensures mates { (m n : ℕ) (p : Setup) → m ≤ n → MatesWithin chess m p → MatesWithin chess n p }
    ensures avoids { (m n : ℕ) (p : Setup) → m ≤ n → AvoidsMateFor chess n p → AvoidsMateFor chess m p }
    ensures cannot { (m n : ℕ) (p : Setup) → m ≤ n → CannotMateWithin chess n p → CannotMateWithin chess m p }
{}

/// The winner forces mate within n plies or the defender keeps from it for n, and never both.
pub fn halves_meet()
    ensures mated { (n : ℕ) (p : Setup) → IsMatedWithin chess n p ⊎ AvoidsMateFor chess n p }
    ensures mates { (n : ℕ) (p : Setup) → MatesWithin chess n p ⊎ CannotMateWithin chess n p }
    ensures mated_once { (n : ℕ) (p : Setup) → IsMatedWithin chess n p → AvoidsMateFor chess n p → ⊥ }
    ensures mates_once { (n : ℕ) (p : Setup) → MatesWithin chess n p → CannotMateWithin chess n p → ⊥ }
{}

/// No position is both won and lost, and none has two values.
pub fn one_value()
    ensures won_or_lost { (m n : ℕ) (p : Setup) → MatesWithin chess m p → IsMatedWithin chess n p → ⊥ }
    ensures one { (p : Setup) (v w : Value) → HasValue chess p v → HasValue chess p w → v ≡ w }
{}

/// Whoever forces mate within n plies, or is mated within n, does so in a least number of plies.
pub fn least_plies()
    ensures win { (n : ℕ) (p : Setup) → MatesWithin chess n p → (k : ℕ) × HasValue chess p (Win k) × (k ≤ n) }
    ensures loss { (n : ℕ) (p : Setup) → IsMatedWithin chess n p → (k : ℕ) × HasValue chess p (Loss k) × (k ≤ n) }
{}

/// A win goes on to a loss one ply less, a loss to a win one ply less, and no step from a loss leads to a later win.
pub fn play_goes_on()
    ensures win { (n : ℕ) (p : Setup) → HasValue chess p (Win (suc n)) →
        SomeMove chess p (λ q. HasValue chess q (Loss n)) }
    ensures loss { (n : ℕ) (p : Setup) → HasValue chess p (Loss (suc n)) →
        SomeMove chess p (λ q. HasValue chess q (Win n)) }
    ensures no_later { (n : ℕ) (p : Setup) → HasValue chess p (Loss (suc n)) → EachMove chess p (MatesWithin chess n) }
{}

/// A search of some number of plies has one answer.
pub fn one_answer()
    ensures some { (n : ℕ) (p : Setup) → (answer : Option Value) × AnswersWithin chess n p answer }
    ensures one { (n : ℕ) (p : Setup) (x y : Option Value) → AnswersWithin chess n p x → AnswersWithin chess n p y →
        x ≡ y }
{}

/// Entries that fit their successors' are the values and the zeroing distances, in whatever class a test tells.
pub fn entries_are_true()
    ensures values { (own : Setup → Bool) (e : Setup → Value) → JudgedOver chess (λ p. IsTrue (own p)) e →
        (p : Setup) → IsTrue (own p) → HasValue chess p (e p) }
    ensures distances { (own : Setup → Bool) (e z : Setup → Value) →
        JudgedOver chess (λ p. IsTrue (own p)) e → ZeroingJudgedOver chess (λ p. IsTrue (own p)) e z →
        (p : Setup) → IsTrue (own p) → HasZeroing chess p (z p) }
{}

/// The values and the zeroing distances fit, so that entries that are true are never refused.
pub fn true_entries_fit()
    ensures values { (own : Setup → Bool) (e : Setup → Value) →
        ((p : Setup) → IsTrue (own p) → HasValue chess p (e p)) →
        ((p q : Setup) → IsTrue (own p) → chess.Move p q → IsTrue (own q) ⊎ HasValue chess q (e q)) →
        JudgedOver chess (λ p. IsTrue (own p)) e }
    ensures distances { (own : Setup → Bool) (e z : Setup → Value) →
        ((p : Setup) → IsTrue (own p) → HasValue chess p (e p)) →
        ((p : Setup) → IsTrue (own p) → HasZeroing chess p (z p)) →
        ((p q : Setup) → IsTrue (own p) → chess.Move p q → IsTrue (own q) ⊎ HasValue chess q (e q)) →
        ((p q : Setup) → IsTrue (own p) → chess.Move p q → IsTrue (own q) ⊎ HasZeroing chess q (z q)) →
        ZeroingJudgedOver chess (λ p. IsTrue (own p)) e z }
{}

/// A mate within some number of plies is a capture or mate within as many: the zeroing distance never exceeds
/// the mate distance.
pub fn zeroes_in_time()
    ensures losing { (n : ℕ) (p : Setup) → IsMatedWithin chess n p → ZeroesLosingWithin chess n p }
    ensures winning { (n : ℕ) (p : Setup) → MatesWithin chess n p → ZeroesWinningWithin chess n p }
    ensures win { (m n : ℕ) (p : Setup) → HasValue chess p (Win m) → HasZeroing chess p (Win n) → n ≤ m }
    ensures loss { (m n : ℕ) (p : Setup) → HasValue chess p (Loss m) → HasZeroing chess p (Loss n) → n ≤ m }
{}

/// A position and the same position in a mirror, of files, of ranks, of the long diagonal or of colours, have
/// the same value and the same zeroing distance.
pub fn mirrored_positions_are_alike()
    ensures values { (mirror : Mirror) (p p' : Setup) → AreMirrored mirror p p' →
        (v : Value) → HasValue chess p v ↔ HasValue chess p' v }
    ensures distances { (mirror : Mirror) (p p' : Setup) → AreMirrored mirror p p' →
        (v : Value) → HasZeroing chess p v ↔ HasZeroing chess p' v }
{}

/// A position and its settled form have the same value and the same zeroing distance.
pub fn settled_positions_are_alike()
    ensures values { (p q : Setup) → IsAdmissible p → SettlesTo p q →
        (v : Value) → HasValue chess p v ↔ HasValue chess q v }
    ensures distances { (p q : Setup) → IsAdmissible p → SettlesTo p q →
        (v : Value) → HasZeroing chess p v ↔ HasZeroing chess q v }
{}

/// A position and each of its images, whatever comes from it by symmetries that its men allow and by the flip of
/// colours, have the same value and the same zeroing distance.
pub fn all_images_are_alike()
    ensures values { (p q : Setup) → IsAdmissible p → AreImages p q →
        (v : Value) → HasValue chess p v ↔ HasValue chess q v }
    ensures distances { (p q : Setup) → IsAdmissible p → AreImages p q →
        (v : Value) → HasZeroing chess p v ↔ HasZeroing chess q v }
{
    images_come_by_mirrors();
}

/// Each step from a position has its like from each of its images: the move turned as the position is leads to the
/// turned position, and both zero or neither does.
pub fn images_keep_steps()
    ensures turns { (n : ℕ) (flipped : Bool) (p p' q : Setup) (m : Move) → IsAdmissible p → KeepsPlay n p.men →
        IsTurnedBy n flipped p p' → Leads p m q →
        (q' : Setup) × Leads p' (turned_move n flipped m) q' × IsTurnedBy n flipped q q' × KeepsPlay n q.men
        × (Zeroes p m ↔ Zeroes p' (turned_move n flipped m)) }
    ensures images { (p p' q : Setup) (m : Move) → IsAdmissible p → AreImages p p' → Leads p m q →
        (m' : Move) × (q' : Setup) × Leads p' m' q' × AreImages q q' × (Zeroes p m ↔ Zeroes p' m') }
    ensures checkmate { (p p' : Setup) → IsAdmissible p → AreImages p p' → IsCheckmate p ↔ IsCheckmate p' }
{
    images_come_by_mirrors();
    images_are_turns();
    turns_come_by_mirrors();
}

/// A position and its settled form have the same moves: each leads to one position from both, and zeroes in both or in
/// neither.
pub fn settling_keeps_steps()
    ensures leads { (p q r : Setup) (m : Move) → IsAdmissible p → SettlesTo p q → Leads p m r ↔ Leads q m r }
    ensures zeroes { (p q : Setup) (m : Move) → IsAdmissible p → SettlesTo p q → Zeroes p m ↔ Zeroes q m }
    ensures checkmate { (p q : Setup) → IsAdmissible p → SettlesTo p q → IsCheckmate p ↔ IsCheckmate q }
{}

/// A move leads from a position to one position, which is a position again.
pub fn moves_lead_to_one()
    ensures one { (p q r : Setup) (m : Move) → Leads p m q → Leads p m r → q ≡ r }
    ensures admissible { (p q : Setup) (m : Move) → IsAdmissible p → Leads p m q → IsAdmissible q }
    ensures within { (p q : Setup) (m : Move) → IsAdmissible p → Leads p m q → (m.from < 64) × (m.to < 64) }
    ensures played { (p q : Setup) (m : Move) → Leads p m q ↔ (played p m ≡ Some q) }
{}

/// The list of legal moves has each of them, in order and so once.
pub fn moves_are_listed()
    ensures legal { (p : Setup) (m : Move) → IsAdmissible p → Contains (moves_of p) m ↔ IsLegal p m }
    ensures ordered { (p : Setup) → IsInOrder (moves_of p) }
{}

/// No position has two zeroing distances.
pub fn one_zeroing_distance()
    ensures { (p : Setup) (v w : Value) → HasZeroing chess p v → HasZeroing chess p w → v ≡ w }
{}

/// A map of the admissible positions that is its own inverse, and keeps steps, checkmate and zeroing one way, keeps
/// values and zeroing distances.
pub fn mirrors_are_alike()
    ensures values { (f : Setup → Setup) → IsMirror chess IsAdmissible f →
        (p : Setup) → IsAdmissible p → (v : Value) → HasValue chess p v ↔ HasValue chess (f p) v }
    ensures distances { (f : Setup → Setup) → IsMirror chess IsAdmissible f →
        (p : Setup) → IsAdmissible p → (v : Value) → HasZeroing chess p v ↔ HasZeroing chess (f p) v }
{}
