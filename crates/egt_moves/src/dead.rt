//! Laws of the nearest checkmate by legal moves of both sides, and of dead positions (FIDE Laws of Chess 2023,
//! article 5.2.2). These functions do nothing: a caller calls one to know what it ensures.
ghost use Rattle.std.specs.Prelude.{◌≡◌, ◌↔◌, ◌⊎◌, ℕ, ◌≤◌, Bool, IsTrue, Option};
ghost use Rattle.egt_moves.specs.Prelude.{AreImages, SettlesTo, Setup, IsAdmissible, Draw, HasValue, IsStalemate};
ghost use Rattle.egt_moves.specs.Prelude.{chess, ReachesMateWithin, IsDead, HasReach, ReachJudgedOver};

use egt_board::laws::images_come_by_mirrors;

/// A dead position is a draw, and a stalemate is dead.
pub fn dead_positions_are_drawn()
    ensures drawn { (p : Setup) → IsDead chess p → HasValue chess p Draw }
    ensures stalemate { (p : Setup) → IsStalemate chess p → IsDead chess p }
{}

/// A line of some number of plies to checkmate is one of any greater number, and there is a least.
pub fn more_plies_reach_more()
    ensures more { (m n : ℕ) (p : Setup) → m ≤ n → ReachesMateWithin chess m p → ReachesMateWithin chess n p }
    ensures least { (n : ℕ) (p : Setup) → ReachesMateWithin chess n p → (k : ℕ) × HasReach chess p (Some k) × (k ≤ n) }
{}

/// A position has one number at most, and none where it is dead.
pub fn one_reach()
    ensures { (p : Setup) (x y : Option ℕ) → HasReach chess p x → HasReach chess p y → x ≡ y }
{}

/// A position and its settled form have the same number, and so have a position and each of its images.
pub fn reach_is_kept()
    ensures settling { (p q : Setup) → IsAdmissible p → SettlesTo p q → (x : Option ℕ) →
        HasReach chess p x ↔ HasReach chess q x }
    ensures images { (p q : Setup) → IsAdmissible p → AreImages p q → (x : Option ℕ) →
        HasReach chess p x ↔ HasReach chess q x }
{
    images_come_by_mirrors();
}

/// Entries that fit their successors' are the numbers, in whatever class a test tells, and true numbers fit.
pub fn reach_entries_are_true()
    ensures are_true { (own : Setup → Bool) (e : Setup → Option ℕ) → ReachJudgedOver chess (λ p. IsTrue (own p)) e →
        (p : Setup) → IsTrue (own p) → HasReach chess p (e p) }
    ensures fit { (own : Setup → Bool) (e : Setup → Option ℕ) →
        ((p : Setup) → IsTrue (own p) → HasReach chess p (e p)) →
        ((p q : Setup) → IsTrue (own p) → chess.Move p q → IsTrue (own q) ⊎ HasReach chess q (e q)) →
        ReachJudgedOver chess (λ p. IsTrue (own p)) e }
{}
