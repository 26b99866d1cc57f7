//! Laws of lines of best play and of reports. These functions do nothing: a caller calls one to know what it
//! ensures.
ghost use Rattle.std.specs.Prelude.{◌≡◌, ◌≢◌, ℕ, List, ◌∷◌, length, true, Option, Some, Result, Err};
ghost use Rattle.egt_probe.specs.Prelude.{other_side, Setup, IsAdmissible, Value, MatesWithin, IsMatedWithin};
ghost use Rattle.egt_probe.specs.Prelude.{CannotMateBefore, AvoidsMateBefore, IsDraw, chess, place_of, IsDead, CanMove};
ghost use Rattle.egt_probe.specs.Prelude.{Move, Reports, IsBest, TellsHold, TellsLine, TellsVerdict, IsHold, IsLine};
ghost use Rattle.egt_probe.specs.Prelude.{plies_of, Loaded, Report, verdict_of, IsVerdict, HoldFault, LineFault};
ghost use Rattle.egt_probe.specs.Prelude.{NoMemory, Missing, Verdict};
ghost use Rattle.egt_probe.specs.declared.outcome.Outcome.TheVariants as outcomes;

use crate::facts::facts;

/// "Mates in n plies" means that the winner forces checkmate within n plies against every defence and that the defender
/// keeps from it for less than n, "draw" that neither side can ever force it, and "dead" that no legal moves of both
/// sides lead to it, which is a draw too. Where the table has the column of the nearest mates, some legal moves lead to
/// it from a position with a legal move that is called a draw.
pub fn what_a_verdict_means()
    ensures mover_mates { (loaded : Loaded) (p : Setup) (c n z : ℕ) →
        IsVerdict loaded p (verdict_of c (outcomes.Decided p.side n z)) →
        MatesWithin chess n p × CannotMateBefore chess n p }
    ensures mover_is_mated { (loaded : Loaded) (p : Setup) (c n z : ℕ) →
        IsVerdict loaded p (verdict_of c (outcomes.Decided (other_side p.side) n z)) →
        IsMatedWithin chess n p × AvoidsMateBefore chess n p }
    ensures draw { (loaded : Loaded) (p : Setup) (c : ℕ) → IsVerdict loaded p (verdict_of c outcomes.Draw) →
        IsDraw chess p }
    ensures dead { (loaded : Loaded) (p : Setup) (c : ℕ) → IsVerdict loaded p (verdict_of c outcomes.Dead) →
        IsDraw chess p × IsDead chess p }
    ensures alive { (loaded : Loaded) (p : Setup) (c : ℕ) → IsVerdict loaded p (verdict_of c outcomes.Draw) →
        loaded c ≡ Some true → CanMove p → ¬ IsDead chess p }
{}

/// A line of best play has as many moves as there are plies to mate.
pub fn a_line_has_a_move_a_ply()
    ensures { (p : Setup) (v : Value) (ms : List Move) → IsLine p v ms → length ms ≡ plies_of v }
{}

/// The best move stands where the first move of the line of best play does in the order of moves, and where the move
/// does that holds a draw.
pub fn the_best_move_begins_the_line()
    ensures line { (p : Setup) (v : Value) (ms : List Move) (m : Move) → IsLine p v ms → IsBest p (Some m) →
        (n : Move) × (rest : List Move) × (ms ≡ n ∷ rest) × (place_of n ≡ place_of m) }
    ensures hold { (p : Setup) (n m : Move) → IsHold p (Some n) → IsBest p (Some m) → place_of n ≡ place_of m }
{
    facts();
}

/// A line has one report, by the rules of play, the classes that are loaded and which of their tables have the column
/// of the nearest mates, alone.
pub fn a_line_has_one_report()
    ensures { (loaded : Loaded) (line one other : List ℕ) → Report loaded line one → Report loaded line other →
        one ≡ other }
{
    facts();
}

/// Where the same classes are loaded, and the same of their tables have the column of the nearest mates, the same lines
/// have the same reports.
pub fn the_same_classes_give_the_same_reports()
    ensures { (loaded others : Loaded) (lines : List (List ℕ)) (one other : List ℕ) → ((c : ℕ) → loaded c ≡ others c) →
        Reports loaded lines one → Reports others lines other → one ≡ other }
{
    facts();
}

/// Where the same classes are loaded, and the same of their tables have the column of the nearest mates, the same is
/// told of a position: its verdict, its line, the move that holds its draw, or the fault; a line alone may be refused
/// for want of memory.
pub fn the_same_classes_give_the_same_answers()
    ensures verdict { (loaded others : Loaded) (p : Setup) (one other : Result Verdict Missing) → IsAdmissible p →
        ((c : ℕ) → loaded c ≡ others c) → TellsVerdict loaded p one → TellsVerdict others p other → one ≡ other }
    ensures line { (loaded others : Loaded) (p : Setup) (one other : Result (List Move) LineFault) → IsAdmissible p →
        ((c : ℕ) → loaded c ≡ others c) → TellsLine loaded p one → TellsLine others p other →
        one ≢ Err NoMemory → other ≢ Err NoMemory → one ≡ other }
    ensures hold { (loaded others : Loaded) (p : Setup) (one other : Result (Option Move) HoldFault) → IsAdmissible p →
        ((c : ℕ) → loaded c ≡ others c) → TellsHold loaded p one → TellsHold others p other → one ≡ other }
{
    facts();
}
