//! Outcomes that entries show, and the scores of steps that lead to them.
ghost use Rattle.std.specs.Prelude.{◌≡◌, ◌<◌, ◌≤◌, true, Option, IfSome};
ghost use Rattle.egt_entries.specs.Prelude.{IsShownBy, IsCounted, is_decisive, zeroing_said, score_of, entry_before};
ghost use Rattle.egt_entries.specs.Prelude.{Outcome};

/// What an entry shows of a position, for the side to move: a win or a loss in so many plies, or a draw.
#[derive(Clone, Copy)]
pub enum Outcome {
    Win(u16),
    Loss(u16),
    Draw,
}

/// The highest score, of a loss in 0; those of later losses come below.
const LOST: u16 = 65_000;

/// The score of a draw.
const DRAWN: u16 = 32_002;

/// The score of a step that says nothing.
pub const UNKNOWN: u16 = 32_001;

/// The most plies that an entry shows.
const LONGEST: u16 = 32_000;

/// What the entry shows, if it shows something.
pub fn shown(entry: u16) -> Option<Outcome>
    ensures { IsShownBy entry result }
{
    if entry == 1 {
        return Some(Outcome::Draw);
    }
    if entry < 3 || entry > 2 * LONGEST + 3 {
        return None;
    }
    if entry % 2 == 0 {
        Some(Outcome::Win(entry / 2 - 1))
    } else {
        Some(Outcome::Loss(entry / 2 - 1))
    }
}

/// Whether the entry shows a win or a loss.
pub fn is_decisive(entry: u16) -> bool
    ensures said { (said : Option Outcome) → IsShownBy entry said → result ≡ is_decisive said }
    ensures long { result ≡ true → 2 < entry }
    ensures short { result ≡ true → entry ≤ 64003 }
{
    2 < entry && entry <= 2 * LONGEST + 3
}

/// The score of a step that says what this entry shows, which is a win or a loss: the sooner a loss comes, the higher;
/// wins come below, the later the higher.
fn decisive_score(entry: u16) -> u16
    requires long { 2 < entry }
    requires short { entry ≤ 64003 }
    ensures { (said : Option Outcome) → IsShownBy entry said → result ≡ score_of said }
{
    let plies = entry / 2 - 1;
    if entry % 2 == 0 { plies } else { LOST - plies }
}

/// The score, in the mate column, of a step to a position with this mate entry. Draws come between wins and losses.
pub fn mate_score(entry: u16) -> u16
    ensures { (said : Option Outcome) → IsShownBy entry said → result ≡ score_of said }
{
    if is_decisive(entry) {
        decisive_score(entry)
    } else if entry == 1 {
        DRAWN
    } else {
        UNKNOWN
    }
}

/// The score, in the zeroing column, of a step to a position with these entries.
pub fn zeroing_score(mate: u16, zeroing: u16, zeroes: bool) -> u16
    ensures { (said other : Option Outcome) → IsShownBy mate said → IsShownBy zeroing other →
        result ≡ score_of (zeroing_said said other zeroes) }
{
    if !is_decisive(mate) {
        return UNKNOWN;
    }
    if zeroes {
        return if mate % 2 == 0 { 0 } else { LOST };
    }
    if is_decisive(zeroing) && mate % 2 == zeroing % 2 {
        decisive_score(zeroing)
    } else {
        UNKNOWN
    }
}

/// The entry that is due where this is the best score of a step, or 0 where none is right.
pub fn entry_before(best: u16) -> u16
    ensures { (said : Option Outcome) → IfSome said IsCounted → best ≡ score_of said → result ≡ entry_before said }
{
    if best >= LOST - LONGEST && best <= LOST {
        2 * (LOST - best) + 4
    } else if best == DRAWN {
        1
    } else if best <= LONGEST {
        2 * best + 5
    } else {
        0
    }
}
