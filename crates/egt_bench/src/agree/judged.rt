//! The rules of entries (`docs/RULES.md`), asked plainly of a table with some entries changed.
use crate::agree::codes::{Spelled, spelling};
use crate::agree::entries::{Value, entry_at, said_by};
use crate::agree::setup::Setup;
use crate::agree::steps::{Step, steps};
use arrayvec::ArrayVec;
use egt_board::Position;
use egt_check::{Library, Rule};
use egt_class::{Class, of};
use egt_index::index;
use egt_table::Column;
use egt_unmoves::unmoves;

/// The product spells something else by a code than the plain form.
#[derive(Clone, Copy, Debug, PartialEq, Eq)]
pub struct SpelledOtherwise;

/// An entry put in the place of the one at a code.
#[derive(Clone, Copy)]
pub struct Change {
    pub code: u32,
    pub entry: u16,
}

/// A class's table in the library with one column changed at two codes, or twice at the same.
#[derive(Clone, Copy)]
pub struct Changed<'l> {
    pub library: &'l Library,
    pub class: Class,
    pub column: Column,
    pub changes: [Change; 2],
}

/// What an entry shows of the side to move, if it shows something.
fn shown(entry: u16) -> Option<Value> {
    if entry > 64_003 { None } else { said_by(entry) }
}

/// Whether both show a win, both a loss or both a draw.
fn is_alike(one: Value, other: Value) -> bool {
    match one {
        Value::Win(_) => matches!(other, Value::Win(_)),
        Value::Loss(_) => matches!(other, Value::Loss(_)),
        Value::Draw => other == Value::Draw,
    }
}

/// The plies of a loss, or of a win.
fn plies_of(shown: Option<Value>, lost: bool) -> Option<u16> {
    match shown? {
        Value::Loss(plies) if lost => Some(plies),
        Value::Win(plies) if !lost => Some(plies),
        _ => None,
    }
}

/// The codes whose entries a change at this code can make wrong: its own, and those of the class from which a legal
/// move leads there.
fn around(class: Class, code: u32) -> ArrayVec<u32, 129> {
    let mut codes = ArrayVec::new();
    let _ = codes.try_push(code);
    let Spelled::Position(position) = spelling(class, code) else {
        return codes;
    };
    for unmove in unmoves(&position.settle()).as_slice() {
        let (other, _) = of(&unmove.before);
        if other.number() == class.number() {
            let _ = codes.try_push(index(other, &unmove.before));
        }
    }
    codes
}

impl Changed<'_> {
    /// The entry, changed where it is one that is changed; 0 where there is none.
    pub fn entry(&self, column: Column, class: Class, code: u32) -> u16 {
        if column == self.column && class.number() == self.class.number() {
            for change in &self.changes {
                if change.code == code {
                    return change.entry;
                }
            }
        }
        entry_at(self.library, column, class, code).unwrap_or(0)
    }

    /// The plies that a move to a lost position, or to a won one, counts in the column.
    fn plies(&self, column: Column, step: &Step, lost: bool) -> Option<u16> {
        let mate = shown(self.entry(Column::Mate, step.class, step.index));
        let plies = plies_of(mate, lost)?;
        if column == Column::Mate {
            return Some(plies);
        }
        if step.zeroes {
            return Some(0);
        }
        plies_of(shown(self.entry(column, step.class, step.index)), lost)
    }

    /// The least plies of the moves to lost positions.
    fn least_loss(&self, column: Column, steps: &[Step]) -> Option<u16> {
        let mut least = None;
        for step in steps {
            if let Some(plies) = self.plies(column, step, true) {
                least = Some(match least {
                    Some(other) => plies.min(other),
                    None => plies,
                });
            }
        }
        least
    }

    /// The greatest plies of the moves, where all lead to won positions.
    fn greatest_win(&self, column: Column, steps: &[Step]) -> Option<u16> {
        let mut greatest = None;
        for step in steps {
            let plies = self.plies(column, step, false)?;
            greatest = Some(match greatest {
                Some(other) => plies.max(other),
                None => plies,
            });
        }
        greatest
    }

    /// Whether a move leads to a drawn position.
    fn has_draw(&self, steps: &[Step]) -> bool {
        for step in steps {
            let mate = shown(self.entry(Column::Mate, step.class, step.index));
            if mate == Some(Value::Draw) {
                return true;
            }
        }
        false
    }

    /// The least number that an entry of the nearest mate shows where a move leads.
    fn nearest(&self, steps: &[Step]) -> Option<u16> {
        let mut least = None;
        for step in steps {
            let entry = self.entry(Column::Reach, step.class, step.index);
            if (2..=32_002).contains(&entry) {
                least = Some(match least {
                    Some(other) => entry.min(other),
                    None => entry,
                });
            }
        }
        least
    }

    /// The rule of kinds of values that the entry breaks, by those of the successors.
    fn broken_value(
        &self,
        column: Column,
        shown: Value,
        steps: &[Step],
        in_check: bool,
    ) -> Option<Rule> {
        let (plies, wanted, rule) = match shown {
            Value::Win(plies) => (plies, self.least_loss(column, steps), Rule::Win),
            Value::Loss(0) => {
                let is_kept = steps.is_empty() && in_check;
                return if is_kept { None } else { Some(Rule::Loss) };
            }
            Value::Loss(plies) => (plies, self.greatest_win(column, steps), Rule::Loss),
            Value::Draw => {
                let is_kept = column == Column::Zeroing
                    || (self.least_loss(column, steps).is_none()
                        && (self.has_draw(steps) || (steps.is_empty() && !in_check)));
                return if is_kept { None } else { Some(Rule::Draw) };
            }
        };
        match wanted {
            Some(wanted) if wanted.saturating_add(1) == plies => None,
            _ => Some(rule),
        }
    }

    /// The first rule that an entry of the nearest mate breaks.
    fn broken_reach(&self, entry: u16, steps: &[Step], in_check: bool) -> Option<Rule> {
        if entry > 32_002 {
            return Some(Rule::Range);
        }
        let wanted = match self.nearest(steps) {
            _ if steps.is_empty() && in_check => 2,
            Some(least) => least.saturating_add(1),
            None => 1,
        };
        if entry == wanted {
            None
        } else if entry == 1 {
            Some(Rule::Dead)
        } else {
            Some(Rule::Reach)
        }
    }

    /// The first rule that the entry of a position breaks.
    fn broken_at(&self, code: u32, entry: u16, position: &Position) -> Option<Rule> {
        let steps = steps(position);
        let steps = steps.as_slice();
        let setup = Setup::of(position);
        let in_check = setup.is_in_check(setup.side);
        if self.column == Column::Reach {
            return self.broken_reach(entry, steps, in_check);
        }
        let Some(value) = shown(entry) else {
            return Some(Rule::Range);
        };
        match shown(self.entry(Column::Mate, self.class, code)) {
            Some(mate) if is_alike(mate, value) => {
                self.broken_value(self.column, value, steps, in_check)
            }
            _ => Some(Rule::Kind),
        }
    }

    /// The first rule that the entry of the code, which spells this, breaks in the column that is changed.
    fn broken(&self, code: u32, spelled: &Spelled) -> Result<Option<Rule>, SpelledOtherwise> {
        let entry = self.entry(self.column, self.class, code);
        match spelled {
            Spelled::Position(position) => Ok(if entry == 0 {
                Some(Rule::Void)
            } else {
                self.broken_at(code, entry, position)
            }),
            Spelled::Nothing => Ok(if entry == 0 { None } else { Some(Rule::Void) }),
            Spelled::Otherwise => Err(SpelledOtherwise),
        }
    }

    /// The least code whose entry breaks a rule, and the first that it breaks, where the table is true but for the
    /// changes.
    pub fn first_broken(&self) -> Result<Option<(u32, Rule)>, SpelledOtherwise> {
        let mut first: Option<(u32, Rule)> = None;
        for change in &self.changes {
            for code in around(self.class, change.code).as_slice() {
                let is_before = match first {
                    Some((known, _)) => *code < known,
                    None => true,
                };
                if is_before && let Some(rule) = self.broken(*code, &spelling(self.class, *code))? {
                    first = Some((*code, rule));
                }
            }
        }
        Ok(first)
    }
}

/// Whether the code's entry of each column of the class's table keeps the rules.
pub fn entries_agree(library: &Library, class: Class, code: u32) -> bool {
    let Some(table) = library.get(class) else {
        return false;
    };
    let spelled = spelling(class, code);
    for column in table.columns() {
        let Some(entry) = entry_at(library, *column, class, code) else {
            return false;
        };
        let unchanged = Changed {
            library,
            class,
            column: *column,
            changes: [Change { code, entry }; 2],
        };
        if !matches!(unchanged.broken(code, &spelled), Ok(None)) {
            return false;
        }
    }
    true
}
