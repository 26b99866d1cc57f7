//! Tables put into a library and taken from it.
use super::refused::rejected;
use crate::asserts::{agree, require};
use egt_check::{Library, Reject, Rule};
use egt_class::Class;
use egt_plain::PlainTables;
use egt_plain::kings::table_with;
use egt_plain::shelf::{entry_of, library_of, whole_library_of};
use egt_table::Column;
use std::test::*;

#[test]
fn a_table_is_taken_once(rt: HostRuntime) -> Result<(), Fail> {
    let mut library = Library::new(rt.alloc())?;
    require(&rt, library.get(Class::at(0)).is_none());
    let right = library.admit(table_with(rt.alloc(), &[], &[])?).is_ok();
    require(&rt, right);
    let Some(table) = library.get(Class::at(0)) else {
        return Err(Fail::from("no table"));
    };
    agree(&rt, entry_of(table, Column::Mate, 4), Some(1));
    require(&rt, library.get(Class::at(1)).is_none());
    let Err((again, reject)) = library.admit(table_with(rt.alloc(), &[], &[(4, 7)])?) else {
        return Err(Fail::from("taken twice"));
    };
    agree(&rt, reject, Reject::AlreadyThere);
    agree(&rt, entry_of(&again, Column::Zeroing, 4), Some(7));
    Ok(())
}

#[test]
fn a_bad_table_comes_back(rt: HostRuntime) -> Result<(), Fail> {
    let mut library = Library::new(rt.alloc())?;
    let Err((table, reject)) = library.admit(table_with(rt.alloc(), &[(4, 3)], &[])?) else {
        return Err(Fail::from("taken"));
    };
    agree(&rt, Err(reject), rejected(Column::Mate, 4, Rule::Loss));
    agree(&rt, entry_of(&table, Column::Mate, 4), Some(3));
    require(&rt, library.get(Class::at(0)).is_none());
    Ok(())
}

const RULES: [(Rule, &str); 8] = [
    (Rule::Void, "void"),
    (Rule::Range, "range"),
    (Rule::Kind, "kind"),
    (Rule::Win, "win"),
    (Rule::Loss, "loss"),
    (Rule::Draw, "draw"),
    (Rule::Reach, "reach"),
    (Rule::Dead, "dead"),
];

#[test]
fn refusals_by_number_and_name(rt: HostRuntime) -> Result<(), Fail> {
    let missing = Reject::Missing(Class::at(0));
    require(&rt, missing.number() == 11 && missing.name() == "Missing");
    let there = Reject::AlreadyThere;
    require(&rt, there.number() == 13 && there.name() == "AlreadyThere");
    let lacking = Reject::NoReach(Class::at(0));
    require(&rt, lacking.number() == 17 && lacking.name() == "NoReach");
    let bad = Reject::Rejected {
        column: Column::Zeroing,
        index: 4,
        rule: Rule::Kind,
    };
    require(&rt, bad.number() == 12 && bad.name() == "Rejected");
    for &(rule, name) in &RULES {
        agree(&rt, rule.name(), name);
    }
    Ok(())
}

/// Whether the library has a table of each class below a number.
fn has_all(library: &Library, end: u8) -> Option<bool> {
    for number in 0..end {
        if library.get(Class::new(number)?).is_none() {
            return Some(false);
        }
    }
    Some(true)
}

#[test]
fn the_first_six_classes_are_admitted_in_order(rt: HostRuntime) -> Result<(), Fail> {
    let tables = PlainTables::solve(rt.alloc(), 6)?;
    let library = library_of(rt.alloc(), &tables, 6)?;
    require(&rt, has_all(&library, 6) == Some(true));
    let whole = whole_library_of(rt.alloc(), &tables, 6)?;
    require(&rt, has_all(&whole, 6) == Some(true));
    Ok(())
}
