//! Faults, as C reads them.
ghost use Rattle.std.specs.Prelude.{◌≡◌};
ghost use Rattle.egt_c.specs.Prelude.{column_place, rule_place};

use egt_board::PosFault;
use egt_check::{Reject, Rule};
use egt_class::Class;
use egt_fen::FenFault;
use egt_table::{Column, FileFault};

/// Why a call gave no answer, or nothing but zeros where it gave one. A fault of a class names it; one of an entry
/// names its column, the rule that it breaks and its index. What a fault does not name is 0.
#[repr(C)]
#[derive(Clone, Copy, Debug, PartialEq, Eq)]
pub struct EgtbFault {
    /// 1 FEN, 2 file, 3 check, 4 probe, 5 call.
    pub family: u8,
    /// Its number in the family.
    pub number: u8,
    /// The class that is missing or lacks a column.
    pub class_number: u8,
    /// 1 mate, 2 zeroing, 3 reach.
    pub column: u8,
    /// 1 void, 2 range, 3 kind, 4 win, 5 loss, 6 draw, 7 reach, 8 dead.
    pub rule: u8,
    pub index: u32,
}

/// The column's place, from 1.
fn column_place(column: Column) -> u8
    ensures { result ≡ column_place column }
{
    match column {
        Column::Mate => 1,
        Column::Zeroing => 2,
        Column::Reach => 3,
    }
}

/// The rule's place, from 1, in the order in which rules are asked.
fn rule_place(rule: Rule) -> u8
    ensures { result ≡ rule_place rule }
{
    match rule {
        Rule::Void => 1,
        Rule::Range => 2,
        Rule::Kind => 3,
        Rule::Win => 4,
        Rule::Loss => 5,
        Rule::Draw => 6,
        Rule::Reach => 7,
        Rule::Dead => 8,
    }
}

impl EgtbFault {
    ghost use Rattle.egt_c.specs.Fault.{fault, about, no_fault, of_fen, of_file, of_check};
    ghost use Rattle.egt_c.specs.Fault.{of_setup, missing, no_memory, closed, no_class, shared, no_man};

    fn new(family: u8, number: u8) -> EgtbFault
        ensures { result ≡ fault family number }
    {
        EgtbFault {
            family,
            number,
            class_number: 0,
            column: 0,
            rule: 0,
            index: 0,
        }
    }

    fn about(family: u8, number: u8, class: Class) -> EgtbFault
        ensures { result ≡ about family number class }
    {
        EgtbFault {
            family,
            number,
            class_number: class.number(),
            column: 0,
            rule: 0,
            index: 0,
        }
    }

    pub(crate) fn none() -> EgtbFault
        ensures { result ≡ no_fault }
    {
        EgtbFault::new(0, 0)
    }

    pub(crate) fn of_fen(fault: FenFault) -> EgtbFault
        ensures { result ≡ of_fen fault }
    {
        EgtbFault::new(1, fault.number())
    }

    /// Of a position given by its men.
    pub(crate) fn of_setup(fault: PosFault) -> EgtbFault
        ensures { result ≡ of_setup fault }
    {
        EgtbFault::new(1, fault.number())
    }

    pub(crate) fn of_file(fault: FileFault) -> EgtbFault
        ensures { result ≡ of_file fault }
    {
        EgtbFault::new(2, fault.number())
    }

    pub(crate) fn of_check(reject: Reject) -> EgtbFault
        ensures { result ≡ of_check reject }
    {
        match reject {
            Reject::Missing(class) => EgtbFault::about(3, 11, class),
            Reject::NoReach(class) => EgtbFault::about(3, 17, class),
            Reject::AlreadyThere => EgtbFault::new(3, 13),
            Reject::Rejected {
                column,
                index,
                rule,
            } => EgtbFault {
                family: 3,
                number: 12,
                class_number: 0,
                column: column_place(column),
                rule: rule_place(rule),
                index,
            },
        }
    }

    /// The class of the position is not loaded.
    pub(crate) fn missing(class: Class) -> EgtbFault
        ensures { result ≡ missing class }
    {
        EgtbFault::about(4, 11, class)
    }

    pub(crate) fn no_memory() -> EgtbFault
        ensures { result ≡ no_memory }
    {
        EgtbFault::new(4, 10)
    }

    /// The library is closed.
    pub(crate) fn closed() -> EgtbFault
        ensures { result ≡ closed }
    {
        EgtbFault::new(5, 1)
    }

    /// The library has another owner.
    pub(crate) fn shared() -> EgtbFault
        ensures { result ≡ shared }
    {
        EgtbFault::new(5, 3)
    }

    /// No class has that number.
    pub(crate) fn no_class() -> EgtbFault
        ensures { result ≡ no_class }
    {
        EgtbFault::new(5, 2)
    }

    /// A number names no square, side or kind of man.
    pub(crate) fn no_man() -> EgtbFault
        ensures { result ≡ no_man }
    {
        EgtbFault::new(5, 4)
    }
}
