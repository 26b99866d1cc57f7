//! The names of faults, and the version.
ghost use Rattle.std.specs.Prelude.{◌≡◌, ◌≤◌, length};
ghost use Rattle.egt_c.specs.Prelude.{PosFault, Reject, FenFault, FileFault, Device, fen_name, file_name, check_name};
ghost use Rattle.egt_c.specs.Prelude.{probe_name, call_name, fault_name, padded_fault, version_text};
ghost use Rattle.egt_board.specs.Fault as setups;
ghost use Rattle.egt_entries.specs.Names as checks;
ghost use Rattle.egt_fen.specs.Fault as fens;
ghost use Rattle.egt_table.specs.Fault as files;

use crate::fault::EgtbFault;

/// The name of a fault of family 1.
fn fen_name(number: u8) -> &'static str
    ensures name { result.now ≡ fen_name number }
    ensures short { length result.now ≤ 15 }
{
    match number {
        1 => "FieldCount",
        2 => "Placement",
        3 => "Colour",
        4 => "Castling",
        5 => "EpField",
        6 => "Counter",
        7 => "MenCount",
        8 => "KingCount",
        9 => "PawnRank",
        10 => "EpMismatch",
        11 => "WaitingInCheck",
        _ => "",
    }
}

/// The name of a fault of family 2.
fn file_name(number: u8) -> &'static str
    ensures name { result.now ≡ file_name number }
    ensures short { length result.now ≤ 15 }
{
    match number {
        2 => "Short",
        3 => "Magic",
        4 => "Version",
        5 => "Layout",
        6 => "Class",
        7 => "Columns",
        8 => "Count",
        9 => "Trailing",
        10 => "NoMemory",
        _ => "",
    }
}

/// The name of a fault.
fn fault_name(family: u8, number: u8) -> &'static str
    ensures name { result.now ≡ fault_name family number }
    ensures short { length result.now ≤ 15 }
{
    match family {
        1 => fen_name(number),
        2 => file_name(number),
        3 => match number {
            11 => "Missing",
            12 => "Rejected",
            13 => "AlreadyThere",
            17 => "NoReach",
            _ => "",
        },
        4 => match number {
            10 => "NoMemory",
            11 => "Missing",
            _ => "",
        },
        5 => match number {
            1 => "Closed",
            2 => "NoClass",
            3 => "Shared",
            4 => "NoMan",
            _ => "",
        },
        _ => "",
    }
}

/// Writes the name of a fault, as it is printed, with zeros behind it; zeros alone where no fault has that family and
/// number.
#[unsafe(no_mangle)]
pub extern "C" fn egtb_fault_name(fault: &EgtbFault, name: &mut [u8; 16])
    ensures { name.new ≡ padded_fault (fault_name fault.now.family fault.now.number) }
{
    let text = fault_name(fault.family, fault.number);
    *name = [0; 16];
    name[..text.len()].copy_from_slice(text.as_bytes());
}

/// The names are those that the crates below give their faults.
pub fn names_are_those_of_the_crates_below()
    ensures fen { (f : FenFault) → fen_name (fens.number_of f) ≡ fens.name_of f }
    ensures setup { (f : PosFault) → fen_name (setups.number_of f) ≡ setups.name_of f }
    ensures file { (f : FileFault) → (f ≡ Device → ⊥) → file_name (files.number_of f) ≡ files.name_of f }
    ensures check { (f : Reject) → check_name (checks.number_of f) ≡ checks.name_of f }
{}

/// Writes the version, with zeros behind it.
#[unsafe(no_mangle)]
pub extern "C" fn egtb_version(version: &mut [u8; 8])
    ensures { version.new ≡ version_text }
{
    *version = *b"1.0\0\0\0\0\0";
}
