//! The header of a table's file.
ghost use Rattle.std.specs.Prelude.{◌≡◌, ◌≤◌, length, drop, None, Some, OnOk, IfErr};
ghost use Rattle.egt_table.specs.Prelude.{little_number};
ghost use Rattle.egt_table.specs.File.{columns_in as number_of_columns, first_fault, header_fields, header_of};
ghost use Rattle.egt_table.specs.File.{stated_version};

use crate::fault::FileFault;
use byteorder::{ByteOrder, LittleEndian};
use egt_class::{Class, size};

/// How many bytes a header has.
pub(crate) const LENGTH: usize = 16;

/// The bytes of `EGTB`.
const MAGIC: u32 = 0x4254_4745;

/// The version of files without the column of the nearest mates.
pub(crate) const WITHOUT_REACH: u16 = 1;

/// The version of files with it.
pub(crate) const WITH_REACH: u16 = 2;

const LAYOUT: u16 = 1;

/// How many columns a file of the version has.
fn columns_in(version: u16) -> u16
    requires { version ≤ 2 }
    ensures { result ≡ number_of_columns version }
{
    version + 1
}

/// The header of the class's file of the version.
pub(crate) fn header(version: u16, class: Class) -> [u8; LENGTH]
    requires { version ≤ 2 }
    ensures { result ≡ header_of version class }
{
    let mut header = [0; LENGTH];
    LittleEndian::write_u32(&mut header[0..4], MAGIC);
    LittleEndian::write_u16(&mut header[4..6], version);
    LittleEndian::write_u16(&mut header[6..8], LAYOUT);
    LittleEndian::write_u16(&mut header[8..10], u16::from(class.number()));
    LittleEndian::write_u16(&mut header[10..12], columns_in(version));
    LittleEndian::write_u32(&mut header[12..16], size(class));
    header
}

/// The number in the first two bytes, and what stands behind them.
fn front_u16(bytes: &[u8]) -> (u16, &[u8])
    requires { 2 ≤ length bytes.now }
    ensures number { result.0 ≡ little_number 2 bytes.now }
    ensures rest { result.1.now ≡ drop 2 bytes.now }
{
    (LittleEndian::read_u16(bytes), bytes.split_at(2).1)
}

/// The number in the first four bytes, and what stands behind them.
fn front_u32(bytes: &[u8]) -> (u32, &[u8])
    requires { 4 ≤ length bytes.now }
    ensures number { result.0 ≡ little_number 4 bytes.now }
    ensures rest { result.1.now ≡ drop 4 bytes.now }
{
    (LittleEndian::read_u32(bytes), bytes.split_at(4).1)
}

/// The version that a header tells. Any other than 2 is to be 1.
pub(crate) fn version_in(header: &[u8; LENGTH]) -> u16
    ensures { result ≡ stated_version header.now }
{
    if LittleEndian::read_u16(&header[4..6]) == WITH_REACH {
        WITH_REACH
    } else {
        WITHOUT_REACH
    }
}

/// Compares the header with that of the class's file of the version. The fault is that of the first field that differs.
#[tactic(auto, unfolding(crate::specs::File::header_fields))]
pub(crate) fn check_header(
    version: u16,
    class: Class,
    header: &[u8; LENGTH],
) -> Result<(), FileFault>
    requires { version ≤ 2 }
    ensures right { OnOk result (first_fault (header_fields version class) header.now ≡ None) }
    ensures fault { IfErr result (λ fault. first_fault (header_fields version class) header.now ≡ Some fault) }
{
    let (magic, rest) = front_u32(header);
    if magic != MAGIC {
        return Err(FileFault::Magic);
    }
    let (told, rest) = front_u16(rest);
    if told != version {
        return Err(FileFault::Version);
    }
    let (layout, rest) = front_u16(rest);
    if layout != LAYOUT {
        return Err(FileFault::Layout);
    }
    let (number, rest) = front_u16(rest);
    if number != u16::from(class.number()) {
        return Err(FileFault::Class);
    }
    let (columns, rest) = front_u16(rest);
    if columns != columns_in(version) {
        return Err(FileFault::Columns);
    }
    let (count, _) = front_u32(rest);
    if count != size(class) {
        return Err(FileFault::Count);
    }
    Ok(())
}
