//! Tables read from files.
ghost use Rattle.std.specs.Prelude.{◌≡◌, ◌+◌, ◌*◌, ◌≤◌, [], ◌++◌, length, IfOk, IfErr, IfSome, OnOk};
ghost use Rattle.egt_table.specs.Prelude.{Consumes, IsAtEnd, size_of, HasHeader, IsAnswer, Reads, entries_bytes};
ghost use Rattle.egt_table.specs.Prelude.{header_of, stated_version, CountsDevice, IsAll, IsCut, IsMisfit, IsVersion};
ghost use Rattle.egt_table.specs.Prelude.{length_in, reach_in};

use crate::fault::FileFault;
use crate::header::{LENGTH, WITH_REACH, check_header, version_in};
use crate::stream::Source;
use crate::table::Table;
use crate::transfer::{PIECE, PIECE_BYTES, fill};
use byteorder::{ByteOrder, LittleEndian};
use egt_class::{Class, size};
use egt_graph::{Nears, Ranks};
use std::alloc::Global;

/// Takes the header off the source, and gives the version that it tells.
fn read_header<S: Source>(class: Class, source: &mut S) -> Result<u16, FileFault>
    ensures header { IfOk result (λ version. Consumes (S.left source.old) (S.left source.new)
        (header_of version class)) }
    ensures right { IfOk result (λ version. IfSome (S.left source.old)
        (λ bytes. HasHeader class bytes × (stated_version bytes ≡ version))) }
    ensures version { IfOk result IsVersion }
    ensures fault { IfErr result (λ fault. IfSome (S.left source.old) (λ bytes. IsAnswer class bytes fault)) }
    ensures failures { CountsDevice result (S.failures source.old) (S.failures source.new) }
{
    let mut header = [0; LENGTH];
    let n = fill(source, &mut header)?;
    if n < LENGTH {
        return Err(FileFault::Short);
    }
    let version = version_in(&header);
    check_header(version, class, &header)?;
    Ok(version)
}

/// Takes the bytes of at most 2,048 entries off the source.
fn read_piece<S: Source>(
    source: &mut S,
    entries: &mut [u16],
    buffer: &mut [u8; PIECE_BYTES],
) -> Result<(), FileFault>
    requires { length entries.old ≤ 2048 }
    ensures bytes { OnOk result (Consumes (S.left source.old) (S.left source.new) (entries_bytes entries.new)) }
    ensures fault { IfErr result (λ fault. IsCut (2 * length entries.old) (S.left source.old) fault) }
    ensures failures { CountsDevice result (S.failures source.old) (S.failures source.new) }
{
    let bytes = &mut buffer[..2 * entries.len()];
    let n = fill(source, bytes)?;
    if n < bytes.len() {
        return Err(FileFault::Short);
    }
    LittleEndian::read_u16_into(bytes, entries);
    Ok(())
}

/// Takes the bytes of so many entries off the source, and puts the entries into the column, which is empty. They come
/// in pieces that the processor's cache holds, and memory is written once.
fn read_entries<S: Source>(
    source: &mut S,
    column: &mut Vec<u16>,
    len: usize,
) -> Result<(), FileFault>
    requires { column.old.items ≡ [] }
    ensures long { OnOk result (length column.new.items ≡ len) }
    ensures bytes { OnOk result (Consumes (S.left source.old) (S.left source.new) (entries_bytes column.new.items)) }
    ensures fault { IfErr result (λ fault. IsCut (2 * len) (S.left source.old) fault) }
    ensures failures { CountsDevice result (S.failures source.old) (S.failures source.new) }
{
    let mut buffer = [0; PIECE_BYTES];
    let mut piece = [0; PIECE];
    'pieces: while column.len() < len {
        let n = (len - column.len()).min(PIECE);
        read_piece(source, &mut piece[..n], &mut buffer)?;
        column.extend_from_slice(&piece[..n])?;
    }
    Ok(())
}

/// Sees that nothing is left.
fn read_end<S: Source>(source: &mut S) -> Result<(), FileFault>
    ensures end { OnOk result (IsAll (S.left source.old) []) }
    ensures fault { IfErr result (λ fault. IsMisfit 0 (S.left source.old) fault) }
    ensures failures { CountsDevice result (S.failures source.old) (S.failures source.new) }
{
    let n = fill(source, &mut [0])?;
    if n > 0 {
        return Err(FileFault::Trailing);
    }
    Ok(())
}

/// Takes the columns off the source, which ends with them, into empty ones: two of `len` entries, one of `reach_len`.
fn read_columns<S: Source>(
    source: &mut S,
    mate: &mut Vec<u16>,
    zeroing: &mut Vec<u16>,
    reach: &mut Vec<u16>,
    len: usize,
    reach_len: usize,
) -> Result<(), FileFault>
    requires mate { mate.old.items ≡ [] }
    requires zeroing { zeroing.old.items ≡ [] }
    requires reach { reach.old.items ≡ [] }
    ensures long { OnOk result ((length mate.new.items ≡ len) × (length zeroing.new.items ≡ len)) }
    ensures reach_long { OnOk result (length reach.new.items ≡ reach_len) }
    ensures bytes { OnOk result (IsAll (S.left source.old)
        (entries_bytes mate.new.items ++ (entries_bytes zeroing.new.items ++ entries_bytes reach.new.items))) }
    ensures fault { IfErr result (λ fault. IsMisfit (2 * len + 2 * len + 2 * reach_len) (S.left source.old) fault) }
    ensures failures { CountsDevice result (S.failures source.old) (S.failures source.new) }
{
    read_entries(source, mate, len)?;
    read_entries(source, zeroing, len)?;
    read_entries(source, reach, reach_len)?;
    read_end(source)
}

/// How many entries the column of the nearest mates has in a file of the version: none where it is not there.
fn reach_len(version: u16, class: Class) -> usize
    ensures { result ≡ length_in version class }
{
    if version == WITH_REACH {
        size(class) as usize
    } else {
        0
    }
}

/// The table of the columns of a file of the version.
fn table_of(version: u16, class: Class, mate: Vec<u16>, zeroing: Vec<u16>, reach: Vec<u16>) -> Table
    requires mate { length mate.items ≡ size_of class }
    requires zeroing { length zeroing.items ≡ size_of class }
    requires reach { length reach.items ≡ length_in version class }
    ensures { result ≡ record {
      class = class;
      mate = mate.items;
      zeroing = zeroing.items;
      reach = reach_in version reach.items;
    } }
{
    let mate = Ranks::from_entries(mate);
    let zeroing = Ranks::from_entries(zeroing);
    let table = match Table::from_ranks(class, mate, zeroing) {
        Ok(table) => table,
        Err(_) => unreachable!(),
    };
    if version != WITH_REACH {
        return table;
    }
    match table.with_reach(Nears::from_entries(reach)) {
        Ok(table) => table,
        Err(_) => unreachable!(),
    }
}

impl Table {
    /// The table of the class whose file the bytes are that the source has left. Nothing is reserved before the header
    /// is right, and room for the column of the nearest mates only where the header says that it is there. How much of
    /// the source was read after a fault is not said.
    ///
    /// # Errors
    ///
    /// The first fault of the bytes, in the order `Short` where there are fewer than 16, `Magic`, `Version`, `Layout`,
    /// `Class`, `Columns`, `Count`, and then `Short` or `Trailing` where the file ends early or late. `Device` where
    /// the source failed, and `NoMemory`, only for bytes with a right header, where there is no memory for the entries.
    pub fn read<S: Source>(alloc: Global, class: Class, source: &mut S) -> Result<Table, FileFault>
        ensures class { IfOk result (λ t. t.class ≡ class) }
        ensures reads { IfSome (S.left source.old) (λ bytes. Reads class bytes result) }
        ensures failures { CountsDevice result (S.failures source.old) (S.failures source.new) }
    {
        let version = read_header(class, source)?;
        let size = size(class) as usize;
        let reach_size = reach_len(version, class);
        let mut mate = Vec::with_capacity(alloc, size)?;
        let mut zeroing = Vec::with_capacity(alloc, size)?;
        let mut reach = Vec::with_capacity(alloc, reach_size)?;
        read_columns(
            source,
            &mut mate,
            &mut zeroing,
            &mut reach,
            size,
            reach_size,
        )?;
        Ok(table_of(version, class, mate, zeroing, reach))
    }
}
