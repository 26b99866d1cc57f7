//! Laws of files. Each is what the contract of a function that does nothing says.
ghost use Rattle.std.specs.Prelude.{◌≡◌, ◌<◌, ◌^◌, ℕ, List, length, None};
ghost use Rattle.egt_table.specs.Prelude.{little_bytes, little_number, AreBytes, bytes_of, file_fault, EntriesFit};
ghost use Rattle.egt_table.specs.Prelude.{EntriesStand, HeaderStands, IsTable, TableValue};

use egt_class::{Class, size};

/// The bytes of a number, the lowest first, determine it.
pub fn bytes_tell_their_number()
    ensures { (n x y : ℕ) → x < 256 ^ n → y < 256 ^ n → little_bytes n x ≡ little_bytes n y → x ≡ y }
{}

/// No other bytes, as many, make the same number.
pub fn a_number_tells_its_bytes()
    ensures { (n : ℕ) (xs ys : List ℕ) → AreBytes xs → AreBytes ys → length xs ≡ n → length ys ≡ n
        → little_number n xs ≡ little_number n ys → xs ≡ ys }
{}

/// The file of a table of the class has no fault.
pub fn a_written_file_has_no_fault(class: Class)
    ensures { (t : TableValue) → IsTable t → t.class ≡ class → file_fault class (bytes_of t) ≡ None }
{
    let _fits = size(class);
}

/// Where the numbers of a file stand: those of the header, and each entry of each column that is there.
pub fn numbers_stand_at_their_offsets(class: Class)
    ensures header { (t : TableValue) → IsTable t → t.class ≡ class → HeaderStands t (bytes_of t) }
    ensures entries { (t : TableValue) → IsTable t → t.class ≡ class → EntriesFit t → EntriesStand t (bytes_of t) }
{
    let _fits = size(class);
}

/// Two tables with the same file are the same.
pub fn a_file_is_of_one_table()
    ensures { (t u : TableValue) → IsTable t → IsTable u → EntriesFit t → EntriesFit u → bytes_of t ≡ bytes_of u →
        t ≡ u }
{}
