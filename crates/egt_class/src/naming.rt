//! The names of classes.
ghost use Rattle.std.specs.Prelude.{◌≡◌, ◌≢◌, ◌<◌, ◌+◌, ℕ, [], ◌∷◌, ◌++◌, IfSome, IfNone, slice_index};
ghost use Rattle.egt_class.specs.Prelude.{filter, array_string_len, name_of, is_letter};

use crate::class::Class;
use arrayvec::ArrayString;

/// The names in order of the classes' numbers, each filled up with spaces.
static NAMES: [[u8; 4]; 36] = [
    *b"KK  ", *b"KQK ", *b"KRK ", *b"KBK ", *b"KNK ", *b"KPK ", *b"KQQK", *b"KQRK", *b"KQBK",
    *b"KQNK", *b"KRRK", *b"KRBK", *b"KRNK", *b"KBBK", *b"KBNK", *b"KNNK", *b"KQKQ", *b"KQKR",
    *b"KQKB", *b"KQKN", *b"KRKR", *b"KRKB", *b"KRKN", *b"KBKB", *b"KBKN", *b"KNKN", *b"KQPK",
    *b"KRPK", *b"KBPK", *b"KNPK", *b"KQKP", *b"KRKP", *b"KBKP", *b"KNKP", *b"KPPK", *b"KPKP",
];

/// The class's name, filled up with spaces.
fn padded(class: Class) -> [u8; 4]
    ensures letters { filter is_letter result ≡ name_of class }
    ensures ascii { (k : ℕ) → slice_index result k < 128 }
{
    NAMES[usize::from(class.number())]
}

/// Appends an ASCII character.
fn push_letter(name: &mut ArrayString<4>, letter: u8)
    requires ascii { letter < 128 }
    requires room { array_string_len name.old < 4 }
    ensures bytes { name.new.bytes ≡ name.old.bytes ++ letter ∷ [] }
    ensures len { array_string_len name.new ≡ array_string_len name.old + 1 }
{
    name.push(char::from(letter));
}

/// The class's name: the letters of the men of the side named first, its king foremost, and then of the other side's
/// men.
pub fn name(class: Class) -> ArrayString<4>
    ensures { result.bytes ≡ name_of class }
{
    let mut name = ArrayString::new();
    let letters = padded(class);
    for &letter in &letters {
        if letter != b' ' {
            push_letter(&mut name, letter);
        }
    }
    name
}

/// The class of that name; `None` where no class has it. Letters are capitals.
pub fn by_name(text: &str) -> Option<Class>
    ensures found { IfSome result (λ c. name_of c ≡ text.now) }
    ensures unknown { IfNone result ((c : ℕ) → c < 36 → name_of c ≢ text.now) }
{
    for number in 0..36 {
        let class = Class::at(number);
        if name(class).as_str() == text {
            return Some(class);
        }
    }
    None
}
