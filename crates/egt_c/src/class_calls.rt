//! Classes by number.
ghost use Rattle.std.specs.Prelude.{◌≡◌, ◌≢◌, ◌<◌, ◌≤◌, ◌↔◌, ℕ, take, IsTrue};
ghost use Rattle.egt_c.specs.Prelude.{children_of, name_of, padded_name};

use egt_class::{Class, children, name};

/// The number of the class of that name; 255 where no class has it.
#[unsafe(no_mangle)]
pub extern "C" fn egtb_class(text: &[u8]) -> u8
    ensures found { result < 36 → name_of result ≡ text.now }
    ensures unknown { 36 ≤ result → (c : ℕ) → c < 36 → name_of c ≢ text.now }
{
    for number in 0..36 {
        let class = name(Class::at(number));
        if class.as_bytes() == text {
            return number;
        }
    }
    255
}

/// Writes the numbers of the classes that captures and promotions lead to from the class of that number, ascending, and
/// answers how many they are: none where no class has the number.
#[unsafe(no_mangle)]
pub extern "C" fn egtb_children(class_number: u8, into: &mut [u8; 9]) -> u8
    ensures children { class_number < 36 → take result into.new ≡ children_of class_number }
    ensures no_class { 36 ≤ class_number → (result ≡ 0) × (into.new ≡ into.old) }
{
    let Some(class) = Class::new(class_number) else {
        return 0;
    };
    let mut count = 0;
    for child in children(class).as_slice() {
        into[usize::from(count)] = child.number();
        count += 1;
    }
    count
}

/// Writes the name of the class of that number, with zeros behind it, and answers whether a class has the number.
#[unsafe(no_mangle)]
pub extern "C" fn egtb_class_name(class_number: u8, text: &mut [u8; 5]) -> bool
    ensures named { class_number < 36 → text.new ≡ padded_name (name_of class_number) }
    ensures no_class { 36 ≤ class_number → text.new ≡ text.old }
    ensures told { IsTrue result ↔ (class_number < 36) }
{
    let Some(class) = Class::new(class_number) else {
        return false;
    };
    let name = name(class);
    *text = [0; 5];
    text[..name.len()].copy_from_slice(name.as_bytes());
    true
}
