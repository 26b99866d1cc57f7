//! The men of each class, in the order of its name.
ghost use Rattle.std.specs.Prelude.{◌≡◌, ◌≢◌, ◌++◌, Option, None, true, IfSome};
ghost use Rattle.egt_index.specs.Prelude.{option_to_list, king_of, White, material_of, has_equal_sides, tells_colours};
ghost use Rattle.egt_index.specs.Prelude.{men_beside, has_pawns, has_target};

use egt_board::{Kind, Man, Side};
use egt_class::Class;

/// A man beside the kings.
macro_rules! man {
    ($side:ident $kind:ident) => {
        Some(Man { side: Side::$side, kind: Kind::$kind })
    };
}

/// The men beside the kings, in order of the classes' numbers.
static NON_KINGS: [(Option<Man>, Option<Man>); 36] = [
    (None, None),
    (man!(White Q), None),
    (man!(White R), None),
    (man!(White B), None),
    (man!(White N), None),
    (man!(White P), None),
    (man!(White Q), man!(White Q)),
    (man!(White Q), man!(White R)),
    (man!(White Q), man!(White B)),
    (man!(White Q), man!(White N)),
    (man!(White R), man!(White R)),
    (man!(White R), man!(White B)),
    (man!(White R), man!(White N)),
    (man!(White B), man!(White B)),
    (man!(White B), man!(White N)),
    (man!(White N), man!(White N)),
    (man!(White Q), man!(Black Q)),
    (man!(White Q), man!(Black R)),
    (man!(White Q), man!(Black B)),
    (man!(White Q), man!(Black N)),
    (man!(White R), man!(Black R)),
    (man!(White R), man!(Black B)),
    (man!(White R), man!(Black N)),
    (man!(White B), man!(Black B)),
    (man!(White B), man!(Black N)),
    (man!(White N), man!(Black N)),
    (man!(White Q), man!(White P)),
    (man!(White R), man!(White P)),
    (man!(White B), man!(White P)),
    (man!(White N), man!(White P)),
    (man!(White Q), man!(Black P)),
    (man!(White R), man!(Black P)),
    (man!(White B), man!(Black P)),
    (man!(White N), man!(Black P)),
    (man!(White P), man!(White P)),
    (man!(White P), man!(Black P)),
];

/// Whether both sides have the same men, in order of the classes' numbers.
static EQUAL_SIDES: [bool; 36] = [
    true, false, false, false, false, false, false, false, false, false, false, false, false,
    false, false, false, true, false, false, false, true, false, false, true, false, true, false,
    false, false, false, false, false, false, false, false, true,
];

/// Whether the class has pawns, in order of the classes' numbers.
static PAWNS: [bool; 36] = [
    false, false, false, false, false, true, false, false, false, false, false, false, false,
    false, false, false, false, false, false, false, false, false, false, false, false, false,
    true, true, true, true, true, true, true, true, true, true,
];

/// The men of the class beside the kings, in the order of its name.
pub fn non_kings(class: Class) -> (Option<Man>, Option<Man>)
    ensures men { option_to_list result.0 ++ option_to_list result.1 ≡ men_beside (material_of class) }
    ensures first { IfSome result.0 (λ man. man ≢ king_of White) }
    ensures second { IfSome result.1 (λ man. man ≢ king_of White) }
    ensures colours { tells_colours class result.0 ≡ true }
    ensures from_first { result.0 ≡ None → result.1 ≡ None }
{
    NON_KINGS[usize::from(class.number())]
}

/// Whether the class has pawns.
pub fn has_pawns(class: Class) -> bool
    ensures { result ≡ has_pawns (material_of class) }
{
    PAWNS[usize::from(class.number())]
}

/// Whether positions of the class may have a target: only where both sides have a pawn.
pub fn has_target(class: Class) -> bool
    ensures { result ≡ has_target (material_of class) }
{
    class.number() == 35
}

/// Whether both sides of the class have the same men.
pub fn has_equal_sides(class: Class) -> bool
    ensures { result ≡ has_equal_sides class }
{
    EQUAL_SIDES[usize::from(class.number())]
}
