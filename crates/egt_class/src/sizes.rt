//! How many codes each class has.
ghost use Rattle.std.specs.Prelude.{◌≡◌};
ghost use Rattle.egt_class.specs.Prelude.{size_of};

use crate::class::Class;

/// The sizes in order of the classes' numbers.
static SIZES: [u32; 36] = [
    1_280, 81_920, 81_920, 81_920, 81_920, 196_608, 5_242_880, 5_242_880, 5_242_880, 5_242_880,
    5_242_880, 5_242_880, 5_242_880, 5_242_880, 5_242_880, 5_242_880, 5_242_880, 5_242_880,
    5_242_880, 5_242_880, 5_242_880, 5_242_880, 5_242_880, 5_242_880, 5_242_880, 5_242_880,
    12_582_912, 12_582_912, 12_582_912, 12_582_912, 12_582_912, 12_582_912, 12_582_912, 12_582_912,
    9_437_184, 18_874_368,
];

/// How many codes the class has: its codes are the numbers below.
pub fn size(class: Class) -> u32
    ensures { result ≡ size_of class }
{
    SIZES[usize::from(class.number())]
}
