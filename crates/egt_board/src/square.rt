//! The 64 squares by number: `8 * rank + file`, both from 0, so that a1 is 0 and h8 is 63.
ghost use Rattle.std.specs.Prelude.{◌≡◌, ◌<◌, ◌↔◌, ◌%◌, ◌/◌, IsSome, IfSome};
ghost use Rattle.egt_board.specs.Prelude.{file_of, rank_of};

use std::marker::Model;

/// A square of the board.
#[derive(Clone, Copy, Debug, Default, PartialEq, Eq)]
pub struct Square {
    number: u8,
}

impl Model for Square {
    ghost use Rattle.std.specs.Prelude.{ℕ, ◌<◌};
    ghost use Rattle.std.specs.Coded.{coded_ℕ};

    ghost Value = { ℕ };

    ghost coded = { coded_ℕ };

    ghost view = { λ a. a.number };

    ghost invariant = { λ a. a.number < 64 };

    ghost inverse = { λ n. record { number = n } };
}

impl Square {
    /// The square of that number; `None` from 64 on.
    pub fn new(number: u8) -> Option<Square>
        ensures on_board { IsSome result ↔ (number < 64) }
        ensures value { IfSome result (λ s. s ≡ number) }
    {
        if number < 64 {
            Some(Square { number })
        } else {
            None
        }
    }

    /// The square of that number, which the caller knows to be one.
    pub fn at(number: u8) -> Square
        requires { number < 64 }
        ensures { result ≡ number }
    {
        Square { number }
    }

    /// The number, from 0 to 63.
    pub fn number(self) -> u8
        ensures value { result ≡ self }
        ensures on_board { result < 64 }
    {
        self.number
    }

    /// The file, from 0 for the a-file to 7 for the h-file.
    pub fn file(self) -> u8
        ensures value { result ≡ file_of self }
        ensures on_board { result < 8 }
    {
        self.number % 8
    }

    /// The rank, from 0 for the first rank to 7 for the eighth.
    pub fn rank(self) -> u8
        ensures value { result ≡ rank_of self }
        ensures on_board { result < 8 }
    {
        self.number / 8
    }
}

/// What a macro makes of each square's number and of each of these numbers: 64 values for each of them, in order.
#[macro_export]
macro_rules! of_squares {
    ($of:ident; $($by:literal)*) => {[$(
        $of!(0 $by), $of!(1 $by), $of!(2 $by), $of!(3 $by), $of!(4 $by), $of!(5 $by), $of!(6 $by), $of!(7 $by),
        $of!(8 $by), $of!(9 $by), $of!(10 $by), $of!(11 $by), $of!(12 $by), $of!(13 $by), $of!(14 $by), $of!(15 $by),
        $of!(16 $by), $of!(17 $by), $of!(18 $by), $of!(19 $by), $of!(20 $by), $of!(21 $by), $of!(22 $by), $of!(23 $by),
        $of!(24 $by), $of!(25 $by), $of!(26 $by), $of!(27 $by), $of!(28 $by), $of!(29 $by), $of!(30 $by), $of!(31 $by),
        $of!(32 $by), $of!(33 $by), $of!(34 $by), $of!(35 $by), $of!(36 $by), $of!(37 $by), $of!(38 $by), $of!(39 $by),
        $of!(40 $by), $of!(41 $by), $of!(42 $by), $of!(43 $by), $of!(44 $by), $of!(45 $by), $of!(46 $by), $of!(47 $by),
        $of!(48 $by), $of!(49 $by), $of!(50 $by), $of!(51 $by), $of!(52 $by), $of!(53 $by), $of!(54 $by), $of!(55 $by),
        $of!(56 $by), $of!(57 $by), $of!(58 $by), $of!(59 $by), $of!(60 $by), $of!(61 $by), $of!(62 $by), $of!(63 $by),
    )*]};
}
