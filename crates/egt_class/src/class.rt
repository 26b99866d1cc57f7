//! The classes by number.
ghost use Rattle.std.specs.Prelude.{◌≡◌, ◌<◌, ◌↔◌, IsSome, IfSome};

use std::marker::Model;

/// A class of positions: those with the same men, colours exchanged or not. There are 36, for one king a side and up to
/// two men beside them.
#[derive(Clone, Copy, Debug, Default, PartialEq, Eq)]
pub struct Class {
    number: u8,
}

impl Model for Class {
    ghost use Rattle.std.specs.Prelude.{ℕ, ◌<◌};
    ghost use Rattle.std.specs.Coded.{coded_ℕ};

    ghost Value = { ℕ };

    ghost coded = { coded_ℕ };

    ghost view = { λ a. a.number };

    ghost invariant = { λ a. a.number < 36 };

    ghost inverse = { λ n. record { number = n } };
}

impl Class {
    /// The class of that number; `None` from 36 on.
    pub fn new(number: u8) -> Option<Class>
        ensures below { IsSome result ↔ (number < 36) }
        ensures value { IfSome result (λ c. c ≡ number) }
    {
        if number < 36 {
            Some(Class { number })
        } else {
            None
        }
    }

    /// The class of that number, which the caller knows to be one.
    pub fn at(number: u8) -> Class
        requires { number < 36 }
        ensures { result ≡ number }
    {
        Class { number }
    }

    /// The number, from 0 to 35.
    pub fn number(&self) -> u8
        ensures value { result ≡ self.now }
        ensures below { result < 36 }
    {
        self.number
    }
}
