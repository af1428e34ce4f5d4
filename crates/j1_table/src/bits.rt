// Numbers of 13 and 15 bits.
ghost use Rattle.std.specs.Prelude.{◌≡◌, ◌<◌, ◌↔◌, IsSome, IfSome};

use std::marker::Model;

/// A number below 32768: the value of a literal.
#[derive(Clone, Copy, Debug, PartialEq, Eq)]
pub struct Bits15 {
    value: u16,
}

impl Model for Bits15 {
    ghost use Rattle.std.specs.Prelude.{ℕ, ◌<◌};

    ghost Value = { ℕ };

    ghost view = { λ b. b.value };

    ghost invariant = { λ b. b.value < 0x8000 };

    ghost inverse = { λ n. record { value = n } };
}

impl Bits15 {
    /// The number, or None exactly where it is 32768 or more.
    pub fn new(x: u16) -> Option<Bits15>
        ensures valid { IsSome result ↔ (x < 0x8000) }
        ensures value { IfSome result (λ b. b ≡ x) }
    {
        if x < 0x8000 {
            Some(Bits15 { value: x })
        } else {
            None
        }
    }

    /// The number itself.
    pub fn get(self) -> u16
        ensures value { result ≡ self }
        ensures bound { self < 0x8000 }
    {
        self.value
    }
}

/// A number below 8192: a cell of memory, or the low bits of an ALU cell.
#[derive(Clone, Copy, Debug, PartialEq, Eq)]
pub struct Bits13 {
    value: u16,
}

impl Model for Bits13 {
    ghost use Rattle.std.specs.Prelude.{ℕ, ◌<◌};

    ghost Value = { ℕ };

    ghost view = { λ b. b.value };

    ghost invariant = { λ b. b.value < 0x2000 };

    ghost inverse = { λ n. record { value = n } };
}

impl Bits13 {
    /// The number, or None exactly where it is 8192 or more.
    pub fn new(x: u16) -> Option<Bits13>
        ensures valid { IsSome result ↔ (x < 0x2000) }
        ensures value { IfSome result (λ b. b ≡ x) }
    {
        if x < 0x2000 {
            Some(Bits13 { value: x })
        } else {
            None
        }
    }

    /// The number itself.
    pub fn get(self) -> u16
        ensures value { result ≡ self }
        ensures bound { self < 0x2000 }
    {
        self.value
    }
}
