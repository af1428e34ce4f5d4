// The fields of an ALU instruction.
ghost use Rattle.std.specs.Prelude.{◌≡◌, ◌<◌};
ghost use Rattle.j1_table.specs.Fields.{op_of, has_bit, data_move_of, return_move_of, move_of};

use crate::Bits13;
use std::marker::Model;

/// The low 13 bits of an ALU cell (Bowman's J1 paper, "ALU instructions").
///
/// | bits | field |
/// |---|---|
/// | 12 | R to PC: the machine goes on at R |
/// | 11 to 8 | the operation that gives the new T |
/// | 7 | T to N: the old T is written into the data stack |
/// | 6 | T to R: the old T is written into the return stack |
/// | 5 | N is stored at the address T |
/// | 4 | not used, and kept |
/// | 3 and 2 | the move of the return stack's pointer |
/// | 1 and 0 | the move of the data stack's pointer |
///
/// The code of a move is 0 for 0, 1 for +1, 2 for -2 and 3 for -1.
#[derive(Clone, Copy, Debug, PartialEq, Eq)]
pub struct AluWord {
    bits: Bits13,
}

impl Model for AluWord {
    ghost use Rattle.std.specs.Prelude.{ℕ};

    ghost Value = { ℕ };

    ghost view = { λ w. w.bits };

    ghost inverse = { λ n. record { bits = n } };
}

// The move of a two-bit code, which is its two's complement.
fn move_at(code: u16) -> i8
    requires { code < 4 }
    ensures { result ≡ move_of code }
{
    (code as i8 ^ 2) - 2
}

impl AluWord {
    /// The fields that are in these bits.
    pub fn new(bits: Bits13) -> AluWord
        ensures { result ≡ bits }
    {
        AluWord { bits }
    }

    // The 13 bits.
    pub(crate) fn bits(self) -> Bits13
        ensures { result ≡ self }
    {
        self.bits
    }

    /// The number of the operation that gives the new T, below 16.
    pub fn op(self) -> u8
        ensures value { result ≡ op_of self }
        ensures bound { result < 16 }
    {
        (self.bits.get() >> 8 & 15) as u8
    }

    /// Bit 12, R to PC.
    pub fn returns(self) -> bool
        ensures { result ≡ has_bit self 12 }
    {
        self.bits.get() >> 12 & 1 == 1
    }

    /// Bit 7, T to N.
    pub fn t_to_n(self) -> bool
        ensures { result ≡ has_bit self 7 }
    {
        self.bits.get() >> 7 & 1 == 1
    }

    /// Bit 6, T to R.
    pub fn t_to_r(self) -> bool
        ensures { result ≡ has_bit self 6 }
    {
        self.bits.get() >> 6 & 1 == 1
    }

    /// Bit 5, the store of N at the address T.
    pub fn stores(self) -> bool
        ensures { result ≡ has_bit self 5 }
    {
        self.bits.get() >> 5 & 1 == 1
    }

    /// Bit 4, which no instruction uses.
    pub fn bit4(self) -> bool
        ensures { result ≡ has_bit self 4 }
    {
        self.bits.get() >> 4 & 1 == 1
    }

    /// Bits 3 and 2, the move of the return stack: 0, 1, -2 or -1 cells.
    pub fn r_move(self) -> i8
        ensures { result ≡ return_move_of self }
    {
        move_at(self.bits.get() >> 2 & 3)
    }

    /// Bits 1 and 0, the move of the data stack: 0, 1, -2 or -1 cells.
    pub fn d_move(self) -> i8
        ensures { result ≡ data_move_of self }
    {
        move_at(self.bits.get() & 3)
    }
}
