// Sums, negation and the signed view.
ghost use Rattle.std.specs.Prelude.{◌≡◌};
ghost use Rattle.cell_math.specs.Cell.{negated, signed as signed_view, sum_of};

/// A cell: 16 bits.
pub type Cell = u16;

/// The two's complement view of a cell.
pub fn signed(x: u16) -> i16
    ensures { result ≡ signed_view x }
{
    x.cast_signed()
}

/// The sum of two cells, modulo 65536.
pub fn add(a: u16, b: u16) -> u16
    ensures { result ≡ sum_of a b }
{
    a.wrapping_add(b)
}

/// 0 less the cell, modulo 65536.
pub fn negate(a: u16) -> u16
    ensures { result ≡ negated a }
{
    a.wrapping_neg()
}
