// Products of two cells, as double cells.
ghost use Rattle.std.specs.Prelude.{◌≡◌, ◌*◌, ◌*ℤ◌};
ghost use Rattle.cell_math.specs.Cell.{double_of, high_cell, low_cell, signed as signed_view};

use crate::sums::signed;

/// The low and the high cell of the unsigned product.
pub fn um_star(a: u16, b: u16) -> (u16, u16)
    ensures { result ≡ (low_cell (a * b), high_cell (a * b)) }
{
    let product = u32::from(a) * u32::from(b);
    ((product % 65536) as u16, (product / 65536) as u16)
}

/// The low and the high cell of the signed product.
pub fn m_star(a: u16, b: u16) -> (u16, u16)
    ensures { let product = double_of (signed_view a *ℤ signed_view b) in result ≡ (low_cell product, high_cell product) }
{
    let product = (i32::from(signed(a)) * i32::from(signed(b))).cast_unsigned();
    ((product % 65536) as u16, (product / 65536) as u16)
}
