// Quotients of double cells by cells.
ghost use Rattle.std.specs.Prelude.{◌≡◌, ◌≢◌, ◌<◌, ◌≤◌, IsTrue};
ghost use Rattle.cell_math.specs.Cell.{cell_of, double, signed as signed_view, signed_double};
ghost use Rattle.cell_math.specs.Divisions.{divided, floored_division, in_signed_range, symmetric_division, unsigned_division};
ghost use Rattle.cell_math.specs.Signs.{apart, whole};

/// The remainder and the quotient of an unsigned double. `None` at the divisor 0 and where the quotient is no cell.
pub fn um_div(low: u16, high: u16, divisor: u16) -> Option<(u16, u16)>
    ensures { result ≡ unsigned_division (double low high) divisor }
{
    if divisor == 0 {
        return None;
    }
    let dividend = u32::from(low) + 65536 * u32::from(high);
    let quotient = dividend / u32::from(divisor);
    if quotient < 65536 {
        Some(((dividend % u32::from(divisor)) as u16, quotient as u16))
    } else {
        None
    }
}

// A signed number: whether it is negative, and its size.
#[derive(Clone, Copy)]
struct Signed {
    negative: bool,
    size: u32,
}

fn of_cell(x: u16) -> Signed
    ensures value { signed_view x ≡ whole result.negative result.size }
    ensures size { result.size ≤ 32768 }
    ensures zero { x ≢ 0 → 0 < result.size }
{
    if x < 32768 {
        Signed {
            negative: false,
            size: u32::from(x),
        }
    } else {
        Signed {
            negative: true,
            size: 65536 - u32::from(x),
        }
    }
}

fn of_double(low: u16, high: u16) -> Signed
    ensures value { signed_double low high ≡ whole result.negative result.size }
    ensures size { result.size ≤ 2147483648 }
{
    let size = u32::from(low) + 65536 * u32::from(high);
    if high < 32768 {
        Signed {
            negative: false,
            size,
        }
    } else {
        Signed {
            negative: true,
            size: 4294967295 - size + 1,
        }
    }
}

// Whether it is a signed cell.
fn is_cell(x: Signed) -> bool
    ensures { result ≡ in_signed_range (whole x.negative x.size) }
{
    if x.negative {
        x.size <= 32768
    } else {
        x.size <= 32767
    }
}

// Its cell.
fn cell(x: Signed) -> u16
    ensures { result ≡ cell_of (whole x.negative x.size) }
{
    let low = (x.size % 65536) as u16;
    if x.negative { low.wrapping_neg() } else { low }
}

// Whether the signs differ.
fn are_apart(a: Signed, b: Signed) -> bool
    ensures { result ≡ apart a.negative b.negative }
{
    if a.negative { !b.negative } else { b.negative }
}

// A remainder and a quotient as cells, where the quotient is a signed cell.
fn cells(rest: Signed, quotient: Signed) -> Option<(u16, u16)>
    ensures { result ≡ divided (whole rest.negative rest.size) (whole quotient.negative quotient.size) }
{
    if is_cell(quotient) {
        Some((cell(rest), cell(quotient)))
    } else {
        None
    }
}

/// The remainder and the quotient of a signed double, rounded toward zero. `None` at the divisor 0 and where the quotient is
/// no signed cell.
pub fn sm_div(low: u16, high: u16, divisor: u16) -> Option<(u16, u16)>
    ensures { result ≡ symmetric_division (signed_double low high) (signed_view divisor) }
{
    if divisor == 0 {
        return None;
    }
    let dividend = of_double(low, high);
    let by = of_cell(divisor);
    let rest = Signed {
        negative: dividend.negative,
        size: dividend.size % by.size,
    };
    let quotient = Signed {
        negative: are_apart(dividend, by),
        size: dividend.size / by.size,
    };
    cells(rest, quotient)
}

/// The remainder and the quotient of a signed double, rounded down. `None` at the divisor 0 and where the quotient is no signed
/// cell.
pub fn fm_div(low: u16, high: u16, divisor: u16) -> Option<(u16, u16)>
    ensures { result ≡ floored_division (signed_double low high) (signed_view divisor) }
{
    if divisor == 0 {
        return None;
    }
    let dividend = of_double(low, high);
    let by = of_cell(divisor);
    let size = dividend.size / by.size;
    let left = dividend.size % by.size;
    let apart = are_apart(dividend, by);
    if apart && left != 0 {
        let rest = Signed {
            negative: by.negative,
            size: by.size - left,
        };
        let quotient = Signed {
            negative: true,
            size: size + 1,
        };
        return cells(rest, quotient);
    }
    let rest = Signed {
        negative: by.negative,
        size: left,
    };
    let quotient = Signed {
        negative: apart,
        size,
    };
    cells(rest, quotient)
}
