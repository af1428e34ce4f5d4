// Hexadecimal digits.
ghost use Rattle.std.specs.Prelude.{◌≡◌, ◌<◌, ◌++◌, ◌∷◌, [], OnOk};
ghost use Rattle.decompiler.specs.Listing.{digit, hex2, hex4, place, spaced};

use std::alloc::AllocError;

/// A hexadecimal digit, in upper case.
pub fn digit(n: u8) -> u8
    requires { n < 16 }
    ensures { result ≡ digit n }
{
    if n < 10 { b'0' + n } else { b'A' + (n - 10) }
}

/// Appends two digits.
pub fn add_hex2(text: &mut Vec<u8>, n: u8) -> Result<(), AllocError>
    ensures { OnOk result (text.new.items ≡ text.old.items ++ hex2 n) }
{
    text.extend_from_slice(&[digit(n / 16), digit(n % 16)])
}

/// Appends four digits.
pub fn add_hex4(text: &mut Vec<u8>, n: u16) -> Result<(), AllocError>
    ensures { OnOk result (text.new.items ≡ text.old.items ++ hex4 n) }
{
    add_hex2(text, (n / 256) as u8)?;
    add_hex2(text, (n % 256) as u8)
}

/// Appends a cell number or an address.
pub fn add_place(text: &mut Vec<u8>, n: u16) -> Result<(), AllocError>
    ensures { OnOk result (text.new.items ≡ text.old.items ++ place n) }
{
    text.extend_from_slice(b"@")?;
    add_hex4(text, n)
}

/// Appends a field behind a space.
pub fn add_field(text: &mut Vec<u8>, field: &[u8]) -> Result<(), AllocError>
    ensures { OnOk result (text.new.items ≡ text.old.items ++ spaced field.now) }
{
    text.extend_from_slice(b" ")?;
    text.extend_from_slice(field)
}
