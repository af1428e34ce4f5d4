// Hexadecimal numbers.
ghost use Rattle.std.specs.Prelude.{◌≡◌, ◌<◌, IfSome, option_map};
ghost use Rattle.j1_assembler.specs.Numbers.{digit_of, byte_of, hex2, hex4, stated_place};

fn digit(byte: u8) -> Option<u8>
    ensures value { result ≡ digit_of byte }
    ensures small { IfSome result (λ d. d < 16) }
{
    match byte {
        b'0'..=b'9' => Some(byte - b'0'),
        b'A'..=b'F' => Some(byte - b'A' + 10),
        b'a'..=b'f' => Some(byte - b'a' + 10),
        _ => None,
    }
}

fn byte_of(high: u8, low: u8) -> Option<u8>
    ensures { result ≡ byte_of high low }
{
    let high = digit(high)?;
    let low = digit(low)?;
    Some(16 * high + low)
}

/// The number that a field of two hexadecimal digits spells.
pub fn hex2(field: &[u8]) -> Option<u8>
    ensures { result ≡ hex2 field.now }
{
    match field {
        [high, low] => byte_of(*high, *low),
        _ => None,
    }
}

/// The number that a field of four hexadecimal digits spells.
pub fn hex4(field: &[u8]) -> Option<u16>
    ensures { result ≡ hex4 field.now }
{
    match field {
        [a, b, c, d] => {
            let high = byte_of(*a, *b)?;
            let low = byte_of(*c, *d)?;
            Some(256 * u16::from(high) + u16::from(low))
        }
        _ => None,
    }
}

/// The number of a field of `@` and four hexadecimal digits.
pub fn place(field: &[u8]) -> Option<u16>
    ensures { result ≡ stated_place field.now }
{
    match field.split_first() {
        Some((byte, digits)) if *byte == b'@' => hex4(digits),
        _ => None,
    }
}
