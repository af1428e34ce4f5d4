// Tokens as numbers, as Forth 2012 spells them.
ghost use Rattle.std.specs.Prelude.{◌≡◌, ◌≤◌, IfSome};
ghost use Rattle.forth_reader.specs.Number.{raised_letter, digit_value, digits_read, signed_read, prefix_base, quoted_byte, unprefixed_read, number_read};

use crate::bytes::is_graphic;

/// What a token is as a number.
#[derive(Clone, Copy, Debug, PartialEq, Eq)]
pub enum NumberRead {
    /// A number from -32768 to 65535, as a cell: a negative one in two's complement.
    Value(u16),
    /// It has the form of a number, and is out of range.
    Range,
    /// It has not the form of a number.
    NotNumber,
}

fn raised_letter(byte: u8) -> u8
    ensures { result ≡ raised_letter byte }
{
    if byte >= b'a' && byte <= b'z' {
        byte - 32
    } else {
        byte
    }
}

// The value of a digit or a letter, 36 for any other byte.
fn digit_value(byte: u8) -> u32
    ensures value { result ≡ digit_value byte }
    ensures small { result ≤ 36 }
{
    let letter = raised_letter(byte);
    if byte >= b'0' && byte <= b'9' {
        (byte - b'0') as u32
    } else if letter >= b'A' && letter <= b'Z' {
        (letter - b'A') as u32 + 10
    } else {
        36
    }
}

// Digits of any length: values past the range of a cell are alike, so they are held at 65536.
fn digits_read(text: &[u8], base: u16, is_negative: bool) -> NumberRead
    requires { (1 ≤ base) × (base ≤ 36) }
    ensures { result ≡ digits_read base is_negative text.now }
{
    if text.is_empty() {
        return NumberRead::NotNumber;
    }
    let mut value: u32 = 0;
    let mut rest = text;
    while let Some((byte, tail)) = rest.split_first() {
        let next = digit_value(*byte);
        if next >= base as u32 {
            return NumberRead::NotNumber;
        }
        value = (value * base as u32 + next).min(65536);
        rest = tail;
    }
    if is_negative {
        if value > 32768 {
            NumberRead::Range
        } else if value == 0 {
            NumberRead::Value(0)
        } else {
            NumberRead::Value((65536 - value) as u16)
        }
    } else if value > 65535 {
        NumberRead::Range
    } else {
        NumberRead::Value(value as u16)
    }
}

// An optional `-`, and digits.
fn signed_read(text: &[u8], base: u16) -> NumberRead
    requires { (1 ≤ base) × (base ≤ 36) }
    ensures { result ≡ signed_read base text.now }
{
    match text.split_first() {
        Some((byte, tail)) if *byte == b'-' => digits_read(tail, base, true),
        Some(_) => digits_read(text, base, false),
        None => NumberRead::NotNumber,
    }
}

// The base that a prefix stands for.
fn prefix_base(byte: u8) -> Option<u16>
    ensures value { result ≡ prefix_base byte }
    ensures base { IfSome result (λ base. (1 ≤ base) × (base ≤ 36)) }
{
    if byte == b'#' {
        Some(10)
    } else if byte == b'$' {
        Some(16)
    } else if byte == b'%' {
        Some(2)
    } else {
        None
    }
}

// The byte between two quotes.
fn quoted_byte(text: &[u8]) -> Option<u8>
    ensures { result ≡ quoted_byte text.now }
{
    if text.len() == 3 && text[0] == b'\'' && text[2] == b'\'' && is_graphic(text[1]) {
        Some(text[1])
    } else {
        None
    }
}

// A quoted byte, or a number in the present base.
fn unprefixed_read(text: &[u8], base: u16) -> NumberRead
    ensures { result ≡ unprefixed_read base text.now }
{
    if let Some(byte) = quoted_byte(text) {
        return NumberRead::Value(byte as u16);
    }
    if base < 2 || base > 36 {
        return NumberRead::NotNumber;
    }
    signed_read(text, base)
}

/// The number that a token spells: an optional `-` and one or more digits of the present base, letters in either case standing
/// for 10 and more; `#`, `$` or `%` and the same in base 10, 16 or 2; or a byte between two quotes, all as in Forth 2012. Where
/// the present base is outside 2 to 36, only the last two are numbers.
pub fn number_of(text: &str, base: u16) -> NumberRead
    ensures { result ≡ number_read base text.now }
{
    match text.as_bytes().split_first() {
        Some((byte, tail)) => match prefix_base(*byte) {
            Some(own) => signed_read(tail, own),
            None => unprefixed_read(text.as_bytes(), base),
        },
        None => NumberRead::NotNumber,
    }
}
