// Unsigned decimal numbers.
ghost use Rattle.std.specs.Prelude.{◌≡◌, ◌≤◌, IfSome, Some, None, nat_le, if◌then◌else◌};
ghost use Rattle.std.specs.List.{list_all};
ghost use Rattle.net_file.specs.Numbers.{is_decimal_digit, is_number, number_in, value_from};

fn are_digits(text: &[u8]) -> bool
    ensures { result ≡ list_all is_decimal_digit text.now }
{
    text.iter().all(|byte| byte.is_ascii_digit())
}

fn is_number(text: &[u8], most_digits: usize) -> bool
    ensures { result ≡ is_number most_digits text.now }
{
    0 < text.len() && text.len() <= most_digits && are_digits(text)
}

// The value of digits, where it is at most `most`.
fn value_within(digits: &[u8], most: u32) -> Option<u32>
    ensures { result ≡ (if nat_le (value_from 0 digits.now) most then Some (value_from 0 digits.now) else None) }
{
    let mut value = 0u32;
    for digit in digits {
        let next = 10 * u64::from(value) + u64::from(digit.saturating_sub(b'0'));
        if next > u64::from(most) {
            return None;
        }
        value = next as u32;
    }
    Some(value)
}

/// The number of 1 to `most_digits` decimal digits, where it is at most `most`.
pub fn number_in(text: &[u8], most_digits: usize, most: u32) -> Option<u32>
    ensures value { result ≡ number_in most_digits most text.now }
    ensures most { IfSome result (λ value. value ≤ most) }
{
    if is_number(text, most_digits) {
        value_within(text, most)
    } else {
        None
    }
}
