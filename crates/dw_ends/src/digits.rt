//! Numbers, decimal or in base 16.

ghost use Rattle.std.specs.Prelude.{◌≡◌, ◌^◌, ◌<◌, length, IfSome, option_and_then};
ghost use Rattle.dw_ends.specs.Numbers.{below, digit_in, number_below, number_in};

/// The number below 2^64 that a field spells: decimal digits, or `0x` and digits of base 16, of
/// either case. Zeros may stand in front, and no sign.
pub fn number(field: &[u8]) -> Option<u64>
    ensures { result ≡ number_below (2 ^ 64) field.now }
{
    match field {
        [b'0', b'x', digits @ ..] => number_in_base(digits, 16),
        _ if field.len() < 20 => short_decimal(field),
        _ => number_in_base(field, 10),
    }
}

// The number that decimal digits spell, so few that it fits.
fn short_decimal(digits: &[u8]) -> Option<u64>
    requires { length digits.now < 20 }
    ensures { result ≡ option_and_then (below (2 ^ 64)) (number_in 10 digits.now) }
{
    if digits.is_empty() {
        return None;
    }
    let mut value = 0u64;
    for byte in digits {
        let digit = decimal_digit(*byte)?;
        value = value * 10 + u64::from(digit);
    }
    Some(value)
}

// What a byte counts as a decimal digit.
fn decimal_digit(byte: u8) -> Option<u8>
    ensures digit { result ≡ digit_in 10 byte }
    ensures few { IfSome result (λ digit. digit < 10) }
{
    match byte {
        b'0'..=b'9' => Some(byte - b'0'),
        _ => None,
    }
}

// The number that one or more digits of a base spell, if it is below 2^64.
fn number_in_base(digits: &[u8], base: u8) -> Option<u64>
    requires { 0 < base }
    ensures { result ≡ option_and_then (below (2 ^ 64)) (number_in base digits.now) }
{
    if digits.is_empty() {
        return None;
    }
    let mut value = 0u64;
    for byte in digits {
        let digit = digit_in_base(*byte, base)?;
        value = value
            .checked_mul(u64::from(base))?
            .checked_add(u64::from(digit))?;
    }
    Some(value)
}

/// What a byte counts as a digit of a base.
pub fn digit_in_base(byte: u8, base: u8) -> Option<u8>
    ensures { result ≡ digit_in base byte }
{
    let digit = match byte {
        b'0'..=b'9' => byte - b'0',
        b'a'..=b'f' => byte - b'a' + 10,
        b'A'..=b'F' => byte - b'A' + 10,
        _ => return None,
    };
    (digit < base).then_some(digit)
}
