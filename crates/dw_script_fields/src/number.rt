//! Numbers, decimal or in base 16.

ghost use Rattle.std.specs.Prelude.{◌≡◌, ◌^◌, ◌<◌, ◌≤◌, pos, neg_ℤ, option_map, option_and_then};
ghost use Rattle.dw_ends.specs.Numbers.{below, number_below, number_in, number_of};
ghost use Rattle.dw_script_fields.specs.Numbers.{index_or_none, signed_number, target_or_none, within_i64};

use dw_ends::{digit_in_base, number};

/// The number below 2^128 that a field spells.
pub(crate) fn parse_u128(field: &[u8]) -> Option<u128>
    ensures { result ≡ number_below (2 ^ 128) field.now }
{
    match field {
        [b'0', b'x', digits @ ..] => wide_number_in_base(digits, 16),
        _ => wide_number_in_base(field, 10),
    }
}

/// The number below 2^64 that a field spells, as a place or an index.
pub(crate) fn parse_usize(field: &[u8]) -> Option<usize>
    ensures { result ≡ number_below (2 ^ 64) field.now }
{
    usize::try_from(number(field)?).ok()
}

/// The index that a field spells, or none.
pub(crate) fn parse_index_or_none(field: &[u8]) -> Option<Option<usize>>
    ensures { result ≡ index_or_none field.now }
{
    match field {
        b"none" => Some(None),
        _ => Some(Some(parse_usize(field)?)),
    }
}

/// The index that a branch leads to, or none, spelled `-`.
pub(crate) fn parse_target(field: &[u8]) -> Option<Option<usize>>
    ensures { result ≡ target_or_none field.now }
{
    match field {
        b"-" => Some(None),
        _ => Some(Some(parse_usize(field)?)),
    }
}

/// The number below 2^32 that a field spells.
pub(crate) fn parse_u32(field: &[u8]) -> Option<u32>
    ensures { result ≡ number_below (2 ^ 32) field.now }
{
    u32::try_from(number(field)?).ok()
}

/// The number below 2^16 that a field spells.
pub fn parse_u16(field: &[u8]) -> Option<u16>
    ensures { result ≡ number_below (2 ^ 16) field.now }
{
    u16::try_from(number(field)?).ok()
}

/// The number below 2^8 that a field spells.
pub fn parse_u8(field: &[u8]) -> Option<u8>
    ensures { result ≡ number_below (2 ^ 8) field.now }
{
    u8::try_from(number(field)?).ok()
}

/// The number from -2^63 to 2^63 - 1 that a field spells, `-` before it where it is below 0.
pub(crate) fn parse_i64(field: &[u8]) -> Option<i64>
    ensures { result ≡ signed_number field.now }
{
    match field {
        [b'-', magnitude @ ..] => parse_negative(magnitude),
        _ => parse_positive(field),
    }
}

fn parse_positive(field: &[u8]) -> Option<i64>
    ensures { result ≡ option_and_then within_i64 (option_map pos (number_of field.now)) }
{
    i64::try_from(number(field)?).ok()
}

// The number that lies as far below 0 as a field spells.
fn parse_negative(magnitude: &[u8]) -> Option<i64>
    ensures { result ≡ option_and_then within_i64
        (option_map (λ n. neg_ℤ (pos n)) (number_of magnitude.now)) }
{
    0i64.checked_sub_unsigned(number(magnitude)?)
}

// The number that one or more digits of a base spell, if it is below 2^128. Only values of 16
// bytes pay for such wide sums.
fn wide_number_in_base(digits: &[u8], base: u8) -> Option<u128>
    requires { 0 < base }
    ensures { result ≡ option_and_then (below (2 ^ 128)) (number_in base digits.now) }
{
    if digits.is_empty() {
        return None;
    }
    let mut value = 0u128;
    for byte in digits {
        let digit = digit_in_base(*byte, base)?;
        value = value
            .checked_mul(u128::from(base))?
            .checked_add(u128::from(digit))?;
    }
    Some(value)
}
