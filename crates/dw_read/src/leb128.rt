//! LEB128 numbers at the front of bytes (DWARF 5, 7.6). A number may be padded as far as its value
//! fits 64 bits: its groups are added from the last one back, so no group is lost.

ghost use Rattle.std.specs.Prelude.{◌≡◌, ◌≤◌, ◌<◌, ◌^◌, length, drop, ℕ, slice_index};
ghost use Rattle.std.specs.Prelude.{IfOk, IfErr, IfSome, IfNone, Ok, Err};
ghost use Rattle.dw_read.specs.Reasons.{uleb_read, sleb_read, digit, signed};

use crate::error::{ReadError, ReadResult};

/// The unsigned number at the front, with the bytes that it takes.
pub(crate) fn uleb_of(bytes: &[u8]) -> ReadResult<(u64, usize)>
    ensures ok { IfOk result (λ x. uleb_read bytes.now ≡ Ok (x.0, drop x.1 bytes.now)) }
    ensures within { IfOk result (λ x. x.1 ≤ length bytes.now) }
    ensures err { IfErr result (λ e. uleb_read bytes.now ≡ Err e) }
{
    let Some(last) = last_group(bytes) else {
        return Err(ReadError::UnexpectedEof);
    };
    let mut value = bytes[last] as u64;
    let mut index = last;
    'groups: while index > 0 {
        index -= 1;
        let low = (bytes[index] - 128) as u64;
        let Some(more) = value.checked_mul(128) else {
            return Err(ReadError::BadLeb128);
        };
        value = more + low;
    }
    Ok((value, last + 1))
}

/// The signed number at the front, with the bytes that it takes.
pub(crate) fn sleb_of(bytes: &[u8]) -> ReadResult<(i64, usize)>
    ensures ok { IfOk result (λ x. sleb_read bytes.now ≡ Ok (x.0, drop x.1 bytes.now)) }
    ensures within { IfOk result (λ x. x.1 ≤ length bytes.now) }
    ensures err { IfErr result (λ e. sleb_read bytes.now ≡ Err e) }
{
    let Some(last) = last_group(bytes) else {
        return Err(ReadError::UnexpectedEof);
    };
    let is_negative = bytes[last] >= 64;
    let mut magnitude = digit_of(bytes[last], is_negative);
    let mut index = last;
    'groups: while index > 0 {
        index -= 1;
        let low = digit_of(bytes[index] - 128, is_negative);
        let Some(more) = magnitude.checked_mul(128) else {
            return Err(ReadError::BadLeb128);
        };
        magnitude = more + low;
    }
    if magnitude >= 0x8000_0000_0000_0000 {
        return Err(ReadError::BadLeb128);
    }
    Ok((signed_of(magnitude, is_negative), last + 1))
}

/// The number of a magnitude, or minus it less one.
fn signed_of(magnitude: u64, is_negative: bool) -> i64
    requires { magnitude < 2 ^ 63 }
    ensures { result ≡ signed is_negative magnitude }
{
    if is_negative {
        -1 - magnitude as i64
    } else {
        magnitude as i64
    }
}

/// Seven bits as they count in the number, or in minus the number less one.
fn digit_of(seven: u8, is_negative: bool) -> u64
    requires { seven < 128 }
    ensures { result ≡ digit is_negative seven }
{
    if is_negative {
        (127 - seven) as u64
    } else {
        seven as u64
    }
}

/// The place of the first byte below 128, which is the last group.
fn last_group(bytes: &[u8]) -> Option<usize>
    ensures within { IfSome result (λ i. i < length bytes.now) }
    ensures last { IfSome result (λ i. slice_index bytes.now i < 128) }
    ensures before { IfSome result (λ i. (k : ℕ) → k < i → 128 ≤ slice_index bytes.now k) }
    ensures none { IfNone result ((k : ℕ) → k < length bytes.now → 128 ≤ slice_index bytes.now k) }
{
    for (i, byte) in bytes.iter().enumerate() {
        if *byte < 128 {
            return Some(i);
        }
    }
    None
}
