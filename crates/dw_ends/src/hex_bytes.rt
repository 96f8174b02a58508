//! Bytes that a line spells in base 16.

ghost use Rattle.std.specs.Prelude.{◌≡◌, [], length, is_ok, IfOk};
ghost use Rattle.hex.specs.Hex.{decode_of, is_hex_digit as is_digit};
ghost use Rattle.std.specs.List.{list_all};
ghost use Rattle.std.specs.Result.{result_ok};
ghost use Rattle.dw_ends.specs.Bytes.{hex_bytes};

use std::alloc::{AllocError, Global};
use std::marker::Model;

// How no bytes are spelled.
const NO_BYTES: &[u8] = b"-";

/// Bytes as a line spells them, so that a line is read without memory.
#[derive(Drop)]
pub struct HexBytes<'a> {
    digits: &'a [u8],
}

impl<'a> Model for HexBytes<'a> {
    ghost use Rattle.std.specs.Prelude.{ℕ, List, IsOk};
    ghost use Rattle.hex.specs.Hex.{decode_of};
    ghost use Rattle.dw_ends.specs.Bytes.{bytes_of_digits};

    ghost Value = { List ℕ };

    ghost view = { λ b. bytes_of_digits b.digits.now };

    ghost invariant = { λ b. IsOk (decode_of b.digits.now) };
}

impl<'a> HexBytes<'a> {
    /// The bytes that a field spells.
    pub fn read(field: &'a [u8]) -> Option<HexBytes<'a>>
        ensures { result ≡ hex_bytes field.now }
    {
        if field == NO_BYTES {
            return HexBytes::from_digits(&[]);
        }
        if field.is_empty() {
            return None;
        }
        HexBytes::from_digits(field)
    }

    /// No bytes.
    pub fn empty() -> HexBytes<'a>
        ensures { result ≡ [] }
    {
        HexBytes { digits: &[] }
    }

    /// How many bytes there are.
    pub fn len(&self) -> usize
        ensures { result ≡ length self.now }
    {
        self.digits.len() / 2
    }

    fn from_digits(digits: &'a [u8]) -> Option<HexBytes<'a>>
        ensures { result ≡ result_ok (decode_of digits.now) }
    {
        if is_decodable(digits) {
            Some(HexBytes { digits })
        } else {
            None
        }
    }

    /// The bytes, in memory of their own.
    pub fn decode(&self, alloc: Global) -> Result<Vec<u8>, AllocError>
        ensures { IfOk result (λ bytes. bytes.items ≡ self.now) }
    {
        hex::decode(alloc, self.digits).map_err(|_| AllocError)
    }
}

// Whether bytes are pairs of digits of base 16.
fn is_decodable(digits: &[u8]) -> bool
    ensures { result ≡ is_ok (decode_of digits.now) }
{
    digits.len() % 2 == 0 && are_hex_digits(digits)
}

// Whether all bytes are digits of base 16, looked at as those of a line are.
fn are_hex_digits(digits: &[u8]) -> bool
    ensures { result ≡ list_all is_digit digits.now }
{
    let mut are_digits = true;
    for byte in digits {
        are_digits &= is_hex_digit(*byte);
    }
    are_digits
}

// Whether a byte is a digit of base 16, of either case.
fn is_hex_digit(byte: u8) -> bool
    ensures { result ≡ is_digit byte }
{
    matches!(byte, b'0'..=b'9' | b'a'..=b'f' | b'A'..=b'F')
}
