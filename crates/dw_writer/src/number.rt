//! The bytes of numbers in either byte order.

ghost use Rattle.std.specs.Prelude.{◌≡◌, ℕ, ◌+◌, ◌-◌, ◌<◌, ◌≤◌, ◌++◌, length, take, drop, IsTrue, IfOk, IfErr, OnOk};
ghost use Rattle.dw_base.specs.Numbers.{num, is_width, fits, word_of, escape_of};
ghost use Rattle.dw_writer.specs.Texts.{zeros};
ghost use Rattle.dw_writer.specs.SignedNumbers.{signed_fits, signed_num, twos_complement};
ghost use Rattle.dw_writer.specs.Causes.{NumberRefused, NotAtAll};

use dw_base::{Error, Format, Result};

#[tactic(auto, unfolding(dw_base::specs::Numbers::num))]
pub fn bytes_of_u16(big: bool, val: u16) -> [u8; 2]
    ensures { result ≡ num big 2 val }
{
    if big {
        val.to_be_bytes()
    } else {
        val.to_le_bytes()
    }
}

#[tactic(auto, unfolding(dw_base::specs::Numbers::num))]
pub fn bytes_of_u32(big: bool, val: u32) -> [u8; 4]
    ensures { result ≡ num big 4 val }
{
    if big {
        val.to_be_bytes()
    } else {
        val.to_le_bytes()
    }
}

#[tactic(auto, unfolding(dw_base::specs::Numbers::num))]
pub fn bytes_of_u64(big: bool, val: u64) -> [u8; 8]
    ensures { result ≡ num big 8 val }
{
    if big {
        val.to_be_bytes()
    } else {
        val.to_le_bytes()
    }
}

#[tactic(auto, unfolding(dw_base::specs::Numbers::num))]
pub fn bytes_of_u128(big: bool, val: u128) -> [u8; 16]
    ensures { result ≡ num big 16 val }
{
    if big {
        val.to_be_bytes()
    } else {
        val.to_le_bytes()
    }
}

/// What stands for a length that isn't known yet.
pub fn open_length(format: Format) -> &'static [u8]
    ensures { result.now ≡ escape_of format ++ zeros (word_of format) }
{
    match format {
        Format::Dwarf32 => &[0, 0, 0, 0],
        Format::Dwarf64 => &[0xff, 0xff, 0xff, 0xff, 0, 0, 0, 0, 0, 0, 0, 0],
    }
}

/// The bytes of a number of a width that is chosen when the program runs.
#[derive(Drop)]
pub struct NumberBytes {
    bytes: [u8; 8],
    start: usize,
    end: usize,
    ghost ordered: { start ≤ end },
    ghost within: { end ≤ 8 },
}

impl NumberBytes {
    pub fn slice(&self) -> &[u8]
        ensures { result.now ≡
            take (self.now.end - self.now.start) (drop self.now.start self.now.bytes) }
    {
        &self.bytes[self.start..self.end]
    }
}

/// The bytes of an unsigned number, which has to fit them.
pub fn number_bytes(big: bool, val: u64, size: u8) -> Result<NumberBytes>
    ensures fits { OnOk result (IsTrue (is_width size) × IsTrue (fits size val)) }
    ensures ok { IfOk result
        (λ n. take (n.end - n.start) (drop n.start n.bytes) ≡ num big size val) }
    ensures err { IfErr result (NumberRefused size (fits size val) NotAtAll) }
{
    check_unsigned(val, size)?;
    Ok(low_bytes(big, val, size as usize))
}

/// The bytes of a signed number in two's complement, which has to fit them.
pub fn signed_number_bytes(big: bool, val: i64, size: u8) -> Result<NumberBytes>
    ensures fits { OnOk result (IsTrue (is_width size) × IsTrue (signed_fits size val)) }
    ensures ok { IfOk result
        (λ n. take (n.end - n.start) (drop n.start n.bytes) ≡ signed_num big size val) }
    ensures err { IfErr result (NumberRefused size (signed_fits size val) NotAtAll) }
{
    check_signed(val, size)?;
    Ok(low_bytes(big, bits_of(val, size), size as usize))
}

fn check_unsigned(val: u64, size: u8) -> Result<()>
    ensures fits { OnOk result (IsTrue (is_width size) × IsTrue (fits size val)) }
    ensures err { IfErr result (NumberRefused size (fits size val) NotAtAll) }
{
    let fits = match size {
        1 => val <= 0xff,
        2 => val <= 0xffff,
        4 => val <= 0xffff_ffff,
        8 => true,
        _ => return Err(Error::UnsupportedWordSize(size)),
    };
    if fits {
        Ok(())
    } else {
        Err(Error::ValueTooLarge)
    }
}

fn check_signed(val: i64, size: u8) -> Result<()>
    ensures fits { OnOk result (IsTrue (is_width size) × IsTrue (signed_fits size val)) }
    ensures err { IfErr result (NumberRefused size (signed_fits size val) NotAtAll) }
{
    let fits = match size {
        1 => -0x80 <= val && val <= 0x7f,
        2 => -0x8000 <= val && val <= 0x7fff,
        4 => -0x8000_0000 <= val && val <= 0x7fff_ffff,
        8 => true,
        _ => return Err(Error::UnsupportedWordSize(size)),
    };
    if fits {
        Ok(())
    } else {
        Err(Error::ValueTooLarge)
    }
}

/// The unsigned number with the same bytes as a signed one.
fn bits_of(val: i64, size: u8) -> u64
    requires width { IsTrue (is_width size) }
    requires fits { IsTrue (signed_fits size val) }
    ensures { result ≡ twos_complement size val }
{
    let bits = val.cast_unsigned();
    match size {
        1 => bits % 0x100,
        2 => bits % 0x1_0000,
        4 => bits % 0x1_0000_0000,
        _ => bits,
    }
}

/// The lowest bytes of the eight.
fn low_bytes(big: bool, val: u64, size: usize) -> NumberBytes
    requires { size ≤ 8 }
    ensures { take (result.end - result.start) (drop result.start result.bytes) ≡ num big size val }
{
    if big {
        let bytes = val.to_be_bytes();
        return NumberBytes {
            bytes,
            start: 8 - size,
            end: 8,
        };
    }
    let bytes = val.to_le_bytes();
    NumberBytes {
        bytes,
        start: 0,
        end: size,
    }
}
