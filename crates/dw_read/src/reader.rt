//! What every reader of a section does.

ghost use Rattle.std.specs.Prelude.{◌≡◌, ◌≤◌, ◌<◌, ◌^◌, length, OnOk, OnErr, IfOk, IfErr};
ghost use Rattle.dw_base.specs.Numbers.{bytes_at, initial_length_at, length_size, word_of};
ghost use Rattle.dw_base.specs.Numbers.{is_width};
ghost use Rattle.dw_base.specs.Leb128.{uleb_at, sleb_at};
ghost use Rattle.dw_base.specs.Forms.{text_at};
ghost use Rattle.dw_read.specs.Reading.{Reading, IsReading, IsPart, left, part};
ghost use Rattle.dw_read.specs.Reading.{Passes, Reads, Refuses};
ghost use Rattle.dw_read.specs.Numbers.{ReadsNumber, RefusesNumber};
ghost use Rattle.dw_read.specs.Numbers.{ReadsAddress, RefusesAddress};
ghost use Rattle.dw_read.specs.Reasons.{bytes_read, uleb_read, sleb_read, text_read};
ghost use Rattle.dw_read.specs.Reasons.{initial_length_read};

use crate::error::{ReadError, ReadResult};
use crate::leb128::{sleb_of, uleb_of};
use crate::number::{number_of, wide_number_of};
use crate::text::first_zero;
use dw_base::{Endianity, Format};

/// Reads a part of a section, from a place on to an end. After an error a reader is unchanged.
///
/// `EndianSlice` is the reader of a section that lies in a slice.
///
/// ```
/// let mut reader = EndianSlice::new(b"\x80\x01a\x00", LittleEndian);
/// let number = reader.read_uleb128()?; // 128
/// let text = reader.read_null_terminated()?; // the byte `a`, at place 2
/// ```
pub trait Reader: Sized + Drop {
    type Endian: Endianity;

    ghost reading: { Self → Reading };

    /// The byte order of numbers.
    fn endian(&self) -> Self::Endian
        ensures { Self.Endian.is_big result ≡ (reading self.now).is_big };

    /// How many bytes are left.
    fn len(&self) -> usize
        ensures { result ≡ length (left (reading self.now)) };

    /// The place in the section.
    fn place(&self) -> usize
        ensures { result ≡ (reading self.now).place };

    /// The bytes that are left.
    fn to_slice(&self) -> &[u8]
        ensures { result.now ≡ left (reading self.now) };

    /// The same reader once more.
    fn duplicate(&self) -> Self
        ensures { reading result ≡ reading self.now };

    /// Passes bytes.
    fn skip(&mut self, n: usize) -> ReadResult<()>
        ensures ok { OnOk result (Passes n (reading self.old) (reading self.new)) }
        ensures err { IfErr result (Refuses _ (bytes_at n) (bytes_read n) (reading self.old)) }
        ensures kept { OnErr result (reading self.new ≡ reading self.old) };

    /// Passes bytes, and answers a reader of them at their place.
    fn split(&mut self, n: usize) -> ReadResult<Self>
        ensures part { IfOk result (λ r. reading r ≡ part n (reading self.old)) }
        ensures ok { OnOk result (Passes n (reading self.old) (reading self.new)) }
        ensures err { IfErr result (Refuses _ (bytes_at n) (bytes_read n) (reading self.old)) }
        ensures kept { OnErr result (reading self.new ≡ reading self.old) };

    /// A number of so many bytes, at most 8.
    final fn read_uint(&mut self, n: usize) -> ReadResult<u64>
        requires { n ≤ 8 }
        ensures fits { IfOk result (λ value. value < 256 ^ n) }
        ensures passes { OnOk result (Passes n (reading self.old) (reading self.new)) }
        ensures ok { IfOk result (ReadsNumber n (reading self.old) (reading self.new)) }
        ensures err { IfErr result (RefusesNumber n (reading self.old)) }
        ensures kept { OnErr result (reading self.new ≡ reading self.old) }
    {
        let big = self.endian().is_big_endian();
        let part = self.split(n)?;
        Ok(number_of(part.to_slice(), big))
    }

    /// A number of one byte.
    final fn read_u8(&mut self) -> ReadResult<u8>
        ensures passes { OnOk result (Passes 1 (reading self.old) (reading self.new)) }
        ensures ok { IfOk result (ReadsNumber 1 (reading self.old) (reading self.new)) }
        ensures err { IfErr result (RefusesNumber 1 (reading self.old)) }
        ensures kept { OnErr result (reading self.new ≡ reading self.old) }
    {
        let value = self.read_uint(1)?;
        Ok(value as u8)
    }

    /// A number of two bytes.
    final fn read_u16(&mut self) -> ReadResult<u16>
        ensures passes { OnOk result (Passes 2 (reading self.old) (reading self.new)) }
        ensures ok { IfOk result (ReadsNumber 2 (reading self.old) (reading self.new)) }
        ensures err { IfErr result (RefusesNumber 2 (reading self.old)) }
        ensures kept { OnErr result (reading self.new ≡ reading self.old) }
    {
        let value = self.read_uint(2)?;
        Ok(value as u16)
    }

    /// A number of four bytes.
    final fn read_u32(&mut self) -> ReadResult<u32>
        ensures passes { OnOk result (Passes 4 (reading self.old) (reading self.new)) }
        ensures ok { IfOk result (ReadsNumber 4 (reading self.old) (reading self.new)) }
        ensures err { IfErr result (RefusesNumber 4 (reading self.old)) }
        ensures kept { OnErr result (reading self.new ≡ reading self.old) }
    {
        let value = self.read_uint(4)?;
        Ok(value as u32)
    }

    /// A number of eight bytes.
    final fn read_u64(&mut self) -> ReadResult<u64>
        ensures passes { OnOk result (Passes 8 (reading self.old) (reading self.new)) }
        ensures ok { IfOk result (ReadsNumber 8 (reading self.old) (reading self.new)) }
        ensures err { IfErr result (RefusesNumber 8 (reading self.old)) }
        ensures kept { OnErr result (reading self.new ≡ reading self.old) }
    {
        self.read_uint(8)
    }

    /// A number of sixteen bytes.
    final fn read_u128(&mut self) -> ReadResult<u128>
        ensures passes { OnOk result (Passes 16 (reading self.old) (reading self.new)) }
        ensures ok { IfOk result (ReadsNumber 16 (reading self.old) (reading self.new)) }
        ensures err { IfErr result (RefusesNumber 16 (reading self.old)) }
        ensures kept { OnErr result (reading self.new ≡ reading self.old) }
    {
        let big = self.endian().is_big_endian();
        let part = self.split(16)?;
        Ok(wide_number_of(part.to_slice(), big))
    }

    /// An unsigned LEB128 number.
    final fn read_uleb128(&mut self) -> ReadResult<u64>
        ensures ok { IfOk result (Reads _ uleb_at
            (reading self.old) (reading self.new)) }
        ensures err { IfErr result (Refuses _ uleb_at uleb_read
            (reading self.old)) }
        ensures kept { OnErr result (reading self.new ≡ reading self.old) }
    {
        let (value, size) = uleb_of(self.to_slice())?;
        self.skip(size)?;
        Ok(value)
    }

    /// A signed LEB128 number.
    final fn read_sleb128(&mut self) -> ReadResult<i64>
        ensures ok { IfOk result (Reads _ sleb_at
            (reading self.old) (reading self.new)) }
        ensures err { IfErr result (Refuses _ sleb_at sleb_read
            (reading self.old)) }
        ensures kept { OnErr result (reading self.new ≡ reading self.old) }
    {
        let (value, size) = sleb_of(self.to_slice())?;
        self.skip(size)?;
        Ok(value)
    }

    /// An address of so many bytes, which are 1, 2, 4 or 8.
    final fn read_address(&mut self, size: u8) -> ReadResult<u64>
        ensures ok { IfOk result (ReadsAddress size (reading self.old) (reading self.new)) }
        ensures err { IfErr result (RefusesAddress size (reading self.old)) }
        ensures kept { OnErr result (reading self.new ≡ reading self.old) }
    {
        if !is_address_size(size) {
            return Err(ReadError::UnsupportedAddressSize(size));
        }
        self.read_uint(size as usize)
    }

    /// A word of a format: a length or an offset into a section.
    final fn read_word(&mut self, format: Format) -> ReadResult<usize>
        ensures passes { OnOk result
            (Passes (word_of format) (reading self.old) (reading self.new)) }
        ensures ok { IfOk result
            (ReadsNumber (word_of format) (reading self.old) (reading self.new)) }
        ensures err { IfErr result (RefusesNumber (word_of format) (reading self.old)) }
        ensures kept { OnErr result (reading self.new ≡ reading self.old) }
    {
        let value = self.read_uint(format.word_size() as usize)?;
        Ok(value as usize)
    }

    /// A length that tells its format, the length first (DWARF 5, 7.4).
    final fn read_initial_length(&mut self) -> ReadResult<(usize, Format)>
        ensures passes { IfOk result
            (λ x. Passes (length_size x.1) (reading self.old) (reading self.new)) }
        ensures ok { IfOk result (λ x. Reads _ (initial_length_at (reading self.old).is_big)
            (reading self.old) (reading self.new) (x.1, x.0)) }
        ensures err { IfErr result (Refuses _ (initial_length_at (reading self.old).is_big)
            (initial_length_read (reading self.old).is_big) (reading self.old)) }
        ensures kept { OnErr result (reading self.new ≡ reading self.old) }
    {
        let mut after = self.duplicate();
        let first = after.read_u32()?;
        if first < 0xffff_fff0 {
            *self = after;
            return Ok((first as usize, Format::Dwarf32));
        }
        if first != 0xffff_ffff {
            return Err(ReadError::UnknownReservedLength);
        }
        let length = after.read_word(Format::Dwarf64)?;
        *self = after;
        Ok((length, Format::Dwarf64))
    }

    /// The bytes before a zero, which is passed too.
    final fn read_null_terminated(&mut self) -> ReadResult<Self>
        ensures ok { IfOk result (λ text. Reads _ text_at
            (reading self.old) (reading self.new) (left (reading text))) }
        ensures part { IfOk result (λ text. IsPart (reading self.old) (reading text)) }
        ensures err { IfErr result (Refuses _ text_at text_read (reading self.old)) }
        ensures kept { OnErr result (reading self.new ≡ reading self.old) }
    {
        let Some(length) = first_zero(self.to_slice()) else {
            return Err(ReadError::UnexpectedEof);
        };
        let text = self.duplicate().split(length)?;
        self.skip(length + 1)?;
        Ok(text)
    }

    // The place lies inside what is read, and that inside the section.
    ghost is_reading: { (s : Self) → IsReading (reading s) };
}

/// Whether addresses of so many bytes are there: 1, 2, 4 or 8.
pub(crate) fn is_address_size(size: u8) -> bool
    ensures { result ≡ is_width size }
{
    matches!(size, 1 | 2 | 4 | 8)
}
