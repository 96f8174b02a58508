//! What every writer of a section does.

ghost use Rattle.std.specs.Prelude.{◌≡◌, Bool, true, false, [], ℕ, ◌+◌, ◌<◌, ◌≤◌, ◌++◌, length, IsTrue, IsSome, Err, OnOk, IfOk, IfErr, OnErr};
ghost use Rattle.dw_base.specs.Numbers.{num, is_width, fits, word_of, escape_of, length_fits};
ghost use Rattle.dw_base.specs.Leb128.{uleb, sleb};
ghost use Rattle.dw_base.specs.declared.error.Error.TheVariants.{InvalidReference};
ghost use Rattle.dw_base.specs.declared.address.Address.TheVariants.{Symbol};
ghost use Rattle.dw_writer.specs.Pointers.{data_text};
ghost use Rattle.dw_writer.specs.Texts.{zeros};
ghost use Rattle.dw_writer.specs.SignedNumbers.{signed_fits, signed_num};
ghost use Rattle.dw_writer.specs.Meaning.{Meaning, IsSameWriter, Adds, AddsWith, AddsSome, AddsSomeWith, Replaces, ReplacesWith, ReplacesSome, ReplacesSomeWith, Appends, Patches, spelled_num, spelled_signed, spelled_length, offset_bytes, address_bytes, offset_records, address_records, spelled_text, pointer_bytes, pointer_records, pointer_fits};
ghost use Rattle.dw_writer.specs.Causes.{IsNotMemory, KeptOutside, BytesRefused, PatchRefused, NumberRefused, AddressRefused, LengthRefused, offset_fits, address_fits, DataRefused, PointerRefused};
ghost use Rattle.dw_writer.specs.SectionTexts.{offset_text, address_text, eh_pointer_text, eh_pointer_size};

use crate::leb128::{sleb128_bytes, uleb128_bytes};
use crate::number::{
    bytes_of_u16, bytes_of_u32, bytes_of_u64, bytes_of_u128, number_bytes, open_length,
    signed_number_bytes,
};
use crate::pointer::{PointerLayout, counted_from, layout_of};
use dw_base::{Address, DwEhPe, Endianity, Error, Format, Result, SectionId};

/// Writes a section. Every call but those named `.._at` adds bytes at its end; those write over
/// bytes that are there, from an offset in bytes on. Numbers of several bytes are put in the
/// writer's byte order.
///
/// Any call may fail with `NoMemory`, or with `WriteFault` where the writer itself fails. A call
/// that fails may leave the first of its bytes behind, at the end or over those that were there.
/// A writer that patches in place never answers `NoMemory` to the calls named `.._at`.
pub trait Writer {
    type Endian: Endianity;

    ghost meaning: { Self → Meaning };

    // A writer of this type takes no memory for writing over bytes that are there.
    ghost patches_in_place: { Bool } = { false };

    /// The byte order of numbers.
    fn endian(&self) -> Self::Endian
        ensures { Self.Endian.is_big result ≡ (meaning self.now).is_big };

    /// How many bytes were written so far, which is the offset of the next one.
    fn len(&self) -> usize
        ensures { result ≡ (meaning self.now).size };

    /// Adds bytes as they are.
    fn write(&mut self, bytes: &[u8]) -> Result<()>
        ensures ok { OnOk result (Adds (meaning self.old) (meaning self.new) bytes.now) }
        ensures err { IfErr result (BytesRefused (meaning self.old) (meaning self.new)) }
        ensures partly { OnErr result (AddsSome (meaning self.old) (meaning self.new) bytes.now) }
        ensures same { IsSameWriter (meaning self.old) (meaning self.new) };

    /// Writes bytes over those from `offset` on, and takes no room past the end: an offset past the
    /// end is refused as `OffsetOutOfBounds`, and bytes that would pass it as `LengthOutOfBounds`.
    fn write_at(&mut self, offset: usize, bytes: &[u8]) -> Result<()>
        ensures ok { OnOk result (Replaces (meaning self.old) (meaning self.new) offset bytes.now) }
        ensures err { IfErr result
            (PatchRefused (meaning self.old) (meaning self.new) offset (length bytes.now)) }
        ensures outside { IfErr result (KeptOutside (meaning self.old) (meaning self.new)) }
        ensures memory { IsTrue patches_in_place → IfErr result IsNotMemory }
        ensures partly { OnErr result
            (ReplacesSome (meaning self.old) (meaning self.new) offset bytes.now) }
        ensures same { IsSameWriter (meaning self.old) (meaning self.new) };

    /// Adds the offset `val` into a section, in `size` bytes. A writer that records relocations
    /// leaves it to the linker to add the section's start; any other puts `val` itself. Refused as
    /// `UnsupportedWordSize` where the size isn't 1, 2, 4 or 8, and as `ValueTooLarge` where the
    /// offset has no room in it.
    fn write_offset(&mut self, val: usize, section: SectionId, size: u8) -> Result<()>
        ensures fits { OnOk result
            (IsTrue (is_width size) × IsTrue (offset_fits (meaning self.old).is_plain size val)) }
        ensures ok { OnOk result
            (Appends (meaning self.old) (meaning self.new) size (offset_text size section val)) }
        ensures err { IfErr result
            (NumberRefused size (offset_fits (meaning self.old).is_plain size val)
            (BytesRefused (meaning self.old) (meaning self.new))) }
        ensures raw { OnOk result (AddsWith (meaning self.old) (meaning self.new)
            (offset_bytes (meaning self.old).is_plain (meaning self.old).is_big size val)
            (offset_records (meaning self.old).is_plain (meaning self.old).size size section val)) }
        ensures partly { AddsSomeWith (meaning self.old) (meaning self.new)
            (offset_bytes (meaning self.old).is_plain (meaning self.old).is_big size val)
            (offset_records (meaning self.old).is_plain (meaning self.old).size size section val) }
        ensures same { IsSameWriter (meaning self.old) (meaning self.new) };

    /// Writes such an offset over the bytes from `offset` on.
    fn write_offset_at(
        &mut self,
        offset: usize,
        val: usize,
        section: SectionId,
        size: u8,
    ) -> Result<()>
        ensures fits { OnOk result
            (IsTrue (is_width size) × IsTrue (offset_fits (meaning self.old).is_plain size val)) }
        ensures ok { OnOk result
            (Patches (meaning self.old) (meaning self.new) offset size
            (offset_text size section val)) }
        ensures err { IfErr result
            (NumberRefused size (offset_fits (meaning self.old).is_plain size val)
            (PatchRefused (meaning self.old) (meaning self.new) offset size)) }
        ensures outside { IfErr result (KeptOutside (meaning self.old) (meaning self.new)) }
        ensures memory { IsTrue patches_in_place → IfErr result IsNotMemory }
        ensures raw { OnOk result (ReplacesWith (meaning self.old) (meaning self.new) offset
            (offset_bytes (meaning self.old).is_plain (meaning self.old).is_big size val)
            (offset_records (meaning self.old).is_plain offset size section val)) }
        ensures partly { OnErr result (ReplacesSomeWith (meaning self.old) (meaning self.new) offset
            (offset_bytes (meaning self.old).is_plain (meaning self.old).is_big size val)
            (offset_records (meaning self.old).is_plain offset size section val)) }
        ensures same { IsSameWriter (meaning self.old) (meaning self.new) };

    /// Adds an address of the target, in `size` bytes, with the same refusals as a number's. A
    /// writer that records no relocations refuses every symbol, as `InvalidAddress`.
    fn write_address(&mut self, address: Address, size: u8) -> Result<()>
        ensures fits { OnOk result
            (IsTrue (address_fits (meaning self.old).is_plain size address)) }
        ensures ok { OnOk result
            (Appends (meaning self.old) (meaning self.new) size (address_text size address)) }
        ensures err { IfErr result
            (AddressRefused (meaning self.old).is_plain size address
            (BytesRefused (meaning self.old) (meaning self.new))) }
        ensures raw { OnOk result (AddsWith (meaning self.old) (meaning self.new)
            (address_bytes (meaning self.old).is_plain (meaning self.old).is_big size address)
            (address_records (meaning self.old).is_plain (meaning self.old).size size address)) }
        ensures partly { AddsSomeWith (meaning self.old) (meaning self.new)
            (address_bytes (meaning self.old).is_plain (meaning self.old).is_big size address)
            (address_records (meaning self.old).is_plain (meaning self.old).size size address) }
        ensures same { IsSameWriter (meaning self.old) (meaning self.new) };

    /// Adds a pointer to a symbol, plus the addend, by its encoding. A writer that records no
    /// relocations refuses it, as `InvalidAddress`; any other leaves it to the linker, and refuses
    /// the formats in LEB128, which have no width, as `UnsupportedPointerEncoding`.
    fn write_symbol_pointer(
        &mut self,
        symbol: usize,
        addend: i64,
        eh_pe: DwEhPe,
        size: u8,
    ) -> Result<()>
        ensures fits { OnOk result
            (IsTrue (pointer_fits (meaning self.old).is_plain (meaning self.old).is_big size
            eh_pe.0 (meaning self.old).size (Symbol symbol addend))) }
        ensures ok { OnOk result
            (Appends (meaning self.old) (meaning self.new)
            (eh_pointer_size size eh_pe.0 (meaning self.old).size (Symbol symbol addend))
            (eh_pointer_text size eh_pe.0 (meaning self.old).size (Symbol symbol addend))) }
        ensures err { IfErr result
            (PointerRefused (meaning self.old).is_plain size eh_pe.0 (meaning self.old).size
            (Symbol symbol addend) (BytesRefused (meaning self.old) (meaning self.new))) }
        ensures raw { OnOk result (AddsWith (meaning self.old) (meaning self.new)
            (pointer_bytes (meaning self.old).is_plain (meaning self.old).is_big size eh_pe.0
            (meaning self.old).size (Symbol symbol addend))
            (pointer_records (meaning self.old).is_plain size eh_pe (meaning self.old).size
            (Symbol symbol addend))) }
        ensures partly { AddsSomeWith (meaning self.old) (meaning self.new)
            (pointer_bytes (meaning self.old).is_plain (meaning self.old).is_big size eh_pe.0
            (meaning self.old).size (Symbol symbol addend))
            (pointer_records (meaning self.old).is_plain size eh_pe (meaning self.old).size
            (Symbol symbol addend)) }
        ensures same { IsSameWriter (meaning self.old) (meaning self.new) };

    /// Adds one byte.
    final fn write_u8(&mut self, val: u8) -> Result<()>
        ensures ok { OnOk result
            (Adds (meaning self.old) (meaning self.new) (num (meaning self.old).is_big 1 val)) }
        ensures err { IfErr result (BytesRefused (meaning self.old) (meaning self.new)) }
        ensures partly { OnErr result
            (AddsSome (meaning self.old) (meaning self.new) (num (meaning self.old).is_big 1 val)) }
        ensures same { IsSameWriter (meaning self.old) (meaning self.new) }
    {
        self.write(&[val])
    }

    /// Adds a number of two bytes.
    final fn write_u16(&mut self, val: u16) -> Result<()>
        ensures ok { OnOk result
            (Adds (meaning self.old) (meaning self.new) (num (meaning self.old).is_big 2 val)) }
        ensures err { IfErr result (BytesRefused (meaning self.old) (meaning self.new)) }
        ensures partly { OnErr result
            (AddsSome (meaning self.old) (meaning self.new) (num (meaning self.old).is_big 2 val)) }
        ensures same { IsSameWriter (meaning self.old) (meaning self.new) }
    {
        let big = is_big(self);
        self.write(&bytes_of_u16(big, val))
    }

    /// Adds a number of four bytes.
    final fn write_u32(&mut self, val: u32) -> Result<()>
        ensures ok { OnOk result
            (Adds (meaning self.old) (meaning self.new) (num (meaning self.old).is_big 4 val)) }
        ensures err { IfErr result (BytesRefused (meaning self.old) (meaning self.new)) }
        ensures partly { OnErr result
            (AddsSome (meaning self.old) (meaning self.new) (num (meaning self.old).is_big 4 val)) }
        ensures same { IsSameWriter (meaning self.old) (meaning self.new) }
    {
        let big = is_big(self);
        self.write(&bytes_of_u32(big, val))
    }

    /// Adds a number of eight bytes.
    final fn write_u64(&mut self, val: u64) -> Result<()>
        ensures ok { OnOk result
            (Adds (meaning self.old) (meaning self.new) (num (meaning self.old).is_big 8 val)) }
        ensures err { IfErr result (BytesRefused (meaning self.old) (meaning self.new)) }
        ensures partly { OnErr result
            (AddsSome (meaning self.old) (meaning self.new) (num (meaning self.old).is_big 8 val)) }
        ensures same { IsSameWriter (meaning self.old) (meaning self.new) }
    {
        let big = is_big(self);
        self.write(&bytes_of_u64(big, val))
    }

    /// Adds a number of sixteen bytes, as the checksum of a source file is (DWARF 5, 6.2.4.1).
    final fn write_u128(&mut self, val: u128) -> Result<()>
        ensures ok { OnOk result
            (Adds (meaning self.old) (meaning self.new) (num (meaning self.old).is_big 16 val)) }
        ensures err { IfErr result (BytesRefused (meaning self.old) (meaning self.new)) }
        ensures partly { OnErr result
            (AddsSome (meaning self.old) (meaning self.new)
            (num (meaning self.old).is_big 16 val)) }
        ensures same { IsSameWriter (meaning self.old) (meaning self.new) }
    {
        let big = is_big(self);
        self.write(&bytes_of_u128(big, val))
    }

    /// Writes one byte over that at `offset`.
    final fn write_u8_at(&mut self, offset: usize, val: u8) -> Result<()>
        ensures ok { OnOk result
            (Replaces (meaning self.old) (meaning self.new) offset
            (num (meaning self.old).is_big 1 val)) }
        ensures err { IfErr result (PatchRefused (meaning self.old) (meaning self.new) offset 1) }
        ensures outside { IfErr result (KeptOutside (meaning self.old) (meaning self.new)) }
        ensures memory { IsTrue patches_in_place → IfErr result IsNotMemory }
        ensures partly { OnErr result
            (ReplacesSome (meaning self.old) (meaning self.new) offset
            (num (meaning self.old).is_big 1 val)) }
        ensures same { IsSameWriter (meaning self.old) (meaning self.new) }
    {
        self.write_at(offset, &[val])
    }

    /// Writes a number over the two bytes from `offset` on.
    final fn write_u16_at(&mut self, offset: usize, val: u16) -> Result<()>
        ensures ok { OnOk result
            (Replaces (meaning self.old) (meaning self.new) offset
            (num (meaning self.old).is_big 2 val)) }
        ensures err { IfErr result (PatchRefused (meaning self.old) (meaning self.new) offset 2) }
        ensures outside { IfErr result (KeptOutside (meaning self.old) (meaning self.new)) }
        ensures memory { IsTrue patches_in_place → IfErr result IsNotMemory }
        ensures partly { OnErr result
            (ReplacesSome (meaning self.old) (meaning self.new) offset
            (num (meaning self.old).is_big 2 val)) }
        ensures same { IsSameWriter (meaning self.old) (meaning self.new) }
    {
        let big = is_big(self);
        self.write_at(offset, &bytes_of_u16(big, val))
    }

    /// Writes a number over the four bytes from `offset` on.
    final fn write_u32_at(&mut self, offset: usize, val: u32) -> Result<()>
        ensures ok { OnOk result
            (Replaces (meaning self.old) (meaning self.new) offset
            (num (meaning self.old).is_big 4 val)) }
        ensures err { IfErr result (PatchRefused (meaning self.old) (meaning self.new) offset 4) }
        ensures outside { IfErr result (KeptOutside (meaning self.old) (meaning self.new)) }
        ensures memory { IsTrue patches_in_place → IfErr result IsNotMemory }
        ensures partly { OnErr result
            (ReplacesSome (meaning self.old) (meaning self.new) offset
            (num (meaning self.old).is_big 4 val)) }
        ensures same { IsSameWriter (meaning self.old) (meaning self.new) }
    {
        let big = is_big(self);
        self.write_at(offset, &bytes_of_u32(big, val))
    }

    /// Writes a number over the eight bytes from `offset` on.
    final fn write_u64_at(&mut self, offset: usize, val: u64) -> Result<()>
        ensures ok { OnOk result
            (Replaces (meaning self.old) (meaning self.new) offset
            (num (meaning self.old).is_big 8 val)) }
        ensures err { IfErr result (PatchRefused (meaning self.old) (meaning self.new) offset 8) }
        ensures outside { IfErr result (KeptOutside (meaning self.old) (meaning self.new)) }
        ensures memory { IsTrue patches_in_place → IfErr result IsNotMemory }
        ensures partly { OnErr result
            (ReplacesSome (meaning self.old) (meaning self.new) offset
            (num (meaning self.old).is_big 8 val)) }
        ensures same { IsSameWriter (meaning self.old) (meaning self.new) }
    {
        let big = is_big(self);
        self.write_at(offset, &bytes_of_u64(big, val))
    }

    /// Adds an unsigned number in `size` bytes. Refused as `UnsupportedWordSize` where the size
    /// isn't 1, 2, 4 or 8, and as `ValueTooLarge` where the number has no room in it.
    final fn write_udata(&mut self, val: u64, size: u8) -> Result<()>
        ensures fits { OnOk result (IsTrue (is_width size) × IsTrue (fits size val)) }
        ensures ok { OnOk result
            (Adds (meaning self.old) (meaning self.new) (num (meaning self.old).is_big size val)) }
        ensures err { IfErr result
            (NumberRefused size (fits size val)
            (BytesRefused (meaning self.old) (meaning self.new))) }
        ensures partly { OnErr result
            (AddsSome (meaning self.old) (meaning self.new)
            (spelled_num (meaning self.old).is_big size val)) }
        ensures same { IsSameWriter (meaning self.old) (meaning self.new) }
    {
        let number = number_bytes(is_big(self), val, size)?;
        self.write(number.slice())
    }

    /// Adds a signed number in `size` bytes, in two's complement, with the refusals of
    /// `write_udata`.
    final fn write_sdata(&mut self, val: i64, size: u8) -> Result<()>
        ensures fits { OnOk result (IsTrue (is_width size) × IsTrue (signed_fits size val)) }
        ensures ok { OnOk result
            (Adds (meaning self.old) (meaning self.new)
            (signed_num (meaning self.old).is_big size val)) }
        ensures err { IfErr result
            (NumberRefused size (signed_fits size val)
            (BytesRefused (meaning self.old) (meaning self.new))) }
        ensures partly { OnErr result
            (AddsSome (meaning self.old) (meaning self.new)
            (spelled_signed (meaning self.old).is_big size val)) }
        ensures same { IsSameWriter (meaning self.old) (meaning self.new) }
    {
        let number = signed_number_bytes(is_big(self), val, size)?;
        self.write(number.slice())
    }

    /// Writes an unsigned number over the `size` bytes from `offset` on, with the refusals of
    /// `write_udata` and of `write_at`.
    final fn write_udata_at(&mut self, offset: usize, val: u64, size: u8) -> Result<()>
        ensures fits { OnOk result (IsTrue (is_width size) × IsTrue (fits size val)) }
        ensures ok { OnOk result
            (Replaces (meaning self.old) (meaning self.new) offset
            (num (meaning self.old).is_big size val)) }
        ensures err { IfErr result
            (NumberRefused size (fits size val)
            (PatchRefused (meaning self.old) (meaning self.new) offset size)) }
        ensures outside { IfErr result (KeptOutside (meaning self.old) (meaning self.new)) }
        ensures memory { IsTrue patches_in_place → IfErr result IsNotMemory }
        ensures partly { OnErr result
            (ReplacesSome (meaning self.old) (meaning self.new) offset
            (spelled_num (meaning self.old).is_big size val)) }
        ensures same { IsSameWriter (meaning self.old) (meaning self.new) }
    {
        let number = number_bytes(is_big(self), val, size)?;
        self.write_at(offset, number.slice())
    }

    /// Adds the shortest ULEB128 spelling of a number, in 1 to 10 bytes (DWARF 5, 7.6).
    final fn write_uleb128(&mut self, val: u64) -> Result<()>
        ensures ok { OnOk result (Adds (meaning self.old) (meaning self.new) (uleb val)) }
        ensures err { IfErr result (BytesRefused (meaning self.old) (meaning self.new)) }
        ensures partly { OnErr result (AddsSome (meaning self.old) (meaning self.new) (uleb val)) }
        ensures same { IsSameWriter (meaning self.old) (meaning self.new) }
    {
        if val < 0x80 {
            return self.write(&[val as u8]);
        }
        self.write(uleb128_bytes(val).slice())
    }

    /// Adds the shortest SLEB128 spelling of a number, in 1 to 10 bytes (DWARF 5, 7.6).
    final fn write_sleb128(&mut self, val: i64) -> Result<()>
        ensures ok { OnOk result (Adds (meaning self.old) (meaning self.new) (sleb val)) }
        ensures err { IfErr result (BytesRefused (meaning self.old) (meaning self.new)) }
        ensures partly { OnErr result (AddsSome (meaning self.old) (meaning self.new) (sleb val)) }
        ensures same { IsSameWriter (meaning self.old) (meaning self.new) }
    {
        self.write(sleb128_bytes(val).slice())
    }

    /// Adds a length that isn't known yet, as zeros, with the escape of the 64-bit format before it
    /// (DWARF 5, 7.4). Returns the offset of the zeros, for `write_initial_length_at`.
    final fn write_initial_length(&mut self, format: Format) -> Result<usize>
        ensures ok { OnOk result
            (Adds (meaning self.old) (meaning self.new)
            (escape_of format ++ zeros (word_of format))) }
        ensures place { IfOk result (λ p. p ≡ (meaning self.old).size + length (escape_of format)) }
        ensures err { IfErr result (BytesRefused (meaning self.old) (meaning self.new)) }
        ensures partly { OnErr result
            (AddsSome (meaning self.old) (meaning self.new)
            (escape_of format ++ zeros (word_of format))) }
        ensures same { IsSameWriter (meaning self.old) (meaning self.new) }
    {
        self.write(open_length(format))?;
        Ok(self.len() - format.word_size() as usize)
    }

    /// Writes a length over the zeros that `write_initial_length` left. In the 32-bit format a
    /// length of `0xffff_fff0` or more is refused as `InitialLengthOverflow` (DWARF 5, 7.4).
    #[tactic(auto, using(crate::proofs::Parts::replaces_nothing))]
    final fn write_initial_length_at(
        &mut self,
        offset: usize,
        length: u64,
        format: Format,
    ) -> Result<()>
        ensures fits { OnOk result (IsTrue (length_fits format length)) }
        ensures ok { OnOk result
            (Replaces (meaning self.old) (meaning self.new) offset
            (num (meaning self.old).is_big (word_of format) length)) }
        ensures err { IfErr result
            (LengthRefused format length
            (PatchRefused (meaning self.old) (meaning self.new) offset (word_of format))) }
        ensures outside { IfErr result (KeptOutside (meaning self.old) (meaning self.new)) }
        ensures memory { IsTrue patches_in_place → IfErr result IsNotMemory }
        ensures partly { OnErr result
            (ReplacesSome (meaning self.old) (meaning self.new) offset
            (spelled_length (meaning self.old).is_big format length)) }
        ensures same { IsSameWriter (meaning self.old) (meaning self.new) }
    {
        match format {
            Format::Dwarf32 => {
                if length >= 0xffff_fff0 {
                    return Err(Error::InitialLengthOverflow);
                }
                self.write_u32_at(offset, length as u32)
            }
            Format::Dwarf64 => self.write_u64_at(offset, length),
        }
    }

    /// Adds a pointer of a call frame table by its encoding (Linux Standard Base Core 5.0, 10.5.1).
    /// What it holds counts from zero, or under `DW_EH_PE_pcrel` from its own offset, modulo 2^64;
    /// any other application is refused as `UnsupportedPointerEncoding`, and `DW_EH_PE_indirect`
    /// changes nothing. An address has `size` bytes. Symbols are those of `write_symbol_pointer`.
    final fn write_eh_pointer(&mut self, address: Address, eh_pe: DwEhPe, size: u8) -> Result<()>
        ensures fits { OnOk result
            (IsTrue (pointer_fits (meaning self.old).is_plain (meaning self.old).is_big size
            eh_pe.0 (meaning self.old).size address)) }
        ensures ok { OnOk result
            (Appends (meaning self.old) (meaning self.new)
            (eh_pointer_size size eh_pe.0 (meaning self.old).size address)
            (eh_pointer_text size eh_pe.0 (meaning self.old).size address)) }
        ensures err { IfErr result
            (PointerRefused (meaning self.old).is_plain size eh_pe.0 (meaning self.old).size
            address (BytesRefused (meaning self.old) (meaning self.new))) }
        ensures raw { OnOk result (AddsWith (meaning self.old) (meaning self.new)
            (pointer_bytes (meaning self.old).is_plain (meaning self.old).is_big size eh_pe.0
            (meaning self.old).size address)
            (pointer_records (meaning self.old).is_plain size eh_pe (meaning self.old).size
            address)) }
        ensures partly { AddsSomeWith (meaning self.old) (meaning self.new)
            (pointer_bytes (meaning self.old).is_plain (meaning self.old).is_big size eh_pe.0
            (meaning self.old).size address)
            (pointer_records (meaning self.old).is_plain size eh_pe (meaning self.old).size
            address) }
        ensures same { IsSameWriter (meaning self.old) (meaning self.new) }
    {
        match address {
            Address::Constant(val) => {
                let number = counted_from(val, eh_pe, self.len())?;
                self.write_eh_pointer_data(number, eh_pe.format(), size)
            }
            Address::Symbol { symbol, addend } => {
                self.write_symbol_pointer(symbol, addend, eh_pe, size)
            }
        }
    }

    /// Adds a number of 64 bits in the format of a pointer: that of an address, in `size` bytes,
    /// unsigned or signed in 2, 4 or 8 bytes, or in LEB128. A signed format takes the number in
    /// two's complement. Refused as `UnsupportedPointerEncoding` in any other format, and else as
    /// `write_udata` and `write_sdata` refuse.
    final fn write_eh_pointer_data(&mut self, val: u64, format: DwEhPe, size: u8) -> Result<()>
        ensures fits { OnOk result
            (IsSome (data_text (meaning self.old).is_big size format.0 val)) }
        ensures ok { OnOk result
            (Adds (meaning self.old) (meaning self.new)
            (spelled_text (data_text (meaning self.old).is_big size format.0 val))) }
        ensures err { IfErr result
            (DataRefused size format.0 val (BytesRefused (meaning self.old) (meaning self.new))) }
        ensures partly { OnErr result
            (AddsSome (meaning self.old) (meaning self.new)
            (spelled_text (data_text (meaning self.old).is_big size format.0 val))) }
        ensures same { IsSameWriter (meaning self.old) (meaning self.new) }
    {
        match layout_of(format, size)? {
            PointerLayout::Uleb128 => self.write_uleb128(val),
            PointerLayout::Sleb128 => self.write_sleb128(val.cast_signed()),
            PointerLayout::Unsigned(width) => self.write_udata(val, width),
            PointerLayout::Signed(width) => self.write_sdata(val.cast_signed(), width),
        }
    }

    /// Refuses a reference to a symbol, in `size` bytes, as `InvalidReference`.
    final fn write_reference(&mut self, _symbol: usize, _size: u8) -> Result<()>
        ensures refused { result ≡ Err InvalidReference }
        ensures kept { self.new ≡ self.old }
    {
        Err(Error::InvalidReference)
    }

    // A writer that puts offsets as they are records nothing.
    ghost plain_records_nothing: { (w : Self) →
        (meaning w).is_plain ≡ true → (meaning w).records ≡ [] };
}

/// Whether a writer puts the highest byte of a number first.
fn is_big<W: Writer>(writer: &W) -> bool
    ensures { result ≡ (W.meaning writer.now).is_big }
{
    writer.endian().is_big_endian()
}
