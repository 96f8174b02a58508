//! The addresses of items.

ghost use Rattle.std.specs.Prelude.{◌≡◌, ◌+◌, ◌||◌, Some, true, false, OnOk, IfErr};
ghost use Rattle.dw_writer.specs.Meaning.{Appends, IsSameWriter};
ghost use Rattle.dw_lists.specs.Kinds.{range_kinds, AreBytes};
ghost use Rattle.dw_lists.specs.Pieces.{IsWritten, ends_text, kind_of};
ghost use Rattle.dw_lists.specs.Pieces.{operands_size, operands_text};
ghost use Rattle.dw_lists.specs.Texts.{IsRanged, range_size, span_draft};
ghost use Rattle.dw_lists.specs.Causes.{Refused, Is, IsNone, is_base, form_fails, numbers_fail};
ghost use Rattle.dw_lists.specs.Causes.{new_fails};

use crate::address::{further, is_marker, is_same, marker};
use crate::kinds::Kinds;
use crate::range::Range;
use dw_base::{Address, Error, Result, uleb128_size};
use dw_writer::Writer;

/// Tells that a base is in force behind an item.
pub(crate) fn has_base_after(range: Option<Range>, has_base: bool) -> bool
    ensures { result ≡ (has_base || is_base range) }
{
    match range {
        Some(Range::BaseAddress { .. }) => true,
        _ => has_base,
    }
}

/// Writes a base up to version 4, behind the marker.
fn write_base<W: Writer>(address: Address, address_size: u8, w: &mut W) -> Result<()>
    ensures ok { OnOk result
        (IsWritten (W.meaning w.old) (W.meaning w.new)
        (span_draft false range_kinds address_size (Some (Range.BaseAddress address)))) }
    ensures sound { OnOk result
        (IsNone (numbers_fail (W.meaning w.old).is_plain address_size
        (Range.BaseAddress address))) }
    ensures err { IfErr result
        (Refused (W.meaning w.old) (W.meaning w.new)
        (Is (numbers_fail (W.meaning w.old).is_plain address_size (Range.BaseAddress address)))) }
    ensures same { IsSameWriter (W.meaning w.old) (W.meaning w.new) }
{
    let all_ones = marker(address_size)?;
    w.write_udata(all_ones, address_size)?;
    w.write_address(address, address_size)
}

/// Writes a pair of offsets up to version 4.
fn write_offsets<W: Writer>(begin: u64, end: u64, address_size: u8, w: &mut W) -> Result<()>
    ensures ok { OnOk result
        (IsWritten (W.meaning w.old) (W.meaning w.new)
        (span_draft false range_kinds address_size (Some (Range.OffsetPair begin end)))) }
    ensures sound { OnOk result
        (IsNone (numbers_fail (W.meaning w.old).is_plain address_size
        (Range.OffsetPair begin end))) }
    ensures err { IfErr result
        (Refused (W.meaning w.old) (W.meaning w.new)
        (Is (numbers_fail (W.meaning w.old).is_plain address_size (Range.OffsetPair begin end)))) }
    ensures same { IsSameWriter (W.meaning w.old) (W.meaning w.new) }
{
    w.write_udata(begin, address_size)?;
    w.write_udata(end, address_size)
}

/// Writes two addresses.
fn write_ends<W: Writer>(begin: Address, end: Address, address_size: u8, w: &mut W) -> Result<()>
    ensures ok { OnOk result
        (Appends (W.meaning w.old) (W.meaning w.new) (address_size + address_size)
        (ends_text address_size begin end)) }
    ensures sound { OnOk result
        (IsNone (numbers_fail (W.meaning w.old).is_plain address_size (Range.StartEnd begin end))) }
    ensures err { IfErr result
        (Refused (W.meaning w.old) (W.meaning w.new)
        (Is (numbers_fail (W.meaning w.old).is_plain address_size (Range.StartEnd begin end)))) }
    ensures same { IsSameWriter (W.meaning w.old) (W.meaning w.new) }
{
    w.write_address(begin, address_size)?;
    w.write_address(end, address_size)
}

impl Range {
    /// Refuses an item that has no form up to version 4.
    pub(crate) fn check_form(&self, address_size: u8, has_base: bool) -> Result<()>
        ensures sound { OnOk result (IsNone (form_fails has_base address_size self.now)) }
        ensures err { IfErr result (Is (form_fails has_base address_size self.now)) }
    {
        let all_ones = marker(address_size)?;
        match *self {
            Range::BaseAddress { .. } => Ok(()),
            Range::OffsetPair { begin, end } => {
                if !has_base {
                    return Err(Error::MissingBaseAddress);
                }
                if begin == end || begin == all_ones {
                    return Err(Error::InvalidRange);
                }
                Ok(())
            }
            Range::StartEnd { begin, end } => {
                if has_base {
                    return Err(Error::UnexpectedBaseAddress);
                }
                if is_same(begin, end) || is_marker(begin, all_ones, address_size) {
                    return Err(Error::InvalidRange);
                }
                Ok(())
            }
            Range::StartLength { begin, length } => {
                if has_base {
                    return Err(Error::UnexpectedBaseAddress);
                }
                if length == 0 || is_marker(begin, all_ones, address_size) {
                    return Err(Error::InvalidRange);
                }
                Ok(())
            }
        }
    }

    /// Writes an item up to version 4: two addresses, or the marker and a base (DWARF 4, 2.17.3).
    pub(crate) fn write_old<W: Writer>(&self, address_size: u8, w: &mut W) -> Result<()>
        ensures ok { OnOk result
            (IsWritten (W.meaning w.old) (W.meaning w.new)
            (span_draft false range_kinds address_size (Some self.now))) }
        ensures sound { OnOk result
            (IsNone (numbers_fail (W.meaning w.old).is_plain address_size self.now)) }
        ensures err { IfErr result
            (Refused (W.meaning w.old) (W.meaning w.new)
            (Is (numbers_fail (W.meaning w.old).is_plain address_size self.now))) }
        ensures same { IsSameWriter (W.meaning w.old) (W.meaning w.new) }
    {
        match *self {
            Range::BaseAddress { address } => write_base(address, address_size, w),
            Range::OffsetPair { begin, end } => write_offsets(begin, end, address_size, w),
            Range::StartEnd { begin, end } => write_ends(begin, end, address_size, w),
            Range::StartLength { begin, length } => {
                let end = further(begin, length)?;
                write_ends(begin, end, address_size, w)
            }
        }
    }

    /// The bytes of an item of version 5.
    pub(crate) fn new_size(&self, address_size: u8) -> u64
        ensures { result ≡ range_size true address_size self.now }
    {
        let width = address_size as u64;
        match *self {
            Range::BaseAddress { .. } => 1 + width,
            Range::OffsetPair { begin, end } => {
                1 + (uleb128_size(begin) as u64 + uleb128_size(end) as u64)
            }
            Range::StartEnd { .. } => 1 + (width + width),
            Range::StartLength { length, .. } => 1 + (width + uleb128_size(length) as u64),
        }
    }

    /// Writes an item of version 5: its kind, and its operands (DWARF 5, 7.25 and 7.7.3).
    pub(crate) fn write_new<W: Writer>(
        &self,
        kinds: Kinds,
        address_size: u8,
        w: &mut W,
    ) -> Result<()>
        requires { AreBytes kinds }
        ensures ok { OnOk result
            (IsWritten (W.meaning w.old) (W.meaning w.new)
            (span_draft true kinds address_size (Some self.now))) }
        ensures ranged { OnOk result (IsRanged (Some self.now)) }
        ensures sound { OnOk result
            (IsNone (new_fails (W.meaning w.old).is_plain address_size self.now)) }
        ensures err { IfErr result
            (Refused (W.meaning w.old) (W.meaning w.new)
            (Is (new_fails (W.meaning w.old).is_plain address_size self.now))) }
        ensures same { IsSameWriter (W.meaning w.old) (W.meaning w.new) }
    {
        w.write_u8(self.kind(kinds))?;
        self.write_operands(address_size, w)
    }

    /// The kind of an item of version 5.
    fn kind(&self, kinds: Kinds) -> u8
        ensures { result ≡ kind_of kinds self.now }
    {
        match self {
            Range::BaseAddress { .. } => kinds.base_address,
            Range::OffsetPair { .. } => kinds.offset_pair,
            Range::StartEnd { .. } => kinds.start_end,
            Range::StartLength { .. } => kinds.start_length,
        }
    }

    /// Writes what an item of version 5 has behind its kind.
    fn write_operands<W: Writer>(&self, address_size: u8, w: &mut W) -> Result<()>
        ensures ok { OnOk result
            (Appends (W.meaning w.old) (W.meaning w.new)
            (operands_size address_size self.now) (operands_text address_size self.now)) }
        ensures ranged { OnOk result (IsRanged (Some self.now)) }
        ensures sound { OnOk result
            (IsNone (new_fails (W.meaning w.old).is_plain address_size self.now)) }
        ensures err { IfErr result
            (Refused (W.meaning w.old) (W.meaning w.new)
            (Is (new_fails (W.meaning w.old).is_plain address_size self.now))) }
        ensures same { IsSameWriter (W.meaning w.old) (W.meaning w.new) }
    {
        match *self {
            Range::BaseAddress { address } => w.write_address(address, address_size),
            Range::OffsetPair { begin, end } => {
                w.write_uleb128(begin)?;
                w.write_uleb128(end)
            }
            Range::StartEnd { begin, end } => write_ends(begin, end, address_size, w),
            Range::StartLength { begin, length } => {
                w.write_address(begin, address_size)?;
                w.write_uleb128(length)
            }
        }
    }
}
