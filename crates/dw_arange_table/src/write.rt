//! How sets of address ranges are written (DWARF 5, 6.1.2).

ghost use Rattle.std.specs.Prelude.{◌≡◌, ◌<◌, ◌≤◌, ◌++◌, Bool, length, IsTrue};
ghost use Rattle.std.specs.Prelude.{OnOk, IfOk, IfErr, Ok};
ghost use Rattle.std.specs.List.{list_all, flat_map};
ghost use Rattle.dw_base.specs.Numbers.{num, is_width, word_of, escape_of, length_fits};
ghost use Rattle.dw_writer.specs.Texts.{zeros};
ghost use Rattle.dw_writer.specs.Meaning.{Adds, Appends};
ghost use Rattle.dw_writer.specs.Causes.{BytesRefused, LengthRefused};
ghost use Rattle.dw_arange_table.specs.Sets.{is_range, is_set};
ghost use Rattle.dw_arange_table.specs.Bytes.{padding, range_bytes, rest_bytes, content_bytes};
ghost use Rattle.dw_arange_table.specs.Bytes.{aranges_bytes};
ghost use Rattle.dw_arange_table.specs.Causes.{IsNone, Refused, set_fails, sets_fail};
ghost use Rattle.dw_arange_table.specs.Texts.{set_text, set_size, sets_text, sets_size};
ghost use Rattle.dw_arange_table.specs.Texts.{Writes, HoldsAlone};
ghost use Rattle.dw_arange_table.specs.Reading.{sets_read};

use crate::range::RangeDescriptor;
use crate::set::ArangeSet;
use crate::table::ArangeTable;
use dw_base::{Error, Format, Result, SectionId};
use dw_writer::Writer;

impl ArangeTable {
    /// Writes the sets in their order. The place of a unit is an offset into `.debug_info`, which a
    /// writer that records relocations leaves to the linker.
    ///
    /// Refused are sets whose length in bytes their format can't spell, from `0xffff_fff0` on in
    /// the 32-bit format, as `InitialLengthOverflow`, and places of units that have no room in a
    /// word of the format, as `ValueTooLarge`.
    pub fn write<W: Writer>(&self, w: &mut W) -> Result<()>
        ensures ok { OnOk result (Appends (W.meaning w.old) (W.meaning w.new)
            (sets_size self.now) (sets_text self.now)) }
        ensures sound { OnOk result (IsNone (sets_fail (W.meaning w.old).is_plain self.now)) }
        ensures err { IfErr result (Refused (W.meaning w.old) (W.meaning w.new)
            (sets_fail (W.meaning w.old).is_plain self.now)) }
        // What can be written is refused for want of memory or by the writer alone.
        ensures complete { IsNone (sets_fail (W.meaning w.old).is_plain self.now)
            → IfErr result (BytesRefused (W.meaning w.old) (W.meaning w.new)) }
        // A section of its own has these bytes, and is read as the same sets.
        ensures alone { OnOk result (HoldsAlone (W.meaning w.old) (W.meaning w.new)
            (λ bytes. bytes ≡ aranges_bytes (W.meaning w.old).is_big self.now)) }
        ensures again { OnOk result (HoldsAlone (W.meaning w.old) (W.meaning w.new)
            (λ bytes. sets_read (W.meaning w.old).is_big bytes ≡ Ok self.now)) }
    {
        write_sets(self.sets.as_slice(), w)
    }
}

/// Writes sets in their order.
fn write_sets<W: Writer>(sets: &[ArangeSet], w: &mut W) -> Result<()>
    ensures text { Writes result (W.meaning w.old) (W.meaning w.new)
        (sets_size sets.now) (sets_text sets.now)
        (sets_fail (W.meaning w.old).is_plain sets.now) }
    ensures are { OnOk result (IsTrue (list_all is_set sets.now)) }
{
    for set in sets {
        set.write(w)?;
    }
    Ok(())
}

impl ArangeSet {
    /// Writes the set behind its length.
    fn write<W: Writer>(&self, w: &mut W) -> Result<()>
        ensures text { Writes result (W.meaning w.old) (W.meaning w.new)
            (set_size self.now) (set_text self.now)
            (set_fails (W.meaning w.old).is_plain self.now) }
        ensures is { IsTrue (is_set self.now) }
    {
        write_length(w, self.format, self.content_size())?;
        w.write_u16(2)?;
        w.write_offset(self.unit.0, SectionId::DebugInfo, self.format.word_size())?;
        self.write_rest(w)
    }

    /// How many bytes follow the length.
    fn content_size(&self) -> u128
        ensures { (big : Bool) → result ≡ length (content_bytes big self.now) }
    {
        let pairs = self.ranges.len() as u128 + 1;
        let front = 4 + self.format.word_size() as u128;
        let padding = padding(self.format, self.address_size) as u128;
        front + padding + 2 * self.address_size as u128 * pairs
    }

    /// Writes what follows the unit's place.
    fn write_rest<W: Writer>(&self, w: &mut W) -> Result<()>
        ensures ok { OnOk result (Adds (W.meaning w.old) (W.meaning w.new)
            (rest_bytes (W.meaning w.old).is_big self.now)) }
        ensures err { IfErr result (BytesRefused (W.meaning w.old) (W.meaning w.new)) }
    {
        let padding = padding(self.format, self.address_size);
        w.write(&[self.address_size, 0])?;
        w.write(zeros(padding))?;
        write_ranges(self.ranges.as_slice(), w, self.address_size)?;
        w.write(zeros(2 * self.address_size as usize))
    }
}

/// Writes a length, with the escape of the 64-bit format before it (DWARF 5, 7.4).
fn write_length<W: Writer>(w: &mut W, format: Format, length: u128) -> Result<()>
    ensures fits { OnOk result (IsTrue (length_fits format length)) }
    ensures ok { OnOk result (Adds (W.meaning w.old) (W.meaning w.new)
        (escape_of format ++ num (W.meaning w.old).is_big (word_of format) length)) }
    ensures err { IfErr result
        (LengthRefused format length (BytesRefused (W.meaning w.old) (W.meaning w.new))) }
{
    match format {
        Format::Dwarf32 => {
            if length >= 0xffff_fff0 {
                return Err(Error::InitialLengthOverflow);
            }
            w.write_u32(length as u32)
        }
        Format::Dwarf64 => {
            if length > u64::MAX as u128 {
                return Err(Error::InitialLengthOverflow);
            }
            w.write(&[0xff, 0xff, 0xff, 0xff])?;
            w.write_u64(length as u64)
        }
    }
}

/// Writes ranges, without the pair of zeros that ends them.
fn write_ranges<W: Writer>(ranges: &[RangeDescriptor], w: &mut W, size: u8) -> Result<()>
    requires wide { IsTrue (is_width size) }
    requires fit { IsTrue (list_all (is_range size) ranges.now) }
    ensures ok { OnOk result (Adds (W.meaning w.old) (W.meaning w.new)
        (flat_map (range_bytes (W.meaning w.old).is_big size) ranges.now)) }
    ensures err { IfErr result (BytesRefused (W.meaning w.old) (W.meaning w.new)) }
{
    for range in ranges {
        write_range(range, w, size)?;
    }
    Ok(())
}

/// Writes a range.
fn write_range<W: Writer>(range: &RangeDescriptor, w: &mut W, size: u8) -> Result<()>
    requires wide { IsTrue (is_width size) }
    requires fits { IsTrue (is_range size range.now) }
    ensures ok { OnOk result (Adds (W.meaning w.old) (W.meaning w.new)
        (range_bytes (W.meaning w.old).is_big size range.now)) }
    ensures err { IfErr result (BytesRefused (W.meaning w.old) (W.meaning w.new)) }
{
    w.write_udata(range.address, size)?;
    w.write_udata(range.length, size)
}

/// How many bytes lack behind the header of a set at a multiple of two addresses.
pub(crate) fn padding(format: Format, size: u8) -> usize
    requires { IsTrue (is_width size) }
    ensures is { result ≡ padding format size }
    ensures small { result < 16 }
{
    let pair = 2 * size as usize;
    let header = match format {
        Format::Dwarf32 => 12,
        Format::Dwarf64 => 24,
    };
    (pair - header % pair) % pair
}

/// So many zeros.
fn zeros(count: usize) -> &'static [u8]
    requires { count ≤ 16 }
    ensures { result.now ≡ zeros count }
{
    &ZEROS[..count]
}

static ZEROS: [u8; 16] = [0; 16];
