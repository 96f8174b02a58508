//! The address ranges of one unit.

ghost use Rattle.std.specs.Prelude.{◌≡◌, IsTrue, IsFalse, OnOk, OnErr, IfOk, IfErr};
ghost use Rattle.std.specs.List.{list_any, list_all};
ghost use Rattle.dw_base.specs.Numbers.{is_width, fits};
ghost use Rattle.dw_base.specs.declared.error.Error.TheVariants.{UnsupportedWordSize};
ghost use Rattle.dw_arange_table.specs.Sets.{empty_set, is_range, range_fits, with_range};
ghost use Rattle.dw_arange_table.specs.Sets.{RangeRefused};
ghost use Rattle.dw_arange_table.specs.Find.{range_has, set_has};

use crate::range::RangeDescriptor;
use dw_base::{DebugInfoOffset, Error, Format, Result};
use std::alloc::Global;
use std::marker::Model;

/// The ranges of addresses at which one unit has code or data (DWARF 5, 6.1.2).
///
/// ```
/// let mut set = ArangeSet::new(alloc, Format::Dwarf32, 8, DebugInfoOffset(0))?;
/// set.add(RangeDescriptor { address: 0x1000, length: 16 })?;
/// ```
#[derive(Drop)]
pub struct ArangeSet {
    pub(crate) format: Format,
    pub(crate) address_size: u8,
    pub(crate) unit: DebugInfoOffset,
    pub(crate) ranges: Vec<RangeDescriptor>,
}

impl Model for ArangeSet {
    ghost use Rattle.std.specs.Prelude.{IsTrue, ◌&&◌};
    ghost use Rattle.std.specs.List.{list_all};
    ghost use Rattle.dw_base.specs.Numbers.{is_width};
    ghost use Rattle.dw_arange_table.specs.Sets.{RangeSet, is_range};

    ghost Value = { RangeSet };

    ghost view = { λ s. record {
      format = s.format;
      address_size = s.address_size;
      unit = s.unit.0;
      ranges = s.ranges.items;
    } };

    // A width that addresses have, and no range that its set can't hold.
    ghost invariant = { λ s. IsTrue (is_width s.address_size
        && list_all (is_range s.address_size) s.ranges.items) };
}

impl ArangeSet {
    /// A set without ranges, of the unit whose header stands at a place in `.debug_info`. Addresses
    /// have `address_size` bytes; refused as `UnsupportedWordSize` where that isn't 1, 2, 4 or 8.
    pub fn new(
        alloc: Global,
        format: Format,
        address_size: u8,
        unit: DebugInfoOffset,
    ) -> Result<ArangeSet>
        ensures ok { IfOk result (λ s. s ≡ empty_set format address_size unit.0) }
        ensures fits { OnOk result (IsTrue (is_width address_size)) }
        ensures err { IfErr result (λ e.
            (e ≡ UnsupportedWordSize address_size) × IsFalse (is_width address_size)) }
    {
        if !is_width(address_size) {
            return Err(Error::UnsupportedWordSize(address_size));
        }
        Ok(ArangeSet {
            format,
            address_size,
            unit,
            ranges: Vec::new(alloc),
        })
    }

    /// Adds a range behind the others. One of length 0 has no address, and isn't kept. Refused as
    /// `ValueTooLarge` where its address or its length has more bytes than the set's addresses.
    pub fn add(&mut self, range: RangeDescriptor) -> Result<()>
        ensures fits { OnOk result (IsTrue (range_fits self.old.address_size range)) }
        ensures ok { OnOk result (self.new ≡ with_range self.old range) }
        ensures err { IfErr result (RangeRefused self.old range) }
        ensures kept { OnErr result (self.new ≡ self.old) }
    {
        let size = self.address_size;
        if !fits(size, range.address as u128) || !fits(size, range.length as u128) {
            return Err(Error::ValueTooLarge);
        }
        if range.length != 0 {
            self.ranges.push(range)?;
        }
        Ok(())
    }

    /// The width of the set's length, and of the unit's place, in the section.
    pub fn format(&self) -> Format
        ensures { result ≡ self.now.format }
    {
        self.format
    }

    /// The bytes of an address: 1, 2, 4 or 8.
    pub fn address_size(&self) -> u8
        ensures is { result ≡ self.now.address_size }
        ensures width { IsTrue (is_width result) }
    {
        self.address_size
    }

    /// The place of the unit's header in `.debug_info`.
    pub fn unit(&self) -> DebugInfoOffset
        ensures { result.0 ≡ self.now.unit }
    {
        self.unit
    }

    /// The ranges, in the order in which they stand in the section. The numbers of each fit the
    /// set's addresses, and none is the pair of zeros that ends a set.
    pub fn ranges(&self) -> &[RangeDescriptor]
        ensures are { result.now ≡ self.now.ranges }
        ensures fit { IsTrue (list_all (is_range self.now.address_size) result.now) }
    {
        self.ranges.as_slice()
    }

    /// Whether an address is in one of the ranges.
    pub fn contains(&self, address: u64) -> bool
        ensures { result ≡ set_has address self.now }
    {
        self.ranges.iter().any(|range| range.contains(address))
    }
}

/// Whether an address may have so many bytes.
pub(crate) fn is_width(size: u8) -> bool
    ensures { result ≡ is_width size }
{
    size == 1 || size == 2 || size == 4 || size == 8
}

/// Whether a number fits so many bytes.
pub(crate) fn fits(size: u8, number: u128) -> bool
    requires { IsTrue (is_width size) }
    ensures { result ≡ fits size number }
{
    match size {
        1 => number <= 0xff,
        2 => number <= 0xffff,
        4 => number <= 0xffff_ffff,
        _ => number <= 0xffff_ffff_ffff_ffff,
    }
}
