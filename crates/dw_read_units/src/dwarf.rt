//! The sections of a file, and a unit of it.

ghost use Rattle.std.specs.Prelude.{◌≡◌, false};
ghost use Rattle.dw_read_units.specs.Relocated.{relocated_as};

use dw_base::{DebugLineOffset, DwoId};
use dw_read::{Abbreviations, Reader, UnitHeader, UnitHeadersIter};

/// The sections of a file. A section that a file lacks is one without bytes.
///
/// ```
/// let mut headers = dwarf.units();
/// while let Some(header) = headers.next()? {
///     let unit = dwarf.unit(alloc, header)?;
/// }
/// ```
#[derive(Drop)]
pub struct Dwarf<R: Reader> {
    pub debug_abbrev: R,
    pub debug_str: R,
    pub debug_line_str: R,
    pub debug_line: R,
    pub debug_ranges: R,
    pub debug_rnglists: R,
    pub debug_loc: R,
    pub debug_loclists: R,
    pub debug_info: R,
    pub debug_addr: R,
    pub debug_str_offsets: R,
}

/// A unit: its header, its abbreviation table, and what its root says of other sections.
///
/// ```
/// let unit = dwarf.unit(alloc, header)?;
/// let name = unit.name.as_ref().map(|name| name.to_slice());
/// ```
#[derive(Drop)]
pub struct Unit<R: Reader> {
    pub header: UnitHeader<R>,
    pub abbreviations: Abbreviations,
    /// The name of the source file, where it can be read.
    pub name: Option<R>,
    /// The directory in which the unit was compiled, where it can be read.
    pub comp_dir: Option<R>,
    /// The address from which offsets in the unit's lists count, 0 where there is none.
    pub low_pc: u64,
    /// Where the unit's part of `.debug_str_offsets` begins, behind its header.
    pub str_offsets_base: usize,
    /// Where the unit's part of `.debug_addr` begins, behind its header.
    pub addr_base: usize,
    /// Where the offsets of the unit's part of `.debug_loclists` begin.
    pub loclists_base: usize,
    /// Where the offsets of the unit's part of `.debug_rnglists` begin; below version 5 the base
    /// of a split unit's offsets in `.debug_ranges`.
    pub rnglists_base: usize,
    pub line_program: Option<DebugLineOffset>,
    pub dwo_id: Option<DwoId>,
}

impl<R: Reader> Dwarf<R> {
    /// The headers of the units, without their entries, from the place of the reader of
    /// `.debug_info` on. Offsets that lead into this or another section count from that section's
    /// begin. So where they are to lead where the file says, each reader stands at place 0.
    pub fn units(&self) -> UnitHeadersIter<R>
        ensures input { R.reading result.input ≡ R.reading self.now.debug_info }
        ensures begun { result.has_failed ≡ false }
    {
        UnitHeadersIter::new(self.debug_info.duplicate())
    }
}

impl<R: Reader> Unit<R> {
    /// Copies what a skeleton unit says for its split unit: the addresses that the linker moved.
    pub fn copy_relocated_attributes(&mut self, other: &Unit<R>)
        ensures { self.new ≡ relocated_as other.now self.old }
    {
        self.low_pc = other.low_pc;
        self.addr_base = other.addr_base;
        if self.header.encoding().version < 5 {
            self.rnglists_base = other.rnglists_base;
        }
    }
}
