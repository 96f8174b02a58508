//! The sections of a file.

ghost use Rattle.std.specs.Prelude.{◌≡◌, IfOk, IfErr, MatchResult};
ghost use Rattle.std.specs.Borrow.{sem};
ghost use Rattle.std.specs.Option.{option_copied, option_copied_mut};
ghost use Rattle.dw_base.specs.declared.error.Error.TheVariants.{NoMemory};
ghost use Rattle.dw_writer.specs.Sections.{section_of, LendsSection, AllMean, NoFixups};

mod visit;

use crate::fixup::FixupList;
use crate::section::{
    DebugAbbrev, DebugFrame, DebugInfo, DebugLine, DebugLineStr, DebugLoc, DebugLocLists,
    DebugRanges, DebugRngLists, DebugStr, EhFrame, Section,
};
use crate::writer::Writer;
use dw_base::{Result, SectionId};
use std::alloc::Global;

/// A writer for each section, and the references that are fixed up once every unit is written.
#[derive(Drop)]
pub struct Sections<W> {
    pub debug_abbrev: DebugAbbrev<W>,
    pub debug_str: DebugStr<W>,
    pub debug_line_str: DebugLineStr<W>,
    pub debug_line: DebugLine<W>,
    pub debug_ranges: DebugRanges<W>,
    pub debug_rnglists: DebugRngLists<W>,
    pub debug_loc: DebugLoc<W>,
    pub debug_loclists: DebugLocLists<W>,
    pub debug_info: DebugInfo<W>,
    pub debug_frame: DebugFrame<W>,
    pub eh_frame: EhFrame<W>,
    /// The places in `.debug_info` that get the offset of an entry.
    pub debug_info_fixups: FixupList,
    /// Those in `.debug_loc`.
    pub debug_loc_fixups: FixupList,
    /// Those in `.debug_loclists`.
    pub debug_loclists_fixups: FixupList,
}

impl<W: Writer + Clone> Sections<W> {
    /// Sections that each begin as a clone of `section`.
    pub fn new(alloc: Global, section: W) -> Result<Sections<W>>
        requires { (w : W) → W.is_clone section w → W.meaning w ≡ W.meaning section }
        ensures writers { IfOk result (λ sections. AllMean W.meaning sections (W.meaning section)) }
        ensures fixups { IfOk result NoFixups }
        ensures err { IfErr result (λ e. e ≡ NoMemory) }
    {
        let (debug_abbrev, debug_str, debug_line_str, debug_line, debug_ranges) = clones(&section)?;
        let (debug_rnglists, debug_loc, debug_loclists, debug_info, debug_frame) = clones(
            &section,
        )?;
        Ok(Sections {
            debug_abbrev: DebugAbbrev(debug_abbrev),
            debug_str: DebugStr(debug_str),
            debug_line_str: DebugLineStr(debug_line_str),
            debug_line: DebugLine(debug_line),
            debug_ranges: DebugRanges(debug_ranges),
            debug_rnglists: DebugRngLists(debug_rnglists),
            debug_loc: DebugLoc(debug_loc),
            debug_loclists: DebugLocLists(debug_loclists),
            debug_info: DebugInfo(debug_info),
            debug_frame: DebugFrame(debug_frame),
            eh_frame: EhFrame(section),
            debug_info_fixups: FixupList::new(alloc),
            debug_loc_fixups: FixupList::new(alloc),
            debug_loclists_fixups: FixupList::new(alloc),
        })
    }
}

// Five clones of a writer.
fn clones<W: Writer + Clone>(section: &W) -> Result<(W, W, W, W, W)>
    requires { (w : W) → W.is_clone section.now w → W.meaning w ≡ W.meaning section.now }
    ensures { let m = W.meaning section.now in
        MatchResult result (λ five. (W.meaning five.0 ≡ m) × (W.meaning five.1 ≡ m)
        × (W.meaning five.2 ≡ m) × (W.meaning five.3 ≡ m) × (W.meaning five.4 ≡ m))
        (λ e. e ≡ NoMemory) }
{
    Ok((
        section.clone()?,
        section.clone()?,
        section.clone()?,
        section.clone()?,
        section.clone()?,
    ))
}

impl<W: Writer> Sections<W> {
    /// The writer of the section of this id, or `None` if no such section is written.
    pub fn get(&self, id: SectionId) -> Option<&W>
        ensures { option_copied result ≡ section_of self.now id }
    {
        match id {
            SectionId::DebugAbbrev => Some(&self.debug_abbrev.0),
            SectionId::DebugStr => Some(&self.debug_str.0),
            SectionId::DebugLineStr => Some(&self.debug_line_str.0),
            SectionId::DebugLine => Some(&self.debug_line.0),
            SectionId::DebugRanges => Some(&self.debug_ranges.0),
            SectionId::DebugRngLists => Some(&self.debug_rnglists.0),
            SectionId::DebugLoc => Some(&self.debug_loc.0),
            SectionId::DebugLocLists => Some(&self.debug_loclists.0),
            SectionId::DebugInfo => Some(&self.debug_info.0),
            SectionId::DebugFrame => Some(&self.debug_frame.0),
            SectionId::EhFrame => Some(&self.eh_frame.0),
            SectionId::DebugAddr
            | SectionId::DebugStrOffsets
            | SectionId::DebugMacinfo
            | SectionId::DebugMacro
            | SectionId::DebugAranges => None,
        }
    }

    /// The writer of the section of this id, to be written.
    pub fn get_mut(&mut self, id: SectionId) -> Option<&mut W>
        ensures* lends { sem 𝓛 (LendsSection W.row self.entry id result) }
        ensures value { option_copied_mut result ≡ section_of self.old id }
    {
        match id {
            SectionId::DebugAbbrev => Some(self.debug_abbrev.section_mut()),
            SectionId::DebugStr => Some(self.debug_str.section_mut()),
            SectionId::DebugLineStr => Some(self.debug_line_str.section_mut()),
            SectionId::DebugLine => Some(self.debug_line.section_mut()),
            SectionId::DebugRanges => Some(self.debug_ranges.section_mut()),
            SectionId::DebugRngLists => Some(self.debug_rnglists.section_mut()),
            SectionId::DebugLoc => Some(self.debug_loc.section_mut()),
            SectionId::DebugLocLists => Some(self.debug_loclists.section_mut()),
            SectionId::DebugInfo => Some(self.debug_info.section_mut()),
            SectionId::DebugFrame => Some(self.debug_frame.section_mut()),
            SectionId::EhFrame => Some(self.eh_frame.section_mut()),
            SectionId::DebugAddr
            | SectionId::DebugStrOffsets
            | SectionId::DebugMacinfo
            | SectionId::DebugMacro
            | SectionId::DebugAranges => None,
        }
    }
}
