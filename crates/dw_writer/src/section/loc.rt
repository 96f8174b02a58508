//! The sections of location lists.

ghost use Rattle.std.specs.Prelude.{◌≡◌, refl};

use crate::section::Section;
use crate::writer::Writer;
use dw_base::{LocationListsOffset, SectionId};

/// `.debug_loc`: location lists up to version 4.
#[derive(Drop)]
pub struct DebugLoc<W>(pub W);

impl<W> From<W> for DebugLoc<W> {
    ghost from_gives = { λ w section. section.0 ≡ w };

    fn from(writer: W) -> DebugLoc<W> {
        DebugLoc(writer)
    }
}

impl<W: Writer> DebugLoc<W> {
    /// The place at which the next byte is written.
    pub fn offset(&self) -> LocationListsOffset
        ensures { result.0 ≡ (W.meaning self.now.0).size }
    {
        LocationListsOffset(self.0.len())
    }
}

impl<W: Writer> Section<W> for DebugLoc<W> {
    ghost use Rattle.dw_base.specs.declared.section_id.SectionId.TheVariants.{DebugLoc};

    ghost which = { DebugLoc };

    ghost writer = { λ section. section.0 };

    ghost with_writer = { λ section w. record section { 0 = w } };

    fn id(&self) -> SectionId {
        SectionId::DebugLoc
    }

    fn section(&self) -> &W {
        &self.0
    }

    fn section_mut(&mut self) -> &mut W {
        &mut self.0
    }

    ghost writer_with = { λ section w. refl };
}

/// `.debug_loclists`: location lists from version 5 on.
#[derive(Drop)]
pub struct DebugLocLists<W>(pub W);

impl<W> From<W> for DebugLocLists<W> {
    ghost from_gives = { λ w section. section.0 ≡ w };

    fn from(writer: W) -> DebugLocLists<W> {
        DebugLocLists(writer)
    }
}

impl<W: Writer> DebugLocLists<W> {
    /// The place at which the next byte is written.
    pub fn offset(&self) -> LocationListsOffset
        ensures { result.0 ≡ (W.meaning self.now.0).size }
    {
        LocationListsOffset(self.0.len())
    }
}

impl<W: Writer> Section<W> for DebugLocLists<W> {
    ghost use Rattle.dw_base.specs.declared.section_id.SectionId.TheVariants.{DebugLocLists};

    ghost which = { DebugLocLists };

    ghost writer = { λ section. section.0 };

    ghost with_writer = { λ section w. record section { 0 = w } };

    fn id(&self) -> SectionId {
        SectionId::DebugLocLists
    }

    fn section(&self) -> &W {
        &self.0
    }

    fn section_mut(&mut self) -> &mut W {
        &mut self.0
    }

    ghost writer_with = { λ section w. refl };
}
