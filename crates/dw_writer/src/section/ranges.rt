//! The sections of range lists.

ghost use Rattle.std.specs.Prelude.{◌≡◌, refl};

use crate::section::Section;
use crate::writer::Writer;
use dw_base::{RangeListsOffset, SectionId};

/// `.debug_ranges`: range lists up to version 4.
#[derive(Drop)]
pub struct DebugRanges<W>(pub W);

impl<W> From<W> for DebugRanges<W> {
    ghost from_gives = { λ w section. section.0 ≡ w };

    fn from(writer: W) -> DebugRanges<W> {
        DebugRanges(writer)
    }
}

impl<W: Writer> DebugRanges<W> {
    /// The place at which the next byte is written.
    pub fn offset(&self) -> RangeListsOffset
        ensures { result.0 ≡ (W.meaning self.now.0).size }
    {
        RangeListsOffset(self.0.len())
    }
}

impl<W: Writer> Section<W> for DebugRanges<W> {
    ghost use Rattle.dw_base.specs.declared.section_id.SectionId.TheVariants.{DebugRanges};

    ghost which = { DebugRanges };

    ghost writer = { λ section. section.0 };

    ghost with_writer = { λ section w. record section { 0 = w } };

    fn id(&self) -> SectionId {
        SectionId::DebugRanges
    }

    fn section(&self) -> &W {
        &self.0
    }

    fn section_mut(&mut self) -> &mut W {
        &mut self.0
    }

    ghost writer_with = { λ section w. refl };
}

/// `.debug_rnglists`: range lists from version 5 on.
#[derive(Drop)]
pub struct DebugRngLists<W>(pub W);

impl<W> From<W> for DebugRngLists<W> {
    ghost from_gives = { λ w section. section.0 ≡ w };

    fn from(writer: W) -> DebugRngLists<W> {
        DebugRngLists(writer)
    }
}

impl<W: Writer> DebugRngLists<W> {
    /// The place at which the next byte is written.
    pub fn offset(&self) -> RangeListsOffset
        ensures { result.0 ≡ (W.meaning self.now.0).size }
    {
        RangeListsOffset(self.0.len())
    }
}

impl<W: Writer> Section<W> for DebugRngLists<W> {
    ghost use Rattle.dw_base.specs.declared.section_id.SectionId.TheVariants.{DebugRngLists};

    ghost which = { DebugRngLists };

    ghost writer = { λ section. section.0 };

    ghost with_writer = { λ section w. record section { 0 = w } };

    fn id(&self) -> SectionId {
        SectionId::DebugRngLists
    }

    fn section(&self) -> &W {
        &self.0
    }

    fn section_mut(&mut self) -> &mut W {
        &mut self.0
    }

    ghost writer_with = { λ section w. refl };
}
