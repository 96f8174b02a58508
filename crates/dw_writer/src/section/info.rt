//! The section of units.

ghost use Rattle.std.specs.Prelude.{◌≡◌, refl};

use crate::section::Section;
use crate::writer::Writer;
use dw_base::{DebugInfoOffset, SectionId};

/// `.debug_info`: units of entries.
#[derive(Drop)]
pub struct DebugInfo<W>(pub W);

impl<W> From<W> for DebugInfo<W> {
    ghost from_gives = { λ w section. section.0 ≡ w };

    fn from(writer: W) -> DebugInfo<W> {
        DebugInfo(writer)
    }
}

impl<W: Writer> DebugInfo<W> {
    /// The place at which the next byte is written.
    pub fn offset(&self) -> DebugInfoOffset
        ensures { result.0 ≡ (W.meaning self.now.0).size }
    {
        DebugInfoOffset(self.0.len())
    }
}

impl<W: Writer> Section<W> for DebugInfo<W> {
    ghost use Rattle.dw_base.specs.declared.section_id.SectionId.TheVariants.{DebugInfo};

    ghost which = { DebugInfo };

    ghost writer = { λ section. section.0 };

    ghost with_writer = { λ section w. record section { 0 = w } };

    fn id(&self) -> SectionId {
        SectionId::DebugInfo
    }

    fn section(&self) -> &W {
        &self.0
    }

    fn section_mut(&mut self) -> &mut W {
        &mut self.0
    }

    ghost writer_with = { λ section w. refl };
}
