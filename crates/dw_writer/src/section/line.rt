//! The section of line programs.

ghost use Rattle.std.specs.Prelude.{◌≡◌, refl};

use crate::section::Section;
use crate::writer::Writer;
use dw_base::{DebugLineOffset, SectionId};

/// `.debug_line`: line programs.
#[derive(Drop)]
pub struct DebugLine<W>(pub W);

impl<W> From<W> for DebugLine<W> {
    ghost from_gives = { λ w section. section.0 ≡ w };

    fn from(writer: W) -> DebugLine<W> {
        DebugLine(writer)
    }
}

impl<W: Writer> DebugLine<W> {
    /// The place at which the next byte is written.
    pub fn offset(&self) -> DebugLineOffset
        ensures { result.0 ≡ (W.meaning self.now.0).size }
    {
        DebugLineOffset(self.0.len())
    }
}

impl<W: Writer> Section<W> for DebugLine<W> {
    ghost use Rattle.dw_base.specs.declared.section_id.SectionId.TheVariants.{DebugLine};

    ghost which = { DebugLine };

    ghost writer = { λ section. section.0 };

    ghost with_writer = { λ section w. record section { 0 = w } };

    fn id(&self) -> SectionId {
        SectionId::DebugLine
    }

    fn section(&self) -> &W {
        &self.0
    }

    fn section_mut(&mut self) -> &mut W {
        &mut self.0
    }

    ghost writer_with = { λ section w. refl };
}
