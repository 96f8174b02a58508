//! The sections of frame descriptions.

ghost use Rattle.std.specs.Prelude.{◌≡◌, refl};

use crate::section::Section;
use crate::writer::Writer;
use dw_base::{DebugFrameOffset, EhFrameOffset, SectionId};

/// `.debug_frame`: frame descriptions.
#[derive(Drop)]
pub struct DebugFrame<W>(pub W);

impl<W> From<W> for DebugFrame<W> {
    ghost from_gives = { λ w section. section.0 ≡ w };

    fn from(writer: W) -> DebugFrame<W> {
        DebugFrame(writer)
    }
}

impl<W: Writer> DebugFrame<W> {
    /// The place at which the next byte is written.
    pub fn offset(&self) -> DebugFrameOffset
        ensures { result.0 ≡ (W.meaning self.now.0).size }
    {
        DebugFrameOffset(self.0.len())
    }
}

impl<W: Writer> Section<W> for DebugFrame<W> {
    ghost use Rattle.dw_base.specs.declared.section_id.SectionId.TheVariants.{DebugFrame};

    ghost which = { DebugFrame };

    ghost writer = { λ section. section.0 };

    ghost with_writer = { λ section w. record section { 0 = w } };

    fn id(&self) -> SectionId {
        SectionId::DebugFrame
    }

    fn section(&self) -> &W {
        &self.0
    }

    fn section_mut(&mut self) -> &mut W {
        &mut self.0
    }

    ghost writer_with = { λ section w. refl };
}

/// `.eh_frame`: frame descriptions that unwinding reads at run time.
#[derive(Drop)]
pub struct EhFrame<W>(pub W);

impl<W> From<W> for EhFrame<W> {
    ghost from_gives = { λ w section. section.0 ≡ w };

    fn from(writer: W) -> EhFrame<W> {
        EhFrame(writer)
    }
}

impl<W: Writer> EhFrame<W> {
    /// The place at which the next byte is written.
    pub fn offset(&self) -> EhFrameOffset
        ensures { result.0 ≡ (W.meaning self.now.0).size }
    {
        EhFrameOffset(self.0.len())
    }
}

impl<W: Writer> Section<W> for EhFrame<W> {
    ghost use Rattle.dw_base.specs.declared.section_id.SectionId.TheVariants.{EhFrame};

    ghost which = { EhFrame };

    ghost writer = { λ section. section.0 };

    ghost with_writer = { λ section w. record section { 0 = w } };

    fn id(&self) -> SectionId {
        SectionId::EhFrame
    }

    fn section(&self) -> &W {
        &self.0
    }

    fn section_mut(&mut self) -> &mut W {
        &mut self.0
    }

    ghost writer_with = { λ section w. refl };
}
