//! The sections of strings.

ghost use Rattle.std.specs.Prelude.{◌≡◌, refl};

use crate::section::Section;
use crate::writer::Writer;
use dw_base::{DebugLineStrOffset, DebugStrOffset, SectionId};

/// `.debug_str`: strings, each ended by a zero byte.
#[derive(Drop)]
pub struct DebugStr<W>(pub W);

impl<W> From<W> for DebugStr<W> {
    ghost from_gives = { λ w section. section.0 ≡ w };

    fn from(writer: W) -> DebugStr<W> {
        DebugStr(writer)
    }
}

impl<W: Writer> DebugStr<W> {
    /// The place at which the next byte is written.
    pub fn offset(&self) -> DebugStrOffset
        ensures { result.0 ≡ (W.meaning self.now.0).size }
    {
        DebugStrOffset(self.0.len())
    }
}

impl<W: Writer> Section<W> for DebugStr<W> {
    ghost use Rattle.dw_base.specs.declared.section_id.SectionId.TheVariants.{DebugStr};

    ghost which = { DebugStr };

    ghost writer = { λ section. section.0 };

    ghost with_writer = { λ section w. record section { 0 = w } };

    fn id(&self) -> SectionId {
        SectionId::DebugStr
    }

    fn section(&self) -> &W {
        &self.0
    }

    fn section_mut(&mut self) -> &mut W {
        &mut self.0
    }

    ghost writer_with = { λ section w. refl };
}

/// `.debug_line_str`: the strings of line programs.
#[derive(Drop)]
pub struct DebugLineStr<W>(pub W);

impl<W> From<W> for DebugLineStr<W> {
    ghost from_gives = { λ w section. section.0 ≡ w };

    fn from(writer: W) -> DebugLineStr<W> {
        DebugLineStr(writer)
    }
}

impl<W: Writer> DebugLineStr<W> {
    /// The place at which the next byte is written.
    pub fn offset(&self) -> DebugLineStrOffset
        ensures { result.0 ≡ (W.meaning self.now.0).size }
    {
        DebugLineStrOffset(self.0.len())
    }
}

impl<W: Writer> Section<W> for DebugLineStr<W> {
    ghost use Rattle.dw_base.specs.declared.section_id.SectionId.TheVariants.{DebugLineStr};

    ghost which = { DebugLineStr };

    ghost writer = { λ section. section.0 };

    ghost with_writer = { λ section w. record section { 0 = w } };

    fn id(&self) -> SectionId {
        SectionId::DebugLineStr
    }

    fn section(&self) -> &W {
        &self.0
    }

    fn section_mut(&mut self) -> &mut W {
        &mut self.0
    }

    ghost writer_with = { λ section w. refl };
}
