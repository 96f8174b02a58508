//! The section of abbreviations.

ghost use Rattle.std.specs.Prelude.{◌≡◌, refl};

use crate::section::Section;
use crate::writer::Writer;
use dw_base::{DebugAbbrevOffset, SectionId};

/// `.debug_abbrev`: the attributes and tags that entries share.
#[derive(Drop)]
pub struct DebugAbbrev<W>(pub W);

impl<W> From<W> for DebugAbbrev<W> {
    ghost from_gives = { λ w section. section.0 ≡ w };

    fn from(writer: W) -> DebugAbbrev<W> {
        DebugAbbrev(writer)
    }
}

impl<W: Writer> DebugAbbrev<W> {
    /// The place at which the next byte is written.
    pub fn offset(&self) -> DebugAbbrevOffset
        ensures { result.0 ≡ (W.meaning self.now.0).size }
    {
        DebugAbbrevOffset(self.0.len())
    }
}

impl<W: Writer> Section<W> for DebugAbbrev<W> {
    ghost use Rattle.dw_base.specs.declared.section_id.SectionId.TheVariants.{DebugAbbrev};

    ghost which = { DebugAbbrev };

    ghost writer = { λ section. section.0 };

    ghost with_writer = { λ section w. record section { 0 = w } };

    fn id(&self) -> SectionId {
        SectionId::DebugAbbrev
    }

    fn section(&self) -> &W {
        &self.0
    }

    fn section_mut(&mut self) -> &mut W {
        &mut self.0
    }

    ghost writer_with = { λ section w. refl };
}
