//! The sections that are written, each a type of its own over a writer.

ghost use Rattle.std.specs.Prelude.{◌≡◌};
ghost use Rattle.std.specs.Borrow.{sem, Lends};
ghost use Rattle.dw_base.specs.SectionName.{section_name};
ghost use Rattle.dw_base.specs.declared.section_id.SectionId.{SectionId};

mod abbrev;
mod frame;
mod info;
mod line;
mod loc;
mod ranges;
mod strings;

use crate::writer::Writer;
pub use abbrev::DebugAbbrev;
use dw_base::SectionId;
pub use frame::{DebugFrame, EhFrame};
pub use info::DebugInfo;
pub use line::DebugLine;
pub use loc::{DebugLoc, DebugLocLists};
pub use ranges::{DebugRanges, DebugRngLists};
pub use strings::{DebugLineStr, DebugStr};

/// A section of a fixed id, over a writer.
pub trait Section<W: Writer> {
    ghost which: { SectionId };

    ghost writer: { Self → W };

    ghost with_writer: { Self → W → Self };

    /// Which section it is.
    fn id(&self) -> SectionId
        ensures { result ≡ which };

    /// The writer of the section's bytes.
    fn section(&self) -> &W
        ensures { result.now ≡ writer self.now };

    /// The writer of the section's bytes.
    fn section_mut(&mut self) -> &mut W
        ensures* lends { sem 𝓛
            (Lends Self.row W.row self.entry result (λ w. with_writer self.old w)) }
        ensures value { result.now ≡ writer self.old };

    ghost writer_with: { (s : Self) (w : W) → writer (with_writer s w) ≡ w };

    /// The section's name in an ELF file.
    final fn name(&self) -> &'static str
        ensures { result.now ≡ section_name which }
    {
        self.id().name()
    }
}
