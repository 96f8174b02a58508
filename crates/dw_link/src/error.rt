//! Why joining was refused.

ghost use Rattle.std.specs.Prelude.{◌≡◌};

use dw_base::SectionId;
use thiserror::Error as ThisError;

/// Why sets of sections can't be joined. Sets count from 0, and so do a section's relocations,
/// which `index` numbers.
#[derive(Clone, Copy, Debug, PartialEq, Eq, ThisError)]
pub enum LinkError {
    /// No memory could be had.
    #[error("out of memory")]
    NoMemory,
    /// A section of the set has another byte order than the joined sections are to have.
    #[error("a section of set {set} has another byte order")]
    MixedByteOrder {
        set: usize,
    },
    /// A pointer's encoding counts neither from zero nor from the pointer's own place, has no
    /// format of the relocation's width, or stands with a section's start.
    #[error("set {set}, {section:?}, relocation {index}: a pointer's encoding can't be linked")]
    PointerEncoding {
        set: usize,
        section: SectionId,
        index: usize,
    },
    /// The number isn't 1, 2, 4 or 8 bytes wide, or doesn't lie inside the set's part of the
    /// section.
    #[error("set {set}, {section:?}, relocation {index}: it is out of place")]
    RecordOutOfPlace {
        set: usize,
        section: SectionId,
        index: usize,
    },
    /// The symbol has no value.
    #[error("set {set}, {section:?}, relocation {index}: the symbol has no value")]
    UnknownSymbol {
        set: usize,
        section: SectionId,
        index: usize,
    },
    /// The section isn't one of those that are joined.
    #[error("set {set}, {section:?}, relocation {index}: its section isn't joined")]
    UnknownSection {
        set: usize,
        section: SectionId,
        index: usize,
    },
    /// The sum is below zero or doesn't fit its bytes.
    #[error("set {set}, {section:?}, relocation {index}: the sum doesn't fit")]
    ValueTooLarge {
        set: usize,
        section: SectionId,
        index: usize,
    },
}

impl LinkError {
    ghost use Rattle.dw_link.specs.ErrorName.{link_error_name};

    /// The variant's name.
    pub fn name(&self) -> &'static str
        ensures { result.now ≡ link_error_name self.now }
    {
        match self {
            LinkError::NoMemory => "NoMemory",
            LinkError::MixedByteOrder { .. } => "MixedByteOrder",
            LinkError::PointerEncoding { .. } => "PointerEncoding",
            LinkError::RecordOutOfPlace { .. } => "RecordOutOfPlace",
            LinkError::UnknownSymbol { .. } => "UnknownSymbol",
            LinkError::UnknownSection { .. } => "UnknownSection",
            LinkError::ValueTooLarge { .. } => "ValueTooLarge",
        }
    }
}
