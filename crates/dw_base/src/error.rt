//! Why building or writing was refused.

ghost use Rattle.std.specs.Prelude.{◌≡◌};

use crate::constants::DwEhPe;
use std::alloc::{AllocError, AllocFailed};
use std::fmt::{self, Debug, Display, Formatter};
use thiserror::Error as ThisError;

/// The result of a call that builds or writes.
pub type Result<T> = std::result::Result<T, Error>;

/// Why a call that builds or writes refuses.
#[derive(Clone, Copy, PartialEq, Eq, ThisError)]
pub enum Error {
    /// No memory could be had.
    NoMemory,
    /// The writer failed, and has counted that.
    WriteFault,
    /// A patch begins past a section's end.
    OffsetOutOfBounds,
    /// A patch begins inside a section and ends past its end.
    LengthOutOfBounds,
    /// A string has a zero byte, an attribute names a line program where none is in use, or a base
    /// of lists where the unit has none or its version is below 5.
    InvalidAttributeValue,
    /// A number doesn't fit its field, or a total its limit.
    ValueTooLarge,
    /// The width of an address or of a field isn't 1, 2, 4 or 8 bytes.
    UnsupportedWordSize(u8),
    /// The version of a unit, a line program or a frame entry has no spelling.
    UnsupportedVersion(u16),
    /// A unit, a line program, a table of lists or a frame entry has 0xffff_fff0 bytes or more
    /// after its length, and the 32-bit format has no room for that (DWARF 5, 7.4).
    InitialLengthOverflow,
    /// A symbol's address was given to a writer that records no relocations.
    InvalidAddress,
    /// A reference names nothing that is written.
    InvalidReference,
    /// A part is there that only this version or a later one has.
    NeedVersion(u16),
    /// The strings of a line program have forms that can't stand together.
    LineStringFormMismatch,
    /// A list has an item that its version can't spell.
    InvalidRange,
    /// A line program's encoding is not its unit's.
    IncompatibleLineProgramEncoding,
    /// The offset of a frame instruction falls, or isn't a multiple of the code alignment factor.
    InvalidFrameCodeOffset(u32),
    /// An offset of a frame instruction isn't a multiple of the data alignment factor.
    InvalidFrameDataOffset(i32),
    /// A pointer's encoding has no spelling.
    UnsupportedPointerEncoding(DwEhPe),
    /// A frame's expression names an entry by its place in a unit.
    UnsupportedCfiExpressionReference,
    /// An expression names an entry that is placed after its own.
    UnsupportedExpressionForwardReference,
    /// A pair of offsets stands in a list without a base address.
    MissingBaseAddress,
    /// A pair of addresses stands in a list with a base address.
    UnexpectedBaseAddress,
    /// A branch of an expression has no target.
    UnsetBranchTarget,
    /// A frame description has a language-specific data area and its common entry no encoding for
    /// it, or the reverse.
    LsdaMismatch,
}

impl Error {
    ghost use Rattle.dw_base.specs.ErrorName.{error_name};

    /// The variant's name.
    pub fn name(&self) -> &'static str
        ensures { result.now ≡ error_name self.now }
    {
        match self {
            Error::NoMemory => "NoMemory",
            Error::WriteFault => "WriteFault",
            Error::OffsetOutOfBounds => "OffsetOutOfBounds",
            Error::LengthOutOfBounds => "LengthOutOfBounds",
            Error::InvalidAttributeValue => "InvalidAttributeValue",
            Error::ValueTooLarge => "ValueTooLarge",
            Error::UnsupportedWordSize(_) => "UnsupportedWordSize",
            Error::UnsupportedVersion(_) => "UnsupportedVersion",
            Error::InitialLengthOverflow => "InitialLengthOverflow",
            Error::InvalidAddress => "InvalidAddress",
            Error::InvalidReference => "InvalidReference",
            Error::NeedVersion(_) => "NeedVersion",
            Error::LineStringFormMismatch => "LineStringFormMismatch",
            Error::InvalidRange => "InvalidRange",
            Error::IncompatibleLineProgramEncoding => "IncompatibleLineProgramEncoding",
            Error::InvalidFrameCodeOffset(_) => "InvalidFrameCodeOffset",
            Error::InvalidFrameDataOffset(_) => "InvalidFrameDataOffset",
            Error::UnsupportedPointerEncoding(_) => "UnsupportedPointerEncoding",
            Error::UnsupportedCfiExpressionReference => "UnsupportedCfiExpressionReference",
            Error::UnsupportedExpressionForwardReference => "UnsupportedExpressionForwardReference",
            Error::MissingBaseAddress => "MissingBaseAddress",
            Error::UnexpectedBaseAddress => "UnexpectedBaseAddress",
            Error::UnsetBranchTarget => "UnsetBranchTarget",
            Error::LsdaMismatch => "LsdaMismatch",
        }
    }

    // What is printed, in which `#` stands for what the variant holds.
    fn text(&self) -> &'static str {
        match self {
            Error::NoMemory => "out of memory",
            Error::WriteFault => "the writer failed",
            Error::OffsetOutOfBounds => "a patch begins past the end of its section",
            Error::LengthOutOfBounds => "a patch ends past the end of its section",
            Error::InvalidAttributeValue => "an attribute's value can't be written",
            Error::ValueTooLarge => "a value is too large for its encoding",
            Error::UnsupportedWordSize(_) => "a width of # bytes is not supported",
            Error::UnsupportedVersion(_) => "version # is not supported",
            Error::InitialLengthOverflow => "a length is too large for the 32-bit format",
            Error::InvalidAddress => "a symbol's address needs a relocation",
            Error::InvalidReference => "a reference names nothing that is written",
            Error::NeedVersion(_) => "version # is needed",
            Error::LineStringFormMismatch => "the strings of a line program have different forms",
            Error::InvalidRange => "a list has an item that its version has no spelling for",
            Error::IncompatibleLineProgramEncoding =>
                "a line program and its unit have different encodings",
            Error::InvalidFrameCodeOffset(_) => "the code offset # can't be factored",
            Error::InvalidFrameDataOffset(_) => "the data offset # can't be factored",
            Error::UnsupportedPointerEncoding(_) => "the pointer encoding # is not supported",
            Error::UnsupportedCfiExpressionReference =>
                "a frame's expression names an entry of a unit",
            Error::UnsupportedExpressionForwardReference =>
                "an expression names an entry that is written later",
            Error::MissingBaseAddress => "a pair of offsets has no base address",
            Error::UnexpectedBaseAddress => "a pair of addresses stands under a base address",
            Error::UnsetBranchTarget => "a branch has no target",
            Error::LsdaMismatch =>
                "a frame entry and its common entry disagree on a language-specific data area",
        }
    }

    // What the variant holds.
    fn held(&self) -> Held {
        match self {
            Error::UnsupportedWordSize(width) => Held::Number(*width as i64),
            Error::UnsupportedVersion(version) => Held::Number(*version as i64),
            Error::NeedVersion(version) => Held::Number(*version as i64),
            Error::InvalidFrameCodeOffset(offset) => Held::Number(*offset as i64),
            Error::InvalidFrameDataOffset(offset) => Held::Number(*offset as i64),
            Error::UnsupportedPointerEncoding(encoding) => Held::Encoding(*encoding),
            _ => Held::Nothing,
        }
    }
}

// What a variant holds, as its text shows it.
#[derive(Clone, Copy)]
enum Held {
    Nothing,
    Number(i64),
    Encoding(DwEhPe),
}

impl Display for Held {
    fn fmt<W: fmt::Write>(&self, f: &mut Formatter<W>) -> fmt::Result {
        match self {
            Held::Nothing => Ok(()),
            Held::Number(number) => Display::fmt(number, f),
            Held::Encoding(encoding) => Debug::fmt(encoding, f),
        }
    }
}

impl Display for Error {
    fn fmt<W: fmt::Write>(&self, f: &mut Formatter<W>) -> fmt::Result {
        let text = self.text();
        let (before, behind) = text.split_once('#').unwrap_or((text, ""));
        write!(f, "{before}{}{behind}", self.held())
    }
}

/// The variant's name, and what it holds as the text shows it.
impl Debug for Error {
    fn fmt<W: fmt::Write>(&self, f: &mut Formatter<W>) -> fmt::Result {
        match self.held() {
            Held::Nothing => f.write_str(self.name()),
            held => write!(f, "{}({held})", self.name()),
        }
    }
}

impl From<AllocError> for Error {
    ghost use Rattle.dw_base.specs.declared.error.Error.TheVariants.{NoMemory};

    ghost from_gives = { λ _ e. e ≡ NoMemory };

    fn from(_error: AllocError) -> Error {
        Error::NoMemory
    }
}

impl<T: Drop> From<AllocFailed<T>> for Error {
    ghost use Rattle.dw_base.specs.declared.error.Error.TheVariants.{NoMemory};

    ghost from_gives = { λ _ e. e ≡ NoMemory };

    fn from(_error: AllocFailed<T>) -> Error {
        Error::NoMemory
    }
}
