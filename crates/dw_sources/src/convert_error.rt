//! Why a conversion was refused.

ghost use Rattle.std.specs.Prelude.{◌≡◌};

use dw_read::ReadError;
use std::alloc::{AllocError, AllocFailed};
use std::fmt;

/// The result of a call that converts what is read into what is written.
pub type ConvertResult<T> = std::result::Result<T, ConvertError>;

/// Why a call that converts refuses.
#[derive(Clone, Copy, Debug, PartialEq, Eq)]
pub enum ConvertError {
    /// What is converted can't be read.
    Read(ReadError),
    /// No memory could be had, also by the reader.
    NoMemory,
    /// An address has no image on the target.
    InvalidAddress,
    /// No entry that is converted begins at a place in a unit.
    InvalidUnitRef,
    /// No entry that is converted begins at a place in `.debug_info`.
    InvalidDebugInfoRef,
    /// A branch leads neither to the begin of an operation nor to the end.
    InvalidBranchTarget,
    /// A place in a section stands for an attribute whose section isn't known.
    InvalidAttributeValue,
    /// An attribute names another line program than its unit's.
    InvalidLineRef,
    /// A file isn't in the line program's list.
    InvalidFileIndex,
    /// A directory isn't in the line program's list, or version 5 has none.
    InvalidDirectoryIndex,
    /// A pair of addresses counts from a base, and their images aren't both constants.
    InvalidRangeRelativeAddress,
    /// An operation needs a unit, and there is none.
    UnsupportedOperation,
    /// An instruction of a call frame sets the place.
    UnsupportedCfiInstruction,
    /// A line program has what no line program here can say.
    UnsupportedLineProgram,
    /// A number that was read doesn't fit what it becomes.
    IntegerOverflow,
}

impl ConvertError {
    ghost use Rattle.dw_sources.specs.ConvertErrors.{convert_error_name};

    /// The variant's name; of an error of the reader, the name of that.
    pub fn name(&self) -> &'static str
        ensures { result.now ≡ convert_error_name self.now }
    {
        match self {
            ConvertError::Read(error) => error.name(),
            ConvertError::NoMemory => "NoMemory",
            ConvertError::InvalidAddress => "InvalidAddress",
            ConvertError::InvalidUnitRef => "InvalidUnitRef",
            ConvertError::InvalidDebugInfoRef => "InvalidDebugInfoRef",
            ConvertError::InvalidBranchTarget => "InvalidBranchTarget",
            ConvertError::InvalidAttributeValue => "InvalidAttributeValue",
            ConvertError::InvalidLineRef => "InvalidLineRef",
            ConvertError::InvalidFileIndex => "InvalidFileIndex",
            ConvertError::InvalidDirectoryIndex => "InvalidDirectoryIndex",
            ConvertError::InvalidRangeRelativeAddress => "InvalidRangeRelativeAddress",
            ConvertError::UnsupportedOperation => "UnsupportedOperation",
            ConvertError::UnsupportedCfiInstruction => "UnsupportedCfiInstruction",
            ConvertError::UnsupportedLineProgram => "UnsupportedLineProgram",
            ConvertError::IntegerOverflow => "IntegerOverflow",
        }
    }
}

impl ConvertError {
    /// The text of what isn't an error of the reader.
    fn text(&self) -> &'static str {
        match self {
            ConvertError::Read(error) => error.name(),
            ConvertError::NoMemory => "out of memory",
            ConvertError::InvalidAddress => "an address can't be converted",
            ConvertError::InvalidUnitRef => "a place in a unit leads to no entry",
            ConvertError::InvalidDebugInfoRef => "a place in .debug_info leads to no entry",
            ConvertError::InvalidBranchTarget => "a branch leads to no operation",
            ConvertError::InvalidAttributeValue => "an attribute leads to an unknown section",
            ConvertError::InvalidLineRef => "an attribute names the line program of another unit",
            ConvertError::InvalidFileIndex => "a file isn't in the line program",
            ConvertError::InvalidDirectoryIndex => "a directory isn't in the line program",
            ConvertError::InvalidRangeRelativeAddress =>
                "a range that counts from a base isn't constant",
            ConvertError::UnsupportedOperation => "an operation needs a unit",
            ConvertError::UnsupportedCfiInstruction => "a frame instruction isn't supported",
            ConvertError::UnsupportedLineProgram => "a line program isn't supported",
            ConvertError::IntegerOverflow => "a number is too large",
        }
    }
}

impl fmt::Display for ConvertError {
    fn fmt<W: fmt::Write>(&self, f: &mut fmt::Formatter<W>) -> fmt::Result {
        match self {
            ConvertError::Read(error) => write!(f, "{error}"),
            other => f.write_str(other.text()),
        }
    }
}

impl std::error::Error for ConvertError {}

impl From<ReadError> for ConvertError {
    ghost use Rattle.dw_sources.specs.ConvertErrors.{from_read};

    ghost from_gives = { λ e c. c ≡ from_read e };

    /// The reader's want of memory is the conversion's.
    fn from(error: ReadError) -> ConvertError {
        match error {
            ReadError::NoMemory => ConvertError::NoMemory,
            _ => ConvertError::Read(error),
        }
    }
}

impl From<AllocError> for ConvertError {
    ghost use Rattle.dw_sources.specs.declared.convert_error.ConvertError.TheVariants.{NoMemory};

    ghost from_gives = { λ _ e. e ≡ NoMemory };

    fn from(_error: AllocError) -> ConvertError {
        ConvertError::NoMemory
    }
}

impl<T: Drop> From<AllocFailed<T>> for ConvertError {
    ghost use Rattle.dw_sources.specs.declared.convert_error.ConvertError.TheVariants.{NoMemory};

    ghost from_gives = { λ _ e. e ≡ NoMemory };

    fn from(_error: AllocFailed<T>) -> ConvertError {
        ConvertError::NoMemory
    }
}
