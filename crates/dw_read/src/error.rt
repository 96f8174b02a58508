//! Why a read was refused.

ghost use Rattle.std.specs.Prelude.{◌≡◌};

use dw_base::{DwEhPe, DwForm, DwOp, DwUt};
use std::alloc::{AllocError, AllocFailed};
use std::fmt;

/// The result of a call that reads.
pub type ReadResult<T> = std::result::Result<T, ReadError>;

/// Why a call that reads refuses.
///
/// ```
/// let refused = EndianSlice::new(b"\x80", LittleEndian).read_uleb128();
/// assert_eq!(refused.err(), Some(ReadError::UnexpectedEof));
/// ```
#[derive(Clone, Copy, PartialEq, Eq)]
pub enum ReadError {
    /// A read passes the end of its section, or of the part of it that is read.
    UnexpectedEof,
    /// A LEB128 number passes its 64, 32 or 16 bits.
    BadLeb128,
    /// An initial length is one of those from 0xfffffff0 to 0xfffffffe (DWARF 5, 7.4).
    UnknownReservedLength,
    /// A unit or a line program isn't of version 2 to 5, or a common frame entry not of 1, 3 or 4.
    UnknownVersion(u16),
    /// An address is neither 1 nor 2, 4 or 8 bytes wide.
    UnsupportedAddressSize(u8),
    /// A segment selector has bytes.
    UnsupportedSegmentSize(u8),
    /// A unit's type is none of the standard's (DWARF 5, table 7.2).
    UnknownUnitType(DwUt),
    /// A declaration has the tag zero.
    AbbreviationTagZero,
    /// An attribute of a declaration has the name zero, and its form isn't zero.
    AttributeNameZero,
    /// The byte on children of a declaration is neither 0 nor 1.
    BadHasChildren(u8),
    /// A table declares a code twice.
    DuplicateAbbreviationCode(u64),
    /// A form is none of the standard's, or one that indirect can't lead to.
    UnknownForm(DwForm),
    /// An entry's code isn't in its table.
    UnknownAbbreviation(u64),
    /// A unit's first row is no entry.
    MissingUnitDie,
    /// The split sections have no unit.
    MissingSplitUnit,
    /// A null entry stands at the offset that was asked for.
    NoEntryAtGivenOffset(u64),
    /// An offset lies past the end of its section or outside the entries of its unit, or a base and
    /// an offset pass 64 bits.
    OffsetOutOfBounds(u64),
    /// An operation's code is none of the standard's.
    InvalidExpression(DwOp),
    /// The size of a piece in bits passes 64 bits.
    InvalidPiece,
    /// The kind of a range list's item is none of the standard's (DWARF 5, table 7.30).
    UnknownRangeListsEntry(u8),
    /// The kind of a location list's item is none of the standard's (DWARF 5, table 7.10).
    UnknownLocListsEntry(u8),
    /// The code of a frame instruction is none of the standard's (DWARF 5, table 7.29).
    UnknownCallFrameInstruction(u8),
    /// The augmentation of a common frame entry doesn't begin with `z`, or has an unknown letter.
    UnknownAugmentation,
    /// A pointer's encoding has no meaning.
    UnknownPointerEncoding(DwEhPe),
    /// A frame description names a place at which no common entry begins.
    InvalidCiePointer(u64),
    /// No memory could be had.
    NoMemory,
}

impl ReadError {
    ghost use Rattle.dw_read.specs.ErrorName.{error_name};

    /// The variant's name.
    pub fn name(&self) -> &'static str
        ensures { result.now ≡ error_name self.now }
    {
        match self {
            ReadError::UnexpectedEof => "UnexpectedEof",
            ReadError::BadLeb128 => "BadLeb128",
            ReadError::UnknownReservedLength => "UnknownReservedLength",
            ReadError::UnknownVersion(_) => "UnknownVersion",
            ReadError::UnsupportedAddressSize(_) => "UnsupportedAddressSize",
            ReadError::UnsupportedSegmentSize(_) => "UnsupportedSegmentSize",
            ReadError::UnknownUnitType(_) => "UnknownUnitType",
            ReadError::AbbreviationTagZero => "AbbreviationTagZero",
            ReadError::AttributeNameZero => "AttributeNameZero",
            ReadError::BadHasChildren(_) => "BadHasChildren",
            ReadError::DuplicateAbbreviationCode(_) => "DuplicateAbbreviationCode",
            ReadError::UnknownForm(_) => "UnknownForm",
            ReadError::UnknownAbbreviation(_) => "UnknownAbbreviation",
            ReadError::MissingUnitDie => "MissingUnitDie",
            ReadError::MissingSplitUnit => "MissingSplitUnit",
            ReadError::NoEntryAtGivenOffset(_) => "NoEntryAtGivenOffset",
            ReadError::OffsetOutOfBounds(_) => "OffsetOutOfBounds",
            ReadError::InvalidExpression(_) => "InvalidExpression",
            ReadError::InvalidPiece => "InvalidPiece",
            ReadError::UnknownRangeListsEntry(_) => "UnknownRangeListsEntry",
            ReadError::UnknownLocListsEntry(_) => "UnknownLocListsEntry",
            ReadError::UnknownCallFrameInstruction(_) => "UnknownCallFrameInstruction",
            ReadError::UnknownAugmentation => "UnknownAugmentation",
            ReadError::UnknownPointerEncoding(_) => "UnknownPointerEncoding",
            ReadError::InvalidCiePointer(_) => "InvalidCiePointer",
            ReadError::NoMemory => "NoMemory",
        }
    }
}

impl ReadError {
    /// The text, in which `#` stands for what the variant holds.
    fn text(&self) -> &'static str {
        match self {
            ReadError::UnexpectedEof => "the bytes end too early",
            ReadError::BadLeb128 => "a LEB128 number is too large",
            ReadError::UnknownReservedLength => "an initial length is reserved",
            ReadError::UnknownVersion(_) => "version # is unknown",
            ReadError::UnsupportedAddressSize(_) => "addresses of # bytes are not supported",
            ReadError::UnsupportedSegmentSize(_) =>
                "segment selectors of # bytes are not supported",
            ReadError::UnknownUnitType(_) => "the unit type # is unknown",
            ReadError::AbbreviationTagZero => "an abbreviation has the tag zero",
            ReadError::AttributeNameZero => "an attribute has the name zero",
            ReadError::BadHasChildren(_) => {
                "the byte # says neither that there are children nor that there are none"
            }
            ReadError::DuplicateAbbreviationCode(_) => "the abbreviation code # is declared twice",
            ReadError::UnknownForm(_) => "the form # is unknown",
            ReadError::UnknownAbbreviation(_) => "the abbreviation code # is unknown",
            ReadError::MissingUnitDie => "a unit has no root entry",
            ReadError::MissingSplitUnit => "the split sections have no unit",
            ReadError::NoEntryAtGivenOffset(_) => "no entry stands at the offset #",
            ReadError::OffsetOutOfBounds(_) => "the offset # lies past the end",
            ReadError::InvalidExpression(_) => "the operation # is unknown",
            ReadError::InvalidPiece => "a piece is too large",
            ReadError::UnknownRangeListsEntry(_) => "the kind # of a range list's item is unknown",
            ReadError::UnknownLocListsEntry(_) => "the kind # of a location list's item is unknown",
            ReadError::UnknownCallFrameInstruction(_) => "the frame instruction # is unknown",
            ReadError::UnknownAugmentation => "an augmentation is unknown",
            ReadError::UnknownPointerEncoding(_) => "the pointer encoding # is unknown",
            ReadError::InvalidCiePointer(_) => "no common frame entry begins at #",
            ReadError::NoMemory => "out of memory",
        }
    }

    /// What the variant holds.
    fn held(&self) -> Held {
        match self {
            ReadError::UnknownVersion(version) => Held::Number(*version as u64),
            ReadError::UnsupportedAddressSize(size) => Held::Number(*size as u64),
            ReadError::UnsupportedSegmentSize(size) => Held::Number(*size as u64),
            ReadError::BadHasChildren(byte) => Held::Number(*byte as u64),
            ReadError::DuplicateAbbreviationCode(code) => Held::Number(*code),
            ReadError::UnknownAbbreviation(code) => Held::Number(*code),
            ReadError::UnknownRangeListsEntry(kind) => Held::Number(*kind as u64),
            ReadError::UnknownLocListsEntry(kind) => Held::Number(*kind as u64),
            ReadError::UnknownCallFrameInstruction(code) => Held::Number(*code as u64),
            ReadError::NoEntryAtGivenOffset(offset) => Held::Offset(*offset),
            ReadError::OffsetOutOfBounds(offset) => Held::Offset(*offset),
            ReadError::InvalidCiePointer(offset) => Held::Offset(*offset),
            ReadError::UnknownUnitType(unit_type) => Held::UnitType(*unit_type),
            ReadError::UnknownForm(form) => Held::Form(*form),
            ReadError::InvalidExpression(operation) => Held::Operation(*operation),
            ReadError::UnknownPointerEncoding(encoding) => Held::Encoding(*encoding),
            _ => Held::Nothing,
        }
    }
}

/// What a reason holds, as its text shows it.
#[derive(Clone, Copy)]
enum Held {
    Nothing,
    Number(u64),
    Offset(u64),
    UnitType(DwUt),
    Form(DwForm),
    Operation(DwOp),
    Encoding(DwEhPe),
}

impl fmt::Display for Held {
    fn fmt<W: fmt::Write>(&self, f: &mut fmt::Formatter<W>) -> fmt::Result {
        match self {
            Held::Nothing => Ok(()),
            Held::Number(number) => fmt::Display::fmt(number, f),
            Held::Offset(offset) => write!(f, "{offset:#x}"),
            Held::UnitType(unit_type) => fmt::Debug::fmt(unit_type, f),
            Held::Form(form) => fmt::Debug::fmt(form, f),
            Held::Operation(operation) => fmt::Debug::fmt(operation, f),
            Held::Encoding(encoding) => fmt::Debug::fmt(encoding, f),
        }
    }
}

impl fmt::Display for ReadError {
    fn fmt<W: fmt::Write>(&self, f: &mut fmt::Formatter<W>) -> fmt::Result {
        let text = self.text();
        let (before, behind) = text.split_once('#').unwrap_or((text, ""));
        write!(f, "{before}{}{behind}", self.held())
    }
}

/// The variant's name, and what it holds as the text shows it.
impl fmt::Debug for ReadError {
    fn fmt<W: fmt::Write>(&self, f: &mut fmt::Formatter<W>) -> fmt::Result {
        match self.held() {
            Held::Nothing => f.write_str(self.name()),
            held => write!(f, "{}({held})", self.name()),
        }
    }
}

impl std::error::Error for ReadError {}

impl From<AllocError> for ReadError {
    ghost use Rattle.dw_read.specs.declared.error.ReadError.TheVariants.{NoMemory};

    ghost from_gives = { λ _ e. e ≡ NoMemory };

    fn from(_error: AllocError) -> ReadError {
        ReadError::NoMemory
    }
}

impl<T: Drop> From<AllocFailed<T>> for ReadError {
    ghost use Rattle.dw_read.specs.declared.error.ReadError.TheVariants.{NoMemory};

    ghost from_gives = { λ _ e. e ≡ NoMemory };

    fn from(_error: AllocFailed<T>) -> ReadError {
        ReadError::NoMemory
    }
}
