//! The names and texts of reasons.

use dw_base::{DwEhPe, DwForm, DwOp, DwUt};
use dw_read::ReadError;
use std::alloc::{AllocError, Global};

/// A reason, its name and its text.
type Case = (ReadError, &'static str, &'static str);

const CASES: &[Case] = &[
    (
        ReadError::UnexpectedEof,
        "UnexpectedEof",
        "the bytes end too early",
    ),
    (
        ReadError::BadLeb128,
        "BadLeb128",
        "a LEB128 number is too large",
    ),
    (
        ReadError::UnknownReservedLength,
        "UnknownReservedLength",
        "an initial length is reserved",
    ),
    (
        ReadError::UnknownVersion(6),
        "UnknownVersion",
        "version 6 is unknown",
    ),
    (
        ReadError::UnsupportedAddressSize(3),
        "UnsupportedAddressSize",
        "addresses of 3 bytes are not supported",
    ),
    (
        ReadError::UnsupportedSegmentSize(1),
        "UnsupportedSegmentSize",
        "segment selectors of 1 bytes are not supported",
    ),
    (
        ReadError::UnknownUnitType(DwUt(7)),
        "UnknownUnitType",
        "the unit type DwUt(7) is unknown",
    ),
    (
        ReadError::AbbreviationTagZero,
        "AbbreviationTagZero",
        "an abbreviation has the tag zero",
    ),
    (
        ReadError::AttributeNameZero,
        "AttributeNameZero",
        "an attribute has the name zero",
    ),
    (
        ReadError::BadHasChildren(2),
        "BadHasChildren",
        "the byte 2 says neither that there are children nor that there are none",
    ),
    (
        ReadError::DuplicateAbbreviationCode(1),
        "DuplicateAbbreviationCode",
        "the abbreviation code 1 is declared twice",
    ),
    (
        ReadError::UnknownForm(DwForm(127)),
        "UnknownForm",
        "the form DwForm(127) is unknown",
    ),
    (
        ReadError::UnknownAbbreviation(7),
        "UnknownAbbreviation",
        "the abbreviation code 7 is unknown",
    ),
    (
        ReadError::MissingUnitDie,
        "MissingUnitDie",
        "a unit has no root entry",
    ),
    (
        ReadError::MissingSplitUnit,
        "MissingSplitUnit",
        "the split sections have no unit",
    ),
    (
        ReadError::NoEntryAtGivenOffset(26),
        "NoEntryAtGivenOffset",
        "no entry stands at the offset 0x1a",
    ),
    (
        ReadError::OffsetOutOfBounds(26),
        "OffsetOutOfBounds",
        "the offset 0x1a lies past the end",
    ),
    (
        ReadError::InvalidExpression(DwOp(7)),
        "InvalidExpression",
        "the operation DwOp(7) is unknown",
    ),
    (
        ReadError::InvalidPiece,
        "InvalidPiece",
        "a piece is too large",
    ),
    (
        ReadError::UnknownRangeListsEntry(8),
        "UnknownRangeListsEntry",
        "the kind 8 of a range list's item is unknown",
    ),
    (
        ReadError::UnknownLocListsEntry(9),
        "UnknownLocListsEntry",
        "the kind 9 of a location list's item is unknown",
    ),
    (
        ReadError::UnknownCallFrameInstruction(31),
        "UnknownCallFrameInstruction",
        "the frame instruction 31 is unknown",
    ),
    (
        ReadError::UnknownAugmentation,
        "UnknownAugmentation",
        "an augmentation is unknown",
    ),
    (
        ReadError::UnknownPointerEncoding(DwEhPe(32)),
        "UnknownPointerEncoding",
        "the pointer encoding DwEhPe(32) is unknown",
    ),
    (
        ReadError::InvalidCiePointer(26),
        "InvalidCiePointer",
        "no common frame entry begins at 0x1a",
    ),
    (ReadError::NoMemory, "NoMemory", "out of memory"),
];

fn cases() -> &'static [Case] {
    CASES
}

/// Whether a reason has its name and its text.
fn is_named(alloc: Global, case: &Case) -> Result<bool, AllocError> {
    let (reason, name, text) = *case;
    let shown = format!(in alloc; "{reason}")?;
    Ok(reason.name() == name && shown.as_str() == text)
}

#[test]
fn names_reasons(rt: HostRuntime) {
    for case in cases() {
        assert!(rt; is_named(rt.alloc(), case) == Ok(true), "{}", case.1);
    }
}
