//! Tables of declarations (DWARF 5, 7.5.3).

use crate::tests::sections::little;
use dw_read::{Abbreviation, Abbreviations, AttributeSpecification, ReadResult, Reader};
use std::alloc::Global;

/// A name, a form, and the constant of the form implicit_const.
type Declared = (u16, u16, Option<i64>);

/// A code, whose declaration there is or isn't: its tag, whether entries have children, and its
/// attributes.
type Wanted = (u64, Option<(u16, bool, &'static [Declared])>);

fn is_declared(attribute: &AttributeSpecification, wanted: &Declared) -> bool {
    let form = (attribute.name().0, attribute.form().0);
    form == (wanted.0, wanted.1) && attribute.implicit_const_value() == wanted.2
}

fn are_declared(attributes: &[AttributeSpecification], wanted: &[Declared]) -> bool {
    for (attribute, wanted) in attributes.iter().zip(wanted) {
        if !is_declared(attribute, wanted) {
            return false;
        }
    }
    attributes.len() == wanted.len()
}

/// Whether a code has this declaration, or none.
fn is_found(found: Option<&Abbreviation>, wanted: &Wanted) -> bool {
    match (found, wanted) {
        (Some(found), (code, Some((tag, has_children, attributes)))) => {
            found.code() == *code
                && found.tag().0 == *tag
                && found.has_children() == *has_children
                && are_declared(found.attributes(), attributes)
        }
        (None, (_, None)) => true,
        _ => false,
    }
}

/// Bytes, the place behind the table, and codes.
type Case = (&'static [u8], usize, &'static [Wanted]);

// Two codes for compile units: the first has children, a name and a size of -1, the second has no
// children and no attribute, and a byte stands behind the table. Codes that are out of order, of
// which one has a form that no standard has, which is no fault of its table. Codes of 2^60,
// 2^64 - 1 and 1: they are kept by what was read of them, however large they are.
const CASES: &[Case] = &[
    (
        b"\x01\x11\x01\x03\x08\x0b\x21\x7f\x00\x00\x02\x11\x00\x00\x00\x00\xff",
        16,
        &[
            (
                1,
                Some((0x11, true, &[(0x03, 0x08, None), (0x0b, 0x21, Some(-1))])),
            ),
            (2, Some((0x11, false, &[]))),
            (0, None),
            (3, None),
        ],
    ),
    (
        b"\x07\x11\x00\x00\x00\x01\x12\x00\x00\x00\x03\x13\x00\x03\xfe\x7f\x00\x00\x00",
        19,
        &[
            (7, Some((0x11, false, &[]))),
            (1, Some((0x12, false, &[]))),
            (3, Some((0x13, false, &[(0x03, 0x3ffe, None)]))),
            (2, None),
        ],
    ),
    (
        b"\x80\x80\x80\x80\x80\x80\x80\x80\x10\x11\x00\x00\x00\
        \xff\xff\xff\xff\xff\xff\xff\xff\xff\x01\x12\x00\x00\x00\
        \x01\x13\x00\x00\x00\x00",
        33,
        &[
            (1 << 60, Some((0x11, false, &[]))),
            (u64::MAX, Some((0x12, false, &[]))),
            (1, Some((0x13, false, &[]))),
            (2, None),
        ],
    ),
];

fn cases() -> &'static [Case] {
    CASES
}

/// The first of these codes that has another declaration in a table, if one has.
fn first_missed(table: &Abbreviations, codes: &[Wanted]) -> Option<u64> {
    for wanted in codes {
        if !is_found(table.get(wanted.0), wanted) {
            return Some(wanted.0);
        }
    }
    None
}

/// The place behind a table, and the first of these codes that has another declaration in it.
fn read(alloc: Global, bytes: &[u8], codes: &[Wanted]) -> ReadResult<(usize, Option<u64>)> {
    let mut input = little(bytes);
    match Abbreviations::parse(alloc, &mut input) {
        Ok(table) => Ok((input.place(), first_missed(&table, codes))),
        Err(reason) => Err(reason),
    }
}

#[test]
fn reads_tables(rt: HostRuntime) {
    for (bytes, place, codes) in cases() {
        let read = read(rt.alloc(), bytes, codes);
        assert!(rt; read == Ok((*place, None)), "of {bytes:?}");
    }
}
