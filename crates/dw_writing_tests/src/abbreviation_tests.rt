//! The table of abbreviations: its codes, and the bytes of its section by hand.

use dw_abbrev::{Abbreviation, AbbreviationTable, AttributeSpecification};
use dw_base::constants::{
    DW_AT_byte_size, DW_AT_language, DW_AT_name, DW_AT_producer, DW_FORM_data2,
    DW_FORM_implicit_const, DW_FORM_string, DW_FORM_strp, DW_TAG_compile_unit, DW_TAG_subprogram,
    DW_TAG_variable,
};
use dw_base::{LittleEndian, Result};
use dw_writer::{DebugAbbrev, EndianVec};
use std::alloc::Global;

#[derive(Clone, Copy)]
enum Shape {
    Subprogram,
    CompileUnit,
    /// A variable, whose size the declaration holds.
    Variable(i64),
}

fn subprogram(alloc: Global) -> Result<Abbreviation> {
    let name = AttributeSpecification::new(DW_AT_name, DW_FORM_string, None);
    let attributes = vec![in alloc; name]?;
    Ok(Abbreviation::new(DW_TAG_subprogram, false, attributes))
}

fn compile_unit(alloc: Global) -> Result<Abbreviation> {
    let producer = AttributeSpecification::new(DW_AT_producer, DW_FORM_strp, None);
    let language = AttributeSpecification::new(DW_AT_language, DW_FORM_data2, None);
    let attributes = vec![in alloc; producer, language]?;
    Ok(Abbreviation::new(DW_TAG_compile_unit, true, attributes))
}

fn variable(alloc: Global, size: i64) -> Result<Abbreviation> {
    let size = AttributeSpecification::new(DW_AT_byte_size, DW_FORM_implicit_const, Some(size));
    let attributes = vec![in alloc; size]?;
    Ok(Abbreviation::new(DW_TAG_variable, false, attributes))
}

fn abbreviation(alloc: Global, shape: Shape) -> Result<Abbreviation> {
    match shape {
        Shape::Subprogram => subprogram(alloc),
        Shape::CompileUnit => compile_unit(alloc),
        Shape::Variable(size) => variable(alloc, size),
    }
}

/// The code of an abbreviation, or of one that is looked up.
fn code(
    alloc: Global,
    table: &mut AbbreviationTable,
    shape: Shape,
    is_looked_up: bool,
) -> Result<u64> {
    let abbreviation = abbreviation(alloc, shape)?;
    if is_looked_up {
        table.add_copy(&abbreviation)
    } else {
        table.add(abbreviation.try_clone()?)
    }
}

/// Shapes, whether they are looked up, and their codes.
const CODES: &[(Shape, bool, u64)] = &[
    (Shape::Subprogram, false, 1),
    (Shape::CompileUnit, true, 2),
    (Shape::Subprogram, true, 1),
    (Shape::CompileUnit, false, 2),
    (Shape::Variable(-1), true, 3),
    (Shape::Variable(1), false, 4),
    (Shape::Variable(-1), false, 3),
];

/// Four declarations, each closed by two zeros, and the zero that closes the table (DWARF 5,
/// 7.5.3).
const BYTES: [u8; 33] = [
    0x01, 0x2e, 0x00, 0x03, 0x08, 0x00, 0x00, 0x02, 0x11, 0x01, 0x25, 0x0e, 0x13, 0x05, 0x00, 0x00,
    0x03, 0x34, 0x00, 0x0b, 0x21, 0x7f, 0x00, 0x00, 0x04, 0x34, 0x00, 0x0b, 0x21, 0x01, 0x00, 0x00,
    0x00,
];

/// The table of codes, into which no other proof looks.
fn codes() -> &'static [(Shape, bool, u64)] {
    CODES
}

/// The first row whose code is another.
fn first_wrong(alloc: Global, table: &mut AbbreviationTable) -> Option<usize> {
    for (i, (shape, is_looked_up, wanted)) in codes().iter().enumerate() {
        if code(alloc, table, *shape, *is_looked_up) != Ok(*wanted) {
            return Some(i);
        }
    }
    None
}

/// Whether a table writes these bytes.
fn writes(alloc: Global, table: &AbbreviationTable, bytes: &[u8]) -> bool {
    let mut section = DebugAbbrev::from(EndianVec::new(alloc, LittleEndian));
    table.write(&mut section) == Ok(()) && section.0.slice() == bytes
}

/// The first row whose code is another, and whether the bytes are those that are wanted.
fn keeps_abbreviations(alloc: Global) -> (Option<usize>, bool) {
    let mut table = AbbreviationTable::new(alloc);
    let wrong = first_wrong(alloc, &mut table);
    (wrong, writes(alloc, &table, &BYTES))
}

#[test]
fn writes_each_declaration_once(rt: HostRuntime) {
    assert_eq!(rt; keeps_abbreviations(rt.alloc()), (None, true));
}
