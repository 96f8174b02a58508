//! Line programs that were read, converted over the strings of a `Dwarf`, and written by it.

use crate::filtered_files::{File, NONE};
use crate::filtering::sections_of;
use crate::plans::{Told, VERSION_4};
use crate::reading::Slice;
use crate::writing::{Written, refusal};
use dw_base::{DebugLineOffset, RunTimeEndian};
use dw_dwarf::{Address, ConvertLineProgram, ConvertResult, Dwarf, Encoding, LineString, Result};
use dw_read_lines::IncompleteLineProgram;
use dw_read_units::Dwarf as ReadDwarf;

/// The strings that the program names: its working directory at 0, its file at 5.
pub(crate) const READ_STRINGS: &[u8] = b"/tmp\x00a.c\x00";

/// Version 5: a directory and a file by their places, and two rows at 0x1000 and 0x1004 of a
/// sequence that ends at 0x1010 (DWARF 5, 6.2.4, 6.2.5 and 7.22).
pub(crate) const READ: &[u8] = &[
    0x4b, 0, 0, 0, 5, 0, 8, 0, 0x25, 0, 0, 0, 1, 1, 1, 0xfb, 0x0e, 0x0d, 0, 1, 1, 1, 1, 0, 0, 0, 1,
    0, 0, 1, 1, 1, 0x1f, 1, 0, 0, 0, 0, 2, 1, 0x1f, 2, 0x0f, 1, 5, 0, 0, 0, 0, 0, 9, 2, 0, 0x10, 0,
    0, 0, 0, 0, 0, 4, 0, 5, 5, 3, 2, 1, 5, 0, 3, 1, 2, 4, 1, 2, 0x0c, 0, 1, 1,
];

/// What the program is converted to, the line program that is written, and the strings behind it.
pub(crate) type Program = (Option<Encoding>, &'static [u8], &'static [u8]);

const ROWS: &[(&str, Program)] = &[
    // The `Dwarf` has the string `b` already, so that the directory stands at 2 and the file at 7;
    // the caller moves the address on by 0x200000.
    (
        "a line program as it was read",
        (
            None,
            &[
                0x4b, 0, 0, 0, 5, 0, 8, 0, 0x25, 0, 0, 0, 1, 1, 1, 0xfb, 0x0e, 0x0d, 0, 1, 1, 1, 1,
                0, 0, 0, 1, 0, 0, 1, 1, 1, 0x1f, 1, 2, 0, 0, 0, 2, 1, 0x1f, 2, 0x0f, 1, 7, 0, 0, 0,
                0, 0, 9, 2, 0, 0x10, 0x20, 0, 0, 0, 0, 0, 4, 0, 5, 5, 3, 2, 1, 5, 0, 3, 1, 2, 4, 1,
                2, 0x0c, 0, 1, 1,
            ],
            b"b\x00/tmp\x00a.c\x00",
        ),
    ),
    // Version 4 has the file's name itself, in the directory of the unit, and counts it from 1,
    // which is the machine's first file; nothing goes into the strings (DWARF 4, 6.2.4).
    (
        "a line program to version 4",
        (
            Some(VERSION_4),
            &[
                0x3d, 0, 0, 0, 4, 0, 0x1b, 0, 0, 0, 1, 1, 1, 0xfb, 0x0e, 0x0d, 0, 1, 1, 1, 1, 0, 0,
                0, 1, 0, 0, 1, 0, 0x61, 0x2e, 0x63, 0, 0, 0, 0, 0, 0, 9, 2, 0, 0x10, 0x20, 0, 0, 0,
                0, 0, 5, 5, 3, 2, 1, 5, 0, 3, 1, 2, 4, 1, 2, 0x0c, 0, 1, 1,
            ],
            b"b\x00",
        ),
    ),
];

/// The table, into which no other proof looks.
pub(crate) fn rows() -> &'static [(&'static str, Program)] {
    ROWS
}

/// Sections that hold the program and its strings alone.
const PROGRAM: File = File {
    line_strings: READ_STRINGS,
    line: READ,
    ..NONE
};

/// The same address 0x200000 further on.
fn moved(address: u64) -> Option<Address> {
    Some(Address::Constant(address.checked_add(0x20_0000)?))
}

/// Begins to convert the program.
fn begin<'a>(
    dwarf: &mut Dwarf,
    read: &'a ReadDwarf<Slice<'static>>,
    target: Option<Encoding>,
) -> ConvertResult<ConvertLineProgram<'a, Slice<'static>>> {
    let program = IncompleteLineProgram::new(read, DebugLineOffset(0), 8)?;
    dwarf.read_line_program(read, program, target, None)
}

/// Adds the converted program.
fn convert_into(dwarf: &mut Dwarf, target: Option<Encoding>) -> ConvertResult<()> {
    let read = sections_of(&PROGRAM, RunTimeEndian::Little);
    let (program, _) = begin(dwarf, &read, target)?.convert(&|address| moved(address))?;
    dwarf.line_programs.push(program)?;
    Ok(())
}

/// Adds a string, and tells whether it is found by its id.
fn finds_added(dwarf: &mut Dwarf) -> Result<bool> {
    let name = LineString::LineStringRef(dwarf.line_strings.add(b"b")?);
    Ok(dwarf.get_line_string(&name) == b"b".as_slice())
}

/// Adds a string and the converted program, and writes them.
pub(crate) fn write_program(
    job: Program,
    dwarf: &mut Dwarf,
    sections: &mut Written,
) -> Result<Told> {
    let (target, line, line_strings) = job;
    let is_found = finds_added(dwarf)?;
    let is_converted = convert_into(dwarf, target).is_ok();
    let refused = refusal(dwarf, sections);
    let is_written = sections.debug_line.0.slice() == line
        && sections.debug_line_str.0.slice() == line_strings;
    Ok((refused, is_found && is_converted && is_written))
}
