//! Line programs as they are read, converted and written, with their bytes by hand.

use crate::entries::moved;
use crate::layouts::Slice;
use crate::owned::drop;
use crate::reading::{EMPTY, Texts, dwarf_of};
use dw_base::{DebugLineOffset, Encoding, FileId, RunTimeEndian};
use dw_convert_lines::convert_line_program;
use dw_line::LineProgram;
use dw_read_lines::IncompleteLineProgram;
use dw_read_units::Dwarf;
use dw_sources::{ConvertError, ConvertResult};
use dw_strings::{LineStringTable, StringTable};
use dw_writer::{DebugLine, EndianVec};
use std::alloc::Global;

/// The encoding that a program is converted to, where it isn't the one that is read.
pub(crate) type Target = Option<Encoding>;

/// Sections with a line program, and the strings `ccc` and `/tmp`, `a.c`.
fn texts(line: &[u8]) -> Texts<'_> {
    Texts {
        str: b"ccc\x00",
        line_str: b"/tmp\x00a.c\x00",
        line,
        ..EMPTY
    }
}

/// A program that was converted, and the ids of its files by the numbers that are read.
type Converted = (LineProgram, Vec<FileId>);

/// The tables of strings, `.debug_line_str` before `.debug_str`.
#[derive(Drop)]
struct Strings(LineStringTable, StringTable);

/// What a program becomes.
fn converted(
    alloc: Global,
    dwarf: &Dwarf<Slice<'_>>,
    target: Target,
    strings: &mut Strings,
) -> ConvertResult<Converted> {
    let read = IncompleteLineProgram::new(dwarf, DebugLineOffset(0), 4)?;
    convert_line_program(
        alloc,
        dwarf,
        &read,
        target,
        None,
        &mut strings.0,
        &mut strings.1,
        &moved,
    )
}

/// Why the program of these bytes is refused.
pub(crate) fn refusal(
    alloc: Global,
    endian: RunTimeEndian,
    bytes: &[u8],
    target: Target,
) -> Option<ConvertError> {
    let dwarf = dwarf_of(&texts(bytes), endian);
    let mut strings = Strings(LineStringTable::new(alloc), StringTable::new(alloc));
    let refusal = converted(alloc, &dwarf, target, &mut strings).err();
    drop(strings);
    refusal
}

/// Whether a program is written as these bytes.
fn is_written(
    alloc: Global,
    endian: RunTimeEndian,
    program: &LineProgram,
    strings: &Strings,
    wanted: &[u8],
) -> bool {
    let mut w = DebugLine::from(EndianVec::new(alloc, endian));
    match program.write(&mut w, program.encoding(), &strings.0, &strings.1) {
        Ok(_) => w.0.slice() == wanted,
        Err(_) => false,
    }
}

/// Whether a program has one file and is written as these bytes.
fn is_converted(
    alloc: Global,
    endian: RunTimeEndian,
    converted: &ConvertResult<Converted>,
    strings: &Strings,
    wanted: &[u8],
) -> bool {
    match converted {
        Ok((program, files)) => {
            files.first() == Some(&FileId(0)) && is_written(alloc, endian, program, strings, wanted)
        }
        Err(_) => false,
    }
}

/// Whether the program of these bytes has one file and is written as other bytes.
pub(crate) fn becomes(
    alloc: Global,
    endian: RunTimeEndian,
    bytes: &[u8],
    target: Target,
    wanted: &[u8],
) -> bool {
    let dwarf = dwarf_of(&texts(bytes), endian);
    let mut strings = Strings(LineStringTable::new(alloc), StringTable::new(alloc));
    let converted = converted(alloc, &dwarf, target, &mut strings);
    let is_so = is_converted(alloc, endian, &converted, &strings, wanted);
    drop(converted);
    drop(strings);
    is_so
}
