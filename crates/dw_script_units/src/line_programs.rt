//! What the lines of a script do to the line program of a unit.

ghost use Rattle.std.specs.Prelude.{◌≡◌, ◌<◌, ◌≤◌, false, Ok, None, IsSome, IsTrue, IfOk, IfErr, OnOk};
ghost use Rattle.dw_line.specs.LinePrograms.{is_in_sequence, last_offset_of};
ghost use Rattle.dw_line.specs.Names.{IsFull, IsName};
ghost use Rattle.dw_script_units.specs.LineChanges.{CountsBytes, after_begin, after_directory, after_end, after_file, after_line_change, after_row, program_of};
ghost use Rattle.dw_script_units.specs.Names.{closes_list, listed_name, name_of};
ghost use Rattle.dw_script_units.specs.Refused.{RefusedFor};

use crate::command_error::CommandError;
use crate::text::text_of;
use dw_base::{Address, DirectoryId, Encoding, FileId, LineEncoding, LineStringId, StringId};
use dw_script::{LineChange, LineText, Reason};
use dw_unit::{LineProgram, LineString, Unit};
use dw_writer::Bytes;
use std::alloc::Global;

/// Does to a unit's line program what a line asks for (DWARF 5, 6.2). It is refused with the first
/// reason that holds, and as `NoMemory`; the unit is not to be used again then.
///
/// ```
/// apply_line_change(alloc, &mut unit, LineChange::BeginSequence(None))?;
/// ```
pub fn apply_line_change(
    alloc: Global,
    unit: &mut Unit,
    change: LineChange<'_>,
) -> Result<(), CommandError>
    requires { CountsBytes unit.old.line_program }
    ensures ok { OnOk result (after_line_change change.entry unit.old ≡ Ok unit.new) }
    ensures err { IfErr result (RefusedFor (after_line_change change.entry unit.old)) }
{
    match change {
        LineChange::New(working_dir) => {
            unit.line_program = new_program(alloc, unit.encoding(), working_dir)?;
            Ok(())
        }
        LineChange::AddDirectory(name) => add_directory(alloc, &mut unit.line_program, name),
        LineChange::AddFile { name, directory } => {
            add_file(alloc, &mut unit.line_program, name, directory)
        }
        LineChange::BeginSequence(address) => begin_sequence(&mut unit.line_program, address),
        LineChange::AddRow {
            offset,
            file,
            line,
            column,
        } => add_row(&mut unit.line_program, offset, file, line, column),
        LineChange::EndSequence { offset } => end_sequence(&mut unit.line_program, offset),
    }
}

// A program of no files and no sequences, in the unit's encoding.
fn new_program(
    alloc: Global,
    encoding: Encoding,
    working_dir: LineText<'_>,
) -> Result<LineProgram, CommandError>
    ensures ok { IfOk result (λ p. program_of encoding working_dir.entry ≡ Ok p) }
    ensures err { IfErr result (RefusedFor (program_of encoding working_dir.entry)) }
{
    let working_dir = line_string(alloc, working_dir)?;
    LineProgram::new(alloc, encoding, LineEncoding::default(), working_dir).map_err(
        |_| CommandError::NoMemory,
    )
}

fn add_directory(
    alloc: Global,
    program: &mut LineProgram,
    name: LineText<'_>,
) -> Result<(), CommandError>
    ensures ok { OnOk result (after_directory name.entry program.old ≡ Ok program.new) }
    ensures err { IfErr result (RefusedFor (after_directory name.entry program.old)) }
{
    check_program(program)?;
    let name = listed_name(alloc, program.encoding().version, name)?;
    match program.add_directory(name) {
        Ok(_) => Ok(()),
        Err(_) => Err(CommandError::NoMemory),
    }
}

fn add_file(
    alloc: Global,
    program: &mut LineProgram,
    name: LineText<'_>,
    directory: usize,
) -> Result<(), CommandError>
    ensures ok { OnOk result (after_file name.entry directory program.old ≡ Ok program.new) }
    ensures err { IfErr result (RefusedFor (after_file name.entry directory program.old)) }
{
    check_program(program)?;
    let name = listed_name(alloc, program.encoding().version, name)?;
    if directory >= program.directory_count() {
        return Err(CommandError::Refused(Reason::NoSuchDirectory));
    }
    match program.add_file(name, DirectoryId::new(directory), None) {
        Ok(_) => Ok(()),
        Err(_) => Err(CommandError::NoMemory),
    }
}

fn begin_sequence(program: &mut LineProgram, address: Option<Address>) -> Result<(), CommandError>
    ensures ok { OnOk result (after_begin address program.old ≡ Ok program.new) }
    ensures err { IfErr result (RefusedFor (after_begin address program.old)) }
{
    check_program(program)?;
    if program.in_sequence() {
        return Err(CommandError::Refused(Reason::InSequence));
    }
    program
        .begin_sequence(address)
        .map_err(|_| CommandError::NoMemory)
}

// Adds a row. What its line doesn't say stays as the row before it has it.
fn add_row(
    program: &mut LineProgram,
    offset: u64,
    file: usize,
    line: u64,
    column: u64,
) -> Result<(), CommandError>
    requires { CountsBytes program.old }
    ensures ok { OnOk result (after_row offset file line column program.old ≡ Ok program.new) }
    ensures err { IfErr result (RefusedFor (after_row offset file line column program.old)) }
{
    check_program(program)?;
    check_sequence(program)?;
    if file >= program.file_count() {
        return Err(CommandError::Refused(Reason::NoSuchFile));
    }
    check_offset(program, offset)?;
    let row = program.row();
    row.address_offset = offset;
    row.file = FileId::new(file);
    row.line = line;
    row.column = column;
    program.generate_row().map_err(|_| CommandError::NoMemory)
}

fn end_sequence(program: &mut LineProgram, offset: u64) -> Result<(), CommandError>
    requires { CountsBytes program.old }
    ensures ok { OnOk result (after_end offset program.old ≡ Ok program.new) }
    ensures err { IfErr result (RefusedFor (after_end offset program.old)) }
{
    check_program(program)?;
    check_sequence(program)?;
    check_offset(program, offset)?;
    program
        .end_sequence(offset)
        .map_err(|_| CommandError::NoMemory)
}

fn check_program(program: &LineProgram) -> Result<(), CommandError>
    ensures ok { OnOk result (IsSome program.now.program) }
    ensures err { IfErr result (λ e.
        (e ≡ CommandError.Refused Reason.NoLineProgram) × (program.now.program ≡ None)) }
{
    if program.is_none() {
        return Err(CommandError::Refused(Reason::NoLineProgram));
    }
    Ok(())
}

fn check_sequence(program: &LineProgram) -> Result<(), CommandError>
    ensures ok { OnOk result (IsTrue (is_in_sequence program.now.program)) }
    ensures err { IfErr result (λ e. (e ≡ CommandError.Refused Reason.NotInSequence)
        × (is_in_sequence program.now.program ≡ false)) }
{
    if !program.in_sequence() {
        return Err(CommandError::Refused(Reason::NotInSequence));
    }
    Ok(())
}

// Offsets don't fall in a sequence.
fn check_offset(program: &LineProgram, offset: u64) -> Result<(), CommandError>
    ensures ok { OnOk result (last_offset_of program.now.program ≤ offset) }
    ensures err { IfErr result (λ e. (e ≡ CommandError.Refused Reason.AddressBack)
        × (offset < last_offset_of program.now.program)) }
{
    if offset < program.last_offset() {
        return Err(CommandError::Refused(Reason::AddressBack));
    }
    Ok(())
}

// Up to version 4 an empty name closes a list of directories or files.
fn closes_list(version: u16, name: &LineString) -> bool
    ensures { result ≡ closes_list version name.now }
{
    match name {
        LineString::String(bytes) => version <= 4 && bytes.is_empty(),
        _ => false,
    }
}

// The name of a directory or a file that stands in a list.
fn listed_name(alloc: Global, version: u16, name: LineText<'_>) -> Result<LineString, CommandError>
    ensures ok { IfOk result (λ s. listed_name version name.entry ≡ Ok s) }
    ensures name { IfOk result IsName }
    ensures full { IfOk result (λ s. version ≤ 4 → IsFull s) }
    ensures err { IfErr result (RefusedFor (listed_name version name.entry)) }
{
    let name = line_string(alloc, name)?;
    if closes_list(version, &name) {
        return Err(CommandError::Refused(Reason::EmptyName));
    }
    Ok(name)
}

// The name that a line gives, in memory of its own.
fn line_string(alloc: Global, text: LineText<'_>) -> Result<LineString, CommandError>
    ensures ok { IfOk result (λ name. name_of text.entry ≡ Ok name) }
    ensures name { IfOk result IsName }
    ensures err { IfErr result (RefusedFor (name_of text.entry)) }
{
    match text {
        LineText::String(bytes) => {
            let text = text_of(alloc, &bytes)?;
            Ok(LineString::String(Bytes::from(text)))
        }
        LineText::StringRef(index) => Ok(LineString::StringRef(StringId::new(index))),
        LineText::LineStringRef(index) => Ok(LineString::LineStringRef(LineStringId::new(index))),
    }
}
