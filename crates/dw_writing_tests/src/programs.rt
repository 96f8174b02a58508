//! Programs that are built by steps, so that tables can hold them. What the calls ask for is asked
//! at run time, so that a test owes nothing.

ghost use Rattle.std.specs.Prelude.{IfOk, IfSome};
ghost use Rattle.dw_base.specs.Spellable.{IsText};
ghost use Rattle.dw_line.specs.LinePrograms.{IsInfo};
ghost use Rattle.dw_line.specs.Names.{IsFull, IsName};

use dw_base::{
    Address, DirectoryId, Encoding, Error, Format, LineEncoding, LineStringId, Result, StringId,
};
use dw_line::{FileInfo, LineProgram, LineRow, LineString};
use dw_writer::Bytes;
use std::alloc::Global;

/// A name, or the text of a file.
pub enum Name {
    /// `/`.
    Root,
    /// `/inc`.
    Included,
    /// `a.c`.
    A,
    /// `b.c`.
    B,
    /// `x`.
    Source,
    /// By its index in `.debug_str`.
    StringAt(usize),
    /// By its index in `.debug_line_str`.
    LineStringAt(usize),
}

/// What is told of a file.
pub struct Told {
    pub timestamp: u64,
    pub size: u64,
    pub md5: Option<[u8; 16]>,
    pub source: Option<Name>,
}

/// A call that adds to a program.
pub enum Step {
    Directory(Name),
    /// A file of a directory.
    File(Name, usize),
    /// A file of a directory, of which this is told.
    Known(Name, usize, Told),
    Begin(Option<Address>),
    Row(LineRow),
    End(u64),
}

/// A version, a format and a width of addresses.
pub type Unit = (u16, Format, u8);

/// A program: its encoding, the minimum length of its instructions, its working directory, and the
/// steps that it is built by.
pub type Built = (Unit, u8, Name, &'static [Step]);

pub fn encoding_of(unit: Unit) -> Encoding {
    let (version, format, address_size) = unit;
    Encoding {
        address_size,
        format,
        version,
    }
}

/// What a helper answers where a test calls it amiss.
fn amiss<T>() -> Result<T> {
    Err(Error::OffsetOutOfBounds)
}

/// The bytes of a name that isn't found by its place.
fn bytes_of(name: &Name) -> &'static [u8]
    ensures { IsText result.now }
{
    match name {
        Name::Root => b"/",
        Name::Included => b"/inc",
        Name::A => b"a.c",
        Name::B => b"b.c",
        _ => b"x",
    }
}

/// The string of a name.
pub fn string_of(alloc: Global, name: &Name) -> Result<LineString>
    ensures name { IfOk result IsName }
    ensures full { IfOk result IsFull }
{
    match name {
        Name::StringAt(index) => Ok(LineString::StringRef(StringId::new(*index))),
        Name::LineStringAt(index) => Ok(LineString::LineStringRef(LineStringId::new(*index))),
        _ => {
            let bytes = bytes_of(name);
            if bytes.is_empty() {
                return Err(Error::OffsetOutOfBounds);
            }
            Ok(LineString::String(Bytes::new(alloc, bytes)?))
        }
    }
}

/// The text of a file.
fn source_of(alloc: Global, source: &Option<Name>) -> Result<Option<LineString>>
    ensures { IfOk result (λ s. IfSome s IsName) }
{
    match source {
        Some(name) => Ok(Some(string_of(alloc, name)?)),
        None => Ok(None),
    }
}

fn info_of(alloc: Global, told: &Told) -> Result<Option<FileInfo>>
    ensures { IfOk result IsInfo }
{
    Ok(Some(FileInfo {
        timestamp: told.timestamp,
        size: told.size,
        md5: told.md5,
        source: source_of(alloc, &told.source)?,
    }))
}

/// A program of a working directory, without its steps.
pub fn begun(alloc: Global, program: &Built) -> Result<LineProgram> {
    let (unit, minimum, root, _) = program;
    if *minimum == 0 {
        return amiss();
    }
    let line_encoding = LineEncoding {
        minimum_instruction_length: *minimum,
        ..LineEncoding::default()
    };
    let root = string_of(alloc, root)?;
    LineProgram::new(alloc, encoding_of(*unit), line_encoding, root)
}

fn add_directory(program: &mut LineProgram, name: LineString) -> Result<()>
    requires name { IsName name }
    requires full { IsFull name }
{
    if program.is_none() {
        return amiss();
    }
    program.add_directory(name)?;
    Ok(())
}

fn add_file(
    program: &mut LineProgram,
    name: LineString,
    directory: usize,
    info: Option<FileInfo>,
) -> Result<()>
    requires name { IsName name }
    requires full { IsFull name }
    requires info { IsInfo info }
{
    if program.is_none() || directory >= program.directory_count() {
        return amiss();
    }
    program.add_file(name, DirectoryId::new(directory), info)?;
    Ok(())
}

fn begin(program: &mut LineProgram, address: Option<Address>) -> Result<()> {
    if program.is_none() || program.in_sequence() {
        return amiss();
    }
    program.begin_sequence(address)
}

fn add_row(program: &mut LineProgram, row: LineRow) -> Result<()> {
    let minimum = program.line_encoding().minimum_instruction_length as u64;
    if minimum == 0 || row.address_offset % minimum != 0 {
        return amiss();
    }
    if !program.in_sequence()
        || row.file.index() >= program.file_count()
        || row.address_offset < program.last_offset()
    {
        return amiss();
    }
    *program.row() = row;
    program.generate_row()
}

fn end(program: &mut LineProgram, offset: u64) -> Result<()> {
    let minimum = program.line_encoding().minimum_instruction_length as u64;
    if minimum == 0 || offset % minimum != 0 {
        return amiss();
    }
    if !program.in_sequence() || offset < program.last_offset() {
        return amiss();
    }
    program.end_sequence(offset)
}

fn take_directory(alloc: Global, program: &mut LineProgram, name: &Name) -> Result<()> {
    add_directory(program, string_of(alloc, name)?)
}

fn take_file(
    alloc: Global,
    program: &mut LineProgram,
    name: &Name,
    directory: usize,
) -> Result<()> {
    add_file(program, string_of(alloc, name)?, directory, None)
}

fn take_known(
    alloc: Global,
    program: &mut LineProgram,
    name: &Name,
    directory: usize,
    told: &Told,
) -> Result<()> {
    let info = info_of(alloc, told)?;
    add_file(program, string_of(alloc, name)?, directory, info)
}

fn take(alloc: Global, program: &mut LineProgram, step: &Step) -> Result<()> {
    match step {
        Step::Directory(name) => take_directory(alloc, program, name),
        Step::File(name, directory) => take_file(alloc, program, name, *directory),
        Step::Known(name, directory, told) => take_known(alloc, program, name, *directory, told),
        Step::Begin(address) => begin(program, *address),
        Step::Row(row) => add_row(program, *row),
        Step::End(offset) => end(program, *offset),
    }
}

/// Takes these steps, behind those that were taken.
pub fn take_all(alloc: Global, program: &mut LineProgram, steps: &[Step]) -> Result<()> {
    for step in steps {
        take(alloc, program, step)?;
    }
    Ok(())
}
