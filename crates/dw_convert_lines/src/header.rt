//! The header of a line program: its parameters, directories and files (DWARF 5, 6.2.4).

ghost use Rattle.std.specs.Prelude.{◌≡◌, ◌⊎◌, ◌≤ℤ◌, ◌<ℤ◌, ◌+ℤ◌, ◌↔◌, ℕ, List, [], ◌∷◌, pos, nat_le, IsTrue, IfOk, IfErr, IfSome, OnOk, Ok, Err};
ghost use Rattle.dw_line.specs.Names.{IsName};
ghost use Rattle.dw_read.specs.Reading.{left};
ghost use Rattle.dw_read_lines.specs.FileEntryIters.{layout_of, HasParts, BeginsEntries, BeginsBehind};
ghost use Rattle.dw_read_lines.specs.LineEntries.{Directories, next_read};
ghost use Rattle.dw_read_lines.specs.declared.file_entries.Layout.TheVariants as held;
ghost use Rattle.dw_sources.specs.declared.convert_error.ConvertError.TheVariants.{NoMemory};
ghost use Rattle.dw_convert_lines.specs.Entries.{IsOpen, IsSameList, IsConvertibleList, FaultyBehind};
ghost use Rattle.dw_convert_lines.specs.HeaderImages.{IsWritable, IsReadable, EncodingOutcome, working_image, new_program, first_ids, BeginOutcome, HeaderOutcome};
ghost use Rattle.dw_convert_lines.specs.HeaderLists.{AreOfHeader, FilesMade, EntriesMade, ProgramMade};
ghost use Rattle.dw_convert_lines.specs.Views.{texts_of, tables, converting, IsTarget};

use crate::entries::{convert_directories, convert_files};
use crate::format_list::is_convertible;
use crate::name::{convert_name, inline};
use crate::owned::drop;
use dw_base::{DirectoryId, Encoding, Endianity, FileId, LineEncoding};
use dw_line::{LineProgram, LineString};
use dw_read::Reader;
use dw_read_lines::{FileEntryIter, LineProgramHeader};
use dw_read_units::Dwarf;
use dw_sources::{ConvertError, ConvertResult};
use dw_strings::{LineStringTable, StringTable};
use std::alloc::Global;

/// The parameters of the target: those that are given, or else those that were read.
pub(crate) fn target_encoding(
    read: LineEncoding,
    opcode_base: u8,
    given: Option<LineEncoding>,
) -> ConvertResult<LineEncoding>
    requires { IfSome given IsWritable }
    ensures { EncodingOutcome read opcode_base given result }
{
    if !is_readable(read, opcode_base) {
        return Err(ConvertError::UnsupportedLineProgram);
    }
    match given {
        Some(given) => Ok(given),
        None => {
            if !has_writable_lines(read) {
                return Err(ConvertError::UnsupportedLineProgram);
            }
            Ok(read)
        }
    }
}

/// Whether instructions can be read by these parameters.
fn is_readable(read: LineEncoding, opcode_base: u8) -> bool
    ensures { IsTrue result ↔ IsReadable read opcode_base }
{
    read.maximum_operations_per_instruction == 1
        && read.minimum_instruction_length > 0
        && read.line_range > 0
        && opcode_base > 0
}

/// Whether the lines of special opcodes can be those of a program that is written: some stay on
/// the line or go back, and some go on.
fn has_writable_lines(read: LineEncoding) -> bool
    ensures { IsTrue result ↔ ((read.line_base ≤ℤ pos 0)
        × (pos 0 <ℤ (read.line_base +ℤ pos read.line_range))) }
{
    read.line_base <= 0 && read.line_base as i16 + read.line_range as i16 > 0
}

/// The directories of a header, by a description that can be converted.
fn begin_directories<R: Reader>(header: &LineProgramHeader<R>) -> ConvertResult<FileEntryIter<R>>
    ensures ok { IfOk result (BeginsEntries R.reading
        (nat_le 5 header.now.encoding.encoding.version) held.Directories
        (R.reading header.now.tables).is_big header.now.encoding.encoding
        (left (R.reading header.now.tables))) }
    ensures order { IfOk result (λ i.
        (R.reading i.input).is_big ≡ (R.reading header.now.tables).is_big) }
    ensures convertible { IfOk result (IsConvertibleList R.reading) }
    ensures err { IfErr result (λ e. BeginOutcome
        (nat_le 5 header.now.encoding.encoding.version) Directories
        (R.reading header.now.tables).is_big header.now.encoding.encoding
        (left (R.reading header.now.tables)) (Err e)) }
{
    let entries = header.include_directories()?;
    if !is_convertible(&entries) {
        return Err(ConvertError::UnsupportedLineProgram);
    }
    Ok(entries)
}

/// The files behind directories, by a description that can be converted.
fn begin_files<R: Reader>(directories: &FileEntryIter<R>) -> ConvertResult<FileEntryIter<R>>
    ensures ok { IfOk result
        (BeginsBehind R.reading directories.now.layout (R.reading directories.now.input)) }
    ensures order { IfOk result (λ i.
        (R.reading i.input).is_big ≡ (R.reading directories.now.input).is_big) }
    ensures convertible { IfOk result (IsConvertibleList R.reading) }
    ensures err { IfErr result
        (FaultyBehind directories.now.layout (R.reading directories.now.input)) }
{
    let entries = directories.file_names()?;
    if !is_convertible(&entries) {
        return Err(ConvertError::UnsupportedLineProgram);
    }
    Ok(entries)
}

/// The working directory: the first of the directories from version 5 on. Below, it is that of the
/// unit, and stands in no program.
fn working_directory<R: Reader>(
    alloc: Global,
    dwarf: &Dwarf<R>,
    is_new: bool,
    version: u16,
    entries: &mut FileEntryIter<R>,
    line_strings: &mut LineStringTable,
    strings: &mut StringTable,
) -> ConvertResult<LineString>
    requires { IsOpen R.reading entries.old }
    ensures ok { IfOk result (λ s. (parts : List (ℕ × ℕ))
        → HasParts R.reading entries.old.layout parts → working_image is_new (nat_le 5 version)
        (texts_of R.reading dwarf.now) (next_read (R.reading entries.old.input).is_big
        (layout_of R.reading entries.old.layout parts)) entries.old.remaining
        (left (R.reading entries.old.input)) (tables strings.old line_strings.old)
        ≡ Ok (record {
          name = s;
          tables = tables strings.new line_strings.new;
          count = entries.new.remaining;
          bytes = left (R.reading entries.new.input);
        })) }
    ensures text { IfOk result IsName }
    ensures same { OnOk result (IsSameList R.reading entries.old entries.new) }
    ensures open { OnOk result (IsOpen R.reading entries.new) }
    ensures err { IfErr result (λ e. (e ≡ NoMemory) ⊎ ((parts : List (ℕ × ℕ))
        → HasParts R.reading entries.old.layout parts → working_image is_new (nat_le 5 version)
        (texts_of R.reading dwarf.now) (next_read (R.reading entries.old.input).is_big
        (layout_of R.reading entries.old.layout parts)) entries.old.remaining
        (left (R.reading entries.old.input)) (tables strings.old line_strings.old) ≡ Err e)) }
{
    if is_new {
        let Some(entry) = entries.next()? else {
            return Err(ConvertError::InvalidDirectoryIndex);
        };
        let name = convert_name(
            alloc,
            dwarf,
            version,
            &entry.path_name,
            line_strings,
            strings,
        );
        drop(entry);
        return name;
    }
    inline(alloc, b"")
}

/// A program of a working directory alone.
fn new_program(
    alloc: Global,
    encoding: Encoding,
    line_encoding: LineEncoding,
    working: LineString,
) -> ConvertResult<LineProgram>
    requires parameters { IsWritable line_encoding }
    requires name { IsName working }
    ensures ok { IfOk result (λ p. p ≡ new_program encoding line_encoding working) }
    ensures err { IfErr result (λ e. e ≡ NoMemory) }
{
    match LineProgram::new(alloc, encoding, line_encoding, working) {
        Ok(program) => Ok(program),
        Err(_) => Err(ConvertError::NoMemory),
    }
}

/// The id of the working directory.
fn first_directories(alloc: Global) -> ConvertResult<Vec<DirectoryId>>
    ensures ok { IfOk result (λ ids. ids.items ≡ record { 0 = 0 } ∷ []) }
    ensures err { IfErr result (λ e. e ≡ NoMemory) }
{
    let mut ids = Vec::new(alloc);
    ids.push(DirectoryId::new(0))?;
    Ok(ids)
}

/// The ids of no files: up to version 4 files are counted from 1, so that 0 names none.
fn first_ids(alloc: Global, is_new: bool) -> ConvertResult<Vec<FileId>>
    ensures ok { IfOk result (λ ids. ids.items ≡ first_ids is_new) }
    ensures err { IfErr result (λ e. e ≡ NoMemory) }
{
    let mut ids = Vec::new(alloc);
    if !is_new {
        ids.push(FileId::new(0))?;
    }
    Ok(ids)
}

/// Whether a program tells its working directory, as from version 5 on. From there on files are
/// counted from 0, too.
fn tells_working_directory<R: Reader>(header: &LineProgramHeader<R>) -> bool
    ensures { result ≡ nat_le 5 header.now.encoding.encoding.version }
{
    header.encoding().version >= 5
}

/// Whether the highest byte of a number stands first in the header.
fn is_big<R: Reader>(header: &LineProgramHeader<R>) -> bool
    ensures { result ≡ (R.reading header.now.parameters.operand_counts).is_big }
{
    header.standard_opcode_lengths().endian().is_big_endian()
}

/// Adds the files behind directories to the program, and answers their ids by their numbers.
fn convert_files_behind<R: Reader>(
    alloc: Global,
    dwarf: &Dwarf<R>,
    header: &LineProgramHeader<R>,
    version: u16,
    directories: &[DirectoryId],
    entries: &FileEntryIter<R>,
    program: &mut LineProgram,
    line_strings: &mut LineStringTable,
    strings: &mut StringTable,
) -> ConvertResult<Vec<FileId>>
    requires laid { AreOfHeader R.reading header.now entries.now }
    requires target { IsTarget version directories.now program.old }
    ensures ok { IfOk result (λ files. FilesMade R.reading (texts_of R.reading dwarf.now)
        header.now (nat_le 5 version) entries.now
        (converting program.old directories.now strings.old line_strings.old)
        (Ok (converting program.new files.items strings.new line_strings.new))) }
    ensures err { IfErr result (λ e. (e ≡ NoMemory) ⊎ FilesMade R.reading
        (texts_of R.reading dwarf.now) header.now (nat_le 5 version) entries.now
        (converting program.old directories.now strings.old line_strings.old) (Err e)) }
{
    let mut listed = begin_files(entries)?;
    let is_new = tells_working_directory(header);
    let mut files = first_ids(alloc, is_new)?;
    let is_big = is_big(header);
    convert_files(
        alloc,
        dwarf,
        version,
        is_big,
        directories,
        &mut listed,
        program,
        &mut files,
        line_strings,
        strings,
    )?;
    Ok(files)
}

/// Adds the directories that follow to the program and the files behind them, and answers the ids
/// of the files by their numbers.
fn convert_entries<R: Reader>(
    alloc: Global,
    dwarf: &Dwarf<R>,
    header: &LineProgramHeader<R>,
    version: u16,
    entries: &mut FileEntryIter<R>,
    program: &mut LineProgram,
    line_strings: &mut LineStringTable,
    strings: &mut StringTable,
) -> ConvertResult<Vec<FileId>>
    requires begun { IsOpen R.reading entries.old }
    requires laid { AreOfHeader R.reading header.now entries.old }
    requires target { IsTarget version (record { 0 = 0 } ∷ []) program.old }
    ensures ok { IfOk result (λ files. EntriesMade R.reading (texts_of R.reading dwarf.now)
        header.now (nat_le 5 version) entries.old
        (converting program.old (record { 0 = 0 } ∷ []) strings.old line_strings.old)
        (Ok (converting program.new files.items strings.new line_strings.new))) }
    ensures err { IfErr result (λ e. (e ≡ NoMemory) ⊎ EntriesMade R.reading
        (texts_of R.reading dwarf.now) header.now (nat_le 5 version) entries.old
        (converting program.old (record { 0 = 0 } ∷ []) strings.old line_strings.old)
        (Err e)) }
{
    let mut directories = first_directories(alloc)?;
    convert_directories(
        alloc,
        dwarf,
        version,
        entries,
        program,
        &mut directories,
        line_strings,
        strings,
    )?;
    convert_files_behind(
        alloc,
        dwarf,
        header,
        version,
        directories.as_slice(),
        entries,
        program,
        line_strings,
        strings,
    )
}

/// A program of a working directory with the directories that follow it and the files behind them,
/// and the ids of the files by their numbers.
fn program_with_entries<R: Reader>(
    alloc: Global,
    dwarf: &Dwarf<R>,
    header: &LineProgramHeader<R>,
    encoding: Encoding,
    line_encoding: LineEncoding,
    working: LineString,
    entries: &mut FileEntryIter<R>,
    line_strings: &mut LineStringTable,
    strings: &mut StringTable,
) -> ConvertResult<(LineProgram, Vec<FileId>)>
    requires parameters { IsWritable line_encoding }
    requires name { IsName working }
    requires begun { IsOpen R.reading entries.old }
    requires laid { AreOfHeader R.reading header.now entries.old }
    ensures ok { IfOk result (λ x. ProgramMade R.reading (texts_of R.reading dwarf.now)
        header.now encoding line_encoding entries.old working
        (tables strings.old line_strings.old)
        (Ok (converting x.0 x.1.items strings.new line_strings.new))) }
    ensures err { IfErr result (λ e. (e ≡ NoMemory) ⊎ ProgramMade R.reading
        (texts_of R.reading dwarf.now) header.now encoding line_encoding entries.old working
        (tables strings.old line_strings.old) (Err e)) }
{
    let mut program = new_program(alloc, encoding, line_encoding, working)?;
    let files = convert_entries(
        alloc,
        dwarf,
        header,
        encoding.version,
        entries,
        &mut program,
        line_strings,
        strings,
    )?;
    Ok((program, files))
}

/// A program with the directories and files of a header, and the ids of the files by their
/// numbers.
pub(crate) fn convert_header<R: Reader>(
    alloc: Global,
    dwarf: &Dwarf<R>,
    header: &LineProgramHeader<R>,
    encoding: Encoding,
    line_encoding: LineEncoding,
    line_strings: &mut LineStringTable,
    strings: &mut StringTable,
) -> ConvertResult<(LineProgram, Vec<FileId>)>
    requires { IsWritable line_encoding }
    ensures ok { IfOk result (λ x. HeaderOutcome (texts_of R.reading dwarf.now)
        header.now.encoding.encoding (R.reading header.now.tables).is_big
        (R.reading header.now.parameters.operand_counts).is_big
        (left (R.reading header.now.tables)) encoding line_encoding
        (tables strings.old line_strings.old)
        (Ok (converting x.0 x.1.items strings.new line_strings.new))) }
    ensures err { IfErr result (λ e. (e ≡ NoMemory) ⊎ HeaderOutcome (texts_of R.reading dwarf.now)
        header.now.encoding.encoding (R.reading header.now.tables).is_big
        (R.reading header.now.parameters.operand_counts).is_big
        (left (R.reading header.now.tables)) encoding line_encoding
        (tables strings.old line_strings.old) (Err e)) }
{
    let is_new = tells_working_directory(header);
    let mut entries = begin_directories(header)?;
    let working = working_directory(
        alloc,
        dwarf,
        is_new,
        encoding.version,
        &mut entries,
        line_strings,
        strings,
    )?;
    program_with_entries(
        alloc,
        dwarf,
        header,
        encoding,
        line_encoding,
        working,
        &mut entries,
        line_strings,
        strings,
    )
}
