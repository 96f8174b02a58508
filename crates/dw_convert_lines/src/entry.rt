//! Directories and files (DWARF 5, 6.2.4).

ghost use Rattle.std.specs.Prelude.{◌≡◌, ◌≢◌, ◌⊎◌, ◌≤◌, [], nat_le, true, Some, IfOk, IfErr, IfSome, OnOk, Ok, Err};
ghost use Rattle.dw_line.specs.LinePrograms.{IsInfo};
ghost use Rattle.dw_line.specs.Names.{IsName};
ghost use Rattle.dw_line.specs.declared.line_string.LineString.TheVariants.{String};
ghost use Rattle.dw_read.specs.Took.{option_of};
ghost use Rattle.dw_read.specs.Values.{value_of};
ghost use Rattle.dw_read_lines.specs.LineEntryViews.{entry_of};
ghost use Rattle.dw_sources.specs.declared.convert_error.ConvertError.TheVariants.{NoMemory};
ghost use Rattle.dw_convert_lines.specs.EntryImages.{source_image, directory_image, directory_among, info_image, file_image};
ghost use Rattle.dw_convert_lines.specs.EntryNames.{listed_image};
ghost use Rattle.dw_convert_lines.specs.Views.{texts_of, tables, converting, IsTarget};

use crate::name::{convert_listed, convert_name};
use crate::number::{convert_checksum, convert_number};
use crate::owned::drop;
use dw_base::{DirectoryId, FileId};
use dw_line::{FileInfo, LineProgram, LineString};
use dw_read::{AttributeValue, Reader};
use dw_read_lines::FileEntry;
use dw_read_units::Dwarf;
use dw_sources::{ConvertError, ConvertResult};
use dw_strings::{LineStringTable, StringTable};
use std::alloc::Global;

/// Adds a directory to the program, and its id to those of the directories before it.
pub(crate) fn convert_directory<R: Reader>(
    alloc: Global,
    dwarf: &Dwarf<R>,
    version: u16,
    entry: FileEntry<R>,
    program: &mut LineProgram,
    ids: &mut Vec<DirectoryId>,
    line_strings: &mut LineStringTable,
    strings: &mut StringTable,
) -> ConvertResult<()>
    requires { IsTarget version ids.old.items program.old }
    ensures ok { OnOk result (directory_image (nat_le 5 version) (texts_of R.reading dwarf.now)
        (entry_of R.reading entry)
        (converting program.old ids.old.items strings.old line_strings.old)
        ≡ Ok (converting program.new ids.new.items strings.new line_strings.new)) }
    ensures target { OnOk result (IsTarget version ids.new.items program.new) }
    ensures err { IfErr result (λ e. (e ≡ NoMemory) ⊎ directory_image (nat_le 5 version)
        (texts_of R.reading dwarf.now) (entry_of R.reading entry)
        (converting program.old ids.old.items strings.old line_strings.old) ≡ Err e) }
{
    let added = add_directory(
        alloc,
        dwarf,
        version,
        &entry,
        program,
        ids,
        line_strings,
        strings,
    );
    drop(entry);
    added
}

/// Adds a directory to the program by what was read of it, and its id to those of the directories
/// before it.
fn add_directory<R: Reader>(
    alloc: Global,
    dwarf: &Dwarf<R>,
    version: u16,
    entry: &FileEntry<R>,
    program: &mut LineProgram,
    ids: &mut Vec<DirectoryId>,
    line_strings: &mut LineStringTable,
    strings: &mut StringTable,
) -> ConvertResult<()>
    requires { IsTarget version ids.old.items program.old }
    ensures ok { OnOk result (directory_image (nat_le 5 version) (texts_of R.reading dwarf.now)
        (entry_of R.reading entry.now)
        (converting program.old ids.old.items strings.old line_strings.old)
        ≡ Ok (converting program.new ids.new.items strings.new line_strings.new)) }
    ensures target { OnOk result (IsTarget version ids.new.items program.new) }
    ensures err { IfErr result (λ e. (e ≡ NoMemory) ⊎ directory_image (nat_le 5 version)
        (texts_of R.reading dwarf.now) (entry_of R.reading entry.now)
        (converting program.old ids.old.items strings.old line_strings.old) ≡ Err e) }
{
    let name = convert_listed(
        alloc,
        dwarf,
        version,
        &entry.path_name,
        line_strings,
        strings,
    )?;
    match program.add_directory(name) {
        Ok(id) => {
            ids.push(id)?;
            Ok(())
        }
        Err(_) => Err(ConvertError::NoMemory),
    }
}

/// Adds a file to the program, and its id to those of the files before it.
pub(crate) fn convert_file<R: Reader>(
    alloc: Global,
    dwarf: &Dwarf<R>,
    version: u16,
    is_big: bool,
    directories: &[DirectoryId],
    entry: FileEntry<R>,
    program: &mut LineProgram,
    ids: &mut Vec<FileId>,
    line_strings: &mut LineStringTable,
    strings: &mut StringTable,
) -> ConvertResult<()>
    requires { IsTarget version directories.now program.old }
    ensures ok { OnOk result (file_image (texts_of R.reading dwarf.now) is_big (nat_le 5 version)
        directories.now (entry_of R.reading entry)
        (converting program.old ids.old.items strings.old line_strings.old)
        ≡ Ok (converting program.new ids.new.items strings.new line_strings.new)) }
    ensures target { OnOk result (IsTarget version directories.now program.new) }
    ensures err { IfErr result (λ e. (e ≡ NoMemory) ⊎ file_image (texts_of R.reading dwarf.now)
        is_big (nat_le 5 version) directories.now (entry_of R.reading entry)
        (converting program.old ids.old.items strings.old line_strings.old) ≡ Err e) }
{
    let added = add_file(
        alloc,
        dwarf,
        version,
        is_big,
        directories,
        &entry,
        program,
        ids,
        line_strings,
        strings,
    );
    drop(entry);
    added
}

/// Adds a file to the program by what was read of it, and its id to those of the files before it.
fn add_file<R: Reader>(
    alloc: Global,
    dwarf: &Dwarf<R>,
    version: u16,
    is_big: bool,
    directories: &[DirectoryId],
    entry: &FileEntry<R>,
    program: &mut LineProgram,
    ids: &mut Vec<FileId>,
    line_strings: &mut LineStringTable,
    strings: &mut StringTable,
) -> ConvertResult<()>
    requires { IsTarget version directories.now program.old }
    ensures ok { OnOk result (file_image (texts_of R.reading dwarf.now) is_big (nat_le 5 version)
        directories.now (entry_of R.reading entry.now)
        (converting program.old ids.old.items strings.old line_strings.old)
        ≡ Ok (converting program.new ids.new.items strings.new line_strings.new)) }
    ensures target { OnOk result (IsTarget version directories.now program.new) }
    ensures err { IfErr result (λ e. (e ≡ NoMemory) ⊎ file_image (texts_of R.reading dwarf.now)
        is_big (nat_le 5 version) directories.now (entry_of R.reading entry.now)
        (converting program.old ids.old.items strings.old line_strings.old) ≡ Err e) }
{
    let name = convert_listed(
        alloc,
        dwarf,
        version,
        &entry.path_name,
        line_strings,
        strings,
    )?;
    let number = convert_number(&entry.directory_index)?;
    let directory = directory_among(directories, number)?;
    let info = convert_info(alloc, dwarf, version, is_big, entry, line_strings, strings)?;
    match program.add_file(name, directory, Some(info)) {
        Ok(id) => {
            ids.push(id)?;
            Ok(())
        }
        Err(_) => Err(ConvertError::NoMemory),
    }
}

/// The directory of a number.
fn directory_among(directories: &[DirectoryId], number: u64) -> ConvertResult<DirectoryId>
    ensures { result ≡ directory_among directories.now number }
{
    match directories.get(number as usize) {
        Some(directory) => Ok(*directory),
        None => Err(ConvertError::InvalidDirectoryIndex),
    }
}

/// What is known of a file besides its name and its directory. Checksums and texts came with
/// version 5.
fn convert_info<R: Reader>(
    alloc: Global,
    dwarf: &Dwarf<R>,
    version: u16,
    is_big: bool,
    entry: &FileEntry<R>,
    line_strings: &mut LineStringTable,
    strings: &mut StringTable,
) -> ConvertResult<FileInfo>
    ensures ok { IfOk result (λ i. info_image (texts_of R.reading dwarf.now) is_big
        (nat_le 5 version) (tables strings.old line_strings.old) (entry_of R.reading entry.now)
        ≡ Ok (i, tables strings.new line_strings.new)) }
    ensures text { IfOk result (λ i. IsInfo (Some i)) }
    ensures err { IfErr result (λ e. (e ≡ NoMemory) ⊎ info_image (texts_of R.reading dwarf.now)
        is_big (nat_le 5 version) (tables strings.old line_strings.old)
        (entry_of R.reading entry.now) ≡ Err e) }
{
    let timestamp = convert_number(&entry.timestamp)?;
    let size = convert_number(&entry.size)?;
    if version < 5 {
        return Ok(FileInfo {
            timestamp,
            size,
            md5: None,
            source: None,
        });
    }
    let md5 = convert_checksum(&entry.md5, is_big)?;
    let source = convert_source(alloc, dwarf, &entry.source, line_strings, strings)?;
    Ok(FileInfo {
        timestamp,
        size,
        md5,
        source,
    })
}

/// The text of a file, where there is one.
fn convert_source<R: Reader>(
    alloc: Global,
    dwarf: &Dwarf<R>,
    source: &Option<AttributeValue<R>>,
    line_strings: &mut LineStringTable,
    strings: &mut StringTable,
) -> ConvertResult<Option<LineString>>
    ensures ok { IfOk result (λ s. source_image true (texts_of R.reading dwarf.now)
        (tables strings.old line_strings.old) (option_of (value_of R.reading) source.now)
        ≡ Ok (s, tables strings.new line_strings.new)) }
    ensures text { IfOk result (λ s. IfSome s IsName) }
    ensures err { IfErr result (λ e. (e ≡ NoMemory) ⊎ source_image true
        (texts_of R.reading dwarf.now) (tables strings.old line_strings.old)
        (option_of (value_of R.reading) source.now) ≡ Err e) }
{
    match source {
        None => Ok(None),
        Some(_) => {
            let text = convert_name(alloc, dwarf, 5, source, line_strings, strings)?;
            Ok(Some(text))
        }
    }
}
