//! Files in a program's header.

ghost use Rattle.std.specs.Prelude.{◌≡◌, is_some, unwrap_or, OnOk, IfErr, IsFalse};
ghost use Rattle.std.specs.List.{list_any};
ghost use Rattle.dw_base.specs.Numbers.{word_of};
ghost use Rattle.dw_base.specs.declared.error.Error.{Error as AnError};
ghost use Rattle.dw_writer.specs.Texts.{zeros};
ghost use Rattle.dw_writer.specs.Meaning.{IsSameWriter, Adds, Appends};
ghost use Rattle.dw_writer.specs.Causes.{BytesRefused};
ghost use Rattle.dw_line.specs.FileEqual.{file_eq, file_fed, file_per, file_equiv, file-fed};
ghost use Rattle.dw_line.specs.Files.{columns_of, first_source, old_columns, file_numbers, source_of, source_size, source_text, source_fails, file_size, file_text, file_fails};
ghost use Rattle.dw_base.specs.Leb128.{uleb};
ghost use Rattle.dw_line.specs.Parts.{KeepsFront, sizes, texts, Refused};
ghost use Rattle.dw_line.specs.RowTexts.{where_needed};

use crate::line_string::{FileInfo, LineString};
use crate::name::write_name;
use dw_base::constants::DW_FORM_string;
use dw_base::{DirectoryId, Format, Result};
use dw_strings::{LineStringTable, StringTable};
use dw_writer::Writer;
use std::hash::{Hash, Hasher};

/// A file of a program. Files are the same where their names and directories are.
#[derive(Drop)]
pub(crate) struct FileEntry {
    pub(crate) name: LineString,
    pub(crate) directory: DirectoryId,
    pub(crate) info: FileInfo,
}

impl FileEntry {
    ghost use Rattle.dw_line.specs.Accepted.{is_new_file};
    ghost use Rattle.dw_line.specs.ProgramTexts.{entry_of};
    ghost use Rattle.dw_line.specs.Names.{form_of};

    /// A file of these parts.
    pub(crate) fn new(name: LineString, directory: DirectoryId, info: FileInfo) -> FileEntry
        ensures { result ≡ entry_of name directory info }
    {
        FileEntry {
            name,
            directory,
            info,
        }
    }

    /// The form of the text, taken as an empty string where there is none.
    pub(crate) fn source_form(&self) -> u16
        ensures { result ≡ form_of (source_of self.now) }
    {
        match &self.info.source {
            Some(source) => source.form().0,
            None => DW_FORM_string.0,
        }
    }

    /// Tells that there is a checksum or a text.
    pub(crate) fn is_new(&self) -> bool
        ensures { result ≡ is_new_file self.now }
    {
        self.info.md5.is_some() || self.info.source.is_some()
    }
}

impl PartialEq for FileEntry {
    ghost eq = { file_eq };

    ghost laws = { file_per };

    fn eq(&self, other: &FileEntry) -> bool {
        self.name == other.name && self.directory == other.directory
    }
}

impl Eq for FileEntry {
    ghost laws = { file_equiv };
}

impl Hash for FileEntry {
    ghost hash_input = { file_fed };

    ghost respects_eq = { file-fed };

    fn hash<H: Hasher>(&self, state: &mut H) {
        self.name.hash(state);
        self.directory.0.hash(state);
    }
}

/// Which parts of files are written besides the name and the directory, and the form of texts.
#[derive(Clone, Copy)]
pub(crate) struct Columns {
    pub(crate) timestamp: bool,
    pub(crate) size: bool,
    pub(crate) md5: bool,
    pub(crate) source: Option<u16>,
}

impl Columns {
    /// What files of versions 2 to 4 have.
    pub(crate) fn old() -> Columns
        ensures { result ≡ old_columns }
    {
        Columns {
            timestamp: true,
            size: true,
            md5: false,
            source: None,
        }
    }

    /// What some of these files has.
    pub(crate) fn of(files: &[FileEntry]) -> Columns
        ensures { result ≡ columns_of files.now }
    {
        let mut columns = Columns {
            timestamp: false,
            size: false,
            md5: false,
            source: first_source_form(files),
        };
        for file in files {
            columns.timestamp |= file.info.timestamp != 0;
            columns.size |= file.info.size != 0;
            columns.md5 |= file.info.md5.is_some();
        }
        columns
    }
}

/// The form of the first text of a file.
pub(crate) fn first_source_form(files: &[FileEntry]) -> Option<u16>
    ensures { result ≡ first_source files.now }
{
    for file in files {
        if let Some(source) = &file.info.source {
            return Some(source.form().0);
        }
    }
    None
}

/// Adds what stands between the name and the text of a file.
fn write_file_numbers<W: Writer>(columns: Columns, file: &FileEntry, w: &mut W) -> Result<()>
    ensures ok { OnOk result
        (Adds (W.meaning w.old) (W.meaning w.new) (file_numbers columns file.now)) }
    ensures err { IfErr result (BytesRefused (W.meaning w.old) (W.meaning w.new)) }
    ensures same { IsSameWriter (W.meaning w.old) (W.meaning w.new) }
    ensures front { KeepsFront (W.meaning w.old) (W.meaning w.new) }
{
    w.write_uleb128(file.directory.0 as u64)?;
    write_needed(columns.timestamp, file.info.timestamp, w)?;
    write_needed(columns.size, file.info.size, w)?;
    write_checksum(columns.md5, file.info.md5, w)
}

/// Adds a checksum, if it is needed; one that is missing is zeros.
fn write_checksum<W: Writer>(is_needed: bool, md5: Option<[u8; 16]>, w: &mut W) -> Result<()>
    ensures ok { OnOk result
        (Adds (W.meaning w.old) (W.meaning w.new)
        (where_needed is_needed (unwrap_or md5 (zeros 16)))) }
    ensures err { IfErr result (BytesRefused (W.meaning w.old) (W.meaning w.new)) }
    ensures same { IsSameWriter (W.meaning w.old) (W.meaning w.new) }
    ensures front { KeepsFront (W.meaning w.old) (W.meaning w.new) }
{
    if !is_needed {
        return Ok(());
    }
    match md5 {
        Some(md5) => w.write(&md5),
        None => w.write(&[0; 16]),
    }
}

/// Adds a number, if it is needed.
fn write_needed<W: Writer>(is_needed: bool, number: u64, w: &mut W) -> Result<()>
    ensures ok { OnOk result
        (Adds (W.meaning w.old) (W.meaning w.new) (where_needed is_needed (uleb number))) }
    ensures err { IfErr result (BytesRefused (W.meaning w.old) (W.meaning w.new)) }
    ensures same { IsSameWriter (W.meaning w.old) (W.meaning w.new) }
    ensures front { KeepsFront (W.meaning w.old) (W.meaning w.new) }
{
    if is_needed {
        return w.write_uleb128(number);
    }
    Ok(())
}

/// Adds the text of a file, if texts are written; one that is missing is empty.
fn write_source<W: Writer>(
    format: Format,
    strings: &StringTable,
    line_strings: &LineStringTable,
    is_needed: bool,
    file: &FileEntry,
    w: &mut W,
) -> Result<()>
    ensures ok { OnOk result
        (Appends (W.meaning w.old) (W.meaning w.new)
        (source_size (word_of format) is_needed (source_of file.now))
        (source_text (word_of format) strings.now line_strings.now is_needed
        (source_of file.now))) }
    ensures sound { OnOk result
        ((e : AnError) → IsFalse (source_fails (word_of format) strings.now line_strings.now
        (W.meaning w.old).is_plain is_needed (source_of file.now) e)) }
    ensures err { IfErr result
        (Refused (W.meaning w.old) (W.meaning w.new)
        (source_fails (word_of format) strings.now line_strings.now
        (W.meaning w.old).is_plain is_needed (source_of file.now))) }
    ensures same { IsSameWriter (W.meaning w.old) (W.meaning w.new) }
    ensures front { KeepsFront (W.meaning w.old) (W.meaning w.new) }
{
    if !is_needed {
        return Ok(());
    }
    match &file.info.source {
        Some(source) => write_name(format, strings, line_strings, source, w),
        None => w.write_u8(0),
    }
}

/// Adds a file.
fn write_file<W: Writer>(
    format: Format,
    strings: &StringTable,
    line_strings: &LineStringTable,
    columns: Columns,
    file: &FileEntry,
    w: &mut W,
) -> Result<()>
    ensures ok { OnOk result
        (Appends (W.meaning w.old) (W.meaning w.new) (file_size (word_of format) columns file.now)
        (file_text (word_of format) strings.now line_strings.now columns file.now)) }
    ensures sound { OnOk result
        ((e : AnError) → IsFalse (file_fails (word_of format) strings.now line_strings.now
        (W.meaning w.old).is_plain columns file.now e)) }
    ensures err { IfErr result
        (Refused (W.meaning w.old) (W.meaning w.new)
        (file_fails (word_of format) strings.now line_strings.now
        (W.meaning w.old).is_plain columns file.now)) }
    ensures same { IsSameWriter (W.meaning w.old) (W.meaning w.new) }
    ensures front { KeepsFront (W.meaning w.old) (W.meaning w.new) }
{
    write_name(format, strings, line_strings, &file.name, w)?;
    write_file_numbers(columns, file, w)?;
    write_source(
        format,
        strings,
        line_strings,
        columns.source.is_some(),
        file,
        w,
    )
}

/// Adds files, one after another.
pub(crate) fn write_files<W: Writer>(
    format: Format,
    strings: &StringTable,
    line_strings: &LineStringTable,
    columns: Columns,
    files: &[FileEntry],
    w: &mut W,
) -> Result<()>
    ensures ok { OnOk result
        (Appends (W.meaning w.old) (W.meaning w.new) (sizes (file_size
        (word_of format) columns) files.now)
        (texts (file_text (word_of format) strings.now line_strings.now columns) files.now)) }
    ensures sound { OnOk result
        ((e : AnError) → IsFalse (list_any (λ f. file_fails
        (word_of format) strings.now line_strings.now
        (W.meaning w.old).is_plain columns f e) files.now)) }
    ensures err { IfErr result
        (Refused (W.meaning w.old) (W.meaning w.new)
        (λ e. list_any (λ f. file_fails (word_of format) strings.now line_strings.now
        (W.meaning w.old).is_plain columns f e) files.now)) }
    ensures same { IsSameWriter (W.meaning w.old) (W.meaning w.new) }
    ensures front { KeepsFront (W.meaning w.old) (W.meaning w.new) }
{
    for file in files {
        write_file(format, strings, line_strings, columns, file, w)?;
    }
    Ok(())
}
