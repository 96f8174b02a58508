//! The header of a program.

ghost use Rattle.std.specs.Prelude.{◌≡◌, ◌<◌, ◌≤◌, ◌+◌, ◌≤ℤ◌, pos, nat_le, drop, length, is_some, ◌∷◌, [], OnOk, IfOk, IfErr, IsTrue, IsFalse};
ghost use Rattle.dw_base.specs.Leb128.{uleb};
ghost use Rattle.dw_base.specs.Numbers.{word_of};
ghost use Rattle.dw_base.specs.declared.error.Error.{Error as AnError};
ghost use Rattle.dw_writer.specs.SignedNumbers.{twos_complement};
ghost use Rattle.dw_writer.specs.Texts.{zeros};
ghost use Rattle.dw_writer.specs.Meaning.{IsTidy, IsSameWriter, Adds, Appends};
ghost use Rattle.dw_writer.specs.Causes.{BytesRefused};
ghost use Rattle.dw_line.specs.Headers.{version_bytes, flag_byte, parameters_bytes, content_bytes, directory_formats, source_content, part_count, file_formats, directory_form, file_form, old_tables_size, old_tables_text, new_tables_size, new_tables_text, tables_size, tables_text, entries_fail, tables_fail, header_size, header_text, header_fails};
ghost use Rattle.dw_line.specs.Files.{old_columns, columns_of};
ghost use Rattle.dw_line.specs.Parts.{KeepsFront, Refused};
ghost use Rattle.dw_line.specs.RowTexts.{where_needed};

use crate::file::{Columns, FileEntry, write_files};
use crate::line_string::LineString;
use crate::name::write_names;
use dw_base::constants::{
    DW_FORM_data16, DW_FORM_string, DW_FORM_udata, DW_LNCT_LLVM_source, DW_LNCT_MD5,
    DW_LNCT_directory_index, DW_LNCT_path, DW_LNCT_size, DW_LNCT_timestamp,
};
use dw_base::{Encoding, Format, LineEncoding, Result};
use dw_strings::{LineStringTable, StringTable};
use dw_writer::Writer;

/// The number of the first special opcode: the standard ones are below it.
const OPCODE_BASE: u8 = 13;

/// Adds the version, and in version 5 the widths of an address and of a segment's number.
fn write_version<W: Writer>(encoding: Encoding, w: &mut W) -> Result<()>
    ensures ok { OnOk result
        (Adds (W.meaning w.old) (W.meaning w.new) (version_bytes
        (W.meaning w.old).is_big encoding)) }
    ensures err { IfErr result (BytesRefused (W.meaning w.old) (W.meaning w.new)) }
    ensures same { IsSameWriter (W.meaning w.old) (W.meaning w.new) }
    ensures front { KeepsFront (W.meaning w.old) (W.meaning w.new) }
{
    w.write_u16(encoding.version)?;
    write_bytes(encoding.version >= 5, &[encoding.address_size, 0], w)
}

/// Adds bytes, if they are needed.
fn write_bytes<W: Writer>(is_needed: bool, bytes: &[u8], w: &mut W) -> Result<()>
    ensures ok { OnOk result
        (Adds (W.meaning w.old) (W.meaning w.new) (where_needed is_needed bytes.now)) }
    ensures err { IfErr result (BytesRefused (W.meaning w.old) (W.meaning w.new)) }
    ensures same { IsSameWriter (W.meaning w.old) (W.meaning w.new) }
    ensures front { KeepsFront (W.meaning w.old) (W.meaning w.new) }
{
    if is_needed {
        return w.write(bytes);
    }
    Ok(())
}

/// The byte of a flag.
fn flag(is_set: bool) -> u8
    ensures { result ≡ flag_byte is_set }
{
    if is_set { 1 } else { 0 }
}

/// The byte of a line base, in two's complement.
fn line_base_byte(line_base: i8) -> u8
    requires { line_base ≤ℤ pos 0 }
    ensures { result ≡ twos_complement 1 line_base }
{
    let distance = line_base.unsigned_abs() as u16;
    if distance == 0 {
        return 0;
    }
    (256 - distance) as u8
}

/// Adds the parameters of the machine.
fn write_parameters<W: Writer>(version: u16, line: LineEncoding, w: &mut W) -> Result<()>
    requires { line.line_base ≤ℤ pos 0 }
    ensures ok { OnOk result
        (Adds (W.meaning w.old) (W.meaning w.new) (parameters_bytes version line)) }
    ensures err { IfErr result (BytesRefused (W.meaning w.old) (W.meaning w.new)) }
    ensures same { IsSameWriter (W.meaning w.old) (W.meaning w.new) }
    ensures front { KeepsFront (W.meaning w.old) (W.meaning w.new) }
{
    let statement = flag(line.default_is_stmt);
    let base = line_base_byte(line.line_base);
    w.write(&[line.minimum_instruction_length])?;
    write_bytes(version >= 4, &[line.maximum_operations_per_instruction], w)?;
    w.write(&[
        statement,
        base,
        line.line_range,
        OPCODE_BASE,
        0,
        1,
        1,
        1,
        1,
        0,
        0,
        0,
        1,
        0,
        0,
        1,
    ])
}

/// Adds a part of an entry of version 5 with its form, if it is needed.
fn write_content<W: Writer>(is_needed: bool, content: u16, form: u16, w: &mut W) -> Result<()>
    ensures ok { OnOk result
        (Adds (W.meaning w.old) (W.meaning w.new)
        (where_needed is_needed (content_bytes content form))) }
    ensures err { IfErr result (BytesRefused (W.meaning w.old) (W.meaning w.new)) }
    ensures same { IsSameWriter (W.meaning w.old) (W.meaning w.new) }
    ensures front { KeepsFront (W.meaning w.old) (W.meaning w.new) }
{
    if is_needed {
        w.write_uleb128(content as u64)?;
        return w.write_uleb128(form as u64);
    }
    Ok(())
}

/// Adds what directories are and how many there are.
fn write_directory_formats<W: Writer>(form: u16, count: usize, w: &mut W) -> Result<()>
    ensures ok { OnOk result
        (Adds (W.meaning w.old) (W.meaning w.new) (directory_formats form count)) }
    ensures err { IfErr result (BytesRefused (W.meaning w.old) (W.meaning w.new)) }
    ensures same { IsSameWriter (W.meaning w.old) (W.meaning w.new) }
    ensures front { KeepsFront (W.meaning w.old) (W.meaning w.new) }
{
    w.write(&[1])?;
    write_content(true, DW_LNCT_path.0, form, w)?;
    w.write_uleb128(count as u64)
}

/// How many parts files have.
fn part_count_of(columns: Columns) -> u8
    ensures { result ≡ part_count columns }
{
    2 + flag(columns.timestamp)
        + flag(columns.size)
        + flag(columns.md5)
        + flag(columns.source.is_some())
}

/// Adds the form of texts, if there is one.
fn write_source_content<W: Writer>(source: Option<u16>, w: &mut W) -> Result<()>
    ensures ok { OnOk result
        (Adds (W.meaning w.old) (W.meaning w.new) (source_content source)) }
    ensures err { IfErr result (BytesRefused (W.meaning w.old) (W.meaning w.new)) }
    ensures same { IsSameWriter (W.meaning w.old) (W.meaning w.new) }
    ensures front { KeepsFront (W.meaning w.old) (W.meaning w.new) }
{
    match source {
        Some(form) => write_content(true, DW_LNCT_LLVM_source.0, form, w),
        None => Ok(()),
    }
}

/// Adds what files are and how many there are.
fn write_file_formats<W: Writer>(columns: Columns, form: u16, count: usize, w: &mut W) -> Result<()>
    ensures ok { OnOk result
        (Adds (W.meaning w.old) (W.meaning w.new) (file_formats columns form count)) }
    ensures err { IfErr result (BytesRefused (W.meaning w.old) (W.meaning w.new)) }
    ensures same { IsSameWriter (W.meaning w.old) (W.meaning w.new) }
    ensures front { KeepsFront (W.meaning w.old) (W.meaning w.new) }
{
    let parts = part_count_of(columns);
    w.write(&[parts])?;
    write_content(true, DW_LNCT_path.0, form, w)?;
    write_content(true, DW_LNCT_directory_index.0, DW_FORM_udata.0, w)?;
    write_content(columns.timestamp, DW_LNCT_timestamp.0, DW_FORM_udata.0, w)?;
    write_content(columns.size, DW_LNCT_size.0, DW_FORM_udata.0, w)?;
    write_content(columns.md5, DW_LNCT_MD5.0, DW_FORM_data16.0, w)?;
    write_source_content(columns.source, w)?;
    w.write_uleb128(count as u64)
}

/// The form of directories: that of the first one.
pub(crate) fn directory_form_of(directories: &[LineString]) -> u16
    ensures { result ≡ directory_form directories.now }
{
    match directories.first() {
        Some(directory) => directory.form().0,
        None => DW_FORM_string.0,
    }
}

/// The form of files' names: that of the first one, or a string's.
pub(crate) fn file_form_of(files: &[FileEntry]) -> u16
    ensures { result ≡ file_form files.now }
{
    match files.first() {
        Some(file) => file.name.form().0,
        None => DW_FORM_string.0,
    }
}

/// All directories but the first, which old versions leave to the unit.
pub(crate) fn listed_directories(directories: &[LineString]) -> &[LineString]
    requires { 0 < length directories.now }
    ensures { result.now ≡ drop 1 directories.now }
{
    &directories[1..]
}

/// Adds the directories and files of a program of version 2 to 4.
fn write_old_tables<W: Writer>(
    format: Format,
    strings: &StringTable,
    line_strings: &LineStringTable,
    directories: &[LineString],
    files: &[FileEntry],
    w: &mut W,
) -> Result<()>
    requires { 0 < length directories.now }
    ensures ok { OnOk result
        (Appends (W.meaning w.old) (W.meaning w.new)
        (old_tables_size (word_of format) directories.now files.now)
        (old_tables_text (word_of format) strings.now line_strings.now directories.now files.now)) }
    ensures sound { OnOk result
        ((e : AnError) → IsFalse (entries_fail (word_of format) strings.now line_strings.now
        (W.meaning w.old).is_plain
        (drop 1 directories.now) old_columns files.now e)) }
    ensures err { IfErr result
        (Refused (W.meaning w.old) (W.meaning w.new)
        (entries_fail (word_of format) strings.now line_strings.now (W.meaning w.old).is_plain
        (drop 1 directories.now) old_columns files.now)) }
    ensures same { IsSameWriter (W.meaning w.old) (W.meaning w.new) }
    ensures front { KeepsFront (W.meaning w.old) (W.meaning w.new) }
{
    let listed = listed_directories(directories);
    write_names(format, strings, line_strings, listed, w)?;
    w.write_u8(0)?;
    let columns = Columns::old();
    write_files(format, strings, line_strings, columns, files, w)?;
    w.write_u8(0)
}

/// Adds the directories and files of a program of version 5.
fn write_new_tables<W: Writer>(
    format: Format,
    strings: &StringTable,
    line_strings: &LineStringTable,
    directories: &[LineString],
    files: &[FileEntry],
    w: &mut W,
) -> Result<()>
    ensures ok { OnOk result
        (Appends (W.meaning w.old) (W.meaning w.new)
        (new_tables_size (word_of format) directories.now files.now)
        (new_tables_text (word_of format) strings.now line_strings.now directories.now files.now)) }
    ensures sound { OnOk result
        ((e : AnError) → IsFalse (entries_fail (word_of format) strings.now line_strings.now
        (W.meaning w.old).is_plain
        directories.now (columns_of files.now) files.now e)) }
    ensures err { IfErr result
        (Refused (W.meaning w.old) (W.meaning w.new)
        (entries_fail (word_of format) strings.now line_strings.now (W.meaning w.old).is_plain
        directories.now (columns_of files.now) files.now)) }
    ensures same { IsSameWriter (W.meaning w.old) (W.meaning w.new) }
    ensures front { KeepsFront (W.meaning w.old) (W.meaning w.new) }
{
    let columns = Columns::of(files);
    let directory_form = directory_form_of(directories);
    let file_form = file_form_of(files);
    write_directory_formats(directory_form, directories.len(), w)?;
    write_names(format, strings, line_strings, directories, w)?;
    write_file_formats(columns, file_form, files.len(), w)?;
    write_files(format, strings, line_strings, columns, files, w)
}

/// Adds the directories and files of a program.
fn write_tables<W: Writer>(
    encoding: Encoding,
    strings: &StringTable,
    line_strings: &LineStringTable,
    directories: &[LineString],
    files: &[FileEntry],
    w: &mut W,
) -> Result<()>
    requires { 0 < length directories.now }
    ensures ok { OnOk result
        (Appends (W.meaning w.old) (W.meaning w.new)
        (tables_size (word_of encoding.format)
        (nat_le encoding.version 4) directories.now files.now)
        (tables_text (word_of encoding.format) strings.now line_strings.now
        (nat_le encoding.version 4) directories.now files.now)) }
    ensures sound { OnOk result
        ((e : AnError) → IsFalse (tables_fail
        (word_of encoding.format) strings.now line_strings.now (W.meaning w.old).is_plain
        (nat_le encoding.version 4) directories.now files.now e)) }
    ensures err { IfErr result
        (Refused (W.meaning w.old) (W.meaning w.new)
        (tables_fail (word_of encoding.format) strings.now line_strings.now
        (W.meaning w.old).is_plain
        (nat_le encoding.version 4) directories.now files.now)) }
    ensures same { IsSameWriter (W.meaning w.old) (W.meaning w.new) }
    ensures front { KeepsFront (W.meaning w.old) (W.meaning w.new) }
{
    if encoding.version <= 4 {
        write_old_tables(
            encoding.format,
            strings,
            line_strings,
            directories,
            files,
            w,
        )
    } else {
        write_new_tables(
            encoding.format,
            strings,
            line_strings,
            directories,
            files,
            w,
        )
    }
}

/// Adds a word that isn't known yet, as zeros. Returns its place.
fn write_open_word<W: Writer>(format: Format, w: &mut W) -> Result<usize>
    ensures ok { OnOk result
        (Adds (W.meaning w.old) (W.meaning w.new) (zeros (word_of format))) }
    ensures place { IfOk result (λ p. p ≡ (W.meaning w.old).size) }
    ensures err { IfErr result (BytesRefused (W.meaning w.old) (W.meaning w.new)) }
    ensures same { IsSameWriter (W.meaning w.old) (W.meaning w.new) }
    ensures front { KeepsFront (W.meaning w.old) (W.meaning w.new) }
{
    let place = w.len();
    match format {
        Format::Dwarf32 => w.write(&[0; 4])?,
        Format::Dwarf64 => w.write(&[0; 8])?,
    }
    Ok(place)
}

/// Adds a program's header, without the program's length. The header's own length is put in last;
/// one that is too long for its word makes the program too long, too.
pub(crate) fn write_header<W: Writer>(
    encoding: Encoding,
    line: LineEncoding,
    strings: &StringTable,
    line_strings: &LineStringTable,
    directories: &[LineString],
    files: &[FileEntry],
    w: &mut W,
) -> Result<()>
    requires base { line.line_base ≤ℤ pos 0 }
    requires rooted { 0 < length directories.now }
    ensures ok { OnOk result
        (Appends (W.meaning w.old) (W.meaning w.new)
        (header_size encoding line directories.now files.now)
        (header_text strings.now line_strings.now encoding line directories.now files.now)) }
    ensures sound { OnOk result
        ((e : AnError) → IsFalse (header_fails strings.now line_strings.now
        (W.meaning w.old).is_plain encoding line directories.now files.now e)) }
    ensures err { IfErr result
        (Refused (W.meaning w.old) (W.meaning w.new)
        (header_fails strings.now line_strings.now
        (W.meaning w.old).is_plain encoding line directories.now files.now)) }
    ensures same { IsSameWriter (W.meaning w.old) (W.meaning w.new) }
    ensures front { IsTidy (W.meaning w.old) →
        KeepsFront (W.meaning w.old) (W.meaning w.new) }
{
    write_version(encoding, w)?;
    let place = write_open_word(encoding.format, w)?;
    let start = w.len();
    write_parameters(encoding.version, line, w)?;
    write_tables(encoding, strings, line_strings, directories, files, w)?;
    let length = (w.len() - start) as u64;
    w.write_initial_length_at(place, length, encoding.format)
}
