//! Directories and files of line programs (DWARF 5, 6.2.4 and 6.2.4.1; DWARF 4, 6.2.4).

ghost use Rattle.std.specs.Prelude.{◌≡◌, IfOk, IfErr, Err, None};
ghost use Rattle.dw_read.specs.Reading.{left};
ghost use Rattle.dw_read.specs.Took.{Took, option_of};
ghost use Rattle.dw_read.specs.Values.{value_of};
ghost use Rattle.dw_read_lines.specs.LineEntries.{untold, told};
ghost use Rattle.dw_read_lines.specs.LineEntries.{old_directory_read, old_file_read};
ghost use Rattle.dw_read_lines.specs.LineEntryViews.{entry_of};

use dw_base::DwLnct;
use dw_base::constants::{
    DW_LNCT_LLVM_source, DW_LNCT_MD5, DW_LNCT_directory_index, DW_LNCT_path, DW_LNCT_size,
    DW_LNCT_timestamp,
};
use dw_read::{AttributeValue, ReadResult, Reader};

/// What a line program tells of a directory or a file. Up to version 4 a directory has a name, and
/// a file a name, a directory, a time and a size; from version 5 on the program says what it tells.
///
/// ```
/// let mut directories = program.header().include_directories()?;
/// if let Some(directory) = directories.next()? {
///     let name = directory.path_name;
/// }
/// ```
#[derive(Drop)]
pub struct FileEntry<R: Reader> {
    /// The name: a string, or a place in `.debug_line_str` or `.debug_str`.
    pub path_name: Option<AttributeValue<R>>,
    /// The number of the directory.
    pub directory_index: Option<AttributeValue<R>>,
    /// When the file was changed last; the producer says in what units.
    pub timestamp: Option<AttributeValue<R>>,
    /// The bytes of the file.
    pub size: Option<AttributeValue<R>>,
    /// The checksum of the file: a number of sixteen bytes in the section's byte order.
    pub md5: Option<AttributeValue<R>>,
    /// The text of the file.
    pub source: Option<AttributeValue<R>>,
}

/// An entry of which nothing is told yet.
pub(crate) fn untold<R: Reader>() -> FileEntry<R>
    ensures { entry_of R.reading result ≡ untold }
{
    FileEntry {
        path_name: None,
        directory_index: None,
        timestamp: None,
        size: None,
        md5: None,
        source: None,
    }
}

/// An entry with a part more.
pub(crate) fn told<R: Reader>(
    content: u64,
    value: AttributeValue<R>,
    entry: FileEntry<R>,
) -> FileEntry<R>
    ensures { entry_of R.reading result
        ≡ told content (value_of R.reading value) (entry_of R.reading entry) }
{
    let mut entry = entry;
    if content == DW_LNCT_path.0 as u64 {
        entry.path_name = Some(value);
    } else if content == DW_LNCT_directory_index.0 as u64 {
        entry.directory_index = Some(value);
    } else if content == DW_LNCT_timestamp.0 as u64 {
        entry.timestamp = Some(value);
    } else if content == DW_LNCT_size.0 as u64 {
        entry.size = Some(value);
    } else if content == DW_LNCT_MD5.0 as u64 {
        entry.md5 = Some(value);
    } else if content == DW_LNCT_LLVM_source.0 as u64 {
        entry.source = Some(value);
    }
    entry
}

/// Reads a directory up to version 4. None is the empty name that closes them.
pub(crate) fn read_old_directory<R: Reader>(input: &mut R) -> ReadResult<Option<FileEntry<R>>>
    ensures ok { IfOk result (λ o. Took _ old_directory_read
        (R.reading input.old) (R.reading input.new) (option_of (entry_of R.reading) o)) }
    ensures err { IfErr result (λ e. old_directory_read (left (R.reading input.old)) ≡ Err e) }
{
    let name = input.read_null_terminated()?;
    if name.len() == 0 {
        return Ok(None);
    }
    Ok(Some(FileEntry {
        path_name: Some(AttributeValue::String(name)),
        directory_index: None,
        timestamp: None,
        size: None,
        md5: None,
        source: None,
    }))
}

/// Reads a file up to version 4. None is the empty name that closes them.
pub(crate) fn read_old_file<R: Reader>(input: &mut R) -> ReadResult<Option<FileEntry<R>>>
    ensures ok { IfOk result (λ o. Took _ old_file_read
        (R.reading input.old) (R.reading input.new) (option_of (entry_of R.reading) o)) }
    ensures err { IfErr result (λ e. old_file_read (left (R.reading input.old)) ≡ Err e) }
{
    let name = input.read_null_terminated()?;
    if name.len() == 0 {
        return Ok(None);
    }
    let directory = input.read_uleb128()?;
    let timestamp = input.read_uleb128()?;
    let size = input.read_uleb128()?;
    Ok(Some(FileEntry {
        path_name: Some(AttributeValue::String(name)),
        directory_index: Some(AttributeValue::Udata(directory)),
        timestamp: Some(AttributeValue::Udata(timestamp)),
        size: Some(AttributeValue::Udata(size)),
        md5: None,
        source: None,
    }))
}
