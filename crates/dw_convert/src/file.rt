//! Files of a line program, by the numbers that were read (DWARF 5, 6.2.4).

ghost use Rattle.std.specs.Prelude.{◌≡◌, pos, ◌≤ℤ◌};
ghost use Rattle.std.specs.Int.RustNames.{unsigned_abs};
ghost use Rattle.dw_convert.specs.Files.{file_image, declared_image, is_file_name, file_constant, renumbered};

use dw_base::constants::{DW_AT_call_file, DW_AT_decl_file};
use dw_base::{DwAt, FileId};
use dw_sources::{ConvertError, ConvertResult};

/// What the number of a file becomes in a unit of a version, where the files of the unit's line
/// program have these ids by the numbers that were read. Up to version 4 the number 0 stands for no
/// file (DWARF 4, 6.2.4); another that isn't in the list is `InvalidFileIndex`.
///
/// ```
/// let file = convert_file_index(5, &files, 0)?; // the unit's own file
/// ```
pub fn convert_file_index(
    version: u16,
    files: &[FileId],
    index: u64,
) -> ConvertResult<Option<FileId>>
    ensures { result ≡ file_image version files.now index }
{
    if version <= 4 && index == 0 {
        return Ok(None);
    }
    match files.get(index as usize) {
        Some(file) => Ok(Some(*file)),
        None => Err(ConvertError::InvalidFileIndex),
    }
}

/// What a number of a declaration becomes under a name: that of a file keeps to its file.
pub(crate) fn declared_image(
    version: u16,
    files: &[FileId],
    name: DwAt,
    number: i64,
) -> ConvertResult<i64>
    ensures { result ≡ declared_image version files.now name.0 number }
{
    if number < 0 || !is_file_name(name) {
        return Ok(number);
    }
    file_constant(version, files, number)
}

/// What the number of a file in a declaration becomes; one of no file stays.
fn file_constant(version: u16, files: &[FileId], number: i64) -> ConvertResult<i64>
    requires { pos 0 ≤ℤ number }
    ensures { result ≡ file_constant version files.now (unsigned_abs number) }
{
    if version <= 4 && number == 0 {
        return Ok(number);
    }
    match files.get(number as usize) {
        Some(file) => renumbered(version, *file),
        None => Ok(number),
    }
}

/// The number of a file, as a constant.
fn renumbered(version: u16, file: FileId) -> ConvertResult<i64>
    ensures { result ≡ renumbered version file }
{
    let index = file.index();
    if index >= 0x7fff_ffff_ffff_ffff {
        return Err(ConvertError::IntegerOverflow);
    }
    Ok(file.raw(version) as i64)
}

/// Whether the numbers under a name are those of files.
fn is_file_name(name: DwAt) -> bool
    ensures { result ≡ is_file_name name.0 }
{
    matches!(name, DW_AT_decl_file | DW_AT_call_file)
}
