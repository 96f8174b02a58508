//! Rows of sequences (DWARF 5, 6.2.2).

ghost use Rattle.std.specs.Prelude.{◌≡◌, ◌≤◌, ◌<◌, ◌%◌, ℕ, IfOk};
ghost use Rattle.dw_convert_lines.specs.RegisterViews.{registers_of};
ghost use Rattle.dw_convert_lines.specs.RowImages.{file_among, offset_image, row_image, AreFiles};

use crate::registers::Registers;
use dw_base::FileId;
use dw_line::LineRow;
use dw_sources::{ConvertError, ConvertResult};

/// The row that the registers become: of a program of a version whose files have these ids, in a
/// sequence that begins at a base, after a row at an offset.
pub(crate) fn convert_row(
    version: u16,
    files: &[FileId],
    minimum_length: u8,
    base: u64,
    before: u64,
    registers: Registers,
) -> ConvertResult<LineRow>
    ensures is { result ≡ row_image version files.now minimum_length base before
        (registers_of registers) }
    ensures order { IfOk result (λ r. before ≤ r.address_offset) }
    ensures multiple { IfOk result (λ r. r.address_offset % minimum_length ≡ 0) }
    ensures file { IfOk result (λ r. (count : ℕ) → AreFiles version files.now count
        → r.file.0 < count) }
{
    let file = file_among(version, files, registers.file)?;
    let address_offset = convert_offset(minimum_length, base, before, registers.address)?;
    Ok(LineRow {
        address_offset,
        file,
        line: registers.line,
        column: registers.column,
        discriminator: registers.discriminator,
        is_statement: registers.is_statement,
        basic_block: registers.basic_block,
        prologue_end: registers.prologue_end,
        epilogue_begin: registers.epilogue_begin,
        isa: registers.isa,
    })
}

/// The offset of an address from a base, after another offset. Offsets don't fall, and are
/// multiples of the minimum length.
pub(crate) fn convert_offset(
    minimum_length: u8,
    base: u64,
    before: u64,
    address: u64,
) -> ConvertResult<u64>
    ensures is { result ≡ offset_image minimum_length base before address }
    ensures order { IfOk result (λ o. before ≤ o) }
    ensures multiple { IfOk result (λ o. o % minimum_length ≡ 0) }
{
    let Some(offset) = address.checked_sub(base) else {
        return Err(ConvertError::UnsupportedLineProgram);
    };
    if offset < before || !offset.is_multiple_of(u64::from(minimum_length)) {
        return Err(ConvertError::UnsupportedLineProgram);
    }
    Ok(offset)
}

/// The file of a number. Up to version 4 the number 0 stands for none.
fn file_among(version: u16, files: &[FileId], number: u64) -> ConvertResult<FileId>
    ensures { result ≡ file_among version files.now number }
{
    if version <= 4 && number == 0 {
        return Err(ConvertError::InvalidFileIndex);
    }
    match files.get(number as usize) {
        Some(file) => Ok(*file),
        None => Err(ConvertError::InvalidFileIndex),
    }
}
