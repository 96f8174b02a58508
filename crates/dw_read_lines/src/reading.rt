//! Reads the headers of line programs (DWARF 5, 6.2.4).

ghost use Rattle.std.specs.Prelude.{◌≡◌, ◌≤◌, IfOk, IfErr, Ok, Err};
ghost use Rattle.dw_base.specs.Numbers.{is_width};
ghost use Rattle.dw_base.specs.LineReader.{is_line_version};
ghost use Rattle.dw_read.specs.Reading.{left};
ghost use Rattle.dw_read.specs.Took.{Took};
ghost use Rattle.dw_read_lines.specs.LineHeaders.{address_size_read, body_read, lines_read};
ghost use Rattle.dw_read_lines.specs.LineHeaderViews.{lines_of, IsInOrder};

use crate::encoding::ProgramEncoding;
use crate::header::LineProgramHeader;
use crate::parameters::read_parameters;
use dw_base::{DebugLineOffset, Encoding, Format};
use dw_read::{ReadError, ReadResult, Reader};

/// Reads the header of the program at the reader's place. Up to version 4 a program doesn't tell
/// how wide addresses are, so that the size is given.
pub(crate) fn read_header<R: Reader>(
    input: &mut R,
    offset: DebugLineOffset,
    address_size: u8,
) -> ReadResult<LineProgramHeader<R>>
    ensures ok { IfOk result (λ h. lines_read (R.reading input.old).is_big address_size
        (left (R.reading input.old)) ≡ Ok (lines_of R.reading h)) }
    ensures order { IfOk result (IsInOrder R.reading (R.reading input.old).is_big) }
    ensures offset { IfOk result (λ h. h.offset ≡ offset) }
    ensures err { IfErr result (λ e. lines_read (R.reading input.old).is_big address_size
        (left (R.reading input.old)) ≡ Err e) }
{
    let (length, format) = input.read_initial_length()?;
    let mut body = input.split(length)?;
    read_body(&mut body, offset, format, address_size)
}

/// Reads what follows the length of a program.
fn read_body<R: Reader>(
    input: &mut R,
    offset: DebugLineOffset,
    format: Format,
    address_size: u8,
) -> ReadResult<LineProgramHeader<R>>
    ensures ok { IfOk result (λ h. body_read (R.reading input.old).is_big format address_size
        (left (R.reading input.old)) ≡ Ok (lines_of R.reading h)) }
    ensures order { IfOk result (IsInOrder R.reading (R.reading input.old).is_big) }
    ensures offset { IfOk result (λ h. h.offset ≡ offset) }
    ensures err { IfErr result (λ e. body_read (R.reading input.old).is_big format address_size
        (left (R.reading input.old)) ≡ Err e) }
{
    let version = input.read_u16()?;
    if !is_line_version(version) {
        return Err(ReadError::UnknownVersion(version));
    }
    let address_size = read_address_size(input, version, address_size)?;
    let length = input.read_word(format)?;
    let mut tables = input.split(length)?;
    let parameters = read_parameters(&mut tables, version)?;
    Ok(LineProgramHeader {
        offset,
        encoding: ProgramEncoding {
            encoding: Encoding {
                address_size,
                format,
                version,
            },
        },
        parameters,
        tables,
        program: input.duplicate(),
    })
}

/// Whether line programs have a version.
fn is_line_version(version: u16) -> bool
    ensures { result ≡ is_line_version version }
{
    version >= 2 && version <= 5
}

/// Reads how wide addresses are, which a header tells from version 5 on.
fn read_address_size<R: Reader>(input: &mut R, version: u16, size: u8) -> ReadResult<u8>
    ensures ok { IfOk result (Took _
        (address_size_read (R.reading input.old).is_big version size)
        (R.reading input.old) (R.reading input.new)) }
    ensures narrow { IfOk result (λ n. 5 ≤ version → n ≤ 8) }
    ensures err { IfErr result (λ e. address_size_read (R.reading input.old).is_big version size
        (left (R.reading input.old)) ≡ Err e) }
{
    if version < 5 {
        return Ok(size);
    }
    let address_size = input.read_u8()?;
    let segment_size = input.read_u8()?;
    if !is_address_size(address_size) {
        return Err(ReadError::UnsupportedAddressSize(address_size));
    }
    if segment_size != 0 {
        return Err(ReadError::UnsupportedSegmentSize(segment_size));
    }
    Ok(address_size)
}

/// Whether addresses of so many bytes are there: 1, 2, 4 or 8.
fn is_address_size(size: u8) -> bool
    ensures { result ≡ is_width size }
{
    matches!(size, 1 | 2 | 4 | 8)
}
