//! Unit headers, as they are read (DWARF 5, 7.5.1).

ghost use Rattle.std.specs.Prelude.{◌≡◌, ◌≤◌, ◌&&◌, nat_le, IfOk, IfErr, Ok, Err};
ghost use Rattle.dw_base.specs.Numbers.{is_width, word_of};
ghost use Rattle.dw_base.specs.Headers.{is_unit_type, has_identity, has_type_offset};
ghost use Rattle.dw_read.specs.Reading.{left};
ghost use Rattle.dw_read.specs.Took.{Took};
ghost use Rattle.dw_read.specs.Headers.{fields_read, new_fields_read, new_begin_read, old_fields_read};
ghost use Rattle.dw_read.specs.Headers.{optional_read};
ghost use Rattle.dw_read.specs.Fields.{header_of};

use crate::error::{ReadError, ReadResult};
use crate::fields::Fields;
use crate::reader::{Reader, is_address_size};
use dw_base::constants::{
    DW_UT_compile, DW_UT_skeleton, DW_UT_split_compile, DW_UT_split_type, DW_UT_type,
};
use dw_base::{DwUt, Encoding, Format};

/// Reads the fields after the length.
pub(crate) fn read_fields<R: Reader>(input: &mut R, format: Format) -> ReadResult<Fields>
    ensures ok { IfOk result (λ f. Took _ (fields_read (R.reading input.old).is_big format)
        (R.reading input.old) (R.reading input.new) (header_of f)) }
    ensures err { IfErr result (λ e. fields_read (R.reading input.old).is_big format
        (left (R.reading input.old)) ≡ Err e) }
{
    let version = input.read_u16()?;
    if version == 5 {
        return read_new_fields(input, format);
    }
    if !is_old_version(version) {
        return Err(ReadError::UnknownVersion(version));
    }
    read_old_fields(input, format, version)
}

/// Whether a version is one of 2 to 4.
fn is_old_version(version: u16) -> bool
    ensures { result ≡ nat_le 2 version && nat_le version 4 }
{
    version >= 2 && version <= 4
}

/// Reads what follows the version in versions 2 to 4.
fn read_old_fields<R: Reader>(input: &mut R, format: Format, version: u16) -> ReadResult<Fields>
    ensures ok { IfOk result (λ f. Took _
        (old_fields_read (R.reading input.old).is_big format version)
        (R.reading input.old) (R.reading input.new) (header_of f)) }
    ensures err { IfErr result (λ e. old_fields_read (R.reading input.old).is_big format version
        (left (R.reading input.old)) ≡ Err e) }
{
    let table_offset = input.read_word(format)?;
    let address_size = input.read_u8()?;
    if !is_address_size(address_size) {
        return Err(ReadError::UnsupportedAddressSize(address_size));
    }
    Ok(Fields {
        encoding: Encoding {
            address_size,
            format,
            version,
        },
        unit_type: None,
        table_offset,
        identity: None,
        type_offset: None,
    })
}

/// Reads what follows the version in version 5.
fn read_new_fields<R: Reader>(input: &mut R, format: Format) -> ReadResult<Fields>
    ensures ok { IfOk result (λ f. Took _ (new_fields_read (R.reading input.old).is_big format)
        (R.reading input.old) (R.reading input.new) (header_of f)) }
    ensures err { IfErr result (λ e. new_fields_read (R.reading input.old).is_big format
        (left (R.reading input.old)) ≡ Err e) }
{
    let (unit_type, address_size, table_offset) = read_new_begin(input, format)?;
    let identity = read_identity(input, has_identity(unit_type))?;
    let type_offset = read_type_offset(input, format, has_type_offset(unit_type))?;
    Ok(Fields {
        encoding: Encoding {
            address_size,
            format,
            version: 5,
        },
        unit_type: Some(DwUt(unit_type)),
        table_offset,
        identity,
        type_offset,
    })
}

/// Reads the numbers that each header of version 5 begins with after its version: the unit's type,
/// the size of addresses, and the offset of the table of declarations.
fn read_new_begin<R: Reader>(input: &mut R, format: Format) -> ReadResult<(u8, u8, usize)>
    ensures ok { IfOk result (λ x. Took _ (new_begin_read (R.reading input.old).is_big format)
        (R.reading input.old) (R.reading input.new) x) }
    ensures narrow { IfOk result (λ x. x.1 ≤ 8) }
    ensures err { IfErr result (λ e. new_begin_read (R.reading input.old).is_big format
        (left (R.reading input.old)) ≡ Err e) }
{
    let unit_type = input.read_u8()?;
    let address_size = input.read_u8()?;
    let table_offset = input.read_word(format)?;
    if !is_unit_type(unit_type) {
        return Err(ReadError::UnknownUnitType(DwUt(unit_type)));
    }
    if !is_address_size(address_size) {
        return Err(ReadError::UnsupportedAddressSize(address_size));
    }
    Ok((unit_type, address_size, table_offset))
}

/// Reads the id of a skeleton or a split compile unit, or a type unit's signature.
fn read_identity<R: Reader>(input: &mut R, is_there: bool) -> ReadResult<Option<u64>>
    ensures ok { IfOk result (Took _ (optional_read is_there (R.reading input.old).is_big 8)
        (R.reading input.old) (R.reading input.new)) }
    ensures err { IfErr result (λ e. optional_read is_there (R.reading input.old).is_big 8
        (left (R.reading input.old)) ≡ Err e) }
{
    if is_there {
        let identity = input.read_u64()?;
        return Ok(Some(identity));
    }
    Ok(None)
}

/// Reads the place of a type unit's type.
fn read_type_offset<R: Reader>(
    input: &mut R,
    format: Format,
    is_there: bool,
) -> ReadResult<Option<usize>>
    ensures ok { IfOk result (Took _
        (optional_read is_there (R.reading input.old).is_big (word_of format))
        (R.reading input.old) (R.reading input.new)) }
    ensures err { IfErr result (λ e. optional_read is_there
        (R.reading input.old).is_big (word_of format)
        (left (R.reading input.old)) ≡ Err e) }
{
    if is_there {
        let place = input.read_word(format)?;
        return Ok(Some(place));
    }
    Ok(None)
}

/// Whether a unit type is one of the standard's (DWARF 5, table 7.2).
fn is_unit_type(unit_type: u8) -> bool
    ensures { result ≡ is_unit_type unit_type }
{
    unit_type >= DW_UT_compile.0 && unit_type <= DW_UT_split_type.0
}

/// Whether units of a type have an id or a signature (DWARF 5, 7.5.1.2 and 7.5.1.3).
fn has_identity(unit_type: u8) -> bool
    ensures { result ≡ has_identity unit_type }
{
    unit_type == DW_UT_type.0
        || unit_type == DW_UT_skeleton.0
        || unit_type == DW_UT_split_compile.0
        || unit_type == DW_UT_split_type.0
}

/// Whether units of a type have the place of their type (DWARF 5, 7.5.1.3).
fn has_type_offset(unit_type: u8) -> bool
    ensures { result ≡ has_type_offset unit_type }
{
    unit_type == DW_UT_type.0 || unit_type == DW_UT_split_type.0
}
