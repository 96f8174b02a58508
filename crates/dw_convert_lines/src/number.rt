//! Numbers and checksums of directories and files (DWARF 5, 6.2.4.1).

ghost use Rattle.std.specs.Prelude.{◌≡◌};
ghost use Rattle.dw_read.specs.Took.{option_of};
ghost use Rattle.dw_read.specs.Values.{value_of};
ghost use Rattle.dw_convert_lines.specs.EntryImages.{number_image, checksum_image, checksum_bytes};

use dw_read::{AttributeValue, Reader};
use dw_sources::{ConvertError, ConvertResult};

/// The number that is told, or 0.
pub(crate) fn convert_number<R: Reader>(number: &Option<AttributeValue<R>>) -> ConvertResult<u64>
    ensures { result ≡ number_image (option_of (value_of R.reading) number.now) }
{
    match number {
        None => Ok(0),
        Some(AttributeValue::Udata(number)) => Ok(*number),
        Some(AttributeValue::Data1(number)) => Ok(*number as u64),
        Some(AttributeValue::Data2(number)) => Ok(*number as u64),
        Some(AttributeValue::Data4(number)) => Ok(*number as u64),
        Some(AttributeValue::Data8(number)) => Ok(*number),
        Some(_) => Err(ConvertError::UnsupportedLineProgram),
    }
}

/// A checksum, where there is one.
pub(crate) fn convert_checksum<R: Reader>(
    checksum: &Option<AttributeValue<R>>,
    is_big: bool,
) -> ConvertResult<Option<[u8; 16]>>
    ensures { result ≡ checksum_image is_big (option_of (value_of R.reading) checksum.now) }
{
    match checksum {
        None => Ok(None),
        Some(AttributeValue::Data16(number)) => Ok(Some(checksum_bytes(*number, is_big))),
        Some(_) => Err(ConvertError::UnsupportedLineProgram),
    }
}

/// The bytes of a number, as they stand in the section.
fn checksum_bytes(number: u128, is_big: bool) -> [u8; 16]
    ensures { result ≡ checksum_bytes is_big number }
{
    if is_big {
        number.to_be_bytes()
    } else {
        number.to_le_bytes()
    }
}
