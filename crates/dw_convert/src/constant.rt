//! Values that stay what they are.

ghost use Rattle.std.specs.Prelude.{◌≡◌, ◌⊎◌, IfOk, IfErr, Err};
ghost use Rattle.dw_read.specs.Reading.{left};
ghost use Rattle.dw_read.specs.Values.{value_of};
ghost use Rattle.dw_sources.specs.declared.convert_error.ConvertError.TheVariants.{NoMemory};
ghost use Rattle.dw_convert.specs.Constants.{same_value};

use dw_entries::{AttributeValue, Bytes};
use dw_read::{AttributeValue as ReadValue, Reader};
use dw_sources::{ConvertError, ConvertResult};
use std::alloc::Global;

/// A value that leads to nothing that is converted: a number, bytes, a flag, a code of the
/// standard, or a place in a section or a file that isn't read. It is one match, since each of them
/// has a row.
pub(crate) fn same_value<R: Reader>(
    alloc: Global,
    value: &ReadValue<R>,
) -> ConvertResult<AttributeValue>
    ensures { (result ≡ Err NoMemory) ⊎ result ≡ same_value (value_of R.reading value.now) }
{
    match value {
        ReadValue::Block(bytes) => copied(alloc, bytes).map(AttributeValue::Block),
        ReadValue::String(bytes) => copied(alloc, bytes).map(AttributeValue::String),
        ReadValue::Data1(number) => Ok(AttributeValue::Data1(*number)),
        ReadValue::Data2(number) => Ok(AttributeValue::Data2(*number)),
        ReadValue::Data4(number) => Ok(AttributeValue::Data4(*number)),
        ReadValue::Data8(number) => Ok(AttributeValue::Data8(*number)),
        ReadValue::Data16(number) => Ok(AttributeValue::Data16(*number)),
        ReadValue::Sdata(number) => Ok(AttributeValue::Sdata(*number)),
        ReadValue::Udata(number) => Ok(AttributeValue::Udata(*number)),
        ReadValue::DwoId(id) => Ok(AttributeValue::Udata(id.0)),
        ReadValue::Flag(flag) => Ok(AttributeValue::Flag(*flag)),
        ReadValue::DebugInfoRefSup(offset) => Ok(AttributeValue::DebugInfoRefSup(*offset)),
        ReadValue::DebugStrRefSup(offset) => Ok(AttributeValue::DebugStrRefSup(*offset)),
        ReadValue::DebugMacinfoRef(offset) => Ok(AttributeValue::DebugMacinfoRef(*offset)),
        ReadValue::DebugMacroRef(offset) => Ok(AttributeValue::DebugMacroRef(*offset)),
        ReadValue::DebugTypesRef(signature) => Ok(AttributeValue::DebugTypesRef(*signature)),
        ReadValue::Encoding(code) => Ok(AttributeValue::Encoding(*code)),
        ReadValue::DecimalSign(code) => Ok(AttributeValue::DecimalSign(*code)),
        ReadValue::Endianity(code) => Ok(AttributeValue::Endianity(*code)),
        ReadValue::Accessibility(code) => Ok(AttributeValue::Accessibility(*code)),
        ReadValue::Visibility(code) => Ok(AttributeValue::Visibility(*code)),
        ReadValue::Virtuality(code) => Ok(AttributeValue::Virtuality(*code)),
        ReadValue::Language(code) => Ok(AttributeValue::Language(*code)),
        ReadValue::AddressClass(code) => Ok(AttributeValue::AddressClass(*code)),
        ReadValue::IdentifierCase(code) => Ok(AttributeValue::IdentifierCase(*code)),
        ReadValue::CallingConvention(code) => Ok(AttributeValue::CallingConvention(*code)),
        ReadValue::Inline(code) => Ok(AttributeValue::Inline(*code)),
        ReadValue::Ordering(code) => Ok(AttributeValue::Ordering(*code)),
        _ => Err(ConvertError::InvalidAttributeValue),
    }
}

/// A copy of the bytes that a reader has left.
pub(crate) fn copied<R: Reader>(alloc: Global, bytes: &R) -> ConvertResult<Bytes>
    ensures ok { IfOk result (λ copy. copy ≡ left (R.reading bytes.now)) }
    ensures err { IfErr result (λ e. e ≡ NoMemory) }
{
    Bytes::new(alloc, bytes.to_slice()).map_err(|_| ConvertError::NoMemory)
}
