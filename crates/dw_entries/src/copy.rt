//! Copies of values.

ghost use Rattle.std.specs.Prelude.{◌≡◌, IfOk, IfErr};
ghost use Rattle.dw_base.specs.declared.error.Error.TheVariants.{NoMemory};

use crate::value::AttributeValue;
use dw_base::Result;
use std::alloc::AllocError;
use std::result;

impl AttributeValue {
    /// A second value that equals this one.
    pub fn try_clone(&self) -> Result<AttributeValue>
        ensures ok { IfOk result (λ v. v ≡ self.now) }
        ensures err { IfErr result (λ e. e ≡ NoMemory) }
    {
        Ok(self.clone()?)
    }
}

// A derived `Clone` compares each pair of variants.
impl Clone for AttributeValue {
    ghost is_clone = { λ a b. b ≡ a };

    fn clone(&self) -> result::Result<AttributeValue, AllocError> {
        match self {
            AttributeValue::Address(address) => Ok(AttributeValue::Address(*address)),
            AttributeValue::Block(bytes) => Ok(AttributeValue::Block(bytes.clone()?)),
            AttributeValue::Data1(number) => Ok(AttributeValue::Data1(*number)),
            AttributeValue::Data2(number) => Ok(AttributeValue::Data2(*number)),
            AttributeValue::Data4(number) => Ok(AttributeValue::Data4(*number)),
            AttributeValue::Data8(number) => Ok(AttributeValue::Data8(*number)),
            AttributeValue::Data16(number) => Ok(AttributeValue::Data16(*number)),
            AttributeValue::Sdata(number) => Ok(AttributeValue::Sdata(*number)),
            AttributeValue::Udata(number) => Ok(AttributeValue::Udata(*number)),
            AttributeValue::ImplicitConst(number) => Ok(AttributeValue::ImplicitConst(*number)),
            AttributeValue::Exprloc(expression) => Ok(AttributeValue::Exprloc(expression.clone()?)),
            AttributeValue::Flag(is_set) => Ok(AttributeValue::Flag(*is_set)),
            AttributeValue::FlagPresent => Ok(AttributeValue::FlagPresent),
            AttributeValue::UnitRef(entry) => Ok(AttributeValue::UnitRef(*entry)),
            AttributeValue::DebugInfoRef(entry) => Ok(AttributeValue::DebugInfoRef(*entry)),
            AttributeValue::DebugInfoRefSup(offset) => Ok(AttributeValue::DebugInfoRefSup(*offset)),
            AttributeValue::DebugMacinfoRef(offset) => Ok(AttributeValue::DebugMacinfoRef(*offset)),
            AttributeValue::DebugMacroRef(offset) => Ok(AttributeValue::DebugMacroRef(*offset)),
            AttributeValue::DebugTypesRef(signature) => Ok(AttributeValue::DebugTypesRef(
                *signature,
            )),
            AttributeValue::DebugStrRefSup(offset) => Ok(AttributeValue::DebugStrRefSup(*offset)),
            AttributeValue::String(text) => Ok(AttributeValue::String(text.clone()?)),
            AttributeValue::StringRef(string) => Ok(AttributeValue::StringRef(*string)),
            AttributeValue::LineStringRef(string) => Ok(AttributeValue::LineStringRef(*string)),
            AttributeValue::LineProgramRef => Ok(AttributeValue::LineProgramRef),
            AttributeValue::FileIndex(file) => Ok(AttributeValue::FileIndex(*file)),
            AttributeValue::RangeListRef(list) => Ok(AttributeValue::RangeListRef(*list)),
            AttributeValue::RangeListsBase => Ok(AttributeValue::RangeListsBase),
            AttributeValue::LocationListsBase => Ok(AttributeValue::LocationListsBase),
            AttributeValue::LocationListRef(list) => Ok(AttributeValue::LocationListRef(*list)),
            AttributeValue::Encoding(code) => Ok(AttributeValue::Encoding(*code)),
            AttributeValue::DecimalSign(code) => Ok(AttributeValue::DecimalSign(*code)),
            AttributeValue::Endianity(code) => Ok(AttributeValue::Endianity(*code)),
            AttributeValue::Accessibility(code) => Ok(AttributeValue::Accessibility(*code)),
            AttributeValue::Visibility(code) => Ok(AttributeValue::Visibility(*code)),
            AttributeValue::Virtuality(code) => Ok(AttributeValue::Virtuality(*code)),
            AttributeValue::Language(code) => Ok(AttributeValue::Language(*code)),
            AttributeValue::AddressClass(code) => Ok(AttributeValue::AddressClass(*code)),
            AttributeValue::IdentifierCase(code) => Ok(AttributeValue::IdentifierCase(*code)),
            AttributeValue::CallingConvention(code) => Ok(AttributeValue::CallingConvention(*code)),
            AttributeValue::Inline(code) => Ok(AttributeValue::Inline(*code)),
            AttributeValue::Ordering(code) => Ok(AttributeValue::Ordering(*code)),
        }
    }
}
