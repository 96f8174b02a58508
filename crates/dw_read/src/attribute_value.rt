//! The values of attributes, by their forms and names (DWARF 5, 7.5.4 and 7.5.5).

ghost use Rattle.std.specs.Prelude.{◌≡◌, ◌%◌, ◌^◌, Some};
ghost use Rattle.dw_read.specs.Reading.{left};
ghost use Rattle.dw_read.specs.Took.{option_of};
ghost use Rattle.dw_read.specs.Attributes.{attribute_of};
ghost use Rattle.dw_read.specs.Orders.{attribute_order, value_order};
ghost use Rattle.dw_read.specs.Values.{value_of, raw_value_of, named_value};
ghost use Rattle.dw_read.specs.Values.{absent_value, number_value, index_value};
ghost use Rattle.dw_read.specs.Values.{block_value, place_value};
ghost use Rattle.dw_read.specs.Values.{is_old_place, is_old_place_name, word_form};
ghost use Rattle.dw_read.specs.Values.{is_expression_name, named_block, value_or};
ghost use Rattle.dw_read.specs.Values.{typed_value, byte_value};
ghost use Rattle.dw_read.specs.declared.value.AttributeValue.TheVariants.{Sdata};

use crate::attribute::Attribute;
use crate::operand::Operand;
use crate::reader::Reader;
use crate::value::{AttributeValue, Expression};
use dw_base::constants::*;
use dw_base::{
    DebugInfoOffset, DebugLineOffset, DebugLineStrOffset, DebugMacinfoOffset, DebugMacroOffset,
    DebugStrOffset, DebugTypeSignature, DwAccess, DwAddr, DwAt, DwAte, DwCc, DwDs, DwEnd, DwForm,
    DwId, DwInl, DwLang, DwOrd, DwVirtuality, DwVis, DwoId, Encoding, Format, LocationListsOffset,
    RangeListsOffset, UnitOffset,
};

impl<R: Reader> Attribute<R> {
    /// The value by its form alone; in versions 2 and 3, which have no form for a place in a
    /// section, by its name too.
    pub fn raw_value(&self) -> AttributeValue<R>
        ensures is { value_of R.reading result
            ≡ raw_value_of self.now.encoding (attribute_of R.reading self.now) }
        ensures order { value_order R.reading result ≡ attribute_order R.reading self.now }
    {
        match &self.operand {
            Operand::Absent => absent_value(self.constant),
            Operand::Number(number) => {
                if is_old_place(self.encoding, self.name, self.form) {
                    AttributeValue::SecOffset(low_word(*number) as usize)
                } else {
                    number_value(self.form, *number)
                }
            }
            Operand::Signed(number) => AttributeValue::Sdata(*number),
            Operand::Bytes(bytes) => block_value(self.form, bytes.duplicate()),
            Operand::Text(text) => AttributeValue::String(text.duplicate()),
        }
    }

    /// The value by its form and its name: a block is an expression where the name asks for one, a
    /// place is one in the section that the name tells, a constant has the type of its name.
    pub fn value(&self) -> AttributeValue<R>
        ensures is { value_of R.reading result
            ≡ named_value self.now.name.0
            (raw_value_of self.now.encoding (attribute_of R.reading self.now)) }
        ensures order { value_order R.reading result ≡ attribute_order R.reading self.now }
    {
        let name = self.name;
        match self.raw_value() {
            AttributeValue::Block(bytes) => named_block(name, bytes),
            AttributeValue::SecOffset(place) => place_value(name, place),
            AttributeValue::Data1(n) => typed_or(name, n as u64, AttributeValue::Data1(n)),
            AttributeValue::Data2(n) => typed_or(name, n as u64, AttributeValue::Data2(n)),
            AttributeValue::Data4(n) => typed_or(name, n as u64, AttributeValue::Data4(n)),
            AttributeValue::Data8(n) => typed_or(name, n, AttributeValue::Data8(n)),
            AttributeValue::Udata(n) => typed_or(name, n, AttributeValue::Udata(n)),
            AttributeValue::Sdata(n) => named_signed(name, n),
            other => other,
        }
    }
}

/// What stands in no bytes: the declaration's constant, or that something holds.
fn absent_value<R: Reader>(constant: Option<i64>) -> AttributeValue<R>
    ensures { value_of R.reading result ≡ absent_value constant }
{
    match constant {
        Some(number) => AttributeValue::Sdata(number),
        None => AttributeValue::Flag(true),
    }
}

/// Bytes, which one form says to be an expression.
fn block_value<R: Reader>(form: DwForm, bytes: R) -> AttributeValue<R>
    ensures is { value_of R.reading result ≡ block_value form.0 (left (R.reading bytes)) }
    ensures order { value_order R.reading result ≡ Some (R.reading bytes).is_big }
{
    if form.0 == DW_FORM_exprloc.0 {
        AttributeValue::Exprloc(Expression(bytes))
    } else {
        AttributeValue::Block(bytes)
    }
}

/// A number of at most 8 bytes.
fn low_word(number: u128) -> u64
    ensures { result ≡ number % 2 ^ 64 }
{
    (number % 0x1_0000_0000_0000_0000) as u64
}

/// A number in a form.
fn number_value<R: Reader>(form: DwForm, number: u128) -> AttributeValue<R>
    ensures { value_of R.reading result ≡ number_value form.0 number }
{
    let word = low_word(number);
    let place = word as usize;
    match form {
        DW_FORM_addr => AttributeValue::Addr(word),
        DW_FORM_data1 => AttributeValue::Data1((number % 0x100) as u8),
        DW_FORM_data2 => AttributeValue::Data2((number % 0x1_0000) as u16),
        DW_FORM_data4 => AttributeValue::Data4((number % 0x1_0000_0000) as u32),
        DW_FORM_data8 => AttributeValue::Data8(word),
        DW_FORM_data16 => AttributeValue::Data16(number),
        DW_FORM_flag => AttributeValue::Flag(number != 0),
        DW_FORM_strp => AttributeValue::DebugStrRef(DebugStrOffset(place)),
        DW_FORM_line_strp => AttributeValue::DebugLineStrRef(DebugLineStrOffset(place)),
        DW_FORM_strp_sup => AttributeValue::DebugStrRefSup(DebugStrOffset(place)),
        DW_FORM_sec_offset => AttributeValue::SecOffset(place),
        DW_FORM_ref_addr => AttributeValue::DebugInfoRef(DebugInfoOffset(place)),
        DW_FORM_ref1 => AttributeValue::UnitRef(UnitOffset(place)),
        DW_FORM_ref2 => AttributeValue::UnitRef(UnitOffset(place)),
        DW_FORM_ref4 => AttributeValue::UnitRef(UnitOffset(place)),
        DW_FORM_ref8 => AttributeValue::UnitRef(UnitOffset(place)),
        DW_FORM_ref_udata => AttributeValue::UnitRef(UnitOffset(place)),
        DW_FORM_ref_sup4 => AttributeValue::DebugInfoRefSup(DebugInfoOffset(place)),
        DW_FORM_ref_sup8 => AttributeValue::DebugInfoRefSup(DebugInfoOffset(place)),
        DW_FORM_ref_sig8 => AttributeValue::DebugTypesRef(DebugTypeSignature(word)),
        _ => index_value(form, number),
    }
}

/// An index in a form.
fn index_value<R: Reader>(form: DwForm, number: u128) -> AttributeValue<R>
    ensures { value_of R.reading result ≡ index_value form.0 number }
{
    let word = low_word(number);
    match form {
        DW_FORM_addrx => AttributeValue::DebugAddrIndex(word),
        DW_FORM_addrx1 => AttributeValue::DebugAddrIndex(word),
        DW_FORM_addrx2 => AttributeValue::DebugAddrIndex(word),
        DW_FORM_addrx3 => AttributeValue::DebugAddrIndex(word),
        DW_FORM_addrx4 => AttributeValue::DebugAddrIndex(word),
        DW_FORM_strx => AttributeValue::DebugStrOffsetsIndex(word),
        DW_FORM_strx1 => AttributeValue::DebugStrOffsetsIndex(word),
        DW_FORM_strx2 => AttributeValue::DebugStrOffsetsIndex(word),
        DW_FORM_strx3 => AttributeValue::DebugStrOffsetsIndex(word),
        DW_FORM_strx4 => AttributeValue::DebugStrOffsetsIndex(word),
        DW_FORM_loclistx => AttributeValue::DebugLocListsIndex(word),
        DW_FORM_rnglistx => AttributeValue::DebugRngListsIndex(word),
        _ => AttributeValue::Udata(word),
    }
}

/// Whether a number is a place in a section: in versions 2 and 3, where it is as wide as a word
/// and has the name of a place.
fn is_old_place(encoding: Encoding, name: DwAt, form: DwForm) -> bool
    ensures { result ≡ is_old_place encoding name.0 form.0 }
{
    (encoding.version == 2 || encoding.version == 3)
        && form.0 == word_form(encoding.format)
        && is_old_place_name(name)
}

/// The form of a number as wide as a word.
fn word_form(format: Format) -> u16
    ensures { result ≡ word_form format }
{
    match format {
        Format::Dwarf32 => DW_FORM_data4.0,
        Format::Dwarf64 => DW_FORM_data8.0,
    }
}

/// Whether a name is one of a place in versions 2 and 3.
fn is_old_place_name(name: DwAt) -> bool
    ensures { result ≡ is_old_place_name name.0 }
{
    match name {
        DW_AT_stmt_list | DW_AT_macro_info | DW_AT_macros | DW_AT_GNU_macros | DW_AT_ranges => true,
        DW_AT_location | DW_AT_string_length | DW_AT_return_addr | DW_AT_frame_base => true,
        DW_AT_segment | DW_AT_static_link | DW_AT_use_location => true,
        DW_AT_vtable_elem_location | DW_AT_data_member_location => true,
        _ => false,
    }
}

/// A place under a name.
fn place_value<R: Reader>(name: DwAt, place: usize) -> AttributeValue<R>
    ensures { value_of R.reading result ≡ place_value name.0 place }
{
    let list = LocationListsOffset(place);
    match name {
        DW_AT_stmt_list => AttributeValue::DebugLineRef(DebugLineOffset(place)),
        DW_AT_macro_info => AttributeValue::DebugMacinfoRef(DebugMacinfoOffset(place)),
        DW_AT_macros => AttributeValue::DebugMacroRef(DebugMacroOffset(place)),
        DW_AT_GNU_macros => AttributeValue::DebugMacroRef(DebugMacroOffset(place)),
        DW_AT_ranges => AttributeValue::RangeListsRef(RangeListsOffset(place)),
        DW_AT_start_scope => AttributeValue::RangeListsRef(RangeListsOffset(place)),
        DW_AT_location => AttributeValue::LocationListsRef(list),
        DW_AT_string_length => AttributeValue::LocationListsRef(list),
        DW_AT_return_addr => AttributeValue::LocationListsRef(list),
        DW_AT_frame_base => AttributeValue::LocationListsRef(list),
        DW_AT_segment => AttributeValue::LocationListsRef(list),
        DW_AT_static_link => AttributeValue::LocationListsRef(list),
        DW_AT_use_location => AttributeValue::LocationListsRef(list),
        DW_AT_vtable_elem_location => AttributeValue::LocationListsRef(list),
        DW_AT_data_member_location => AttributeValue::LocationListsRef(list),
        _ => AttributeValue::SecOffset(place),
    }
}

/// A block under a name.
fn named_block<R: Reader>(name: DwAt, bytes: R) -> AttributeValue<R>
    ensures is { value_of R.reading result ≡ named_block name.0 (left (R.reading bytes)) }
    ensures order { value_order R.reading result ≡ Some (R.reading bytes).is_big }
{
    if is_expression_name(name) {
        AttributeValue::Exprloc(Expression(bytes))
    } else {
        AttributeValue::Block(bytes)
    }
}

/// Whether a block of a name is an expression.
fn is_expression_name(name: DwAt) -> bool
    ensures { result ≡ is_expression_name name.0 }
{
    match name {
        DW_AT_location | DW_AT_byte_size | DW_AT_bit_size | DW_AT_string_length => true,
        DW_AT_lower_bound | DW_AT_return_addr | DW_AT_bit_stride | DW_AT_upper_bound => true,
        DW_AT_count | DW_AT_data_member_location | DW_AT_frame_base | DW_AT_segment => true,
        DW_AT_static_link | DW_AT_use_location | DW_AT_vtable_elem_location => true,
        DW_AT_allocated | DW_AT_associated | DW_AT_data_location | DW_AT_byte_stride => true,
        DW_AT_GNU_call_site_value | DW_AT_GNU_call_site_data_value => true,
        DW_AT_GNU_call_site_target | DW_AT_GNU_call_site_target_clobbered => true,
        _ => false,
    }
}

/// A signed constant under a name.
fn named_signed<R: Reader>(name: DwAt, number: i64) -> AttributeValue<R>
    ensures { value_of R.reading result ≡ named_value name.0 (Sdata number) }
{
    if number < 0 {
        return AttributeValue::Sdata(number);
    }
    typed_or(name, number as u64, AttributeValue::Sdata(number))
}

/// A constant with the type of its name, or as it is.
fn typed_or<R: Reader>(name: DwAt, number: u64, value: AttributeValue<R>) -> AttributeValue<R>
    ensures { value_of R.reading result
        ≡ value_or (value_of R.reading value) (typed_value name.0 number) }
{
    match typed_value(name, number) {
        Some(typed) => typed,
        None => value,
    }
}

/// A constant with the type of its name, where it fits.
fn typed_value<R: Reader>(name: DwAt, number: u64) -> Option<AttributeValue<R>>
    ensures { option_of (value_of R.reading) result ≡ typed_value name.0 number }
{
    match name {
        DW_AT_language => {
            if number > 0xffff {
                return None;
            }
            Some(AttributeValue::Language(DwLang(number as u16)))
        }
        DW_AT_address_class => Some(AttributeValue::AddressClass(DwAddr(number))),
        DW_AT_decl_file => Some(AttributeValue::FileIndex(number)),
        DW_AT_call_file => Some(AttributeValue::FileIndex(number)),
        DW_AT_GNU_dwo_id => Some(AttributeValue::DwoId(DwoId(number))),
        _ => byte_value(name, number),
    }
}

/// A code of one byte with the type of its name, where it fits.
fn byte_value<R: Reader>(name: DwAt, number: u64) -> Option<AttributeValue<R>>
    ensures { option_of (value_of R.reading) result ≡ byte_value name.0 number }
{
    if number > 0xff {
        return None;
    }
    let byte = number as u8;
    match name {
        DW_AT_encoding => Some(AttributeValue::Encoding(DwAte(byte))),
        DW_AT_decimal_sign => Some(AttributeValue::DecimalSign(DwDs(byte))),
        DW_AT_endianity => Some(AttributeValue::Endianity(DwEnd(byte))),
        DW_AT_accessibility => Some(AttributeValue::Accessibility(DwAccess(byte))),
        DW_AT_visibility => Some(AttributeValue::Visibility(DwVis(byte))),
        DW_AT_virtuality => Some(AttributeValue::Virtuality(DwVirtuality(byte))),
        DW_AT_identifier_case => Some(AttributeValue::IdentifierCase(DwId(byte))),
        DW_AT_calling_convention => Some(AttributeValue::CallingConvention(DwCc(byte))),
        DW_AT_inline => Some(AttributeValue::Inline(DwInl(byte))),
        DW_AT_ordering => Some(AttributeValue::Ordering(DwOrd(byte))),
        _ => None,
    }
}
