//! The values of attributes.

ghost use Rattle.std.specs.Prelude.{◌≡◌, ◌↔◌, ◌≤◌, ◌^◌, ℕ, Option, Some, Ok, IsTrue, IsFalse, IfOk, IfErr, OnOk, length as len};
ghost use Rattle.dw_base.specs.declared.error.Error.{Error as AnError};
ghost use Rattle.dw_base.specs.declared.error.Error.TheVariants.{ValueTooLarge};
ghost use Rattle.dw_expr.specs.Causes.{nodes_unplaced};
ghost use Rattle.dw_expr.specs.Spelling.{expression_size as size_of_expression};
ghost use Rattle.dw_entries.specs.Content.{counted};
ghost use Rattle.dw_entries.specs.Values.{form_of, constant_of, operand_size, KeepsPlaces, value_unplaced, SizeRefused, ExpressionUnsized, constant_form, declared_constant, reference_form as form_of_reference, present_form as form_of_present, expression_form as form_of_expression, offset_form as form_of_offset, list_form as form_of_list, supplementary_form as form_of_supplementary};
ghost use Rattle.dw_entries.specs.ContentView.{number_or_past};
ghost use Rattle.dw_base.specs.Leb128.{uleb};
ghost use Rattle.dw_base.specs.Forms.{info_place_of};

use crate::content::Content;
use crate::size::sum;
use dw_base::constants::{
    DW_FORM_addr, DW_FORM_block, DW_FORM_data1, DW_FORM_data2, DW_FORM_data4, DW_FORM_data8,
    DW_FORM_data16, DW_FORM_exprloc, DW_FORM_flag, DW_FORM_flag_present, DW_FORM_implicit_const,
    DW_FORM_line_strp, DW_FORM_loclistx, DW_FORM_ref_addr, DW_FORM_ref_sig8, DW_FORM_ref_sup4,
    DW_FORM_ref_sup8, DW_FORM_ref4, DW_FORM_ref8, DW_FORM_rnglistx, DW_FORM_sdata,
    DW_FORM_sec_offset, DW_FORM_string, DW_FORM_strp, DW_FORM_strp_sup, DW_FORM_udata,
};
use dw_base::{
    Address, DebugInfoOffset, DebugInfoRef, DebugMacinfoOffset, DebugMacroOffset, DebugStrOffset,
    DebugTypeSignature, DwAccess, DwAddr, DwAte, DwCc, DwDs, DwEnd, DwForm, DwId, DwInl, DwLang,
    DwOrd, DwVirtuality, DwVis, Encoding, FileId, Format, LineStringId, LocationListId,
    RangeListId, Result, StringId, UnitEntryId, sleb128_size, uleb128_size,
};
use dw_expr::{EntryPlaces, Expression};
use dw_writer::Bytes;

/// The value of an attribute. The form in which it is written follows from it and from the unit's
/// encoding.
#[derive(Drop)]
pub enum AttributeValue {
    /// An address of the target, in as many bytes as the unit's addresses have.
    Address(Address),
    /// Bytes, behind their length in unsigned LEB128.
    Block(Bytes),
    /// A number of one byte.
    Data1(u8),
    /// A number of two bytes.
    Data2(u16),
    /// A number of four bytes.
    Data4(u32),
    /// A number of eight bytes.
    Data8(u64),
    /// A number of sixteen bytes. Only readers of version 5 know the form (DWARF 5, 7.5.5).
    Data16(u128),
    /// A number, in the shortest signed LEB128 spelling.
    Sdata(i64),
    /// A number, in the shortest unsigned LEB128 spelling.
    Udata(u64),
    /// A number that the abbreviation holds in version 5, so that entries which share it spend no
    /// byte on it (DWARF 5, 7.5.3). In older versions it is written as `Sdata`.
    ImplicitConst(i64),
    /// A location or a value, as operations of a stack machine (DWARF 5, 2.5) behind their length
    /// in unsigned LEB128; below version 4 as a block.
    Exprloc(Expression),
    /// A flag of one byte: 0 or 1.
    Flag(bool),
    /// A flag that is set, without a byte from version 4 on, and below as one byte 1.
    FlagPresent,
    /// An entry of the same unit, by its place in the unit.
    UnitRef(UnitEntryId),
    /// An entry of any unit, by its place in `.debug_info`: in a word of the unit's format, or in
    /// version 2 in as many bytes as an address has (DWARF 5, 7.5.5). It is filled in once every
    /// unit stands.
    DebugInfoRef(DebugInfoRef),
    /// An entry of the supplementary object file, by its place in that file's `.debug_info`
    /// (DWARF 5, 7.3.6).
    DebugInfoRefSup(DebugInfoOffset),
    /// A place in `.debug_macinfo`, which had macros up to version 4.
    DebugMacinfoRef(DebugMacinfoOffset),
    /// A place in `.debug_macro`, which has them from version 5 on.
    DebugMacroRef(DebugMacroOffset),
    /// A type unit, by its signature (DWARF 5, 7.32), in eight bytes.
    DebugTypesRef(DebugTypeSignature),
    /// A string of the supplementary object file, by its place in that file's `.debug_str`.
    DebugStrRefSup(DebugStrOffset),
    /// A string without its closing zero.
    String(Bytes),
    /// A string of `.debug_str`, by its place there, in a word of the unit's format (7.5.5).
    StringRef(StringId),
    /// A string of `.debug_line_str`, by its place there, in a word of the unit's format. Only
    /// readers of version 5 know the form (7.5.5).
    LineStringRef(LineStringId),
    /// The unit's line program, by its place in `.debug_line`, in a word of the unit's format.
    LineProgramRef,
    /// A file of the unit's line program, by its number there in unsigned LEB128: counted from 0 in
    /// version 5, and from 1 below (6.2.4). No file is written as 0.
    FileIndex(Option<FileId>),
    /// A range list of the unit: up to version 4 by its place in `.debug_ranges`, in a word of the
    /// unit's format, and in version 5 by its index in the unit's table, in unsigned LEB128
    /// (7.5.5).
    RangeListRef(RangeListId),
    /// The place in `.debug_rnglists` of the first offset entry of the unit's range lists, in a
    /// word of the unit's format (7.28). Only units of version 5 with a range list have one.
    RangeListsBase,
    /// The place in `.debug_loclists` of the first offset entry of the unit's location lists, in a
    /// word of the unit's format (7.29). Only units of version 5 with a location list have one.
    LocationListsBase,
    /// A location list of the unit: up to version 4 by its place in `.debug_loc`, in a word of the
    /// unit's format, and in version 5 by its index in the unit's table, in unsigned LEB128
    /// (7.5.5).
    LocationListRef(LocationListId),
    /// How a base type is encoded (DWARF 5, 7.8). This and the codes below are unsigned LEB128.
    Encoding(DwAte),
    /// The sign of a decimal type (7.8).
    DecimalSign(DwDs),
    /// The byte order of a variable (7.8).
    Endianity(DwEnd),
    /// Who may use a member (7.9).
    Accessibility(DwAccess),
    /// Where a name is visible (7.10).
    Visibility(DwVis),
    /// Whether a function is virtual (7.11).
    Virtuality(DwVirtuality),
    /// The source language of a unit (7.12).
    Language(DwLang),
    /// The class of an address (7.13).
    AddressClass(DwAddr),
    /// Whether names of a unit tell cases apart (7.14).
    IdentifierCase(DwId),
    /// How a function is called (7.15).
    CallingConvention(DwCc),
    /// Whether a function is inlined (7.16).
    Inline(DwInl),
    /// The order of an array's elements (7.17).
    Ordering(DwOrd),
}

impl AttributeValue {
    /// Tells that another value is the same.
    #[tactic(auto, using(crate::specs::Equality::value_decides))]
    pub fn is_same(&self, other: &AttributeValue) -> bool
        ensures { IsTrue result ↔ (self.now ≡ other.now) }
    {
        self == other
    }

    /// The form in which the value is written, and the constant that the declaration holds for it
    /// where the form is `DW_FORM_implicit_const`.
    pub fn form(&self, encoding: Encoding) -> Result<(DwForm, Option<i64>)>
        ensures { result
            ≡ Ok (record { 0 = form_of encoding self.now }, constant_of encoding self.now) }
    {
        let form = match self {
            AttributeValue::Address(_) => DW_FORM_addr,
            AttributeValue::Block(_) => DW_FORM_block,
            AttributeValue::Data1(_) => DW_FORM_data1,
            AttributeValue::Data2(_) => DW_FORM_data2,
            AttributeValue::Data4(_) => DW_FORM_data4,
            AttributeValue::Data8(_) => DW_FORM_data8,
            AttributeValue::Data16(_) => DW_FORM_data16,
            AttributeValue::Sdata(_) => DW_FORM_sdata,
            AttributeValue::ImplicitConst(number) => return Ok(declared(encoding, *number)),
            AttributeValue::Exprloc(_) => expression_form(encoding),
            AttributeValue::Flag(_) => DW_FORM_flag,
            AttributeValue::FlagPresent => present_form(encoding),
            AttributeValue::UnitRef(_) => reference_form(encoding.format),
            AttributeValue::DebugInfoRef(_) => DW_FORM_ref_addr,
            AttributeValue::DebugInfoRefSup(_) => supplementary_form(encoding.format),
            AttributeValue::DebugMacinfoRef(_) => offset_form(encoding),
            AttributeValue::DebugMacroRef(_) => offset_form(encoding),
            AttributeValue::DebugTypesRef(_) => DW_FORM_ref_sig8,
            AttributeValue::DebugStrRefSup(_) => DW_FORM_strp_sup,
            AttributeValue::String(_) => DW_FORM_string,
            AttributeValue::StringRef(_) => DW_FORM_strp,
            AttributeValue::LineStringRef(_) => DW_FORM_line_strp,
            AttributeValue::LineProgramRef => offset_form(encoding),
            AttributeValue::RangeListRef(_) => list_form(encoding, DW_FORM_rnglistx),
            AttributeValue::RangeListsBase => offset_form(encoding),
            AttributeValue::LocationListsBase => offset_form(encoding),
            AttributeValue::LocationListRef(_) => list_form(encoding, DW_FORM_loclistx),
            AttributeValue::Udata(_)
            | AttributeValue::FileIndex(_)
            | AttributeValue::Encoding(_)
            | AttributeValue::DecimalSign(_)
            | AttributeValue::Endianity(_)
            | AttributeValue::Accessibility(_)
            | AttributeValue::Visibility(_)
            | AttributeValue::Virtuality(_)
            | AttributeValue::Language(_)
            | AttributeValue::AddressClass(_)
            | AttributeValue::IdentifierCase(_)
            | AttributeValue::CallingConvention(_)
            | AttributeValue::Inline(_)
            | AttributeValue::Ordering(_) => DW_FORM_udata,
        };
        Ok((form, None))
    }

    /// The bytes of what stands for the value in an entry, which don't change where further entries
    /// get their places. Refused as `ValueTooLarge` where they come to no number of 64 bits, and as
    /// `UnsupportedExpressionForwardReference` where an expression spells in LEB128 the place of an
    /// entry that has none yet.
    pub fn size<P: EntryPlaces>(&self, encoding: Encoding, places: &P) -> Result<u64>
        ensures ok { IfOk result
            (λ n. (place : ℕ → Option ℕ) → KeepsPlaces (P.places places.now) place →
            n ≡ operand_size encoding place self.now) }
        ensures sound { OnOk result
            ((e : AnError) → IsFalse (value_unplaced encoding (P.places places.now) self.now e)) }
        ensures err { IfErr result (SizeRefused encoding (P.places places.now) self.now) }
    {
        match self.content(encoding) {
            Content::Nothing => Ok(0),
            Content::Plain { size, .. } => Ok(size as u64),
            Content::Wide(_) => Ok(16),
            Content::Leb(number) => Ok(uleb128_size(number) as u64),
            Content::SignedLeb(number) => Ok(sleb128_size(number) as u64),
            Content::Block(bytes) => counted_size(bytes.len() as u64),
            Content::Expression(expression) => expression_size(expression, encoding, places),
            Content::Closed(text) => sum(text.len() as u64, 1),
            Content::Target(_) => Ok(encoding.address_size as u64),
            Content::Offset { .. } => Ok(encoding.format.word_size() as u64),
            Content::InTable { .. } => Ok(encoding.format.word_size() as u64),
            Content::TableIndex { index, .. } => Ok(uleb128_size(index as u64) as u64),
            Content::OwnPart(_) => Ok(encoding.format.word_size() as u64),
            Content::File(number) => Ok(file_size(number)),
            Content::EntryPlace(_) => Ok(encoding.format.word_size() as u64),
            Content::InfoPlace(_) => Ok(info_place_size(encoding) as u64),
        }
    }
}

/// The bytes of a place in `.debug_info` (DWARF 5, 7.5.5; as an address in version 2).
pub fn info_place_size(encoding: Encoding) -> u8
    ensures { result ≡ info_place_of encoding }
{
    if encoding.version == 2 {
        encoding.address_size
    } else {
        encoding.format.word_size()
    }
}

/// The bytes of a file's number in unsigned LEB128.
fn file_size(number: Option<u64>) -> u64
    ensures { result ≡ len (uleb (number_or_past number)) }
{
    match number {
        Some(number) => uleb128_size(number) as u64,
        None => 10,
    }
}

/// The bytes of an expression, its length before them.
fn expression_size<P: EntryPlaces>(
    expression: &Expression,
    encoding: Encoding,
    places: &P,
) -> Result<u64>
    ensures ok { IfOk result
        (λ n. (place : ℕ → Option ℕ) → KeepsPlaces (P.places places.now) place →
        n ≡ counted (size_of_expression encoding place expression.now)) }
    ensures sound { OnOk result
        ((e : AnError) →
        IsFalse (nodes_unplaced encoding (Some (P.places places.now)) expression.now e)) }
    ensures err { IfErr result
        (ExpressionUnsized encoding (P.places places.now) expression.now) }
{
    let size = expression.size(encoding, Some(places))?;
    counted_size(size as u64)
}

/// The bytes of a length in unsigned LEB128 and of what it counts.
fn counted_size(length: u64) -> Result<u64>
    ensures ok { IfOk result (λ n. n ≡ counted length) }
    ensures err { IfErr result (λ e. (e ≡ ValueTooLarge) × (2 ^ 64 ≤ counted length)) }
{
    sum(uleb128_size(length) as u64, length)
}

/// The form of a constant, and the constant where the declaration holds it.
fn declared(encoding: Encoding, number: i64) -> (DwForm, Option<i64>)
    ensures { result ≡ (record { 0 = constant_form encoding }, declared_constant encoding number) }
{
    if encoding.version == 5 {
        (DW_FORM_implicit_const, Some(number))
    } else {
        (DW_FORM_sdata, None)
    }
}

/// The form of a flag that is set.
fn present_form(encoding: Encoding) -> DwForm
    ensures { result.0 ≡ form_of_present encoding }
{
    if encoding.version >= 4 {
        DW_FORM_flag_present
    } else {
        DW_FORM_flag
    }
}

/// The form of an expression.
fn expression_form(encoding: Encoding) -> DwForm
    ensures { result.0 ≡ form_of_expression encoding }
{
    if encoding.version >= 4 {
        DW_FORM_exprloc
    } else {
        DW_FORM_block
    }
}

/// The form of an offset into a section.
fn offset_form(encoding: Encoding) -> DwForm
    ensures { result.0 ≡ form_of_offset encoding }
{
    if encoding.version >= 4 {
        return DW_FORM_sec_offset;
    }
    match encoding.format {
        Format::Dwarf32 => DW_FORM_data4,
        Format::Dwarf64 => DW_FORM_data8,
    }
}

/// The form of a list, whose index has a form of its own in version 5.
fn list_form(encoding: Encoding, index_form: DwForm) -> DwForm
    ensures { result.0 ≡ form_of_list encoding index_form.0 }
{
    if encoding.version == 5 {
        index_form
    } else {
        offset_form(encoding)
    }
}

/// The form of an entry of the supplementary file.
fn supplementary_form(format: Format) -> DwForm
    ensures { result.0 ≡ form_of_supplementary format }
{
    match format {
        Format::Dwarf32 => DW_FORM_ref_sup4,
        Format::Dwarf64 => DW_FORM_ref_sup8,
    }
}

/// The form of a place in the unit (DWARF 5, 7.5.5).
pub fn reference_form(format: Format) -> DwForm
    ensures { result.0 ≡ form_of_reference format }
{
    match format {
        Format::Dwarf32 => DW_FORM_ref4,
        Format::Dwarf64 => DW_FORM_ref8,
    }
}
