//! The values of attributes.

ghost use Rattle.std.specs.Prelude.{◌≡◌};
ghost use Rattle.dw_ends.specs.Fields.{with_rest};
ghost use Rattle.dw_ends.specs.Pieces.{pieces_left};
ghost use Rattle.dw_script_fields.specs.Values.{constant_of_kind, number_of_kind, place_of_kind, value_field};

use crate::expression::ExpressionFields;
use crate::field::{
    next_address, next_flag, next_hex_bytes, next_i64, next_index_or_none, next_kind,
    next_reference, next_u8, next_u16, next_u32, next_u128, next_usize,
};
use crate::kind::{ConstantKind, Kind, NumberKind, PlaceKind};
use dw_base::{
    Address, DebugInfoOffset, DebugInfoRef, DebugMacinfoOffset, DebugMacroOffset, DebugStrOffset,
    DebugTypeSignature, DwAccess, DwAddr, DwAte, DwCc, DwDs, DwEnd, DwId, DwInl, DwLang, DwOrd,
    DwVirtuality, DwVis,
};
use dw_ends::{HexBytes, Pieces, Reason, next_u64};

/// A value that a line gives an attribute; sections of the standard are DWARF 5's. A word of the
/// format has 4 bytes, and in the 64-bit format 8. Each number from `Encoding` on is spelled in
/// LEB128.
#[derive(Drop)]
pub enum Value<'a> {
    /// An address, in as many bytes as the unit's addresses have (7.5.5).
    Address(Address),
    /// Bytes in place, their number in LEB128 before them (7.5.5).
    Block(HexBytes<'a>),
    /// A number of one byte (7.5.5).
    Data1(u8),
    /// A number of two bytes (7.5.5).
    Data2(u16),
    /// A number of four bytes (7.5.5).
    Data4(u32),
    /// A number of eight bytes (7.5.5).
    Data8(u64),
    /// A number of sixteen bytes (7.5.5).
    Data16(u128),
    /// A number of 64 bits with a sign, spelled in LEB128 (7.6).
    Sdata(i64),
    /// A number of 64 bits, spelled in LEB128 (7.6).
    Udata(u64),
    /// A number of 64 bits with a sign, which from version 5 on stands in the abbreviation (7.5.3).
    ImplicitConst(i64),
    /// An expression, the number of its bytes in LEB128 before it, from version 4 on in a form of
    /// its own (7.5.5).
    Exprloc(ExpressionFields<'a>),
    /// Whether something is so, in one byte (7.5.5).
    Flag(bool),
    /// That something is so, from version 4 on in no bytes (7.5.5).
    FlagPresent,
    /// An entry of the same unit, by its index; a word of the format (7.5.5).
    UnitRef(u64),
    /// An entry of any unit, by the numbers of both, or a symbol; a word of the format, in version
    /// 2 as many bytes as an address has (7.5.5).
    DebugInfoRef(DebugInfoRef),
    /// A place in the supplementary file's `.debug_info`; a word of the format (7.3.6).
    DebugInfoRefSup(DebugInfoOffset),
    /// A place in `.debug_macinfo`; a word of the format (DWARF 4, 7.22).
    DebugMacinfoRef(DebugMacinfoOffset),
    /// A place in `.debug_macro`; a word of the format (7.23).
    DebugMacroRef(DebugMacroOffset),
    /// A type, by its signature of eight bytes (7.32).
    DebugTypesRef(DebugTypeSignature),
    /// A place in the supplementary file's `.debug_str`; a word of the format (7.3.6).
    DebugStrRefSup(DebugStrOffset),
    /// Bytes in place, with a zero after them (7.5.5).
    String(HexBytes<'a>),
    /// A string of `.debug_str`, by its index; a word of the format (7.5.5).
    StringRef(u64),
    /// A string of `.debug_line_str`, by its index; a word of the format (7.5.5).
    LineStringRef(u64),
    /// A range list of the unit, by its index; in version 5 this index in LEB128, before a word of
    /// the format (7.5.5).
    RangeListRef(u64),
    /// The unit's range lists, by the place of their first offset in `.debug_rnglists`; a word of
    /// the format (7.28).
    RangeListsBase,
    /// A location list of the unit, by its index; in version 5 this index in LEB128, before a word
    /// of the format (7.5.5).
    LocationListRef(u64),
    /// The unit's location lists, by the place of their first offset in `.debug_loclists`; a word
    /// of the format (7.29).
    LocationListsBase,
    /// The unit's line program, by its place in `.debug_line`; a word of the format (7.5.5).
    LineProgramRef,
    /// A file of the unit's line program, by its index, or none, in LEB128 (2.14).
    FileIndex(Option<usize>),
    /// The encoding of a base type (7.8).
    Encoding(DwAte),
    /// The sign of a decimal type (7.8).
    DecimalSign(DwDs),
    /// The byte order of a value (7.8).
    Endianity(DwEnd),
    /// The access that a member allows (7.9).
    Accessibility(DwAccess),
    /// Where a name can be seen (7.10).
    Visibility(DwVis),
    /// Whether a member is virtual (7.11).
    Virtuality(DwVirtuality),
    /// The language of a unit (7.12).
    Language(DwLang),
    /// An address class (7.13).
    AddressClass(DwAddr),
    /// How identifiers' cases count (7.14).
    IdentifierCase(DwId),
    /// A calling convention (7.15).
    CallingConvention(DwCc),
    /// Whether a subroutine is inlined (7.16).
    Inline(DwInl),
    /// The order of an array's elements (7.17).
    Ordering(DwOrd),
}

/// A value, its kind before it. A kind that there is none of is `UnknownWord`; what its fields are
/// not is the reason of the first.
pub fn next_value<'a>(fields: &mut Pieces<'a>) -> Result<Value<'a>, Reason>
    ensures { with_rest result (pieces_left fields.new) ≡
        value_field (pieces_left fields.old) }
{
    let value = match next_kind(fields)? {
        Kind::Address => Value::Address(next_address(fields)?),
        Kind::Block => Value::Block(next_hex_bytes(fields)?),
        Kind::Data1 => Value::Data1(next_u8(fields)?),
        Kind::Data2 => Value::Data2(next_u16(fields)?),
        Kind::Data4 => Value::Data4(next_u32(fields)?),
        Kind::Data16 => Value::Data16(next_u128(fields)?),
        Kind::Sdata => Value::Sdata(next_i64(fields)?),
        Kind::ImplicitConst => Value::ImplicitConst(next_i64(fields)?),
        Kind::Exprloc => Value::Exprloc(ExpressionFields::read(fields)?),
        Kind::Flag => Value::Flag(next_flag(fields)?),
        Kind::FlagPresent => Value::FlagPresent,
        Kind::DebugInfoRef => Value::DebugInfoRef(next_reference(fields)?),
        Kind::String => Value::String(next_hex_bytes(fields)?),
        Kind::RangeListsBase => Value::RangeListsBase,
        Kind::LocationListsBase => Value::LocationListsBase,
        Kind::LineProgramRef => Value::LineProgramRef,
        Kind::FileIndex => Value::FileIndex(next_index_or_none(fields)?),
        Kind::Language => Value::Language(DwLang(next_u16(fields)?)),
        Kind::Number(kind) => number_value(kind, next_u64(fields)?),
        Kind::Place(kind) => place_value(kind, next_usize(fields)?),
        Kind::Constant(kind) => constant_value(kind, next_u8(fields)?),
    };
    Ok(value)
}

// A number of 64 bits.
fn number_value<'a>(kind: NumberKind, number: u64) -> Value<'a>
    ensures { result ≡ number_of_kind kind number }
{
    match kind {
        NumberKind::Data8 => Value::Data8(number),
        NumberKind::Udata => Value::Udata(number),
        NumberKind::UnitRef => Value::UnitRef(number),
        NumberKind::DebugTypesRef => Value::DebugTypesRef(DebugTypeSignature(number)),
        NumberKind::StringRef => Value::StringRef(number),
        NumberKind::LineStringRef => Value::LineStringRef(number),
        NumberKind::RangeListRef => Value::RangeListRef(number),
        NumberKind::LocationListRef => Value::LocationListRef(number),
        NumberKind::AddressClass => Value::AddressClass(DwAddr(number)),
    }
}

// A place in another section, or in one of the supplementary file.
fn place_value<'a>(kind: PlaceKind, place: usize) -> Value<'a>
    ensures { result ≡ place_of_kind kind place }
{
    match kind {
        PlaceKind::DebugInfoRefSup => Value::DebugInfoRefSup(DebugInfoOffset(place)),
        PlaceKind::DebugMacinfoRef => Value::DebugMacinfoRef(DebugMacinfoOffset(place)),
        PlaceKind::DebugMacroRef => Value::DebugMacroRef(DebugMacroOffset(place)),
        PlaceKind::DebugStrRefSup => Value::DebugStrRefSup(DebugStrOffset(place)),
    }
}

// A number of one byte that the standard gives meanings.
fn constant_value<'a>(kind: ConstantKind, byte: u8) -> Value<'a>
    ensures { result ≡ constant_of_kind kind byte }
{
    match kind {
        ConstantKind::Encoding => Value::Encoding(DwAte(byte)),
        ConstantKind::DecimalSign => Value::DecimalSign(DwDs(byte)),
        ConstantKind::Endianity => Value::Endianity(DwEnd(byte)),
        ConstantKind::Accessibility => Value::Accessibility(DwAccess(byte)),
        ConstantKind::Visibility => Value::Visibility(DwVis(byte)),
        ConstantKind::Virtuality => Value::Virtuality(DwVirtuality(byte)),
        ConstantKind::IdentifierCase => Value::IdentifierCase(DwId(byte)),
        ConstantKind::CallingConvention => Value::CallingConvention(DwCc(byte)),
        ConstantKind::Inline => Value::Inline(DwInl(byte)),
        ConstantKind::Ordering => Value::Ordering(DwOrd(byte)),
    }
}
