//! The values of attributes, by their forms and names (DWARF 5, 7.5.4 and 7.5.5).

use crate::reader::Reader;
use dw_base::{
    DebugInfoOffset, DebugLineOffset, DebugLineStrOffset, DebugMacinfoOffset, DebugMacroOffset,
    DebugStrOffset, DebugTypeSignature, DwAccess, DwAddr, DwAte, DwCc, DwDs, DwEnd, DwId, DwInl,
    DwLang, DwOrd, DwVirtuality, DwVis, DwoId, LocationListsOffset, RangeListsOffset, UnitOffset,
};

/// The bytes of an expression, which are a part of the section.
///
/// ```
/// if let AttributeValue::Exprloc(expression) = attribute.value() {
///     let bytes = expression.0.to_slice();
/// }
/// ```
#[derive(Drop)]
pub struct Expression<R: Reader>(pub R);

/// The value of an attribute. Blocks, texts and expressions are parts of the section.
///
/// ```
/// match attribute.value() {
///     AttributeValue::String(text) => text.to_slice(),
///     AttributeValue::DebugStrRef(offset) => unit.string(offset)?.to_slice(),
///     _ => b"",
/// }
/// ```
#[derive(Drop)]
pub enum AttributeValue<R: Reader> {
    /// An address on the target.
    Addr(u64),
    /// The index of an address in the unit's part of `.debug_addr`.
    DebugAddrIndex(u64),
    /// Bytes.
    Block(R),
    /// A number of one byte.
    Data1(u8),
    /// A number of two bytes.
    Data2(u16),
    /// A number of four bytes.
    Data4(u32),
    /// A number of eight bytes.
    Data8(u64),
    /// A number of sixteen bytes.
    Data16(u128),
    /// A signed number, of an entry or of its declaration.
    Sdata(i64),
    /// An unsigned number.
    Udata(u64),
    /// An expression.
    Exprloc(Expression<R>),
    /// Whether something holds.
    Flag(bool),
    /// A place in a section that the attribute's name tells.
    SecOffset(usize),
    /// An entry of the same unit.
    UnitRef(UnitOffset),
    /// An entry of any unit.
    DebugInfoRef(DebugInfoOffset),
    /// An entry of the supplementary file.
    DebugInfoRefSup(DebugInfoOffset),
    /// A type of a type unit.
    DebugTypesRef(DebugTypeSignature),
    /// A string of `.debug_str`.
    DebugStrRef(DebugStrOffset),
    /// A string of the supplementary file.
    DebugStrRefSup(DebugStrOffset),
    /// A string of `.debug_line_str`.
    DebugLineStrRef(DebugLineStrOffset),
    /// A string, without the zero that closes it.
    String(R),
    /// The index of a string in the unit's part of `.debug_str_offsets`.
    DebugStrOffsetsIndex(u64),
    /// The index of a list in the unit's part of `.debug_loclists`.
    DebugLocListsIndex(u64),
    /// The index of a list in the unit's part of `.debug_rnglists`.
    DebugRngListsIndex(u64),
    /// How a base type is encoded (7.8).
    Encoding(DwAte),
    DecimalSign(DwDs),
    Endianity(DwEnd),
    Accessibility(DwAccess),
    Visibility(DwVis),
    Virtuality(DwVirtuality),
    Language(DwLang),
    AddressClass(DwAddr),
    IdentifierCase(DwId),
    CallingConvention(DwCc),
    Inline(DwInl),
    Ordering(DwOrd),
    /// The number of a file of the line program, as the program counts them.
    FileIndex(u64),
    /// The id that a skeleton unit and its split unit share.
    DwoId(DwoId),
    /// A line program.
    DebugLineRef(DebugLineOffset),
    DebugMacinfoRef(DebugMacinfoOffset),
    DebugMacroRef(DebugMacroOffset),
    RangeListsRef(RangeListsOffset),
    LocationListsRef(LocationListsOffset),
}
