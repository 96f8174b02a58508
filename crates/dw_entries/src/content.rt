//! What is written for values.

ghost use Rattle.std.specs.Prelude.{◌≡◌};
ghost use Rattle.dw_base.specs.Numbers.{word_of};
ghost use Rattle.dw_entries.specs.Content.{Plain, Offset, InTable};
ghost use Rattle.dw_entries.specs.ContentView.{content_in, number_or_past};
ghost use Rattle.dw_entries.specs.Values.{content_of, file_number as number_of_file, constant_content as content_of_constant, present_content as content_of_flag, list_content as content_of_list, range_list_content as content_of_range_list, location_list_content as content_of_location_list};

use crate::value::AttributeValue;
use dw_base::{
    Address, DebugInfoRef, Encoding, FileId, LocationListId, RangeListId, SectionId, UnitEntryId,
};
use dw_expr::Expression;

/// What stands for a value in an entry, by how it is laid out (DWARF 5, 7.5.5).
#[derive(Clone, Copy)]
pub enum Content<'a> {
    /// No bytes at all.
    Nothing,
    /// A number of so many bytes, in the section's byte order.
    Plain { value: u64, size: u8 },
    /// A number of sixteen bytes, in the section's byte order.
    Wide(u128),
    /// A number in unsigned LEB128.
    Leb(u64),
    /// A number in signed LEB128.
    SignedLeb(i64),
    /// Bytes after their length in unsigned LEB128.
    Block(&'a [u8]),
    /// An expression after its length in unsigned LEB128.
    Expression(&'a Expression),
    /// Bytes closed by a zero.
    Closed(&'a [u8]),
    /// An address of the target.
    Target(Address),
    /// An offset into a section, in a word of the unit's format.
    Offset { value: usize, section: SectionId },
    /// The place in a section of what a table has there under an index, in a word of the unit's
    /// format.
    InTable { section: SectionId, index: usize },
    /// The index under which a table has something in a section, in unsigned LEB128.
    TableIndex { section: SectionId, index: usize },
    /// The place in a section where the unit's own part of it begins, in a word of the unit's
    /// format.
    OwnPart(SectionId),
    /// The number of a file, in unsigned LEB128; none where 64 bits have no room for it.
    File(Option<u64>),
    /// The place in the unit of an entry, in a word of the unit's format.
    EntryPlace(UnitEntryId),
    /// The place in `.debug_info` of an entry of any unit, in a word of the unit's format, or in
    /// version 2 in as many bytes as an address has.
    InfoPlace(DebugInfoRef),
}

impl AttributeValue {
    /// What is written for the value in a unit of this encoding.
    pub fn content(&self, encoding: Encoding) -> Content<'_>
        ensures { content_in result ≡ content_of encoding self.now }
    {
        match self {
            AttributeValue::Address(address) => Content::Target(*address),
            AttributeValue::Block(bytes) => Content::Block(bytes.slice()),
            AttributeValue::Data1(number) => plain(*number as u64, 1),
            AttributeValue::Data2(number) => plain(*number as u64, 2),
            AttributeValue::Data4(number) => plain(*number as u64, 4),
            AttributeValue::Data8(number) => plain(*number, 8),
            AttributeValue::Data16(number) => Content::Wide(*number),
            AttributeValue::Sdata(number) => Content::SignedLeb(*number),
            AttributeValue::Udata(number) => Content::Leb(*number),
            AttributeValue::ImplicitConst(number) => constant_content(encoding, *number),
            AttributeValue::Exprloc(expression) => Content::Expression(expression),
            AttributeValue::Flag(is_set) => plain(*is_set as u64, 1),
            AttributeValue::FlagPresent => present_content(encoding),
            AttributeValue::UnitRef(entry) => Content::EntryPlace(*entry),
            AttributeValue::DebugInfoRef(entry) => Content::InfoPlace(*entry),
            AttributeValue::DebugInfoRefSup(offset) => word(encoding, offset.0),
            AttributeValue::DebugMacinfoRef(offset) => {
                offset_into(SectionId::DebugMacinfo, offset.0)
            }
            AttributeValue::DebugMacroRef(offset) => offset_into(SectionId::DebugMacro, offset.0),
            AttributeValue::DebugTypesRef(signature) => plain(signature.0, 8),
            AttributeValue::DebugStrRefSup(offset) => word(encoding, offset.0),
            AttributeValue::String(text) => Content::Closed(text.slice()),
            AttributeValue::StringRef(string) => in_table(SectionId::DebugStr, string.index()),
            AttributeValue::LineStringRef(string) => {
                in_table(SectionId::DebugLineStr, string.index())
            }
            AttributeValue::LineProgramRef => Content::OwnPart(SectionId::DebugLine),
            AttributeValue::FileIndex(file) => Content::File(file_number(encoding, *file)),
            AttributeValue::RangeListRef(list) => range_list_content(encoding, *list),
            AttributeValue::RangeListsBase => Content::OwnPart(SectionId::DebugRngLists),
            AttributeValue::LocationListsBase => Content::OwnPart(SectionId::DebugLocLists),
            AttributeValue::LocationListRef(list) => location_list_content(encoding, *list),
            AttributeValue::Encoding(code) => Content::Leb(code.0 as u64),
            AttributeValue::DecimalSign(code) => Content::Leb(code.0 as u64),
            AttributeValue::Endianity(code) => Content::Leb(code.0 as u64),
            AttributeValue::Accessibility(code) => Content::Leb(code.0 as u64),
            AttributeValue::Visibility(code) => Content::Leb(code.0 as u64),
            AttributeValue::Virtuality(code) => Content::Leb(code.0 as u64),
            AttributeValue::Language(code) => Content::Leb(code.0 as u64),
            AttributeValue::AddressClass(code) => Content::Leb(code.0),
            AttributeValue::IdentifierCase(code) => Content::Leb(code.0 as u64),
            AttributeValue::CallingConvention(code) => Content::Leb(code.0 as u64),
            AttributeValue::Inline(code) => Content::Leb(code.0 as u64),
            AttributeValue::Ordering(code) => Content::Leb(code.0 as u64),
        }
    }
}

/// A number of so many bytes.
fn plain(value: u64, size: u8) -> Content<'static>
    ensures { content_in result ≡ Plain size value }
{
    Content::Plain { value, size }
}

/// A number in a word of the unit's format.
fn word(encoding: Encoding, value: usize) -> Content<'static>
    ensures { content_in result ≡ Plain (word_of encoding.format) value }
{
    plain(value as u64, encoding.format.word_size())
}

/// An offset into a section.
fn offset_into(section: SectionId, value: usize) -> Content<'static>
    ensures { content_in result ≡ Offset section value }
{
    Content::Offset { value, section }
}

/// What a table has under an index.
fn in_table(section: SectionId, index: usize) -> Content<'static>
    ensures { content_in result ≡ InTable section index }
{
    Content::InTable { section, index }
}

/// A list, by its index in a table of a section of version 5, and by its place in one below.
fn list_content(
    encoding: Encoding,
    section: SectionId,
    old_section: SectionId,
    index: usize,
) -> Content<'static>
    ensures { content_in result ≡ content_of_list encoding section old_section index }
{
    if encoding.version == 5 {
        Content::TableIndex { section, index }
    } else {
        in_table(old_section, index)
    }
}

/// A range list.
fn range_list_content(encoding: Encoding, list: RangeListId) -> Content<'static>
    ensures { content_in result ≡ content_of_range_list encoding list.0 }
{
    list_content(
        encoding,
        SectionId::DebugRngLists,
        SectionId::DebugRanges,
        list.index(),
    )
}

/// A location list.
fn location_list_content(encoding: Encoding, list: LocationListId) -> Content<'static>
    ensures { content_in result ≡ content_of_location_list encoding list.0 }
{
    list_content(
        encoding,
        SectionId::DebugLocLists,
        SectionId::DebugLoc,
        list.index(),
    )
}

/// The number of a file, where 64 bits have room for it: up to version 4 the last index has none.
fn file_number(encoding: Encoding, file: Option<FileId>) -> Option<u64>
    ensures { number_or_past result ≡ number_of_file encoding file }
{
    match file {
        None => Some(0),
        Some(file) if encoding.version <= 4 && file.index() == usize::MAX => None,
        Some(file) => Some(file.raw(encoding.version)),
    }
}

/// A constant that the declaration holds from version 5 on.
fn constant_content(encoding: Encoding, number: i64) -> Content<'static>
    ensures { content_in result ≡ content_of_constant encoding number }
{
    if encoding.version == 5 {
        Content::Nothing
    } else {
        Content::SignedLeb(number)
    }
}

/// A flag that is set, which needs no byte from version 4 on.
fn present_content(encoding: Encoding) -> Content<'static>
    ensures { content_in result ≡ content_of_flag encoding }
{
    if encoding.version >= 4 {
        Content::Nothing
    } else {
        plain(1, 1)
    }
}
