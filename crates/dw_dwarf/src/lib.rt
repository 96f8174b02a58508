//! Whole DWARF: units, written into the sections of a file. The names that a first program needs
//! are all offered here, so that it names this crate alone.
#![tactic(auto)]

mod convert;
mod dwarf;
mod dwarf_unit;
mod line_string;
mod rest;

pub use convert::{
    ConvertSplitUnitSection, ConvertUnit, ConvertUnitEntry, ConvertUnitSection, convert_entries,
    convert_kept, convert_units,
};
pub use dw_base::{
    Address, BigEndian, DebugInfoRef, DirectoryId, DwAt, DwAte, DwForm, DwLang, DwTag, Encoding,
    Endianity, Error, FileId, Format, LineEncoding, LineStringId, LittleEndian, LocationListId,
    RangeListId, Result, RunTimeEndian, SectionId, StringId, UnitEntryId, UnitId, constants,
};
pub use dw_convert::{
    ConvertDebugInfoRef, NoConvertDebugInfoRef, expression, location_list, range_list,
};
pub use dw_convert_lines::ConvertLineProgram;
pub use dw_lists::{Location, LocationList, LocationListTable, Range, RangeList, RangeListTable};
pub use dw_sources::{ConvertError, ConvertResult};
pub use dw_strings::{LineStringTable, StringTable};
pub use dw_unit::{
    AttrMut, Attribute, AttributeValue, AttributeWalk, AttrsMut, DebuggingInformationEntry,
    EntryMut, Expression, FileInfo, LineProgram, LineRow, LineString, Operation, Unit, UnitIter,
    UnitOffsets, UnitTable,
};
pub use dw_writer::{Bytes, EndianVec, Section, Sections, Writer};
pub use dwarf::Dwarf;
pub use dwarf_unit::DwarfUnit;
